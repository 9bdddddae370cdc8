//! Mailboxes: how one owner tells another by messages of any type. A mailbox goes one way, from one
//! owner to another, and its two ends may live in two threads.
//!
//! Reading order: `mail`; `queue_mail`, a mailbox that grows; `ring_mail`, one of
//! bounded room, of which no call waits.
#![tactic(auto)]

mod mail;
mod queue_mail;
mod ring_mail;

pub use mail::{Mail, PostError, ThreadMail};
pub use queue_mail::{QueueClosed, QueueMail, QueuePost, QueueReceiver, QueueSender};
pub use ring_mail::{RingClosed, RingMail, RingPost, RingReceiver, RingSender};
