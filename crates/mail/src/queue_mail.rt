//! Mailboxes on queues that grow.
//!
//! A queue under a rule: what was sent is what was received and, behind it, what the queue holds.
//! A push is the one step of a post, a pop the one step of a take. The sender's pass of the queue
//! knows what was sent, the receiver's what was received; `settle` puts the two passes together.

ghost use Rattle.std.specs.Prelude.{◌≡◌, ◌<◌, ◌++◌, [], ◌∷◌, length, true, false};
ghost use Rattle.std.specs.Prelude.{IfSome, IfNone};
ghost use Rattle.std.specs.Arc.{arc_value};
ghost use Rattle.crossbeam_queue.specs.SegTies.{IsSegPassOf};
ghost use Rattle.mail.specs.Order.{known};
ghost use Rattle.mail.specs.Limits.{most_posts};

use crate::mail::{Mail, PostError};
use crossbeam_queue::protocol::{Join, Lesson, Outcome, Protocol, Split};
use crossbeam_queue::{RuledSegQueue, SegPass};
use nll_sets::Memory;
use std::alloc::Global;
use std::collections::LinkedList;
use std::sync::{Arc, Wait};

/// What an end knows: whether it may post and take, what was sent, and what was received. No value
/// of it is made.
pub struct Known<T> {
    pub posts: bool,
    pub takes: bool,
    pub sent: LinkedList<T>,
    pub received: LinkedList<T>,
}

/// The rule of a mailbox's queue.
pub struct InOrder;

impl<T> Protocol<T, Known<T>> for InOrder {
    ghost use Rattle.std.specs.Prelude.{true, []};
    ghost use Rattle.mail.specs.Order.{known, IsInOrder};

    ghost holds = { IsInOrder };

    ghost first = { known true true [] [] };
}

// The one who posts and the one who takes, apart and together.
struct Roles;

impl<T> Split<Known<T>> for Roles {
    ghost use Rattle.std.specs.Prelude.{true, false, []};
    ghost use Rattle.mail.specs.Order.{known};

    ghost left = { λ both. known true false both.sent [] };

    ghost right = { λ both. known false true [] both.received };
}

impl<T> Join<Known<T>> for Roles {
    ghost use Rattle.std.specs.Prelude.{true, false, []};
    ghost use Rattle.mail.specs.Order.{known};

    ghost both = { λ poster taker. known true true poster.sent taker.received };

    ghost spent = { known false false [] [] };
}

// A push: one message more was sent.
struct Sent;

impl<T> Outcome<T, Known<T>> for Sent {
    ghost use Rattle.std.specs.Prelude.{◌≡◌, [], ◌∷◌, ◌++◌};
    ghost use Rattle.mail.specs.Order.{known};

    ghost then = { λ old message new.
        new ≡ known old.posts old.takes (old.sent ++ message ∷ []) old.received };
}

// A pop: one message more was received, and it wasn't the last that may be sent.
struct Received;

impl<T> Outcome<T, Known<T>> for Received {
    ghost use Rattle.std.specs.Prelude.{◌≡◌, ◌<◌, [], ◌∷◌, ◌++◌, length};
    ghost use Rattle.mail.specs.Order.{known};
    ghost use Rattle.mail.specs.Limits.{most_posts};

    ghost then = { λ old message new.
        (new ≡ known old.posts old.takes old.sent (old.received ++ message ∷ []))
        × (length old.received < most_posts) };
}

impl<T> Lesson<T, Known<T>> for Received {
    ghost use Rattle.std.specs.Prelude.{⊤};

    ghost fact = { λ end items. ⊤ };
}

// A look at the queue by both ends together: what was sent is what was received and what it holds.
struct Total;

impl<T> Lesson<T, Known<T>> for Total {
    ghost use Rattle.std.specs.Prelude.{◌≡◌, ◌++◌};

    ghost fact = { λ both items. both.sent ≡ both.received ++ items };
}

type Queue<T> = RuledSegQueue<T, Known<T>, InOrder>;

type Pass<T> = SegPass<T, Known<T>>;

/// A queue that is freed when it is let go.
pub struct Kept<T: Drop> {
    queue: Queue<T>,
}

impl<T: Drop> Drop for Kept<T> {
    fn drop(self) {
        let Kept { queue } = self;
        queue.destroy();
    }
}

/// Mailboxes on queues that grow. Their ends may wait: for an instant, while another thread is in
/// the middle of its step.
#[derive(Clone, Copy)]
pub struct QueueMail<R> {
    /// By which the ends wait.
    pub rt: R,
}

impl<R> QueueMail<R> {
    /// Mailboxes whose ends wait by this runtime. Each of them is made by `pair`, and nothing was
    /// sent through it.
    pub fn new(rt: R) -> QueueMail<R>
        ensures { result.rt ≡ rt }
    {
        QueueMail { rt }
    }
}

/// The end that posts.
pub struct QueueSender<T: Drop, R> {
    rt: R,
    kept: Arc<Kept<T>, Global>,
    pass: Pass<T>,
    ghost fits: { IsSegPassOf (arc_value kept).queue pass },
    ghost knows: { pass.me.view.client ≡ known true false pass.me.view.client.sent [] },
}

/// The end that takes.
#[derive(Drop)]
pub struct QueueReceiver<T: Drop, R> {
    rt: R,
    from: u16,
    to: u16,
    count: u64,
    kept: Arc<Kept<T>, Global>,
    pass: Pass<T>,
    ghost fits: { IsSegPassOf (arc_value kept).queue pass },
    ghost knows: { pass.me.view.client ≡ known false true [] pass.me.view.client.received },
    ghost counted: { count ≡ length pass.me.view.client.received },
}

/// A sender that posts no more.
#[derive(Drop)]
pub struct QueueClosed<T: Drop> {
    kept: Arc<Kept<T>, Global>,
    pass: Pass<T>,
    ghost fits: { IsSegPassOf (arc_value kept).queue pass },
    ghost knows: { pass.me.view.client ≡ known true false pass.me.view.client.sent [] },
}

/// A settled mailbox.
#[derive(Drop)]
pub struct QueuePost<T: Drop> {
    from: u16,
    to: u16,
    count: u64,
    pass: Pass<T>,
    ghost counted: { count ≡ length pass.me.view.client.received },
}

// The one step of a take: takes the message at the front of the queue, and counts it.
fn pop<T: Drop, R: Wait>(receiver: &mut QueueReceiver<T, R>) -> Option<T>
    ensures some { IfSome result (λ message. receiver.new.pass.me.view.client.received
        ≡ receiver.old.pass.me.view.client.received ++ message ∷ []) }
    ensures none { IfNone result (receiver.new.pass.me.view.client.received
        ≡ receiver.old.pass.me.view.client.received) }
    ensures few { IfSome result
        (λ _. length receiver.old.pass.me.view.client.received < most_posts) }
    ensures ends { (receiver.new.from ≡ receiver.old.from) × (receiver.new.to ≡ receiver.old.to) }
    ensures queue { (arc_value receiver.new.kept).queue ≡ (arc_value receiver.old.kept).queue }
{
    let queue = &receiver.kept.queue;
    let message = queue.pop_as::<Received, R>(&receiver.rt, &mut receiver.pass)?;
    receiver.count += 1;
    Some(message)
}

#[tactic(auto, using(crate::proofs::OrderLemmas::steps))]
impl<T: Send + Drop, R: Wait + Copy + Send + Sync> Mail<T> for QueueMail<R> {
    ghost use Rattle.std.specs.Prelude.{◌≡◌, false, length, drop};
    ghost use Rattle.std.specs.Arc.{arc_value};

    type S = QueueSender<T, R>;

    type R = QueueReceiver<T, R>;

    type Closed = QueueClosed<T>;

    type Post = QueuePost<T>;

    ghost is_bounded = { false };

    ghost sent = { λ sender. sender.pass.me.view.client.sent };

    ghost received = { λ receiver. receiver.pass.me.view.client.received };

    ghost ends = { λ receiver. (receiver.from, receiver.to) };

    ghost pairs = { λ sender receiver.
        (arc_value receiver.kept).queue ≡ (arc_value sender.kept).queue };

    ghost all_sent = { λ closed. closed.pass.me.view.client.sent };

    ghost closes = { λ closed receiver.
        (arc_value receiver.kept).queue ≡ (arc_value closed.kept).queue };

    ghost post_ends = { λ post. (post.from, post.to) };

    ghost post_sent = { λ post. post.pass.me.view.client.sent };

    ghost post_received = { λ post. post.pass.me.view.client.received };

    ghost post_rest = { λ post.
        drop (length post.pass.me.view.client.received) post.pass.me.view.client.sent };

    fn pair(
        &self,
        alloc: Global,
        from: u16,
        to: u16,
    ) -> Result<(QueueSender<T, R>, QueueReceiver<T, R>), Memory> {
        let (queue, mut poster) = Queue::<T>::with_rule(alloc)?;
        let taker = queue.another::<Roles>(&mut poster);
        let kept = Arc::new(alloc, Kept { queue })?;
        let other = Arc::try_clone(&kept)?;
        let sender = QueueSender {
            rt: self.rt,
            kept,
            pass: poster,
        };
        let receiver = QueueReceiver {
            rt: self.rt,
            from,
            to,
            count: 0,
            kept: other,
            pass: taker,
        };
        Ok((sender, receiver))
    }

    fn post(sender: &mut QueueSender<T, R>, message: T) -> Result<(), PostError<T>> {
        let queue = &sender.kept.queue;
        match queue.push_as::<Sent, R>(&sender.rt, &mut sender.pass, message) {
            Ok(()) => Ok(()),
            Err(back) => Err(PostError::Memory(back)),
        }
    }

    fn take(receiver: &mut QueueReceiver<T, R>) -> Option<T> {
        pop(receiver)
    }

    fn close(sender: QueueSender<T, R>) -> QueueClosed<T> {
        let QueueSender { rt: _, kept, pass } = sender;
        QueueClosed { kept, pass }
    }

    fn settle(closed: QueueClosed<T>, receiver: QueueReceiver<T, R>) -> QueuePost<T> {
        let QueueClosed { kept, mut pass } = closed;
        let QueueReceiver {
            rt,
            from,
            to,
            count,
            kept: _,
            pass: other,
        } = receiver;
        kept.queue.absorb::<Roles>(&mut pass, other);
        kept.queue.len_as::<Total, R>(&rt, &mut pass);
        QueuePost {
            from,
            to,
            count,
            pass,
        }
    }

    fn count(post: &QueuePost<T>) -> u64 {
        post.count
    }
}
