//! Workers: the part of one owner at work, from its start to its end.
//!
//! Read `gate`, `pace`, `inbox` and `posts` (what a worker does at its mailboxes), `tally`,
//! `account`, `turn`, `work_loop`, `outbox`, `site` and `worker`; then `job`, `permit` and
//! `threads` (jobs of any kind, each in a thread), and `starts` (the workers of a run).
//! The definitions are in specs/: `Finishing` first, which has what a worker promises.
#![tactic(auto)]

mod account;
mod gate;
mod inbox;
mod job;
mod outbox;
mod pace;
mod permit;
mod posts;
mod site;
mod starts;
mod tally;
mod threads;
mod turn;
mod work_loop;
mod worker;

pub use gate::{Gate, NoGate};
pub use inbox::Heard;
pub use job::{Back, Given, Job, Start};
pub use outbox::Outbox;
pub use permit::{AlwaysStart, Permit};
pub use site::Site;
pub use starts::run_all;
pub use threads::run_jobs;
pub use worker::{Finished, Worker, call_off, work};
