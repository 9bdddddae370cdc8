//! Runs: the parts of an analysis, each in a thread of its own, until nothing is left to do
//! anywhere.
//!
//! Read `coordinator` first, then `mailboxes`, `settlement` and `parts`. What a worker does, and
//! how workers are started and joined, is in `worker`. The definitions are in specs/: `Outcome` has
//! the outcome of a run.
#![tactic(auto)]

mod coordinator;
mod error;
mod mailboxes;
mod outcome;
mod parts;
mod settlement;

pub use coordinator::{run, run_with};
pub use error::RunError;
pub use outcome::Outcome;
pub use worker::{AlwaysStart, Gate, NoGate, Permit};
