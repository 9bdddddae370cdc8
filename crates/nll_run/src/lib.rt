//! Runs of regions: the owners of a cut, each in a thread of its own, until nothing is left to do
//! anywhere.
//!
//! Read `coordinator`, then `values`. A run of any analysis is in `run`. The definitions are in
//! specs/: `Outcome` has the outcome of a run.
#![tactic(auto)]

mod coordinator;
mod outcome;
mod values;

pub use coordinator::{run, run_with};
pub use outcome::Outcome;
pub use run::{AlwaysStart, Gate, NoGate, Permit, RunError};
