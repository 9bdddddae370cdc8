//! Tests of mailboxes and of ledgers, which the threads of owners share, in one thread and in two,
//! and of runs in threads, by their public calls alone. Expected values are found by hand from the
//! definitions. `check/refuse/refused_tests.py` refuses each allocation of a test in turn, where it
//! starts no threads; then a test answers that it is out of memory, or passes.
//!
//! Reading order: `exchange`, `settlement`, `mail_one_thread`, `messages`, `rings`, `mail_rounds`;
//! `two_owners`, `many_owners`, `two_threads`, `ledger_rows`, `ledger_rounds`; `deals`, `failure`,
//! `run_text`, `watches`, then each module of tests of runs with what it watches by.
#![tactic(auto)]

mod settlement;

pub use settlement::settle_both;

#[cfg(test)]
mod answers;
#[cfg(test)]
mod deals;
#[cfg(test)]
mod exchange;
#[cfg(test)]
mod failure;
#[cfg(test)]
mod joint_answer;
#[cfg(test)]
mod ledger_rounds;
#[cfg(test)]
mod ledger_rows;
#[cfg(test)]
mod looks;
#[cfg(test)]
mod mail_one_thread;
#[cfg(test)]
mod mail_rounds;
#[cfg(test)]
mod many_owners;
#[cfg(test)]
mod meeting;
#[cfg(test)]
mod messages;
#[cfg(test)]
mod notes;
#[cfg(test)]
mod reached;
#[cfg(test)]
mod refusals;
#[cfg(test)]
mod repeated_runs;
#[cfg(test)]
mod rings;
#[cfg(test)]
mod rows;
#[cfg(test)]
mod run_text;
#[cfg(test)]
mod threads;
#[cfg(test)]
mod two_owners;
#[cfg(test)]
mod two_threads;
#[cfg(test)]
mod unstarted_workers;
#[cfg(test)]
mod watches;
