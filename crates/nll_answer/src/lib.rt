//! The answer to a facts text or a MIR text: its problem's least values or their faults, as the
//! bytes of a report; and the report of a replay.
//!
//! Read `answers` first, then `meant_problem`, `values_report`, `faults_report` and
//! `replay_report`. The definitions are in specs/.
#![tactic(auto)]

mod answers;
mod error;
mod faults_report;
mod laws;
mod meant_problem;
mod replay_laws;
mod replay_report;
mod run_answers;
mod values_report;

pub use answers::{Command, answer, answer_of, answer_text};
pub use error::AnswerError;
pub use faults_report::faults_text;
pub use laws::{no_text_has_both, one_text_fault, one_text_meaning};
pub use meant_problem::{meaning, read_meaning};
pub use replay_laws::{replay_at_0_is_least, replay_says_only_least};
pub use replay_report::replay_text;
pub use run_answers::answer_run;
pub use values_report::values_text;
