//! The program over a text's answer: its files, its streams, its refusals and its status.
//!
//! Read `program` first (what is done with the words), then `owners`, `schedule_replay`,
//! `file_text`, `sink`, `report_output`, `messages`, `disk` and `words`. The words are read in
//! `nll_command_line`; a text is answered, and a schedule replayed, in `nll_answer`.
#![tactic(auto)]

mod disk;
mod error;
mod file_text;
mod messages;
mod owners;
mod program;
mod report_output;
mod schedule_replay;
mod sink;
mod words;

pub use disk::Disk;
pub use error::{Unread, Unwritten};
pub use messages::{Refusal, USAGE};
pub use nll_answer::{
    AnswerError, Command, answer, answer_of, answer_run, answer_text, faults_text, meaning,
    no_text_has_both, one_text_fault, one_text_meaning, read_meaning, values_text,
};
pub use nll_command_line::{Deal, Line, LineError, MailKind, Task, line};
pub use nll_lists::{read_cut, read_schedule};
pub use nll_rules::RuleError;
pub use nll_run::RunError;
pub use program::{Texts, drive, run_in_process};
pub use report_output::put;
pub use sink::Sink;
