//! The command line of `nllc`: which arguments are valid, and what they ask for.
//!
//! Read `task` first (what a command line asks for), then `options`, `command_line` (how arguments
//! become one), `help` and `laws`.
#![tactic(auto)]

mod command_line;
mod error;
mod help;
mod laws;
mod options;
mod task;

pub use command_line::line;
pub use error::LineError;
pub use laws::{help_is_read, one_reading, plain_line_is_read};
pub use options::{Deal, MailKind};
pub use task::{Line, Task};
