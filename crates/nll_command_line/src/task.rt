//! What a command line asks for.
ghost use Rattle.std.specs.Prelude.{◌≡◌};
ghost use Rattle.nll_command_line.specs.CommandLine.{task_named};

use crate::options::{Deal, MailKind};

pub(crate) const VALUES: &str = "values";

pub(crate) const CHECK: &str = "check";

pub(crate) const REPLAY: &str = "replay";

/// What is asked of the file.
#[derive(Clone, Copy, Debug, PartialEq, Eq)]
pub enum Task {
    /// The least values of the regions.
    Values,
    /// The faults of the universal regions.
    Check,
    /// The outcome of a schedule of messages between owners.
    Replay,
}

/// A command line that is taken.
#[derive(Debug, PartialEq, Eq, Drop)]
pub struct Line {
    pub task: Task,
    pub file: String,
    /// How many owners there are, where that is said: 1 to 64.
    pub owners: Option<u16>,
    /// How regions are assigned to them, where that is said.
    pub deal: Option<Deal>,
    /// The file that says who owns which region; then `deal` says nothing.
    pub cut: Option<String>,
    /// What carries messages between owners, where that is given.
    pub mail: Option<MailKind>,
    /// The file of the schedule, of a replay alone.
    pub schedule: Option<String>,
}

/// What the arguments ask for that are no options.
#[derive(Drop)]
pub(crate) struct Asked {
    pub(crate) task: Task,
    pub(crate) file: String,
}

/// The task with this name.
pub(crate) fn task_of(name: &str) -> Option<Task>
    ensures { result ≡ task_named name.now }
{
    match name {
        VALUES => Some(Task::Values),
        CHECK => Some(Task::Check),
        REPLAY => Some(Task::Replay),
        _ => None,
    }
}
