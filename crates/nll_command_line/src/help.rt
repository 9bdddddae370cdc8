//! The text of help.
ghost use Rattle.std.specs.Prelude.{◌≡◌, map};
ghost use Rattle.nll_command_line.specs.Help.{help_for, help_of, task_help};

use crate::task::{Task, task_of};

const PROGRAM: &str = "\
Solves the region constraints of location-aware non-lexical lifetimes

Usage: nllc <COMMAND>

Commands:
  values  Prints the values of the regions of FILE
  check   Checks the universal regions of FILE
  replay  Replays a schedule of messages between owners of the regions of FILE

Options:
  -h, --help  Print help

Statuses:
  0  the values are printed, or check found no fault, or the schedule is replayed, or this help
  1  check found a fault
  2  the words, a file or its text are refused, and standard error says why
  3  memory or a thread was refused, or standard output did not take the whole report

docs/FORMATS.md says how facts texts, MIR texts and schedules are written, and how the reports are.
With /dev/stdin for FILE the text is read from standard input.
";

const VALUES: &str = "\
Prints the values of the regions of FILE

Usage: nllc values [OPTIONS] <FILE>

Arguments:
  <FILE>  The facts text or MIR text, or /dev/stdin for standard input

Options:
      --owners <N>           Has 1 to 64 owners of regions find the answer, \
      each in a thread of its own
      --deal <round|blocks>  Deals the regions to the owners in turns, or in blocks of neighbours
      --cut <CUT>            Deals the regions to the owners as the cut file CUT lists
      --mail <queue|ring>    Has the owners tell each other through queues or through rings
  -h, --help                 Print help
";

const CHECK: &str = "\
Checks the universal regions of FILE

Usage: nllc check [OPTIONS] <FILE>

Arguments:
  <FILE>  The facts text or MIR text, or /dev/stdin for standard input

Options:
      --owners <N>           Has 1 to 64 owners of regions find the answer, \
      each in a thread of its own
      --deal <round|blocks>  Deals the regions to the owners in turns, or in blocks of neighbours
      --cut <CUT>            Deals the regions to the owners as the cut file CUT lists
      --mail <queue|ring>    Has the owners tell each other through queues or through rings
  -h, --help                 Print help
";

const REPLAY: &str = "\
Replays a schedule of messages between owners of the regions of FILE

Usage: nllc replay [OPTIONS] --schedule <SCHEDULE> <FILE>

Arguments:
  <FILE>  The facts text or MIR text, or /dev/stdin for standard input

Options:
      --schedule <SCHEDULE>  Takes the events from the schedule SCHEDULE
      --owners <N>           Has 1 to 64 owners of regions, and not one
      --deal <round|blocks>  Deals the regions to the owners in turns, or in blocks of neighbours
      --cut <CUT>            Deals the regions to the owners as the cut file CUT lists
  -h, --help                 Print help
";

/// The help that arguments ask for: of the command that the first one names, else of the program.
pub(crate) fn help_for(words: &[&str]) -> &'static str
    ensures { result.now ≡ help_for (map (λ word. word.now) words.now) }
{
    match words {
        [] => PROGRAM,
        [word, ..] => help_of(task_of(word)),
    }
}

fn help_of(task: Option<Task>) -> &'static str
    ensures { result.now ≡ help_of task }
{
    match task {
        None => PROGRAM,
        Some(task) => task_help(task),
    }
}

// The help of a task.
fn task_help(task: Task) -> &'static str
    ensures { result.now ≡ task_help task }
{
    match task {
        Task::Values => VALUES,
        Task::Check => CHECK,
        Task::Replay => REPLAY,
    }
}
