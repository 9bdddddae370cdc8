//! Which words are a line, which ask for help, and which are refused.
use super::comparison::compare;
use super::fakes::words_of;
use super::notes::{count, say, show};
use super::rows::{ALONE, Asked, compare_rows, compare_same};
use clap::{Arg, ArgAction, Command};
use nll_report::{Line, LineError, line};
use std::alloc::Global;
use std::process::Abort;
use std::sync::Wait;
use std::thread::Threads;

// Writes a task and its file.
fn write_line(out: &mut String, line: &Line) {
    show(out, &line.task);
    say(out, " ");
    say(out, line.file.as_str());
    if let Some(owners) = line.owners {
        say(out, ", ");
        count(out, u64::from(owners));
        say(out, " owners");
    }
    if let Some(deal) = &line.deal {
        say(out, ", ");
        show(out, deal);
    }
    if let Some(cut) = &line.cut {
        say(out, ", cut ");
        say(out, cut.as_str());
    }
    if let Some(mail) = &line.mail {
        say(out, ", ");
        show(out, mail);
    }
    if let Some(schedule) = &line.schedule {
        say(out, ", schedule ");
        say(out, schedule.as_str());
    }
}

/// The task and the file that words between bars ask for, the help, or why they are refused.
pub fn line_told(rt: &impl Abort, alloc: Global, words: &str) -> String {
    let words = words_of(rt, alloc, words);
    let asked = line(alloc, words.as_slice());
    drop(words);
    let mut out = String::new(alloc);
    match asked {
        Ok(line) => write_line(&mut out, &line),
        Err(LineError::Help(text)) => say(&mut out, text.as_str()),
        Err(LineError::Usage) => say(&mut out, "usage"),
        Err(LineError::Memory) => say(&mut out, "memory"),
    }
    out
}

// A command and one file, with `--` before the file or after it.
const TAKEN: &str = "
values|a.facts ~ Values a.facts
check|a.facts ~ Check a.facts
check|values ~ Check values
values|values ~ Values values
values|help ~ Values help
values|--|a.facts ~ Values a.facts
values|a.facts|-- ~ Values a.facts
check|--|--help ~ Check --help
check|--|-h ~ Check -h
check|--|-- ~ Check --
values|- ~ Values -
values| ~ Values\x20
values|a=b c ~ Values a=b c
values|ä.facts ~ Values ä.facts
";

// Options before the file and after it, in two words or one.
const OPTIONS: &str = "
values|a|--owners|2 ~ Values a, 2 owners
values|--owners=2|a ~ Values a, 2 owners
check|--owners|64|a ~ Check a, 64 owners
values|a|--owners|1|-- ~ Values a, 1 owners
values|a|--deal|round ~ Values a, Round
values|--deal=blocks|a|--owners=3 ~ Values a, 3 owners, Blocks
values|a|--cut|c ~ Values a, cut c
values|--cut=-c|a|--owners|2 ~ Values a, 2 owners, cut -c
values|--cut=|a ~ Values a, cut\x20
values|a|--mail|queue ~ Values a, Queue
values|--mail|ring|a ~ Values a, Ring
values|--owners|2|--|--owners ~ Values --owners, 2 owners
values|--cut|values|values ~ Values values, cut values
values|a|--mail=queue|--deal|blocks|--owners=7 ~ Values a, 7 owners, Blocks, Queue
check|a|--owners|2|--mail=ring ~ Check a, 2 owners, Ring
replay|a|--schedule|s ~ Replay a, schedule s
replay|--schedule=s|a|--owners|3 ~ Replay a, 3 owners, schedule s
replay|--schedule|replay|replay|-- ~ Replay replay, schedule replay
replay|a|--deal|blocks|--schedule=-s ~ Replay a, Blocks, schedule -s
replay|a|--cut|c|--schedule= ~ Replay a, cut c, schedule\x20
";

// Words of other forms, options that don't exist, and help after a word that is refused.
const REFUSED: &str = "
 ~ usage
values
check
values|--
check|--|--|--
values|a|b
values|--|a|b
values|a|--|b
help
help|values
val|a
Values|a
values |a
replay
replay|a
replay|a|--owners|2
replay|a|--schedule
replay|a|--schedule|-s
replay|--schedule|a
replay|a|--schedule|s|--schedule|s
replay|a|--schedule|s|--mail|queue
replay|a|--mail=ring|--schedule|s
replay|a|--schedule|s|--deal|round|--cut|c
replay|a|--|--schedule|s
replay|a|b|--schedule|s
replay|a|--schedule|s|--owners|0
values|a|--schedule|s
check|a|--schedule|s
check|--schedule=s|a|--owners|2
a
|a
-
--
--|values|a
--version
-V
values|a|--version
values|a|-V
values|--versio|a
--owners|2|values|a
-x|values|a
values|a|--owners|0
values|a|--owners|65
values|a|--owners|01
values|a|--owners|+2
values|a|--owners|1000000000
values|a|--owners=
values|a|--owners
values|--owners|a
values|a|--owners|2|--owners|2
values|a|--deal|row
values|a|--deal
values|a|--deal|round|--cut|c
values|a|--cut|c|--cut|c
values|a|--cut|-c
values|a|--cut
values|a|--mail|rings
values|a|--mail|Ring
values|a|--mail|
values|a|--mail
values|a|--mail|queue|--mail|ring
values|a|--own|2
values|a|--owner|2
values|a|-owners|2
values|--owners|--help
values|a|--|--owners|2
--owners=2|values|a
--schedule=s|replay|a
values|a|--schedul|s
values|-a
values|-1
values|---
values|a|--hel
values|a|--help=1
values|a|--x
values|a|b|--help
";

const HELP: &str = "Solves the region constraints of location-aware non-lexical lifetimes

Usage: nllc <COMMAND>

Commands:
  values  Prints the values of the regions of FILE
  check   Checks the universal regions of FILE
  replay  Replays a schedule of messages between owners of the regions of FILE

Options:
  -h, --help  Print help

Statuses:
  0  the values are printed, or check found no fault, or the schedule is replayed, or this help
  1  check found a fault
  2  the words, a file or its text are refused, and standard error says why
  3  memory or a thread was refused, or standard output did not take the whole report

docs/FORMATS.md says how facts texts, MIR texts and schedules are written, and how the reports are.
With /dev/stdin for FILE the text is read from standard input.
";

const VALUES_HELP: &str = "Prints the values of the regions of FILE

Usage: nllc values [OPTIONS] <FILE>

Arguments:
  <FILE>  The facts text or MIR text, or /dev/stdin for standard input

Options:
      --owners <N>           Has 1 to 64 owners of regions find the answer, \
      each in a thread of its own
      --deal <round!blocks>  Deals the regions to the owners in turns, or in blocks of neighbours
      --cut <CUT>            Deals the regions to the owners as the cut file CUT lists
      --mail <queue!ring>    Has the owners tell each other through queues or through rings
  -h, --help                 Print help
";

const CHECK_HELP: &str = "Checks the universal regions of FILE

Usage: nllc check [OPTIONS] <FILE>

Arguments:
  <FILE>  The facts text or MIR text, or /dev/stdin for standard input

Options:
      --owners <N>           Has 1 to 64 owners of regions find the answer, \
      each in a thread of its own
      --deal <round!blocks>  Deals the regions to the owners in turns, or in blocks of neighbours
      --cut <CUT>            Deals the regions to the owners as the cut file CUT lists
      --mail <queue!ring>    Has the owners tell each other through queues or through rings
  -h, --help                 Print help
";

const REPLAY_HELP: &str = "Replays a schedule of messages between owners of the regions of FILE

Usage: nllc replay [OPTIONS] --schedule <SCHEDULE> <FILE>

Arguments:
  <FILE>  The facts text or MIR text, or /dev/stdin for standard input

Options:
      --schedule <SCHEDULE>  Takes the events from the schedule SCHEDULE
      --owners <N>           Has 1 to 64 owners of regions, and not one
      --deal <round!blocks>  Deals the regions to the owners in turns, or in blocks of neighbours
      --cut <CUT>            Deals the regions to the owners as the cut file CUT lists
  -h, --help                 Print help
";

// Words that ask for help of the program, or of a command if they follow it.
const ASK_HELP: &str = "
--help
-h
--help|values|a
-h|--nothing
";

const ASK_VALUES_HELP: &str = "
values|--help
values|-h
values|a|--help
values|--help|a|b
values|--owners|2|--help
values|a|--cut=c|-h|--owners|0
";

const ASK_CHECK_HELP: &str = "
check|-h
";

const ASK_REPLAY_HELP: &str = "
replay|--help
replay|a|-h
replay|--schedule|s|--help
replay|a|--help|--mail|queue
";

// Ends the test unless this is reported of each of the words.
fn compare_words<R: Abort + AllocGlobal + Threads + Wait + Sync>(rt: &R, same: &str, rows: &str) {
    compare_same(rt, Asked::Line, ALONE, same, rows);
}

// A command and a file are a line. Other words are refused, and not taken for a call for help. Help
// is given, whatever follows the words that ask for it.
#[test]
fn reads_words(rt: HostRuntime) {
    compare_rows(&rt, Asked::Line, TAKEN);
    compare_rows(&rt, Asked::Line, OPTIONS);
    compare_words(&rt, "usage", REFUSED);
    compare_words(&rt, HELP, ASK_HELP);
    compare_words(&rt, VALUES_HELP, ASK_VALUES_HELP);
    compare_words(&rt, CHECK_HELP, ASK_CHECK_HELP);
    compare_words(&rt, REPLAY_HELP, ASK_REPLAY_HELP);
}

const ABOUT: &str = "Solves the region constraints of location-aware non-lexical lifetimes";

const STATUSES: &str = "\
Statuses:
  0  the values are printed, or check found no fault, or the schedule is replayed, or this help
  1  check found a fault
  2  the words, a file or its text are refused, and standard error says why
  3  memory or a thread was refused, or standard output did not take the whole report

docs/FORMATS.md says how facts texts, MIR texts and schedules are written, and how the reports are.
With /dev/stdin for FILE the text is read from standard input.";

// An option with its value, for `clap`.
fn option<'a>(alloc: Global, name: &'a str, value: &'a str, about: &'a str) -> Arg<'a> {
    Arg::new(alloc, name)
        .long(name)
        .value_name(value)
        .help(about)
        .action(ArgAction::Set)
}

const OWNERS_ABOUT: &str =
    "Has 1 to 64 owners of regions find the answer, each in a thread of its own";

const DEAL_ABOUT: &str = "Deals the regions to the owners in turns, or in blocks of neighbours";

const CUT_ABOUT: &str = "Deals the regions to the owners as the cut file CUT lists";

const MAIL_ABOUT: &str = "Has the owners tell each other through queues or through rings";

const SCHEDULE_ABOUT: &str = "Takes the events from the schedule SCHEDULE";

const REPLAY_OWNERS_ABOUT: &str = "Has 1 to 64 owners of regions, and not one";

// A command with the options that say how the regions are assigned, for `clap`.
fn with_deal<'a>(rt: &impl Abort, alloc: Global, command: Command<'a>) -> Command<'a> {
    let deal = option(alloc, "deal", "round|blocks", DEAL_ABOUT);
    let cut = option(alloc, "cut", "CUT", CUT_ABOUT);
    let command = command.arg(deal).expect(rt, "memory");
    command.arg(cut).expect(rt, "memory")
}

// A command with its options, for `clap`.
fn with_options<'a>(rt: &impl Abort, alloc: Global, command: Command<'a>) -> Command<'a> {
    let owners = option(alloc, "owners", "N", OWNERS_ABOUT);
    let mail = option(alloc, "mail", "queue|ring", MAIL_ABOUT);
    let command = command.arg(owners).expect(rt, "memory");
    let command = with_deal(rt, alloc, command);
    command.arg(mail).expect(rt, "memory")
}

// A command with its file, for `clap`.
fn command<'a>(rt: &impl Abort, alloc: Global, name: &'a str, about: &'a str) -> Command<'a> {
    let file = Arg::new(alloc, "FILE")
        .help("The facts text or MIR text, or /dev/stdin for standard input")
        .action(ArgAction::Set)
        .required(true);
    let command = Command::new(alloc, name).about(about);
    command.arg(file).expect(rt, "memory")
}

const VALUES_ABOUT: &str = "Prints the values of the regions of FILE";

const CHECK_ABOUT: &str = "Checks the universal regions of FILE";

const REPLAY_ABOUT: &str = "Replays a schedule of messages between owners of the regions of FILE";

// The command that replays a schedule, for `clap`.
fn replay<'a>(rt: &impl Abort, alloc: Global) -> Command<'a> {
    let schedule = option(alloc, "schedule", "SCHEDULE", SCHEDULE_ABOUT).required(true);
    let owners = option(alloc, "owners", "N", REPLAY_OWNERS_ABOUT);
    let command = command(rt, alloc, "replay", REPLAY_ABOUT);
    let command = command.arg(schedule).expect(rt, "memory");
    let command = command.arg(owners).expect(rt, "memory");
    with_deal(rt, alloc, command)
}

// The program without its commands, for `clap`.
fn bare_program<'a>(rt: &impl Abort, alloc: Global) -> Command<'a> {
    let program = Command::new(alloc, "nllc")
        .about(ABOUT)
        .no_binary_name(true)
        .disable_help_subcommand(true)
        .subcommand_required(true)
        .after_help(STATUSES);
    program.bin_name("nllc").expect(rt, "memory")
}

// The program with its commands, for `clap`.
fn program<'a>(rt: &impl Abort, alloc: Global) -> Command<'a> {
    let values = command(rt, alloc, "values", VALUES_ABOUT);
    let values = with_options(rt, alloc, values);
    let check = command(rt, alloc, "check", CHECK_ABOUT);
    let check = with_options(rt, alloc, check);
    let replay = replay(rt, alloc);
    let program = bare_program(rt, alloc).subcommand(values);
    let program = program.expect(rt, "memory").subcommand(check);
    let program = program.expect(rt, "memory").subcommand(replay);
    program.expect(rt, "memory")
}

// The text with which `clap` answers words that have no matches.
fn text_of_clap(rt: &impl Abort, alloc: Global, words: &[&str]) -> String {
    let matches = program(rt, alloc).try_get_matches_from(words);
    let error = matches.expect_err(rt, "help");
    error.to_string(alloc).expect(rt, "memory")
}

// Ends the test unless words have the text of help that `clap` makes for those of a list.
fn compare_with_clap<R: Abort + AllocGlobal>(rt: &R, words: &str, list: &[&str]) {
    let want = text_of_clap(rt, rt.alloc(), list);
    let told = line_told(rt, rt.alloc(), words);
    compare(rt, words, told, want.as_bytes());
}

// The text of help is the one that `clap` makes of the commands with their options.
#[test]
fn help_is_that_of_clap(rt: HostRuntime) {
    compare_with_clap(&rt, "--help", &["--help"]);
    compare_with_clap(&rt, "values|-h", &["values", "-h"]);
    compare_with_clap(&rt, "check|a|--help", &["check", "a", "--help"]);
    compare_with_clap(&rt, "replay|-h", &["replay", "-h"]);
}
