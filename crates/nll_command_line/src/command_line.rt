//! What the arguments of the command line ask for.
ghost use Rattle.std.specs.Prelude.{◌≡◌, ◌≢◌, ◌⊎◌, ℕ, List, None, Some, map, string_bytes};
ghost use Rattle.std.specs.Prelude.{Err, IfErr, IfOk, IsOk, IsOkAnd, MatchResult, option_map};
ghost use Rattle.nll_command_line.specs.Options.{AreOptionsRead, SaidOptions, Suits, options_said};
ghost use Rattle.nll_command_line.specs.declared.task.Task.{Task};
ghost use Rattle.nll_command_line.specs.Taking.{said_of};
ghost use Rattle.nll_command_line.specs.CommandLine.{AsksPlainlyForHelp, IsTaskLine, IsPlainLine};
ghost use Rattle.clap.specs.Words.{app_of, found_of, new_app, rows_of, subcommand_rows_of};
ghost use Rattle.clap.specs.Words.{with_rule, with_subcommand};
ghost use Rattle.nll_command_line.specs.Grammar.{AsksForHelpAlone, IsHelpFor, IsLineError};
ghost use Rattle.nll_command_line.specs.Grammar.{IsErrorTold, IsWordsError, file_rule, program};
ghost use Rattle.nll_command_line.specs.Grammar.{line_of_found, line_of_matches};

use crate::error::LineError;
use crate::help::help_for;
use crate::options::{Options, part_words};
use crate::task::{Asked, CHECK, Line, REPLAY, VALUES, task_of};
use clap::error::ErrorKind;
use clap::{Arg, ArgAction, ArgMatches, Command};
use std::alloc::{AllocError, Global};

const FILE: &str = "FILE";

/// Reads the program's arguments, without its name.
///
/// # Errors
/// - `Help`: `-h` or `--help` stands before the first word that is refused. The text is that of the
///   command that the first word names, or of the program.
/// - `Usage`: a word is refused, or one is missing, or an option isn't one of the task's.
/// - `Memory`: an allocation was refused.
pub fn line(alloc: Global, words: &[String]) -> Result<Line, LineError>
    ensures ok { IfOk result (λ l. (others : List (List ℕ))
        × AreOptionsRead (map string_bytes words.now) others (options_said l)
        × IsTaskLine l.task (string_bytes l.file) others × Suits l.task (options_said l)) }
    ensures plain { (task : Task) (file : List ℕ) (others : List (List ℕ)) (said : SaidOptions)
        → AreOptionsRead (map string_bytes words.now) others said → IsPlainLine task file others
        → Suits task said → MatchResult result (λ l. (l.task ≡ task) × (string_bytes l.file ≡ file)
        × (options_said l ≡ said)) (λ e. e ≡ LineError.Memory) }
    ensures help { (others : List (List ℕ)) (said : SaidOptions)
        → AreOptionsRead (map string_bytes words.now) others said → AsksPlainlyForHelp others
        → MatchResult result (λ _. ⊥) (IsHelpFor others) }
    ensures err { IfErr result (IsWordsError (map string_bytes words.now)) }
{
    let mut options = Options {
        owners: None,
        deal: None,
        cut: None,
        mail: None,
        schedule: None,
    };
    let mut others = Vec::new(alloc);
    if let Err(error) = part_words(words, &mut options, &mut others) {
        drop(others);
        return Err(error);
    }
    let asked = asked(alloc, others.as_slice());
    drop(others);
    with_options(alloc, asked, options)
}

// What is asked, with what the options give, where they are those of the task.
fn with_options(
    alloc: Global,
    asked: Result<Asked, LineError>,
    options: Options<'_>,
) -> Result<Line, LineError>
    ensures ok { IfOk result (λ l. IsOkAnd asked (λ a. (l.task ≡ a.task)
        × (string_bytes l.file ≡ string_bytes a.file) × (options_said l ≡ said_of options.entry)
        × Suits a.task (said_of options.entry))) }
    ensures err { IfErr result (λ e. (asked ≡ Err e) ⊎ IsOkAnd asked (λ a. (e ≡ LineError.Memory)
        ⊎ ((e ≡ LineError.Usage) × (Suits a.task (said_of options.entry) → ⊥)))) }
{
    let asked = asked?;
    if !options.suit(asked.task) {
        return Err(LineError::Usage);
    }
    let cut = copy_of(alloc, options.cut)?;
    let schedule = copy_of(alloc, options.schedule)?;
    Ok(Line {
        task: asked.task,
        file: asked.file,
        owners: options.owners,
        deal: options.deal,
        cut,
        mail: options.mail,
        schedule,
    })
}

// The path of a file, where one is given.
fn copy_of(alloc: Global, file: Option<&str>) -> Result<Option<String>, AllocError>
    ensures { IfOk result (λ copy.
        option_map string_bytes copy ≡ option_map (λ path. path.now) file.entry) }
{
    match file {
        Some(path) => Ok(Some(String::from_str(alloc, path)?)),
        None => Ok(None),
    }
}

// What arguments without options ask for.
fn asked(alloc: Global, words: &[&str]) -> Result<Asked, LineError>
    ensures ok { IfOk result (λ l.
        IsTaskLine l.task (string_bytes l.file) (map (λ word. word.now) words.now)) }
    ensures plain { (task : Task) (file : List ℕ)
        → IsPlainLine task file (map (λ word. word.now) words.now)
        → MatchResult result (λ l. (l.task ≡ task) × (string_bytes l.file ≡ file))
        (λ e. e ≡ LineError.Memory) }
    ensures help { AsksPlainlyForHelp (map (λ word. word.now) words.now)
        → MatchResult result (λ _. ⊥) (IsHelpFor (map (λ word. word.now) words.now)) }
    ensures taken { IsOk result → AsksForHelpAlone (map (λ word. word.now) words.now) → ⊥ }
    ensures err { IfErr result (IsLineError (map (λ word. word.now) words.now)) }
{
    match grammar(alloc)?.try_get_matches_from(words) {
        Ok(matches) => {
            let line = line_of(alloc, &matches);
            // Early drop.
            drop(matches);
            line
        }
        Err(error) => {
            let refusal = refusal(alloc, words, error.kind());
            drop(error);
            Err(refusal)
        }
    }
}

// The program, with the arguments that each of its commands takes.
fn grammar<'a>(alloc: Global) -> Result<Command<'a>, AllocError>
    ensures { IfOk result (λ c. app_of c ≡ program) }
{
    let bare = Command::new(alloc, "nllc")
        .no_binary_name(true)
        .disable_help_subcommand(true)
        .subcommand_required(true)
        .bin_name("nllc")?;
    let with_values = with_command(alloc, bare, VALUES)?;
    let with_check = with_command(alloc, with_values, CHECK)?;
    with_command(alloc, with_check, REPLAY)
}

// The program with one more command, which takes a file.
fn with_command<'a>(
    alloc: Global,
    program: Command<'a>,
    name: &'a str,
) -> Result<Command<'a>, AllocError>
    ensures { IfOk result (λ c. app_of c
        ≡ with_subcommand (app_of program.entry) (with_rule (new_app name.now) file_rule).top) }
{
    let file = Arg::new(alloc, FILE).action(ArgAction::Set).required(true);
    match Command::new(alloc, name).arg(file) {
        Ok(command) => program.subcommand(command),
        Err(refused) => {
            drop(program);
            Err(refused)
        }
    }
}

// The command line that the arguments make.
fn line_of(alloc: Global, matches: &ArgMatches<'_>) -> Result<Asked, LineError>
    ensures ok { IfOk result (λ l. line_of_matches (subcommand_rows_of matches.now)
        ≡ Some (l.task, string_bytes l.file)) }
    ensures err { IfErr result (λ e. ((e ≡ LineError.Memory)
        × (line_of_matches (subcommand_rows_of matches.now) ≢ None)) ⊎ ((e ≡ LineError.Usage)
        × (line_of_matches (subcommand_rows_of matches.now) ≡ None))) }
{
    match matches.subcommand() {
        Some((name, found)) => line_of_command(alloc, name, found),
        None => Err(LineError::Usage),
    }
}

// The line of a command and what was found for it.
fn line_of_command(alloc: Global, name: &str, found: &ArgMatches<'_>) -> Result<Asked, LineError>
    ensures ok { IfOk result (λ l. line_of_found (name.now, rows_of (found_of found.now))
        ≡ Some (l.task, string_bytes l.file)) }
    ensures err { IfErr result (λ e. ((e ≡ LineError.Memory)
        × (line_of_found (name.now, rows_of (found_of found.now)) ≢ None)) ⊎ ((e ≡ LineError.Usage)
        × (line_of_found (name.now, rows_of (found_of found.now)) ≡ None))) }
{
    let Some(task) = task_of(name) else {
        return Err(LineError::Usage);
    };
    let Some(file) = found.get_str(FILE) else {
        return Err(LineError::Usage);
    };
    let file = String::from_str(alloc, file)?;
    Ok(Asked { task, file })
}

// What the program answers to arguments for which the parser has an error of this kind.
fn refusal(alloc: Global, words: &[&str], kind: ErrorKind) -> LineError
    ensures { IsErrorTold (map (λ word. word.now) words.now) kind result }
{
    match kind {
        ErrorKind::OutOfMemory => LineError::Memory,
        ErrorKind::DisplayHelp => match String::from_str(alloc, help_for(words)) {
            Ok(text) => LineError::Help(text),
            Err(_) => LineError::Memory,
        },
        _ => LineError::Usage,
    }
}
