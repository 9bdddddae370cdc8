//! The whole program, over whatever holds its files and takes its lines.
ghost use Rattle.std.specs.Prelude.{◌≡◌, ◌⊎◌, ◌<◌, ◌≤◌, ℕ, List, map, string_bytes};
ghost use Rattle.std.specs.Prelude.{IfErr, IfOk, IfSome, MatchResult};
ghost use Rattle.nll_command_line.specs.Options.{Suits, options_said};
ghost use Rattle.nll_problem.specs.Limits.{most_owners};
ghost use Rattle.nll_report.specs.declared.messages.Refusal.{Refusal};
ghost use Rattle.nll_report.specs.Refusal.{refusal_line, status_of};
ghost use Rattle.nll_report.specs.Run.{AreOwnersRefused, IsAskedAnswer, IsFileRefused};
ghost use Rattle.nll_report.specs.Run.{IsHelpOf, IsPrintBegun, IsPrinted, IsRefusalOf};
ghost use Rattle.nll_report.specs.Run.{IsRun, IsRunRefused, IsTaskAnswer, IsTaskRefused, Words};
ghost use Rattle.nll_report.specs.Sink.{IsPut};
ghost use Rattle.nll_report.specs.Texts.{holds_anything, lacks_anything};

use crate::disk::Disk;
use crate::error::Unread;
use crate::file_text::without_text;
use crate::messages::Refusal;
use crate::owners::{answered_by_owners, owners_asked};
use crate::schedule_replay::replayed;
use crate::sink::Sink;
use crate::words::words_given;
use nll_answer::{Command, answer_text};
use nll_command_line::{Line, LineError, Task, line};
use std::env;
use std::rt::{Env, Files};
use std::sync::Wait;
use std::thread::Threads;

/// The texts that the program can read, by their paths.
pub trait Texts {
    // Which bytes may be given for a path.
    ghost holds: { Self → List ℕ → List ℕ → Type 0 };

    // For which paths the result may be that there is no text.
    ghost lacks: { Self → List ℕ → Type 0 };

    /// Gives the bytes of a text, or its first 67,108,865 if it has more.
    fn get(&self, path: &str) -> Result<Vec<u8>, Unread>
        ensures held { IfOk result (λ text. holds self.now path.now text.items) }
        ensures lacking { IfErr result (λ e. e ≡ Unread.Cannot → lacks self.now path.now) };
}

/// Runs the program on its words, without its name, and returns its status.
///
/// # Shape
/// Status 0 or 1: the report or the help is on `out`, and nothing is on `err`. Status 2: nothing is
/// on `out`, and one line is on `err`. Status 3: the same, except that with `nllc: cannot write`
/// some of the report may be on `out`. What `err` does not take of its line is lost.
pub fn drive<R: AllocGlobal + Threads + Wait + Sync, T: Texts, O: Sink, E: Sink>(
    rt: &R,
    words: &[String],
    texts: &T,
    out: &mut O,
    err: &mut E,
) -> u8
    ensures statuses { result ≤ 3 }
    ensures answered { result < 2 → err.new ≡ err.old }
    ensures printed { result < 2 → IsPrinted (T.holds texts.now) (map string_bytes words.now)
        result (O.contents out.old) (O.contents out.new) }
    ensures refused { result ≡ 2 → out.new ≡ out.old }
    ensures begun { result ≡ 3 → (out.new ≡ out.old)
        ⊎ IsPrintBegun (T.holds texts.now) (map string_bytes words.now)
        (O.room out.old) (O.contents out.old) (O.contents out.new) }

    // Standard error has a refusal of this status: it is true of the words and the texts, or
    // standard output refused some of the report or the help.
    ensures told { 2 ≤ result → (refusal : Refusal) × (status_of refusal ≡ result)
        × (((out.new ≡ out.old) × IsRunRefused (T.holds texts.now) (T.lacks texts.now)
        (map string_bytes words.now) refusal)
        ⊎ ((refusal ≡ Refusal.CannotWrite) × IsPrintBegun (T.holds texts.now)
        (map string_bytes words.now) (O.room out.old) (O.contents out.old) (O.contents out.new)))
        × IsPut (E.room err.old) (E.contents err.old) (E.contents err.new) (refusal_line refusal) }
{
    match report(rt, words, texts) {
        Ok((bytes, status)) => match out.put(bytes.as_slice()) {
            Ok(()) => status,
            Err(_) => tell(&Refusal::CannotWrite, err),
        },
        Err(refusal) => tell(&refusal, err),
    }
}

/// Runs the program on the words and the files of its process, and returns its status. Words that
/// are not UTF-8 are refused.
///
/// # Not said
/// No contract knows which words a process has, what its files hold, and what its own standard
/// streams hold or take. So if `out` and `err` are those, the clauses say only the status, and
/// which of the two streams is left as it is.
pub fn run_in_process<R: Env + Files + AllocGlobal + Threads + Wait + Sync, O: Sink, E: Sink>(
    rt: &R,
    out: &mut O,
    err: &mut E,
) -> u8
    ensures statuses { result ≤ 3 }
    ensures answered { result < 2 → err.new ≡ err.old }
    ensures printed { result < 2 → (words : Words)
        × IsPrinted holds_anything words result (O.contents out.old) (O.contents out.new) }
    ensures refused { result ≡ 2 → out.new ≡ out.old }
    ensures begun { result ≡ 3 → (out.new ≡ out.old) ⊎ ((words : Words)
        × IsPrintBegun holds_anything words
        (O.room out.old) (O.contents out.old) (O.contents out.new)) }
    ensures told { 2 ≤ result → (words : Words) × (refusal : Refusal) × (status_of refusal ≡ result)
        × (((out.new ≡ out.old) × IsRunRefused holds_anything lacks_anything words refusal)
        ⊎ ((refusal ≡ Refusal.CannotWrite) × IsPrintBegun holds_anything words
        (O.room out.old) (O.contents out.old) (O.contents out.new)))
        × IsPut (E.room err.old) (E.contents err.old) (E.contents err.new) (refusal_line refusal) }
{
    match words_given(rt.alloc(), env::args(rt)) {
        Ok(words) => drive(rt, words.as_slice(), &Disk::new(rt), out, err),
        Err(lost) => tell(&lost, err),
    }
}

// What goes to standard output, and the status.
fn report<R: AllocGlobal + Threads + Wait + Sync, T: Texts>(
    rt: &R,
    words: &[String],
    texts: &T,
) -> Result<(Vec<u8>, u8), Refusal>
    ensures ok { IfOk result (λ r.
        IsRun (T.holds texts.now) (map string_bytes words.now) r.0.items r.1) }
    ensures status { IfOk result (λ r. r.1 ≤ 1) }
    ensures err { IfErr result
        (IsRunRefused (T.holds texts.now) (T.lacks texts.now) (map string_bytes words.now)) }
{
    match line(rt.alloc(), words) {
        Ok(line) => answered(rt, line, texts),
        Err(error) => without_line(error),
    }
}

// What follows from words that are no line: help, or a refusal.
fn without_line(error: LineError) -> Result<(Vec<u8>, u8), Refusal>
    ensures { MatchResult result (λ r. IsHelpOf error r.0.items r.1) (IsRefusalOf error) }
{
    match error {
        LineError::Help(text) => Ok((text.into_bytes(), 0)),
        LineError::Usage => Err(Refusal::Usage),
        LineError::Memory => Err(Refusal::Memory),
    }
}

// The report of the line's task on the text of its file, and the status.
fn answered<R: AllocGlobal + Threads + Wait + Sync, T: Texts>(
    rt: &R,
    line: Line,
    texts: &T,
) -> Result<(Vec<u8>, u8), Refusal>
    requires owners { IfSome line.owners (λ n. (0 < n) × (n ≤ most_owners)) }
    requires suits { Suits line.task (options_said line) }
    ensures ok { IfOk result (λ r. IsTaskAnswer (T.holds texts.now) line.task
        (string_bytes line.file) (options_said line) r.0.items r.1) }
    ensures status { IfOk result (λ r. r.1 ≤ 1) }
    ensures err { IfErr result (IsTaskRefused (T.holds texts.now) (T.lacks texts.now)
        line.task (string_bytes line.file) (options_said line)) }
{
    match line.task {
        Task::Values => solved(rt, Command::Values, line, texts),
        Task::Check => solved(rt, Command::Check, line, texts),
        Task::Replay => replayed(rt.alloc(), line, texts),
    }
}

// The answer to a command on the text of the line's file, by owners if they are asked for.
fn solved<R: AllocGlobal + Threads + Wait + Sync, T: Texts>(
    rt: &R,
    command: Command,
    line: Line,
    texts: &T,
) -> Result<(Vec<u8>, u8), Refusal>
    requires { IfSome line.owners (λ n. (0 < n) × (n ≤ most_owners)) }
    ensures ok { IfOk result (λ r. IsAskedAnswer (T.holds texts.now) command
        (string_bytes line.file) (options_said line) r.0.items r.1) }
    ensures status { IfOk result (λ r. r.1 ≤ 1) }
    ensures err { IfErr result (λ e.
        IsFileRefused (T.holds texts.now) (T.lacks texts.now) (string_bytes line.file) e
        ⊎ AreOwnersRefused (T.holds texts.now) (T.lacks texts.now) (string_bytes line.file)
        (options_said line) e) }
{
    let Line {
        task: _,
        file,
        owners,
        deal,
        cut,
        mail,
        schedule,
    } = line;
    // Only a replay has one.
    drop(schedule);
    match owners_asked(owners, deal, mail, cut) {
        Some(owners) => answered_by_owners(rt, command, file, owners, texts),
        None => match texts.get(file.as_str()) {
            Ok(text) => Ok(answer_text(rt.alloc(), command, text)?),
            Err(unread) => Err(without_text(unread, file)),
        },
    }
}

// Puts the line of a refusal. If that fails, the status is the same.
fn tell<E: Sink>(refusal: &Refusal, err: &mut E) -> u8
    ensures status { result ≡ status_of refusal.now }
    ensures told { IsPut (E.room err.old) (E.contents err.old) (E.contents err.new)
        (refusal_line refusal.now) }
{
    let _ = refusal.print(err);
    refusal.status()
}
