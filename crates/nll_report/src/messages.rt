//! The lines that the program writes on standard error, and their statuses.
ghost use Rattle.std.specs.Prelude.{◌≡◌, ◌∷◌, ◌++◌, [], OnErr, OnOk, Some, codes};
ghost use Rattle.std.specs.Fmt.{decimal};
ghost use Rattle.std.specs.Io.KnownBytes.{Appends};
ghost use Rattle.nll_report.specs.Refusal.{kind_text, limit_text, refusal_line, refusal_of};
ghost use Rattle.nll_report.specs.Refusal.{refusal_of_text, refusal_text, status_of};
ghost use Rattle.nll_report.specs.declared.messages.Refusal.TheVariants.{Memory};
ghost use Rattle.nll_report.specs.Sink.{IsCutShort};

use crate::error::Unwritten;
use crate::sink::{Sink, put_pieces};
use itoa::Buffer;
use nll_answer::AnswerError;
use nll_core::Kind;
use nll_format::{TextError, TextKind};
use nll_rules::RuleError;
use nll_run::RunError;
use std::alloc::AllocError;
use std::error::Error;
use std::fmt;

/// The line that is written where the words are refused.
pub const USAGE: &str = "usage: nllc values|check|replay FILE [--owners N] \
[--deal round|blocks] [--cut FILE] [--mail queue|ring] [--schedule FILE]";

/// Why the program gives no report. Its `Display` is the line on standard error, without the end of
/// the line.
#[derive(Debug, Drop)]
pub enum Refusal {
    /// The words have none of the allowed forms.
    Usage,
    /// The file of this path cannot be read.
    CannotRead(String),
    /// The text is faulty at this line.
    Text(u64, TextKind),
    /// The body that the text means has more of these than the limit.
    Limit(Kind),
    /// The text of the cut file is faulty at this line.
    CutText(u64, TextKind),
    /// The list of the cut file doesn't have an owner for each region.
    CutLength,
    /// The entry of the list at this index, counted from 0, is the first that names no owner.
    NoSuchOwner(u32),
    /// The text of the schedule is faulty at this line.
    ScheduleText(u64, TextKind),
    /// A thread couldn't be started.
    Thread,
    /// An allocation was refused.
    Memory,
    /// Standard output took less than the whole report.
    CannotWrite,
}

impl Refusal {
    /// The status of the program: 2 for what was given to it, 3 for what it lacked.
    pub fn status(&self) -> u8
        ensures { result ≡ status_of self.now }
    {
        match self {
            Refusal::Usage | Refusal::CannotRead(_) | Refusal::Text(_, _) => 2,
            Refusal::Limit(_) | Refusal::CutText(_, _) => 2,
            Refusal::CutLength | Refusal::NoSuchOwner(_) => 2,
            Refusal::ScheduleText(_, _) => 2,
            Refusal::Thread => 3,
            Refusal::Memory | Refusal::CannotWrite => 3,
        }
    }

    /// Puts the line of the refusal, with its end. Takes no memory.
    ///
    /// # Errors
    /// `Unwritten` if the sink takes only a part of the line.
    pub fn print<S: Sink>(&self, to: &mut S) -> Result<(), Unwritten>
        ensures all { OnOk result
            (Appends (S.contents to.old) (S.contents to.new) (refusal_line self.now)) }
        ensures cut { OnErr result (IsCutShort (S.room to.old) (S.contents to.old)
            (S.contents to.new) (refusal_line self.now)) }
    {
        match self {
            Refusal::Usage => put_pieces(to, &[USAGE, "\n"]),
            Refusal::CannotRead(path) => put_pieces(
                to,
                &["nllc: cannot read ", path.as_str(), "\n"],
            ),
            Refusal::Text(line, kind) => print_fault(to, "nllc: line ", *line, *kind),
            Refusal::Limit(kind) => put_pieces(to, &["nllc: ", limit_text(*kind), "\n"]),
            Refusal::CutText(line, kind) => print_fault(to, "nllc: cut line ", *line, *kind),
            Refusal::CutLength => put_pieces(to, &["nllc: cut: length", "\n"]),
            Refusal::NoSuchOwner(index) => {
                let mut digits = Buffer::new();
                let index = digits.format(*index);
                put_pieces(to, &["nllc: cut: no such owner at ", index, "\n"])
            }
            Refusal::ScheduleText(line, kind) => {
                print_fault(to, "nllc: schedule line ", *line, *kind)
            }
            Refusal::Thread => put_pieces(to, &["nllc: thread", "\n"]),
            Refusal::Memory => put_pieces(to, &["nllc: memory", "\n"]),
            Refusal::CannotWrite => put_pieces(to, &["nllc: cannot write", "\n"]),
        }
    }
}

// Puts the line of a text's fault: these words, the number of its line, and the kind.
fn print_fault<S: Sink>(
    to: &mut S,
    words: &'static str,
    line: u64,
    kind: TextKind,
) -> Result<(), Unwritten>
    ensures all { OnOk result (Appends (S.contents to.old) (S.contents to.new)
        ((words.now ++ decimal line ++ codes ": " ++ kind_text kind) ++ 10 ∷ [])) }
    ensures cut { OnErr result (IsCutShort (S.room to.old) (S.contents to.old) (S.contents to.new)
        ((words.now ++ decimal line ++ codes ": " ++ kind_text kind) ++ 10 ∷ [])) }
{
    let mut digits = Buffer::new();
    let line = digits.format(line);
    put_pieces(to, &[words, line, ": ", kind_text(kind), "\n"])
}

impl From<AllocError> for Refusal {
    ghost from_gives = { λ _ refusal. refusal ≡ Memory };

    fn from(_refused: AllocError) -> Refusal {
        Refusal::Memory
    }
}

impl From<TextError> for Refusal {
    ghost from_gives = { λ error refusal. refusal ≡ refusal_of_text error };

    fn from(error: TextError) -> Refusal {
        match error.kind {
            TextKind::Memory => Refusal::Memory,
            kind => Refusal::Text(error.line, kind),
        }
    }
}

impl From<AnswerError> for Refusal {
    ghost from_gives = { λ error refusal. refusal ≡ refusal_of error };

    fn from(error: AnswerError) -> Refusal {
        match error {
            AnswerError::Text(error) => Refusal::from(error),
            AnswerError::Rule(RuleError::Limit(kind)) => Refusal::Limit(kind),
            AnswerError::Rule(RuleError::Memory) => Refusal::Memory,
            AnswerError::Run(RunError::Thread) => Refusal::Thread,
            AnswerError::Run(RunError::Memory) => Refusal::Memory,
            AnswerError::Memory => Refusal::Memory,
        }
    }
}

impl fmt::Display for Refusal {
    ghost output = { λ refusal. Some (refusal_text refusal) };

    fn fmt<W: fmt::Write>(&self, f: &mut fmt::Formatter<W>) -> fmt::Result {
        match self {
            Refusal::Usage => f.write_str(USAGE),
            Refusal::CannotRead(path) => write!(f, "nllc: cannot read {path}"),
            Refusal::Text(line, kind) => write!(f, "nllc: line {line}: {}", kind_text(*kind)),
            Refusal::Limit(kind) => write!(f, "nllc: {}", limit_text(*kind)),
            Refusal::CutText(line, kind) => {
                write!(f, "nllc: cut line {line}: {}", kind_text(*kind))
            }
            Refusal::CutLength => f.write_str("nllc: cut: length"),
            Refusal::NoSuchOwner(index) => write!(f, "nllc: cut: no such owner at {index}"),
            Refusal::ScheduleText(line, kind) => {
                write!(f, "nllc: schedule line {line}: {}", kind_text(*kind))
            }
            Refusal::Thread => f.write_str("nllc: thread"),
            Refusal::Memory => f.write_str("nllc: memory"),
            Refusal::CannotWrite => f.write_str("nllc: cannot write"),
        }
    }
}

impl Error for Refusal {}

fn kind_text(kind: TextKind) -> &'static str
    ensures { result.now ≡ kind_text kind }
{
    match kind {
        TextKind::NotUtf8 => "not utf-8",
        TextKind::Header => "header",
        TextKind::Syntax => "syntax",
        TextKind::Unknown => "unknown",
        TextKind::Duplicate => "duplicate",
        TextKind::Range => "range",
        TextKind::Shape => "shape",
        TextKind::TypeSize => "type size",
        TextKind::Limit(kind) => limit_text(kind),
        TextKind::End => "end",
        TextKind::Memory => "memory",
    }
}

fn limit_text(kind: Kind) -> &'static str
    ensures { result.now ≡ limit_text kind }
{
    match kind {
        Kind::Text => "limit text",
        Kind::Points => "limit points",
        Kind::Edges => "limit edges",
        Kind::Universals => "limit universals",
        Kind::Regions => "limit regions",
        Kind::Constraints => "limit constraints",
        Kind::Variables => "limit variables",
        Kind::Structs => "limit structs",
    }
}
