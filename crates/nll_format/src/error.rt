//! Why a text is refused.

ghost use Rattle.std.specs.Prelude.{◌≡◌, ◌≢◌, ◌⊎◌};
ghost use Rattle.nll_format.specs.Kinds.{kind_of};

use nll_problem::{BuildError, Kind};
use nll_sets::OutOfMemory;
use thiserror::Error;

/// What is wrong with a line, in the order in which kinds are reported.
#[derive(Clone, Copy, Debug, PartialEq, Eq, Error)]
pub enum TextKind {
    /// The line's bytes aren't UTF-8.
    #[error("the line isn't UTF-8")]
    NotUtf8,
    /// The first line isn't the header.
    #[error("the first line isn't the header")]
    Header,
    /// The line is invalid: it has none of the forms, or is out of order.
    #[error("the line has none of the forms, or stands out of order")]
    Syntax,
    /// A name that no earlier line declares.
    #[error("a name that no earlier line declares")]
    Unknown,
    /// A name that is declared already.
    #[error("a name that is declared already")]
    Duplicate,
    /// A number that isn't allowed in its place.
    #[error("a number that isn't allowed in its place")]
    Range,
    /// Types that don't fit.
    #[error("types that don't fit")]
    Shape,
    /// A type of too many nodes.
    #[error("a type of too many nodes")]
    TypeSize,
    /// The line would go past a limit.
    #[error("past the limit: {0:?}")]
    Limit(Kind),
    /// The text stops before its last line.
    #[error("the text stops before its last line")]
    End,
    /// An allocation failed; the text may be right.
    #[error("out of memory")]
    Memory,
}

impl TextKind {
    /// The kind for an error of the builder, whose regions come from names.
    pub fn of(error: BuildError) -> TextKind
        ensures { result ≡ kind_of error }
    {
        match error {
            BuildError::PointRange => TextKind::Range,
            BuildError::RegionRange => TextKind::Unknown,
            BuildError::Limit(kind) => TextKind::Limit(kind),
            BuildError::Memory => TextKind::Memory,
        }
    }
}

/// The first line that is wrong, and what is wrong with it.
///
/// # Units
/// Lines count from 1. For `Memory` the line is 0.
#[derive(Clone, Copy, Debug, PartialEq, Eq, Error)]
#[error("line {line}: {kind}")]
pub struct TextError {
    pub line: u64,
    pub kind: TextKind,
}

impl TextError {
    /// The error of a line. Out of memory is no line's: it is reported at line 0.
    pub fn at(line: u64, kind: TextKind) -> TextError
        ensures memory { kind ≡ TextKind.Memory
            → result ≡ record { line = 0; kind = TextKind.Memory } }
        ensures fault { (result ≡ record { line = 0; kind = TextKind.Memory })
            ⊎ ((result ≡ record { line = line; kind = kind }) × (kind ≢ TextKind.Memory)) }
    {
        match kind {
            TextKind::Memory => TextError { line: 0, kind },
            _ => TextError { line, kind },
        }
    }
}

impl<E: OutOfMemory> From<E> for TextKind {
    ghost use Rattle.std.specs.Prelude.{◌≡◌};
    ghost use Rattle.nll_format.specs.declared.error.TextKind.TheVariants.{Memory as memory};

    ghost from_gives = { λ _ kind. kind ≡ memory };

    fn from(_: E) -> TextKind {
        TextKind::Memory
    }
}
