//! Why arguments are no command line.

use nll_sets::OutOfMemory;
use thiserror::Error;

/// Why a command line is not taken.
#[derive(Debug, PartialEq, Eq, Drop, Error)]
pub enum LineError {
    /// Help is requested; the text is for standard output.
    #[error("help is asked for")]
    Help(String),
    /// The arguments are invalid.
    #[error("the words are none of the forms")]
    Usage,
    /// An allocation was refused.
    #[error("memory was refused")]
    Memory,
}

impl<E: OutOfMemory> From<E> for LineError {
    ghost use Rattle.std.specs.Prelude.{◌≡◌};
    ghost use Rattle.nll_command_line.specs.declared.error.LineError.TheVariants.{Memory as memory};

    ghost from_gives = { λ _ error. error ≡ memory };

    fn from(_: E) -> LineError {
        LineError::Memory
    }
}
