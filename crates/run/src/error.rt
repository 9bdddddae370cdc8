//! Why a run is refused.

use nll_sets::OutOfMemory;
use thiserror::Error;

/// Why a run is refused. If there are several reasons, a start that failed is reported.
#[derive(Clone, Copy, Debug, PartialEq, Eq, Error)]
pub enum RunError {
    /// A thread couldn't be started, or a permit refused it.
    #[error("a thread couldn't be started")]
    Thread,
    /// A growth of memory was refused, to a worker or to the run itself.
    #[error("out of memory")]
    Memory,
}

impl<E: OutOfMemory> From<E> for RunError {
    ghost use Rattle.std.specs.Prelude.{◌≡◌};
    ghost use Rattle.run.specs.declared.error.RunError.TheVariants.{Memory as memory};

    ghost from_gives = { λ _ error. error ≡ memory };

    fn from(_: E) -> RunError {
        RunError::Memory
    }
}
