//! Why a call of a part is refused.

use nll_sets::OutOfMemory;
use thiserror::Error;

/// Why a call of a part is refused.
#[derive(Clone, Copy, Debug, PartialEq, Eq, Error)]
pub enum PartError {
    /// A growth of memory was refused.
    #[error("out of memory")]
    Memory,
    /// An earlier call was refused.
    #[error("an earlier call was refused")]
    Broken,
}

impl<E: OutOfMemory> From<E> for PartError {
    ghost use Rattle.std.specs.Prelude.{◌≡◌};
    ghost use Rattle.fixpoint.specs.declared.error.PartError.TheVariants.{Memory as memory};

    ghost from_gives = { λ _ error. error ≡ memory };

    fn from(_: E) -> PartError {
        PartError::Memory
    }
}
