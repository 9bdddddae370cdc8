//! Why a step of a world is refused.

use nll_owner::OwnerError;
use nll_sets::Memory;
use thiserror::Error;

/// Why a step of a world is refused.
#[derive(Clone, Copy, Debug, PartialEq, Eq, Error)]
pub enum ModelError {
    /// The event isn't possible now. Nothing has changed.
    #[error("not now")]
    NotNow,
    /// A call of an owner, or a growth of the world's own lists, was refused.
    #[error("{0}")]
    Owner(OwnerError),
}

impl From<Memory> for ModelError {
    ghost use Rattle.std.specs.Prelude.{◌≡◌};
    ghost use Rattle.fixpoint.specs.declared.error.PartError.TheVariants.{Memory as memory};
    ghost use Rattle.nll_model.specs.declared.error.ModelError.TheVariants.{Owner};

    ghost from_gives = { λ _ error. error ≡ Owner memory };

    fn from(_: Memory) -> ModelError {
        ModelError::Owner(OwnerError::Memory)
    }
}
