//! Why a body has no problem.

ghost use Rattle.std.specs.Prelude.{◌≡◌, ◌≢◌};
ghost use Rattle.nll_rules.specs.Adding.{told_of};

use nll_problem::{BuildError, Kind};
use thiserror::Error;

/// Why a body has no problem.
#[derive(Clone, Copy, Debug, PartialEq, Eq, Error)]
pub enum RuleError {
    /// The body has more of these than the limit.
    #[error("more {0} than the limit")]
    Limit(Kind),
    /// An allocation failed.
    #[error("out of memory")]
    Memory,
}

/// The error of a body for that of a builder to which all numbers in range were given.
pub(crate) fn told_of(error: BuildError) -> RuleError
    requires points { error ≢ BuildError.PointRange }
    requires regions { error ≢ BuildError.RegionRange }
    ensures { result ≡ told_of error }
{
    match error {
        BuildError::Limit(kind) => RuleError::Limit(kind),
        BuildError::Memory => RuleError::Memory,
        BuildError::PointRange | BuildError::RegionRange => unreachable!(),
    }
}
