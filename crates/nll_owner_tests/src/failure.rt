//! Why a test didn't get what it requested.
use nll_core::{BuildError, Memory};
use nll_cut::CutError;
use nll_model::ModelError;
use nll_owner::OwnerError;
use std::alloc::{AllocError, AllocFailed};

/// Why a test didn't get what it requested.
#[derive(Clone, Copy, Debug, PartialEq, Eq)]
pub enum Failure {
    Problem(BuildError),
    Cut(CutError),
    Owner(OwnerError),
    Model(ModelError),
    Memory,
    /// A turn names no owner, or one owner twice.
    Wrong,
    /// Owners have something to do after a thousand rounds.
    Unsettled,
    /// A list doesn't have an entry for each region, or for each owner.
    Length,
}

impl From<BuildError> for Failure {
    fn from(error: BuildError) -> Failure {
        Failure::Problem(error)
    }
}

impl From<CutError> for Failure {
    fn from(error: CutError) -> Failure {
        Failure::Cut(error)
    }
}

impl From<OwnerError> for Failure {
    fn from(error: OwnerError) -> Failure {
        Failure::Owner(error)
    }
}

impl From<ModelError> for Failure {
    fn from(error: ModelError) -> Failure {
        Failure::Model(error)
    }
}

impl From<Memory> for Failure {
    fn from(_: Memory) -> Failure {
        Failure::Memory
    }
}

impl From<AllocError> for Failure {
    fn from(_: AllocError) -> Failure {
        Failure::Memory
    }
}

impl<T: Drop> From<AllocFailed<T>> for Failure {
    fn from(_: AllocFailed<T>) -> Failure {
        Failure::Memory
    }
}
