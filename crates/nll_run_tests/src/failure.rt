//! Why what a test asks for couldn't be had.
use nll_core::BuildError;
use nll_cut::CutError;
use nll_run::RunError;
use std::alloc::AllocError;

/// Why what a test asks for couldn't be had.
#[derive(Clone, Copy, Debug, PartialEq, Eq)]
pub enum Failure {
    Problem(BuildError),
    Cut(CutError),
    Run(RunError),
    Memory,
}

impl From<BuildError> for Failure {
    fn from(error: BuildError) -> Failure {
        Failure::Problem(error)
    }
}

impl From<CutError> for Failure {
    fn from(error: CutError) -> Failure {
        Failure::Cut(error)
    }
}

impl From<RunError> for Failure {
    fn from(error: RunError) -> Failure {
        Failure::Run(error)
    }
}

impl From<AllocError> for Failure {
    fn from(_: AllocError) -> Failure {
        Failure::Memory
    }
}
