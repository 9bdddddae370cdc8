//! Why a text isn't given, and a report isn't written.

use thiserror::Error;

/// Why a text was not given.
#[derive(Clone, Copy, Debug, PartialEq, Eq, Error)]
pub enum Unread {
    /// There is no such text, or it cannot be read.
    #[error("the text cannot be read")]
    Cannot,
    /// An allocation was refused.
    #[error("memory was refused")]
    Memory,
}

/// A report that was not written to its end.
#[derive(Clone, Copy, Debug, PartialEq, Eq, Error)]
#[error("writing stopped behind {written} bytes")]
pub struct Unwritten {
    /// How many of its bytes were written, from the first on.
    pub written: usize,
}
