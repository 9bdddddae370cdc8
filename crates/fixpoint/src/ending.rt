//! How a worker ends.

/// How a worker ended.
#[derive(Clone, Copy, Debug, PartialEq, Eq)]
pub enum Ending {
    /// Nothing was left to do anywhere.
    Quiet,
    /// Another worker had stopped all.
    Stopped,
    /// A growth of memory was refused.
    Memory,
    /// Its permit refused its start.
    Forbidden,
    /// No thread could be started for it.
    Unstarted,
    /// A growth of memory was refused while its part was made.
    NoOwner,
    /// It took a growth that can't be its sender's. This never happens (`never_stray`).
    Stray,
}
