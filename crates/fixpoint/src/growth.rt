//! What one owner tells another.

/// A fact that came to hold, at a rank.
///
/// # Units
/// Ranks count from 1. None reaches 2^37 where all growths are those of sound parts (`all_quiet`).
#[derive(Clone, Copy, Debug, PartialEq, Eq)]
pub struct Growth<F> {
    pub fact: F,
    pub rank: u64,
}
