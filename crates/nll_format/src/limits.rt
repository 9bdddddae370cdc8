//! The sizes that a text may have.

/// The most bytes of a text.
pub const MAX_TEXT: usize = 67_108_864;
