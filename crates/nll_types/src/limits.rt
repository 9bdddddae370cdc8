//! How large a type may be.

/// The most nodes of a type.
pub const MAX_NODES: usize = 4_096;
