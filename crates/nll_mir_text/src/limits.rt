//! How much a body may declare.

/// The most variables of a body.
pub const MAX_VARIABLES: usize = 65_536;

/// The most structs that a body may use.
pub const MAX_STRUCTS: usize = 1_024;
