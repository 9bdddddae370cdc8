//! The parameters of a struct.

/// How a region inside an argument relates to the same region inside the whole type.
///
/// # Source
/// RFC 2094, "Subtyping".
#[derive(Clone, Copy, PartialEq, Eq)]
pub enum Sign {
    /// Written `+`, covariant: the type with the longer region may be used as the one with the
    /// shorter.
    Covariant,
    /// Written `-`, contravariant: the type with the shorter region may be used as the one with the
    /// longer.
    Contravariant,
    /// Written `=`: neither may stand for the other.
    Invariant,
}

/// A region parameter or a type parameter of a struct.
#[derive(Clone, Copy)]
pub struct Parameter {
    pub sign: Sign,
    /// Marked `?`: the struct's own drop doesn't need the argument to hold.
    pub may_dangle: bool,
}
