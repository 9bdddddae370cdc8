//! One layer of a shape.

/// One layer of a shape, whose parts go by their numbers.
#[derive(Clone, PartialEq, Eq, Hash, Drop)]
pub enum Node {
    Int,
    /// A type parameter of a struct.
    Parameter(usize),
    /// A reference: whether it is `mut`, and what it points to.
    Reference(bool, usize),
    Tuple(Vec<usize>),
    /// A struct, the number of its region arguments, and its type arguments.
    Named(usize, usize, Vec<usize>),
    /// A function: its arguments, and its result.
    Function(Vec<usize>, usize),
}
