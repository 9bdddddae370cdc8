//! Types as trees.

use nll_problem::RegionId;

/// A type with its regions. Structs and type parameters go by their numbers.
///
/// # Shape
/// A type that a body may have has at most 4,096 nodes. The calls on types recurse to its depth.
#[derive(Drop)]
pub enum Ty {
    Int,
    /// A type parameter of a struct, in the fields of its declaration.
    Parameter(usize),
    /// A reference: its region, whether it is `mut`, and what it points to.
    Reference(RegionId, bool, Box<Ty>),
    Tuple(Vec<Ty>),
    /// A struct with its region arguments and its type arguments.
    Named(usize, Vec<RegionId>, Vec<Ty>),
    /// A function: the types of its arguments, and that of its result.
    Function(Vec<Ty>, Box<Ty>),
}
