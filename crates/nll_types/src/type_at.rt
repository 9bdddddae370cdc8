//! Types where they are kept.

ghost use Rattle.std.specs.Prelude.{◌<◌, length};
ghost use Rattle.nll_types.specs.Table.{AreBelow};

use crate::body_types::BodyTypes;
use crate::typed::Typed;
use nll_problem::RegionId;

/// A type where it is kept, seen as the tree that it means. It takes no memory.
#[derive(Clone, Copy)]
pub struct TypeAt<'a> {
    pub types: &'a BodyTypes,
    pub ty: Typed,
    pub ghost within: { ty.shape < length types.now.table.shapes },
}

/// Types in a row where they are kept: the numbers of their shapes, and where in the list of
/// regions the first one's row begins.
#[derive(Clone, Copy)]
pub struct TypesAt<'a> {
    pub types: &'a BodyTypes,
    pub shapes: &'a [usize],
    pub first: usize,
    pub ghost within: { AreBelow (length types.now.table.shapes) shapes.now },
}

/// The outermost layer of a type, over its parts where they are kept. Its forms are those of `Ty`.
#[derive(Clone, Copy)]
pub enum TypeForm<'a> {
    Int,
    Parameter(usize),
    Reference(RegionId, bool, TypeAt<'a>),
    Tuple(TypesAt<'a>),
    Named(usize, &'a [RegionId], TypesAt<'a>),
    Function(TypesAt<'a>, TypeAt<'a>),
}
