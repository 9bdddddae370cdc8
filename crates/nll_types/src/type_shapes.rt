//! The shapes of types, with the shapes of arguments substituted.

ghost use Rattle.std.specs.Prelude.{◌≡◌, ◌<◌, length, IfOk};
ghost use Rattle.nll_types.specs.Shapes.{shape_of, shapes_of};
ghost use Rattle.nll_types.specs.Shapes.{put_in_shape, put_in_shapes};
ghost use Rattle.nll_types.specs.Table.{Extends, AreBelow, shape_in, shapes_in, all_at};
ghost use Rattle.nll_types.specs.Views.{tree, trees};

use crate::node::Node;
use crate::shapes::Shapes;
use crate::ty::Ty;
use nll_sets::Memory;
use std::alloc::Global;

/// The number of the shape of a field's type, with the shapes of the type arguments substituted for
/// its parameters. Of a type without parameters it is the shape of the type.
///
/// # Cost
/// Linear in the field's type, however large the arguments are (not proved).
#[cycle(type_shapes)]
pub(crate) fn shape(
    alloc: Global,
    shapes: &mut Shapes,
    ty: &Ty,
    arguments: &[usize],
) -> Result<usize, Memory>
    ensures extends { Extends shapes.old shapes.new }
    ensures within { IfOk result (λ i. i < length shapes.new) }
    ensures at { IfOk result (λ i. AreBelow (length shapes.old) arguments.now
        → shape_in shapes.new i
        ≡ put_in_shape (all_at (shapes_in shapes.old) arguments.now) (shape_of (tree ty.now))) }
{
    match ty {
        Ty::Int => shapes.add(Node::Int),
        Ty::Parameter(number) => match arguments.get(*number) {
            Some(argument) if *argument < shapes.len() => Ok(*argument),
            _ => shapes.add(Node::Int),
        },
        Ty::Reference(_, mutable, target) => {
            let target = shape(alloc, shapes, target, arguments)?;
            shapes.add(Node::Reference(*mutable, target))
        }
        Ty::Tuple(parts) => {
            let parts = shape_all(alloc, shapes, parts.as_slice(), arguments)?;
            shapes.add(Node::Tuple(parts))
        }
        Ty::Named(number, regions, types) => {
            let types = shape_all(alloc, shapes, types.as_slice(), arguments)?;
            shapes.add(Node::Named(*number, regions.len(), types))
        }
        Ty::Function(inputs, returned) => {
            let inputs = shape_all(alloc, shapes, inputs.as_slice(), arguments)?;
            let returned = shape(alloc, shapes, returned, arguments)?;
            shapes.add(Node::Function(inputs, returned))
        }
    }
}

// The numbers of the shapes of types, with the shapes of the type arguments substituted.
#[cycle(type_shapes)]
fn shape_all(
    alloc: Global,
    shapes: &mut Shapes,
    parts: &[Ty],
    arguments: &[usize],
) -> Result<Vec<usize>, Memory>
    ensures extends { Extends shapes.old shapes.new }
    ensures within { IfOk result (λ v. AreBelow (length shapes.new) v.items) }
    ensures at { IfOk result (λ v. AreBelow (length shapes.old) arguments.now
        → all_at (shapes_in shapes.new) v.items
        ≡ put_in_shapes (all_at (shapes_in shapes.old) arguments.now)
        (shapes_of (trees parts.now))) }
{
    let mut made = Vec::with_capacity(alloc, parts.len())?;
    for part in parts {
        made.push_reserved(shape(alloc, shapes, part, arguments)?);
    }
    Ok(made)
}
