//! The shapes behind projections.

ghost use Rattle.std.specs.Prelude.{◌≡◌, ◌<◌, length, IfOk, IfSome, option_map};
ghost use Rattle.nll_types.specs.Declarations.{structs_of};
ghost use Rattle.nll_types.specs.Shapes.{behind_shape};
ghost use Rattle.nll_types.specs.Table.{Extends, shape_in};
ghost use Rattle.nll_types.specs.declared.place.Projection.TheVariants.{Field as field};

use crate::node::Node;
use crate::shapes::Shapes;
use crate::structs::Structs;
use crate::type_shapes::shape;
use nll_sets::Memory;
use std::alloc::Global;

/// The shape of the part of a tuple or of the field of a struct, where there is one.
///
/// # Errors
/// Out of memory: each number has the shape that it had.
///
/// # Cost
/// Of a part: constant. Of a field: linear in its declared type (not proved).
pub fn part(
    alloc: Global,
    structs: &Structs,
    shapes: &mut Shapes,
    number: usize,
    place: usize,
) -> Result<Option<usize>, Memory>
    requires { number < length shapes.old }
    ensures extends { Extends shapes.old shapes.new }
    ensures within { IfOk result (λ o. IfSome o (λ i. i < length shapes.new)) }
    ensures at { IfOk result (λ o. option_map (shape_in shapes.new) o
        ≡ behind_shape (structs_of structs.now) (field place) (shape_in shapes.old number)) }
{
    match shapes.node(number) {
        Node::Tuple(parts) => Ok(parts.get(place).copied()),
        Node::Named(named, _, arguments) => match structs.field(*named, place) {
            Some(ty) => {
                let arguments = Vec::from_slice(alloc, arguments.as_slice())?;
                let made = shape(alloc, shapes, ty, arguments.as_slice())?;
                Ok(Some(made))
            }
            None => Ok(None),
        },
        _ => Ok(None),
    }
}
