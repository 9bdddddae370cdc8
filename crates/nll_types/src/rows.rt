//! Rows of regions.

ghost use Rattle.std.specs.Prelude.{◌≡◌, ◌<◌, length, take, drop};
ghost use Rattle.nll_types.specs.Rows.{filled, all_filled};
ghost use Rattle.nll_types.specs.Table.{AreBelow, all_at, shape_in, shapes_in};

use crate::node::Node;
use crate::shapes::Shapes;
use nll_problem::RegionId;

/// The next regions, this many of them as far as there are so many. They are then passed.
pub(crate) fn take_regions<'a>(
    regions: &'a [RegionId],
    count: usize,
    at: &mut usize,
) -> &'a [RegionId]
    ensures taken { result.now ≡ take count (drop at.old regions.now) }
    ensures rest { drop at.new regions.now ≡ drop count (drop at.old regions.now) }
{
    let from = (*at).min(regions.len());
    let end = from + count.min(regions.len() - from);
    *at = end;
    &regions[from..end]
}

/// Passes the row of a type of this shape.
///
/// # Cost
/// Linear in the type; it recurses to its depth (not proved).
#[cycle(rows)]
pub(crate) fn pass_row(shapes: &Shapes, shape: usize, regions: &[RegionId], at: &mut usize)
    requires { shape < length shapes.now }
    ensures { drop at.new regions.now
        ≡ (filled (shape_in shapes.now shape) (drop at.old regions.now)).1 }
{
    match shapes.node(shape) {
        Node::Int | Node::Parameter(_) => {}
        Node::Reference(_, target) => {
            pass_row(shapes, *target, regions, at);
            let _ = take_regions(regions, 1, at);
        }
        Node::Tuple(parts) => pass_rows(shapes, parts.as_slice(), regions, at),
        Node::Named(_, count, parts) => {
            pass_rows(shapes, parts.as_slice(), regions, at);
            let _ = take_regions(regions, *count, at);
        }
        Node::Function(inputs, output) => {
            pass_rows(shapes, inputs.as_slice(), regions, at);
            pass_row(shapes, *output, regions, at);
        }
    }
}

/// Passes the rows of types of these shapes, one after another.
#[cycle(rows)]
pub(crate) fn pass_rows(shapes: &Shapes, parts: &[usize], regions: &[RegionId], at: &mut usize)
    requires { AreBelow (length shapes.now) parts.now }
    ensures { drop at.new regions.now
        ≡ (all_filled (all_at (shapes_in shapes.now) parts.now) (drop at.old regions.now)).1 }
{
    for part in parts {
        pass_row(shapes, *part, regions, at);
    }
}
