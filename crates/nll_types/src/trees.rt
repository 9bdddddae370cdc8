//! Types as trees, made of a shape and a row of regions.

ghost use Rattle.std.specs.Prelude.{◌≡◌, ◌<◌, length, drop, IfOk};
ghost use Rattle.nll_types.specs.Rows.{filled, all_filled};
ghost use Rattle.nll_types.specs.Table.{AreBelow, all_at, shape_in, shapes_in};
ghost use Rattle.nll_types.specs.Views.{tree, trees};

use crate::node::Node;
use crate::rows::take_regions;
use crate::shapes::Shapes;
use crate::ty::Ty;
use nll_problem::RegionId;
use nll_sets::Memory;
use std::alloc::Global;

/// The type of a shape whose row of regions is at this place, which is then behind the row.
///
/// # Cost
/// Linear in the type (not proved).
#[cycle(trees)]
pub(crate) fn tree_of(
    alloc: Global,
    shapes: &Shapes,
    shape: usize,
    regions: &[RegionId],
    at: &mut usize,
) -> Result<Ty, Memory>
    requires { shape < length shapes.now }
    ensures tree { IfOk result
        (λ t. tree t ≡ (filled (shape_in shapes.now shape) (drop at.old regions.now)).0) }
    ensures rest { IfOk result (λ _. drop at.new regions.now
        ≡ (filled (shape_in shapes.now shape) (drop at.old regions.now)).1) }
{
    match shapes.node(shape) {
        Node::Int => Ok(Ty::Int),
        Node::Parameter(number) => Ok(Ty::Parameter(*number)),
        Node::Reference(mutable, target) => {
            let target = Box::new(alloc, tree_of(alloc, shapes, *target, regions, at)?)?;
            let region = take_regions(regions, 1, at).first().copied();
            Ok(Ty::Reference(region.unwrap_or(RegionId(0)), *mutable, target))
        }
        Node::Tuple(parts) => {
            let parts = trees_of(alloc, shapes, parts.as_slice(), regions, at)?;
            Ok(Ty::Tuple(parts))
        }
        Node::Named(number, count, parts) => {
            let types = trees_of(alloc, shapes, parts.as_slice(), regions, at)?;
            let own = Vec::from_slice(alloc, take_regions(regions, *count, at))?;
            Ok(Ty::Named(*number, own, types))
        }
        Node::Function(inputs, output) => {
            let inputs = trees_of(alloc, shapes, inputs.as_slice(), regions, at)?;
            let output = Box::new(alloc, tree_of(alloc, shapes, *output, regions, at)?)?;
            Ok(Ty::Function(inputs, output))
        }
    }
}

// The types of shapes whose rows of regions are at this place, one after another.
#[cycle(trees)]
fn trees_of(
    alloc: Global,
    shapes: &Shapes,
    parts: &[usize],
    regions: &[RegionId],
    at: &mut usize,
) -> Result<Vec<Ty>, Memory>
    requires { AreBelow (length shapes.now) parts.now }
    ensures trees { IfOk result (λ v. trees v.items
        ≡ (all_filled (all_at (shapes_in shapes.now) parts.now) (drop at.old regions.now)).0) }
    ensures rest { IfOk result (λ _. drop at.new regions.now
        ≡ (all_filled (all_at (shapes_in shapes.now) parts.now) (drop at.old regions.now)).1) }
{
    let mut made = Vec::with_capacity(alloc, parts.len())?;
    for part in parts {
        made.push_reserved(tree_of(alloc, shapes, *part, regions, at)?);
    }
    Ok(made)
}
