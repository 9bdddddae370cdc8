//! Types that are made of those that were made before, the newest last.

ghost use Rattle.std.specs.Prelude.{◌≡◌, ◌<◌, List, length, IfOk, IsTrue};
ghost use Rattle.nll_types.specs.Shapes.{Shape, shape_of};
ghost use Rattle.nll_types.specs.Table.{AreBelow, all_at, shape_in, shape_over, shapes_in};
ghost use Rattle.nll_types.specs.Tables.{AddsShapes};
ghost use Rattle.nll_types.specs.Types.{TypeTree};
ghost use Rattle.nll_mir_text.specs.Resolving.{AreShaped, IsHeadBelow, all_but_last, newest_type};
ghost use Rattle.nll_mir_text.specs.Resolving.{shape_with};

use nll_sets::Memory;
use nll_types::{Node, TypeTable};
use std::alloc::Global;

// How far after its last part a shape is looked for.
const NEAR: usize = 16;

/// The shapes of the types that are made, the newest last.
pub(crate) type Made = Vec<usize>;

/// A node without its row of parts.
#[derive(Clone, Copy)]
pub(crate) enum Head {
    Reference(bool, usize),
    Tuple,
    Named(usize, usize),
    Function(usize),
}

// Whether a node has this head and these parts.
fn is_of(node: &Node, head: Head, parts: &[usize]) -> bool
    ensures { IsTrue result → (known : List Shape)
        → shape_over known node.now ≡ shape_with known head (all_at known parts.now) }
{
    match (node, head) {
        (Node::Reference(m, t), Head::Reference(n, u)) => *m == n && *t == u,
        (Node::Tuple(ts), Head::Tuple) => ts.as_slice() == parts,
        (Node::Named(n, k, ts), Head::Named(m, l)) => *n == m && *k == l && ts.as_slice() == parts,
        (Node::Function(ts, t), Head::Function(u)) => *t == u && ts.as_slice() == parts,
        _ => false,
    }
}

/// The number of the shape with this head and these parts. Most come soon after their last parts,
/// and are found there without hashing.
pub(crate) fn number_of(
    alloc: Global,
    table: &mut TypeTable,
    head: Head,
    parts: &[usize],
) -> Result<usize, Memory>
    requires head { IsHeadBelow (length table.old.shapes) head }
    requires parts { AreBelow (length table.old.shapes) parts.now }
    ensures grows { AddsShapes table.old table.new }
    ensures within { IfOk result (λ i. i < length table.new.shapes) }
    ensures at { IfOk result (λ i. shape_in table.new.shapes i
        ≡ shape_with (shapes_in table.old.shapes) head
        (all_at (shapes_in table.old.shapes) parts.now)) }
{
    let shapes = table.shapes();
    let count = shapes.len();
    let from = match parts.last() {
        Some(last) => last + 1,
        None => 0,
    };
    let end = from + NEAR.min(count - from);
    for shape in from..end {
        if is_of(shapes.node(shape), head, parts) {
            return Ok(shape);
        }
    }
    match head {
        Head::Reference(mutable, target) => table.add(Node::Reference(mutable, target)),
        Head::Tuple => table.add(Node::Tuple(Vec::from_slice(alloc, parts)?)),
        Head::Named(n, k) => table.add(Node::Named(n, k, Vec::from_slice(alloc, parts)?)),
        Head::Function(output) => table.add(Node::Function(Vec::from_slice(alloc, parts)?, output)),
    }
}

/// Takes the newest shape off; that of `int` where there is none.
pub(crate) fn pop(table: &mut TypeTable, made: &mut Made) -> Result<usize, Memory>
    requires { AreBelow (length table.old.shapes) made.old.items }
    ensures grows { AddsShapes table.old table.new }
    ensures within { IfOk result (λ i. i < length table.new.shapes) }
    ensures newest { IfOk result (λ i. (ts : List TypeTree)
        → AreShaped table.old.shapes ts made.old.items
        → shape_in table.new.shapes i ≡ shape_of (newest_type ts)) }
    ensures older { made.new.items ≡ all_but_last made.old.items }
{
    match made.pop() {
        Some(shape) => Ok(shape),
        None => table.int(),
    }
}
