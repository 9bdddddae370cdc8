//! Types with their regions erased, each kept once.

ghost use Rattle.std.specs.Prelude.{IsTrue, ◌↔◌, ◌≡◌, ◌<◌, ◌+◌, [], length, min};
ghost use Rattle.std.specs.Prelude.{IfOk, slice_index, ℕ, sum_by};
ghost use Rattle.nll_problem.specs.Limits.{most_nodes};
ghost use Rattle.nll_types.specs.Shapes.{int_shape, shape_nodes, is_small_shape};
ghost use Rattle.nll_types.specs.Table.{IsOver, Extends, IsShapeTable};
ghost use Rattle.nll_types.specs.Table.{shape_in, shape_over, shapes_in};
ghost use Rattle.nll_types.specs.Table as spec;

use crate::limits::MAX_NODES;
use crate::node::Node;
use indexmap::IndexSet;
use nll_sets::Memory;
use std::alloc::Global;
use std::marker::Model;

// One more than a type may have: sizes are counted as far as this.
const TOO_MANY: usize = MAX_NODES + 1;

/// Shapes by number: types without their regions. Equal shapes have one number.
///
/// # Shape
/// A shape may be far larger than a type may be: only its number of nodes is cut off.
#[derive(Drop)]
pub struct Shapes {
    nodes: IndexSet<Node>,
    sizes: Vec<usize>,
    // Where an `int` may be: it is requested so often that its number is looked up here first.
    int: usize,
}

impl Model for Shapes {
    ghost use Rattle.std.specs.Prelude.{List};
    ghost use Rattle.nll_types.specs.declared.node.Node.{Node as node};
    ghost use Rattle.nll_types.specs.Table.{IsShapeTable};

    ghost Value = { List node };

    ghost view = { λ shapes. shapes.nodes.keys };

    ghost invariant = { λ shapes. IsShapeTable shapes.nodes.keys shapes.sizes.items };
}

// How many nodes some parts have together and one, as far as is counted.
fn count(sizes: &[usize], parts: &[usize]) -> usize
    requires { (k : ℕ) → k < length parts.now → slice_index parts.now k < length sizes.now }
    ensures { result ≡ min (most_nodes + 1) (sum_by (λ p. slice_index sizes.now p) parts.now + 1) }
{
    let mut all = 1;
    for part in parts {
        all = TOO_MANY.min(all + sizes[*part].min(TOO_MANY));
    }
    all
}

// How many nodes the shape of a node has over parts of these sizes, as far as is counted.
fn size_over(sizes: &[usize], node: &Node) -> usize
    requires { IsOver (length sizes.now) node.now }
    ensures { result ≡ spec.size_over sizes.now node.now }
{
    match node {
        Node::Int | Node::Parameter(_) => 1,
        Node::Reference(_, target) => TOO_MANY.min(sizes[*target].min(TOO_MANY) + 1),
        Node::Tuple(parts) | Node::Named(_, _, parts) => count(sizes, parts.as_slice()),
        Node::Function(arguments, returned) => {
            let returned = sizes[*returned].min(TOO_MANY);
            TOO_MANY.min(returned + count(sizes, arguments.as_slice()))
        }
    }
}

// The number of the shape that a node makes of those of a table. The node is added to the table if
// it isn't there.
fn intern(nodes: &mut IndexSet<Node>, sizes: &mut Vec<usize>, node: Node) -> Result<usize, Memory>
    requires table { IsShapeTable nodes.old.keys sizes.old.items }
    requires over { IsOver (length nodes.old.keys) node }
    ensures table { IsShapeTable nodes.new.keys sizes.new.items }
    ensures extends { Extends nodes.old.keys nodes.new.keys }
    ensures within { IfOk result (λ i. i < length nodes.new.keys) }
    ensures at { IfOk result (λ i. shape_in nodes.new.keys i
        ≡ shape_over (shapes_in nodes.old.keys) node) }
{
    let size = size_over(sizes.as_slice(), &node);
    sizes.reserve(1)?;
    let (place, new) = nodes.insert_full(node)?;
    if new {
        sizes.push_reserved(size);
    }
    Ok(place)
}

impl Shapes {
    /// No shape yet.
    pub fn new(alloc: Global) -> Shapes
        ensures { result ≡ [] }
    {
        Shapes {
            nodes: IndexSet::new(alloc),
            sizes: Vec::new(alloc),
            int: 0,
        }
    }

    /// A table of its own with the same shapes: it has as many numbers, and each number has the
    /// shape that it has here.
    ///
    /// # Cost
    /// Linear in the table (not proved).
    ///
    /// # Source
    /// Project's choice.
    pub fn copy(&self, alloc: Global) -> Result<Shapes, Memory>
        ensures { IfOk result (λ s. shapes_in s ≡ shapes_in self.now) }
    {
        let sizes = Vec::from_slice(alloc, self.sizes.as_slice())?;
        let nodes = self.nodes.clone()?;
        Ok(Shapes {
            nodes,
            sizes,
            int: self.int,
        })
    }

    /// How many shapes have numbers.
    pub fn len(&self) -> usize
        ensures { result ≡ length self.now }
    {
        self.nodes.len()
    }

    /// The outermost layer of a shape.
    pub fn node(&self, shape: usize) -> &Node
        requires { shape < length self.now }
        ensures at { shape_in self.now shape ≡ shape_over (shapes_in self.now) result.now }
        ensures over { IsOver shape result.now }
    {
        &self.nodes[shape]
    }

    /// How many nodes a shape has, or one more than a type may have, where it has more.
    pub fn size(&self, shape: usize) -> usize
        requires { shape < length self.now }
        ensures { result ≡ min (most_nodes + 1) (shape_nodes (shape_in self.now shape)) }
    {
        self.sizes[shape]
    }

    /// Whether a shape has no more nodes than a type may have.
    pub fn is_small(&self, shape: usize) -> bool
        requires { shape < length self.now }
        ensures { result ≡ is_small_shape (shape_in self.now shape) }
    {
        self.size(shape) <= MAX_NODES
    }

    /// Whether two numbers are of one shape.
    pub fn is_same(&self, a: usize, b: usize) -> bool
        requires a { a < length self.now }
        requires b { b < length self.now }
        ensures { IsTrue result ↔ (shape_in self.now a ≡ shape_in self.now b) }
    {
        let _nodes = self.nodes.len();
        a == b
    }

    /// The number of the shape that a node makes of earlier ones. After an error each number has
    /// the shape that it had.
    pub fn add(&mut self, node: Node) -> Result<usize, Memory>
        requires { IsOver (length self.old) node }
        ensures extends { Extends self.old self.new }
        ensures within { IfOk result (λ i. i < length self.new) }
        ensures at { IfOk result (λ i. shape_in self.new i ≡ shape_over (shapes_in self.old) node) }
    {
        intern(&mut self.nodes, &mut self.sizes, node)
    }

    /// The number of `int`, by the same rules.
    pub fn int(&mut self) -> Result<usize, Memory>
        ensures extends { Extends self.old self.new }
        ensures within { IfOk result (λ i. i < length self.new) }
        ensures at { IfOk result (λ i. shape_in self.new i ≡ int_shape) }
    {
        let int = self.int;
        if int < self.len() && matches!(self.node(int), Node::Int) {
            return Ok(int);
        }
        self.int = self.add(Node::Int)?;
        Ok(self.int)
    }
}
