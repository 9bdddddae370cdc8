//! What is found of places, operands and types, and whether two that are found fit.

ghost use Rattle.std.specs.Prelude.{◌≡◌, ◌↔◌, ◌&&◌, ◌<◌, ℕ, Bool, Option, Some, true, length};
ghost use Rattle.std.specs.Prelude.{IfSome, IsTrue};
ghost use Rattle.nll_types.specs.Operands.{reference_to};
ghost use Rattle.nll_types.specs.Shapes.{shape_of, is_small, reference_shape};
ghost use Rattle.nll_types.specs.Table.{shape_in};
ghost use Rattle.nll_types.specs.Types.{TypeTree};
ghost use Rattle.nll_body.specs.Found.{IsShapeFound};
ghost use Rattle.nll_body.specs.Judging as spec;
ghost use Rattle.nll_body.specs.Judging.{IsJudged};

use crate::judgement::Judgement;
use nll_types::{Node, Shapes};

/// What is found of a place or operand, or of a type that is written.
#[derive(Clone, Copy)]
pub(crate) struct Found {
    /// Its variable is declared, where it has one.
    pub(crate) declared: bool,
    /// The number of the shape of its type, where it has a type.
    pub(crate) shape: Option<usize>,
    /// Whether the types that led to that shape are small, where it has one.
    pub(crate) small: bool,
}

/// A type of this shape.
pub(crate) fn shape_found(shapes: &Shapes, shape: usize) -> Found
    requires { shape < length shapes.now }
    ensures declared { result.declared ≡ true }
    ensures within { IfSome result.shape (λ s. s < length shapes.now) }
    ensures found { (t : TypeTree) → shape_in shapes.now shape ≡ shape_of t
        → IsShapeFound shapes.now result.shape result.small (Some t) (is_small t) }
{
    Found {
        declared: true,
        shape: Some(shape),
        small: shapes.is_small(shape),
    }
}

/// Whether both have a type, and one shape.
pub(crate) fn agree(shapes: &Shapes, one: Found, other: Found) -> Judgement
    requires one { IfSome one.shape (λ s. s < length shapes.now) }
    requires other { IfSome other.shape (λ s. s < length shapes.now) }
    ensures declared { result.declared ≡ (one.declared && other.declared) }
    ensures judged { (t u : Option TypeTree) (p q : Bool)
        → IsShapeFound shapes.now one.shape one.small t p
        → IsShapeFound shapes.now other.shape other.small u q
        → IsJudged (spec.agree t u) (p && q) result }
{
    let declared = one.declared & other.declared;
    match one.shape {
        Some(shape) => match other.shape {
            Some(other_shape) => {
                let fits = shapes.is_same(shape, other_shape);
                Judgement {
                    declared,
                    fits,
                    small: fits & (one.small & other.small),
                }
            }
            None => Judgement::unfit(declared),
        },
        None => Judgement::unfit(declared),
    }
}

// Whether a shape is that of a reference to one of the target's shape.
fn is_reference(shapes: &Shapes, shape: usize, mutable: bool, target: usize) -> bool
    requires shape { shape < length shapes.now }
    requires target { target < length shapes.now }
    ensures { IsTrue result ↔ (reference_shape mutable (shape_in shapes.now target)
        ≡ shape_in shapes.now shape) }
{
    match shapes.node(shape) {
        Node::Reference(marked, behind) => {
            let same = shapes.is_same(*behind, target);
            (*marked == mutable) & same
        }
        Node::Int
        | Node::Parameter(_)
        | Node::Tuple(_)
        | Node::Named(_, _, _)
        | Node::Function(_, _) => false,
    }
}

/// Whether both have a type, and the second the shape of a reference to the first.
pub(crate) fn refers(shapes: &Shapes, mutable: bool, borrowed: Found, place: Found) -> Judgement
    requires borrowed { IfSome borrowed.shape (λ s. s < length shapes.now) }
    requires place { IfSome place.shape (λ s. s < length shapes.now) }
    ensures declared { result.declared ≡ (borrowed.declared && place.declared) }
    ensures judged { (t u : Option TypeTree) (r : ℕ) (p q : Bool)
        → IsShapeFound shapes.now borrowed.shape borrowed.small t p
        → IsShapeFound shapes.now place.shape place.small u q
        → IsJudged (spec.agree (reference_to r mutable t) u) (p && q) result }
{
    let declared = borrowed.declared & place.declared;
    match borrowed.shape {
        Some(target) => match place.shape {
            Some(shape) => {
                let fits = is_reference(shapes, shape, mutable, target);
                Judgement {
                    declared,
                    fits,
                    small: fits & (borrowed.small & place.small),
                }
            }
            None => Judgement::unfit(declared),
        },
        None => Judgement::unfit(declared),
    }
}
