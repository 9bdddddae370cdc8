//! Operands: what the right side of a statement reads.

use crate::place::Place;

/// An operand.
#[derive(Drop)]
pub enum Operand {
    /// A constant, an `int`.
    Const,
    /// A place whose value is copied.
    Copy(Place),
    /// A place whose value is moved out of it.
    Move(Place),
}
