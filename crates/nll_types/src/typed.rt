//! Types by number.

/// A type with its regions: the number of its shape, and where in a list its row of regions begins.
#[derive(Clone, Copy)]
pub struct Typed {
    pub shape: usize,
    pub first: usize,
}
