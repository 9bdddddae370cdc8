//! What a reader gathers for a body.

use crate::statements::Statements;
use nll_format::Names;
use nll_types::{BodyTypes, Typed};

/// The parts of a body.
#[derive(Drop)]
pub struct BodyParts {
    /// The names of its regions: `static`, the other universal ones, and the others.
    pub names: Names,
    /// How many regions are universal, `'static` included.
    pub universals: u32,
    /// Of each pair of universal regions the first is known to outlive the second.
    pub outlives: Vec<(u32, u32)>,
    /// Of each pair of regions the first must hold, at all points, what the second holds.
    pub asserts: Vec<(u32, u32)>,
    /// Its structs, and the shapes and the regions of all types.
    pub types: BodyTypes,
    /// The types of its variables.
    pub variables: Vec<Typed>,
    /// The first point of each block.
    pub starts: Vec<u32>,
    /// The statement or terminator at each point.
    pub points: Statements,
}
