//! Which nodes of a graph are reached from its roots: the smallest analysis by keepers.
//!
//! The engine is in `reach`; the definitions are in specs/: `Reach`.
#![tactic(auto)]

ghost use Rattle.std.specs.Prelude.{◌<◌, ◌≤◌};

mod reach;

pub use reach::least_is_reached;

/// A graph whose nodes are assigned to owners: node n to owner n modulo their number.
#[derive(Drop)]
pub struct Graph<'q> {
    /// For each node where the edges from there lead. A node past the end has none.
    pub edges: &'q [Vec<u32>],
    pub roots: &'q [u32],
    pub owners: u16,
    ghost some: { 0 < owners },
    ghost few: { owners ≤ 64 },
}
