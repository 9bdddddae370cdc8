//! The steps of a graph, by where they leave and by where they land.

ghost use Rattle.std.specs.Prelude.{◌≡◌, IfOk};

use crate::frontiers::landings::Landings;
use crate::lines::Lines;
use nll_problem::Graph;
use nll_sets::Memory;
use std::alloc::Global;
use std::marker::Model;

/// The steps of a graph, made once and lent. Contracts see it as the graph.
///
/// # Cost
/// Some 4 bytes a point and 16 bytes a step that doesn't lead to the next point (not proved).
#[derive(Drop)]
pub struct Steps {
    pub(crate) lines: Lines,
    pub(crate) landings: Landings,
}

impl Model for Steps {
    ghost use Rattle.std.specs.Prelude.{◌≡◌};
    ghost use Rattle.nll_problem.specs.Graph as spec;

    ghost Value = { spec.Graph };

    ghost view = { λ s. s.lines };

    ghost invariant = { λ s. s.landings ≡ s.lines };
}

impl Steps {
    /// The steps of a graph.
    ///
    /// # Cost
    /// One pass over the points, and a sort of the steps that don't lead to the next point (not
    /// proved).
    pub fn of(alloc: Global, graph: &Graph) -> Result<Steps, Memory>
        ensures { IfOk result (λ steps. steps ≡ graph.now) }
    {
        let lines = Lines::of(alloc, graph)?;
        match Landings::of(alloc, graph, &lines) {
            Ok(landings) => Ok(Steps { lines, landings }),
            Err(error) => Err(error),
        }
    }
}
