//! What searches backwards in a body go by, made once for all of them.

ghost use Rattle.std.specs.Prelude.{◌≡◌, ◌↔◌, ◌<◌, ℕ, length, Contains, IfOk};
ghost use Rattle.nll_live.specs.Kinds.{KeepsAt};
ghost use Rattle.nll_live.specs.Searches.{AreOfBody};

use crate::chains::chain_starts;
use crate::kind::Kind;
use crate::points_by_variable::{definitions_by_variable, drops_by_variable, uses_by_variable};
use nll_body::Body;
use nll_problem::Predecessors;
use nll_sets::Memory;
use std::alloc::Global;

/// A body, the predecessors of its points, for each point the first one of its chain, and for each
/// variable the points that use it, those that drop it, and those that define it, ascending.
#[derive(Drop)]
pub(crate) struct Ways<'b> {
    pub(crate) body: &'b Body,
    pub(crate) previous: Predecessors<'b>,
    pub(crate) starts: Vec<u32>,
    pub(crate) uses: Vec<Vec<u32>>,
    pub(crate) drops: Vec<Vec<u32>>,
    pub(crate) definitions: Vec<Vec<u32>>,
}

impl<'b> Ways<'b> {
    /// What searches in a body go by.
    pub(crate) fn of(alloc: Global, body: &'b Body) -> Result<Ways<'b>, Memory>
        ensures body { IfOk result (λ ways. ways.body.now ≡ body.now) }
        ensures ways { IfOk result AreOfBody }
    {
        let previous = Predecessors::of(alloc, body.graph())?;
        let starts = chain_starts(alloc, &previous, body.points())?;
        let uses = uses_by_variable(alloc, body)?;
        let drops = drops_by_variable(alloc, body)?;
        let definitions = definitions_by_variable(alloc, body)?;
        Ok(Ways {
            body,
            previous,
            starts,
            uses,
            drops,
            definitions,
        })
    }

    /// The points that use a variable, or those that drop it.
    pub(crate) fn ends(&self, kind: Kind, variable: u32) -> &[u32]
        requires ways { AreOfBody self.now }
        requires variable { variable < length self.now.body.now.variables }
        ensures { (p : ℕ) → Contains result.now p ↔ KeepsAt kind self.now.body.now variable p }
    {
        match kind {
            Kind::Use => self.uses[variable as usize].as_slice(),
            Kind::Drop => self.drops[variable as usize].as_slice(),
        }
    }
}
