//! A problem with what a solver looks up in it.

ghost use Rattle.std.specs.Prelude.{◌≡◌, ◌↔◌, AllPairs, Contains, IfOk};
ghost use Rattle.nll_problem.specs.Graph.{element_count};
ghost use Rattle.nll_problem.specs.Problem.{IsSound};
ghost use Rattle.nll_problem.specs.ConstraintIndex.{IsLower};
ghost use Rattle.nll_problem.specs.declared.constraint.Constraint as spec;
ghost use Rattle.nll_core.specs.Worklist.{AreRegions};

use crate::lines::Lines;
use crate::order::order_of;
use nll_problem::{Constraint, ConstraintIndex, Problem, RegionId};
use nll_sets::Memory;
use std::alloc::Global;
use std::marker::Model;

/// A problem, its graph as lines, and its constraints by the region that they read. Contracts see
/// it as the problem.
#[derive(Drop)]
pub struct Indexed<'p> {
    pub problem: &'p Problem,
    pub lines: &'p Lines,
    pub index: &'p ConstraintIndex,
}

impl<'p> Model for Indexed<'p> {
    ghost use Rattle.std.specs.Prelude.{◌≡◌};
    ghost use Rattle.nll_problem.specs.Problem as spec;
    ghost use Rattle.nll_problem.specs.Problem.{SameSet};

    ghost Value = { spec.Problem };

    ghost view = { λ p. p.problem.now };

    ghost invariant = { λ p. (p.lines.now ≡ p.problem.now.graph)
        × SameSet p.index.now p.problem.now.constraints };
}

impl<'p> Indexed<'p> {
    /// The regions, in a good order to visit them backwards.
    ///
    /// # Errors
    /// - `Memory`.
    pub fn order(&self, alloc: Global) -> Result<Vec<u32>, Memory>
        ensures { IfOk result (λ order. AreRegions self.now order.items) }
    {
        order_of(alloc, self.problem, self.index)
    }

    /// How many elements there are.
    pub fn elements(&self) -> u32
        ensures { result ≡ element_count self.now.graph }
    {
        self.lines.elements()
    }

    /// How many regions there are.
    pub fn regions(&self) -> u32
        ensures value { result ≡ self.now.regions }
        ensures sound { IsSound self.now }
    {
        self.problem.regions()
    }

    /// The graph as lines.
    pub fn lines(&self) -> &Lines
        ensures { result.now ≡ self.now.graph }
    {
        self.lines
    }

    /// The constraints that read a region, ascending by `sup` and those of one `sup` by `at`.
    pub fn reading(&self, sub: RegionId) -> &[Constraint]
        ensures each { (c : spec.Constraint)
            → Contains result.now c ↔ (Contains self.now.constraints c × (c.sub ≡ sub)) }
        ensures ascending { AllPairs IsLower result.now }
    {
        self.index.reading(sub)
    }
}
