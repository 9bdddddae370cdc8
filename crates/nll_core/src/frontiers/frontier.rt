//! What constraints ask for, kept while elements are added to the set inside which they ask.

ghost use Rattle.std.specs.Prelude.{◌≡◌, ◌↔◌, ℕ, ◌≤◌, ◌<◌, true, false, [], ◌∷◌, ◌++◌, Contains};
ghost use Rattle.std.specs.Prelude.{length, max, OnOk, OnErr};
ghost use Rattle.nll_problem.specs.Graph.{element_count};
ghost use Rattle.nll_core.specs.Search.{IsIn};
ghost use Rattle.nll_core.specs.Frontiers.{IsFrontierIn, IsWithout, AppendsNew};
ghost use Rattle.nll_core.specs.Frontiers.{MayGrowByRun, GrowsByRun, IsIdle, first_frontier};
ghost use Rattle.nll_problem.specs.At.{at_rank};
ghost use Rattle.nll_problem.specs.declared.at.At.{At as places};

use crate::frontiers::continuation::{is_idle, resume};
use crate::frontiers::element_growth::go_on;
use crate::frontiers::places::Places;
use crate::frontiers::steps::Steps;
use nll_problem::{At, Graph};
use nll_sets::{Element, ElementSet, Memory, Run, RunSet};
use std::alloc::Global;
use std::marker::Model;

/// What constraints ask for inside a set, kept while elements are added to the set: what walks from
/// their points reach; all of the set, where one holds at all points. (It isn't the worklist of a
/// breadth-first search, which is also called a frontier.)
///
/// # Cost
/// Where a constraint holds at all points, a call looks at the run alone. Otherwise it looks at the
/// jumps that land in the run, and follows only what it newly reaches, by stretches of lines. Where
/// the run has an end, it looks at the return points or at the reached runs, whichever are fewer
/// (not proved).
#[derive(Drop)]
pub struct Frontier {
    starts: Places,
    reached: RunSet,
    refusal: Option<Memory>,
}

impl Model for Frontier {
    ghost use Rattle.std.specs.Prelude.{is_some};
    ghost use Rattle.nll_core.specs.Frontiers as spec;

    ghost Value = { spec.Frontier };

    ghost view = { λ f. record {
      starts = f.starts;
      reached = f.reached;
      refused = is_some f.refusal;
    } };
}

impl Frontier {
    /// A frontier of a constraint that holds at `at`, which has reached nothing yet. Takes no
    /// memory.
    pub fn new(alloc: Global, at: At) -> Frontier
        ensures { result ≡ first_frontier (at ∷ []) }
    {
        Frontier {
            starts: Places::of(alloc, at),
            reached: RunSet::new(alloc),
            refusal: None,
        }
    }

    /// Appends where a further constraint holds.
    ///
    /// # Errors
    /// - `Memory`: the frontier is as before.
    pub fn add(&mut self, _alloc: Global, at: At) -> Result<(), Memory>
        requires { (x : places) → Contains self.old.starts x → at_rank x < at_rank at }
        ensures ok { OnOk result
            (self.new ≡ record self.old { starts = self.old.starts ++ at ∷ [] }) }
        ensures err { OnErr result (self.new ≡ self.old) }
    {
        self.starts.push(at)
    }

    /// Whether going on from a run of elements reaches nothing, since nothing is reached yet, no
    /// constraint holds at all points, and no walk begins in the run.
    ///
    /// # Cost
    /// A binary search among the points (not proved).
    pub fn is_idle(&self, run: Run) -> bool
        ensures { (result ≡ true) ↔ IsIdle self.now.starts run self.now.reached }
    {
        is_idle(&self.starts, run, &self.reached)
    }

    /// Reaches what can be reached once an element is in the set: where a walk begins there, or a
    /// step leads there from what is reached, walks go on through it; so walks that a missing
    /// element stopped go on once it is added. Where a constraint holds at all points, that is the
    /// element itself. Appends what is newly reached to a list, each element once.
    ///
    /// # Errors
    /// - `Memory`: the list is as before; each later call answers `Memory` too.
    ///
    /// # Cost
    /// Where no walk begins at the element, looks for a step there from what is reached: first from
    /// the point before it and those after that, then from the others; for an end, from the return
    /// points. Then follows only what is newly reached. (Not proved; `grow_run` looks only at the
    /// steps into the run.)
    pub fn grow<S: ElementSet>(
        &mut self,
        graph: &Graph,
        seen: &S,
        element: Element,
        out: &mut Vec<Element>,
    ) -> Result<(), Memory>
        requires width { self.old.refused ≡ false
            → length (S.flags seen.now) ≡ element_count graph.now }
        requires element { self.old.refused ≡ false → IsIn (S.flags seen.now) element }
        requires reached { self.old.refused ≡ false
            → IsFrontierIn graph.now (IsWithout (S.flags seen.now) element) self.old }
        ensures starts { self.new.starts ≡ self.old.starts }
        ensures width { OnOk result
            (length self.new.reached ≡ max (length self.old.reached) (element_count graph.now)) }
        ensures reached { OnOk result (IsFrontierIn graph.now (IsIn (S.flags seen.now)) self.new) }
        ensures found { OnOk result
            (AppendsNew self.old.reached self.new.reached out.old.items out.new.items) }
        ensures ok { OnOk result ((self.old.refused ≡ false) × (self.new.refused ≡ false)) }
        ensures err { OnErr result
            ((self.new.refused ≡ true) × (out.new.items ≡ out.old.items)) }
    {
        if let Some(refusal) = self.refusal {
            return Err(refusal);
        }
        self.reached.widen(graph.points() + graph.universals());
        let done = go_on(graph, seen, &self.starts, element, &mut self.reached, out);
        self.refusal = done.err();
        done
    }

    /// Reaches what can be reached once a run of elements is in the set, of which other elements
    /// may be due later: walks go on through those at which one begins, or to which a step leads
    /// from what is reached; so walks that a missing element stopped go on once it is added. Where
    /// a constraint holds at all points, that is the run itself. Clears a list, and fills it with
    /// the runs of what is newly reached, each element once.
    ///
    /// # Errors
    /// - `Memory`: the list is empty; each later call answers `Memory` too.
    pub fn grow_run(
        &mut self,
        steps: &Steps,
        seen: &RunSet,
        run: Run,
        found: &mut Vec<Run>,
    ) -> Result<(), Memory>
        requires { MayGrowByRun steps.now seen.now run self.old }
        ensures starts { self.new.starts ≡ self.old.starts }
        ensures ok { OnOk result
            (GrowsByRun steps.now seen.now run self.old self.new found.new.items) }
        ensures err { OnErr result ((self.new.refused ≡ true) × (found.new.items ≡ [])) }
    {
        found.clear();
        if let Some(refusal) = self.refusal {
            return Err(refusal);
        }
        self.reached.widen(steps.lines.elements());
        let told = resume(steps, seen, &self.starts, run, &mut self.reached, found);
        self.refusal = told.err();
        if told.is_err() {
            found.clear();
        }
        told
    }
}
