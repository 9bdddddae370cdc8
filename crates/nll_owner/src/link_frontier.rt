//! The frontiers of links.

ghost use Rattle.std.specs.Prelude.{◌≡◌, ◌<◌, true, [], ◌∷◌, ◌++◌, Contains, IfOk, OnOk};
ghost use Rattle.nll_problem.specs.At.{at_rank};
ghost use Rattle.nll_problem.specs.declared.at.At.{At as places};
ghost use Rattle.nll_core.specs.Frontiers.{MayGrowByRun, GrowsByRun, IsIdle, first_frontier};

use nll_core::{Frontier, Steps};
use nll_problem::At;
use nll_sets::{Memory, Run, RunSet};
use std::alloc::Global;
use std::marker::Model;

/// The frontier of a link. Most links are of one constraint, and nothing is ever reached for it;
/// until something is, the frontier is the place where the constraint holds. Contracts see all that
/// as a frontier.
#[derive(Drop)]
pub struct LinkFrontier {
    state: State,
}

/// A frontier that is one place so far, or one that takes memory.
#[derive(Drop)]
pub enum State {
    // Nothing is reached.
    Fresh(At),
    Kept(Box<Frontier>),
}

impl Model for LinkFrontier {
    ghost use Rattle.nll_core.specs.Frontiers as spec;
    ghost use Rattle.nll_owner.specs.LinkFrontiers.{frontier_of};

    ghost Value = { spec.Frontier };

    ghost view = { λ f. frontier_of f.state };
}

impl LinkFrontier {
    /// The frontier of a constraint that holds there. Takes no memory.
    pub fn new(at: At) -> LinkFrontier
        ensures { result ≡ first_frontier (at ∷ []) }
    {
        LinkFrontier {
            state: State::Fresh(at),
        }
    }

    /// Appends where a further constraint holds.
    pub fn add(&mut self, alloc: Global, at: At) -> Result<(), Memory>
        requires { (x : places) → Contains self.old.starts x → at_rank x < at_rank at }
        ensures { OnOk result (self.new ≡ record self.old { starts = self.old.starts ++ at ∷ [] }) }
    {
        match &mut self.state {
            State::Kept(frontier) => frontier.add(alloc, at),
            State::Fresh(first) => {
                let kept = frontier_of_two(alloc, *first, at)?;
                self.state = State::Kept(kept);
                Ok(())
            }
        }
    }

    /// Whether going on from a run of elements reaches nothing, since nothing is reached yet, no
    /// constraint holds at all points, and no walk begins in the run.
    pub fn is_idle(&self, run: Run) -> bool
        ensures { result ≡ true → IsIdle self.now.starts run self.now.reached }
    {
        match &self.state {
            State::Kept(frontier) => frontier.is_idle(run),
            State::Fresh(At::All) => false,
            State::Fresh(At::Point(point)) => *point < run.first || run.last < *point,
        }
    }

    /// Grows by a run of elements of the set in which walks may go, like `Frontier::grow_run`.
    pub fn grow_run(
        &mut self,
        steps: &Steps,
        inside: &RunSet,
        run: Run,
        found: &mut Vec<Run>,
    ) -> Result<(), Memory>
        requires { MayGrowByRun steps.now inside.now run self.old }
        ensures starts { self.new.starts ≡ self.old.starts }
        ensures ok { OnOk result
            (GrowsByRun steps.now inside.now run self.old self.new found.new.items) }
    {
        if let State::Fresh(at) = &self.state {
            let alloc = *found.allocator();
            self.state = State::Kept(Box::new(alloc, Frontier::new(alloc, *at))?);
        }
        match &mut self.state {
            State::Kept(frontier) => frontier.grow_run(steps, inside, run, found),
            State::Fresh(_) => unreachable!(),
        }
    }
}

// A frontier of two constraints, which has reached nothing yet.
fn frontier_of_two(alloc: Global, first: At, second: At) -> Result<Box<Frontier>, Memory>
    requires { at_rank first < at_rank second }
    ensures { IfOk result (λ b. b.value ≡ first_frontier (first ∷ second ∷ [])) }
{
    let mut frontier = Frontier::new(alloc, first);
    match frontier.add(alloc, second) {
        Ok(()) => Ok(Box::new(alloc, frontier)?),
        Err(error) => Err(error),
    }
}
