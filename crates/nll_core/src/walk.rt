//! What constraints of a pair of regions that hold at points ask for, by walks from these.

ghost use Rattle.std.specs.Prelude.{◌≡◌, ℕ, ◌≤◌, ◌<◌, length, OnOk, IfOk, IfSome, IfNone};
ghost use Rattle.nll_problem.specs.Graph.{element_count};
ghost use Rattle.nll_core.specs.Walking.{PointsAscend, AreAskedOf, AreAtPoints};
ghost use Rattle.nll_core.specs.Walking.{NoneEverywhere, NoneInside, constraint_at, point_of};
ghost use Rattle.nll_sets.specs.Runs.{first_of, last_of, IsRunFrom, IsWithin, MakeUp};

use crate::lines::Lines;
use crate::stretches::{enter, fill_from, spread};
use nll_problem::{At, Constraint};
use nll_sets::{ElementSet, Memory, Run, RunSet};
use std::alloc::Global;

/// What a walk has reached, and the stretches that it has still to follow. Where no walk is needed,
/// the list has the runs of a region. One walk serves a whole solver, so that its memory is
/// allocated once.
#[derive(Drop)]
pub struct Walk {
    pub reached: RunSet,
    pub todo: Vec<Run>,
}

impl Walk {
    /// A walk among the elements below a number.
    pub fn new(alloc: Global, count: u32) -> Result<Walk, Memory>
        ensures { IfOk result (λ walk. length walk.reached ≡ count) }
    {
        let reached = RunSet::empty(alloc, count)?;
        Ok(Walk {
            reached,
            todo: Vec::new(alloc),
        })
    }

    /// Reaches exactly what constraints of a pair that hold at points ask for inside the set of the
    /// region that they read: what walks reach from their points.
    pub fn reach(&mut self, lines: &Lines, sub: &RunSet, pair: &[Constraint]) -> Result<(), Memory>
        requires sub_width { length sub.now ≡ element_count lines.now }
        requires width { length self.old.reached ≡ element_count lines.now }
        requires points { AreAtPoints lines.now pair.now }
        requires ascending { PointsAscend pair.now }
        ensures width { OnOk result (length self.new.reached ≡ element_count lines.now) }
        ensures reached { OnOk result (AreAskedOf lines.now sub.now pair.now self.new.reached) }
    {
        self.reached.clear();
        self.todo.clear();
        let points = lines.points();
        // The points that are in `sub` are entered, except those that an earlier entry settles.
        let mut place = 0;
        let mut near = 0;
        while let Some(found) = next_inside(sub, near, pair, place) {
            let point = point_at(pair, found.place);
            let next = enter(lines, found.run, &mut self.reached, &mut self.todo, point)?;
            place = place_from(pair, found.place + 1, next);
            near = found.near;
        }
        let ends = spread(lines, sub, &mut self.reached, &mut self.todo)?;
        if !ends {
            return Ok(());
        }
        fill_from(sub, &mut self.reached, &mut self.todo, points)
    }

    /// Lists the runs of a set, instead of the stretches of a walk.
    pub fn list(&mut self, set: &RunSet) -> Result<(), Memory>
        ensures reached { self.new.reached ≡ self.old.reached }
        ensures make_up { OnOk result (MakeUp self.new.todo.items set.now) }
        ensures fit { OnOk result ((k : ℕ) → k < length self.new.todo.items
            → (first_of self.new.todo.items k ≤ last_of self.new.todo.items k)
            × (last_of self.new.todo.items k < length set.now)) }
    {
        self.todo.clear();
        self.todo.extend_from_slice(set.as_runs())?;
        Ok(())
    }
}

// The point of the constraint at an index. It's called so often that it doesn't even test for
// another kind of place.
fn point_at(pair: &[Constraint], place: usize) -> u32
    requires place { place < length pair.now }
    requires points { NoneEverywhere pair.now }
    ensures { result ≡ point_of (constraint_at pair.now place) }
{
    match pair[place].at {
        At::All => unreachable!(),
        At::Point(point) => point,
    }
}

// A constraint whose point is in the value, the run in which it is, and the index of this run.
#[derive(Clone, Copy)]
struct Found {
    place: usize,
    near: usize,
    run: Run,
}

// The first constraint, from an index on, whose point is in `sub`.
fn next_inside(sub: &RunSet, near: usize, pair: &[Constraint], from: usize) -> Option<Found>
    requires points { NoneEverywhere pair.now }
    requires ascending { PointsAscend pair.now }
    requires from { from ≤ length pair.now }
    ensures found { IfSome result (λ f. (from ≤ f.place) × (f.place < length pair.now)) }
    ensures run { IfSome result
        (λ f. IsRunFrom sub.now (point_of (constraint_at pair.now f.place)) f.run) }
    ensures has { IfSome result (λ f. IsWithin f.run (point_of (constraint_at pair.now f.place))) }
    ensures before { IfSome result (λ f. NoneInside sub.now pair.now from f.place) }
    ensures none { IfNone result (NoneInside sub.now pair.now from (length pair.now)) }
{
    let mut place = from;
    let mut near = near;
    while place < pair.len() {
        let point = point_at(pair, place);
        let (at, inside) = sub.run_near(near, point);
        let Some(run) = inside else {
            return None;
        };
        near = at;
        if run.first <= point {
            return Some(Found { place, near, run });
        }
        place = place_from(pair, place + 1, run.first);
    }
    None
}

// The first index, from one on, of a constraint whose point isn't below `least`.
fn place_from(pair: &[Constraint], from: usize, least: u32) -> usize
    requires points { NoneEverywhere pair.now }
    requires ascending { PointsAscend pair.now }
    requires from { from ≤ length pair.now }
    ensures low { from ≤ result }
    ensures bound { result ≤ length pair.now }
    ensures before { (k : ℕ) → from ≤ k → k < result → point_of (constraint_at pair.now k) < least }
{
    // Most pairs have one constraint, or the next point isn't settled.
    if from == pair.len() || point_at(pair, from) >= least {
        return from;
    }
    let mut low = from;
    let mut high = pair.len();
    while low < high {
        let middle = low + (high - low) / 2;
        if point_at(pair, middle) < least {
            low = middle + 1;
        } else {
            high = middle;
        }
    }
    low
}
