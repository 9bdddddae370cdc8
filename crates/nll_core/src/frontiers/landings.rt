//! The jumps of a graph by where they land.

ghost use Rattle.std.specs.Prelude.{◌≡◌, ◌↔◌, ◌≤◌, ◌<◌, ℕ, Contains, AllPairs, length, IfOk};
ghost use Rattle.std.specs.Prelude.{◌+◌, ◌^◌, slice_index, slice_index_or, true};
ghost use Rattle.nll_problem.specs.Graph.{IsReturn};
ghost use Rattle.nll_sets.specs.Runs.{IsWithin};
ghost use Rattle.nll_core.specs.Lines.{AreReturns, IsJump, IsLandingStart};
ghost use Rattle.nll_core.specs.declared.frontiers.landings.Landing.{Landing};

use crate::lines::Lines;
use nll_problem::Graph;
use nll_sets::{Memory, Run};
use std::alloc::Global;
use std::marker::Model;
use std::snapshot::Snapshot;

/// A jump: a step of a graph that doesn't go along a line.
#[derive(Clone, Copy)]
pub struct Landing {
    pub to: u32,
    pub from: u32,
}

/// The jumps of a graph by where they land, made once and lent. Contracts see it as the graph.
///
/// # Cost
/// Eight bytes a jump, eight a point, and four a return point (not proved).
#[derive(Drop)]
pub struct Landings {
    // For contracts alone.
    graph: Snapshot<Graph>,
    list: Vec<Landing>,
    // The indices at which those that land at each number start, and where all end.
    starts: Vec<usize>,
    // The return points, ascending.
    returns: Vec<u32>,
}

impl Model for Landings {
    ghost use Rattle.std.specs.Prelude.{◌≡◌};
    ghost use Rattle.nll_problem.specs.Graph as spec;
    ghost use Rattle.nll_core.specs.Lines.{AreLandings, AreReturns};

    ghost Value = { spec.Graph };

    ghost view = { λ landings. landings.graph.value };

    ghost invariant = { λ landings. AreLandings landings.graph.value
        landings.list.items landings.starts.items
        × AreReturns landings.graph.value landings.returns.items };
}

impl Landings {
    /// The jumps of a graph.
    ///
    /// # Cost
    /// One pass over the points, and a sort of the jumps (not proved).
    pub fn of(alloc: Global, graph: &Graph, lines: &Lines) -> Result<Landings, Memory>
        requires { lines.now ≡ graph.now }
        ensures { IfOk result (λ landings. landings ≡ graph.now) }
    {
        let list = sorted_landings(alloc, lines)?;
        let starts = starts_of(alloc, list.as_slice(), lines.points())?;
        let returns = return_points(alloc, graph)?;
        Ok(Landings {
            graph: Snapshot::of(graph),
            list,
            starts,
            returns,
        })
    }

    /// Whether a point of a run is a return point.
    pub fn has_return_in(&self, run: Run) -> bool
        ensures { (result ≡ true) ↔ ((x : ℕ) × IsWithin run x × IsReturn self.now x) }
    {
        let at = self.returns.partition_point(|point| *point < run.first);
        at < self.returns.len() && self.returns[at] <= run.last
    }

    /// The jumps that land at a number of a run.
    pub fn landing_in(&self, run: Run) -> &[Landing]
        requires proper { run.first ≤ run.last }
        requires within { run.last ≤ self.now.points }
        ensures { (l : Landing) → Contains result.now l
            ↔ (IsJump self.now l.from l.to × (run.first ≤ l.to) × (l.to ≤ run.last)) }
    {
        let from = self.starts[run.first as usize];
        let to = self.starts[run.last as usize + 1];
        &self.list[from..to]
    }
}

// The return points, ascending.
fn return_points(alloc: Global, graph: &Graph) -> Result<Vec<u32>, Memory>
    ensures { IfOk result (λ points. AreReturns graph.now points.items) }
{
    let mut points = Vec::new(alloc);
    for point in 0..graph.points() {
        if graph.is_return(point) {
            points.push(point)?;
        }
    }
    Ok(points)
}

// The indices at which the landings at each number start, up to one past a number of points.
fn starts_of(alloc: Global, list: &[Landing], points: u32) -> Result<Vec<usize>, Memory>
    requires ascending { AllPairs (λ (l m : Landing). l.to ≤ m.to) list.now }
    requires points { points + 2 < 2 ^ 32 }
    ensures sized { IfOk result (λ starts. length starts.items ≡ points + 2) }
    ensures each { IfOk result (λ starts. (t : ℕ)
        → t < points + 2 → IsLandingStart list.now t (slice_index starts.items t)) }
{
    let mut starts = Vec::with_capacity(alloc, points as usize + 2)?;
    let mut place = 0;
    for number in 0..points + 2 {
        place = start_from(list, place, number);
        starts.push(place)?;
    }
    Ok(starts)
}

// The index at which the landings at a number start, from an index on before which all lead below
// it.
fn start_from(list: &[Landing], from: usize, number: u32) -> usize
    requires ascending { AllPairs (λ (l m : Landing). l.to ≤ m.to) list.now }
    requires from { from ≤ length list.now }
    requires below { (k : ℕ) (d : Landing) → k < from → (slice_index_or list.now k d).to < number }
    ensures { IsLandingStart list.now number result }
{
    let mut place = from;
    while place < list.len() && list[place].to < number {
        place += 1;
    }
    place
}

// The jumps, ascending by where they land.
fn sorted_landings(alloc: Global, lines: &Lines) -> Result<Vec<Landing>, Memory>
    ensures each { IfOk result (λ list. (l : Landing)
        → Contains list.items l ↔ IsJump lines.now l.from l.to) }
    ensures ascending { IfOk result (λ list.
        AllPairs (λ (l m : Landing). l.to ≤ m.to) list.items) }
{
    let mut list = Vec::new(alloc);
    for point in 0..lines.points() {
        let run = Run {
            first: point,
            last: point,
        };
        for target in lines.jumps(run) {
            list.push(Landing {
                to: *target,
                from: point,
            })?;
        }
    }
    list.sort_unstable_by_key(|landing| landing.to);
    Ok(list)
}
