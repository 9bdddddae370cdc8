//! The lines of a graph: points that follow each other by number, and the steps that leave them.

ghost use Rattle.std.specs.Prelude.{◌≡◌, ◌↔◌, ◌≤◌, ◌<◌, ℕ, Contains, IfOk, ◌+◌, true, OnOk};
ghost use Rattle.nll_problem.specs.Graph.{IsSound, element_count, IsNext};
ghost use Rattle.nll_sets.specs.Runs.{IsWithin};
ghost use Rattle.nll_core.specs.Lines.{IsJump, IsLineEnd, AreEndsTo, AreJumps, AreLineEnds, Pushes};

use nll_problem::Graph;
use nll_sets::{Memory, Run};
use std::alloc::Global;
use std::marker::Model;
use std::snapshot::Snapshot;

/// Where the jumps of each point lead, in the order of the points.
///
/// # Shape
/// The targets of the point p are those from `starts[p]` up to `starts[p + 1]`. The number of
/// points denotes all ends.
#[derive(Drop)]
pub struct Jumps {
    pub starts: Vec<usize>,
    pub targets: Vec<u32>,
}

/// The jumps of a graph, and the last point of the line of each point.
pub fn jumps_of(alloc: Global, graph: &Graph) -> Result<(Jumps, Vec<u32>), Memory>
    ensures jumps { IfOk result (λ made.
        AreJumps graph.now graph.now.points made.0.starts.items made.0.targets.items) }
    ensures ends { IfOk result (λ made. AreLineEnds graph.now made.1.items) }
{
    let points = graph.points();
    let mut starts = Vec::with_capacity(alloc, points as usize + 1)?;
    let mut targets = Vec::new(alloc);
    let mut ends = Vec::with_capacity(alloc, points as usize)?;
    starts.push(0usize)?;
    for point in 0..points {
        let goes_on = push_jumps(graph, point, &mut targets)?;
        starts.push(targets.len())?;
        pass_point(graph, &mut ends, point, goes_on)?;
    }
    Ok((Jumps { starts, targets }, ends))
}

// Appends the targets of the jumps of a point to a list. Returns whether its line goes on.
fn push_jumps(graph: &Graph, point: u32, targets: &mut Vec<u32>) -> Result<bool, Memory>
    requires { point < graph.now.points }
    ensures jumps { OnOk result
        (Pushes (IsJump graph.now point) targets.old.items targets.new.items) }
    ensures line { IfOk result (λ goes_on. (goes_on ≡ true) ↔ IsNext graph.now point (point + 1)) }
{
    let mut goes_on = false;
    for successor in graph.next_of(point) {
        if *successor == point + 1 {
            goes_on = true;
        } else {
            targets.push(*successor)?;
        }
    }
    if graph.is_return(point) {
        targets.push(graph.points())?;
    }
    Ok(goes_on)
}

// Goes on to a point, given whether its line goes on after it. Where the line ends, this point is
// the last one for all points that the list lacks up to it.
fn pass_point(graph: &Graph, ends: &mut Vec<u32>, point: u32, goes_on: bool) -> Result<(), Memory>
    requires point { point < graph.now.points }
    requires before { AreEndsTo graph.now point ends.old.items }
    requires line { (goes_on ≡ true) ↔ IsNext graph.now point (point + 1) }
    ensures { OnOk result (AreEndsTo graph.now (point + 1) ends.new.items) }
{
    if !goes_on {
        ends.resize(point as usize + 1, point)?;
    }
    Ok(())
}

/// A graph as its lines, and the jumps: the steps that don't go along one. A jump to the number of
/// points denotes the steps of a return point to all ends. Contracts see it as the graph.
///
/// # Cost
/// Each call reads lists that are made once (not proved).
#[derive(Drop)]
pub struct Lines {
    // For contracts alone.
    graph: Snapshot<Graph>,
    points: u32,
    universals: u32,
    // The last point of the line of each point.
    ends: Vec<u32>,
    jumps: Jumps,
}

impl Model for Lines {
    ghost use Rattle.nll_problem.specs.Graph as spec;
    ghost use Rattle.nll_core.specs.Lines.{AreLinesOf};

    ghost Value = { spec.Graph };

    ghost view = { λ lines. lines.graph.value };

    ghost invariant = { λ lines. AreLinesOf lines.graph.value lines.points lines.universals
        lines.ends.items lines.jumps.starts.items lines.jumps.targets.items };
}

impl Lines {
    /// The lines of a graph.
    pub fn of(alloc: Global, graph: &Graph) -> Result<Lines, Memory>
        ensures { IfOk result (λ lines. lines ≡ graph.now) }
    {
        let (jumps, ends) = jumps_of(alloc, graph)?;
        Ok(Lines {
            graph: Snapshot::of(graph),
            points: graph.points(),
            universals: graph.universals(),
            ends,
            jumps,
        })
    }

    /// How many points there are.
    pub fn points(&self) -> u32
        ensures value { result ≡ self.now.points }
        ensures sound { IsSound self.now }
    {
        self.points
    }

    /// How many elements there are.
    pub fn elements(&self) -> u32
        ensures value { result ≡ element_count self.now }
        ensures sound { IsSound self.now }
    {
        self.points + self.universals
    }

    /// The last point of the line of a point.
    pub fn line_end(&self, point: u32) -> u32
        requires { point < self.now.points }
        ensures { IsLineEnd self.now point result }
    {
        self.ends[point as usize]
    }

    /// Where the jumps from the points of a run lead.
    pub fn jumps(&self, run: Run) -> &[u32]
        requires proper { run.first ≤ run.last }
        requires points { run.last < self.now.points }
        ensures { (t : ℕ)
            → Contains result.now t ↔ ((x : ℕ) × IsWithin run x × IsJump self.now x t) }
    {
        let from = self.jumps.starts[run.first as usize];
        let to = self.jumps.starts[run.last as usize + 1];
        &self.jumps.targets[from..to]
    }
}
