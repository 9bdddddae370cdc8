//! Frontiers, where runs of elements are added to the set.
ghost use Rattle.std.specs.Prelude.{◌≡◌, ◌≤◌, ◌<◌, false, length, Contains, OnOk, replicate};
ghost use Rattle.nll_problem.specs.At.{IsAmong};
ghost use Rattle.nll_problem.specs.Graph.{element_count};
ghost use Rattle.nll_core.specs.Search.{IsIn};
ghost use Rattle.nll_core.specs.Frontiers.{IsFrontierIn};

use super::rows::Asked::{Frontier as Asked, FrontierEverywhere, FrontierToEnd};
use super::rows::{Row, compare_rows};
use super::transcript::Transcript;
use nll_core::{At, ElementSet, Frontier, Graph, Memory, Run, RunSet, Steps};
use nll_problem::GraphBuilder;

// Where a frontier's constraints hold.
#[derive(Clone, Copy)]
enum From {
    // The point 0.
    One,
    // The points 0 and 2.
    Both,
    // All points, and the point 2.
    All,
}

// Inserts the first gap of a run into a set, and lets the frontier go on; lists what it newly
// reaches.
fn grow(
    steps: &Steps,
    seen: &mut RunSet,
    frontier: &mut Frontier,
    run: Run,
    found: &mut Vec<Run>,
) -> Result<(), Memory>
    requires width { length seen.old ≡ element_count steps.now }
    requires fits { length frontier.old.reached ≤ element_count steps.now }
    requires whole { frontier.old.refused ≡ false }
    requires starts { (p : _) → Contains frontier.old.starts p → IsAmong steps.now.points p }
    requires last { run.last < element_count steps.now }
    requires reached { IsFrontierIn steps.now (IsIn seen.old) frontier.old }
    ensures width { OnOk result (length seen.new ≡ element_count steps.now) }
    ensures fits { OnOk result (length frontier.new.reached ≤ element_count steps.now) }
    ensures whole { OnOk result (frontier.new.refused ≡ false) }
    ensures starts { frontier.new.starts ≡ frontier.old.starts }
    ensures reached { OnOk result (IsFrontierIn steps.now (IsIn seen.new) frontier.new) }
{
    found.clear();
    let Some(gap) = seen.gap_from(run.first, run.last) else {
        return Ok(());
    };
    seen.insert_run(gap)?;
    frontier.grow_run(steps, seen, gap, found)
}

// Writes the elements of runs, in the order of the first ones of these.
fn write_found(out: &mut Transcript, found: &mut Vec<Run>) {
    found.sort_unstable_by_key(|run| run.first);
    for run in found.as_slice() {
        for element in run.first..=run.last {
            out.number(" ", element, "");
        }
    }
    out.say("|");
}

// Lets a frontier go on as runs are added to the set, up to one past the last element, and writes
// what it newly reaches; a minus sign if it said before that this is nothing.
fn write_grown(
    out: &mut Transcript,
    steps: &Steps,
    elements: u32,
    seen: &mut RunSet,
    frontier: &mut Frontier,
    runs: &[(u32, u32)],
    found: &mut Vec<Run>,
) -> Result<(), Memory>
    requires elements { elements ≡ element_count steps.now }
    requires width { length seen.old ≡ element_count steps.now }
    requires fits { length frontier.old.reached ≤ element_count steps.now }
    requires whole { frontier.old.refused ≡ false }
    requires starts { (p : _) → Contains frontier.old.starts p → IsAmong steps.now.points p }
    requires reached { IsFrontierIn steps.now (IsIn seen.old) frontier.old }
{
    for run in runs {
        let (first, last) = *run;
        if last >= elements {
            return Ok(());
        }
        let idle = frontier.is_idle(Run { first, last });
        grow(steps, seen, frontier, Run { first, last }, found)?;
        if idle {
            out.say("-");
        }
        write_found(out, found);
    }
    Ok(())
}

// Writes what a frontier from the point 0 newly reaches as runs are added to an empty set.
fn write_one(
    out: &mut Transcript,
    steps: &Steps,
    elements: u32,
    seen: &mut RunSet,
    runs: &[(u32, u32)],
)
    requires elements { elements ≡ element_count steps.now }
    requires points { 2 < steps.now.points }
    requires none { seen.old ≡ replicate (element_count steps.now) false }
{
    let mut found = Vec::new(out.alloc);
    let mut frontier = Frontier::new(out.alloc, At::Point(0));
    let told = write_grown(out, steps, elements, seen, &mut frontier, runs, &mut found);
    out.note(told);
    drop(frontier);
    drop(found);
}

// Like `write_one`, for a frontier of a constraint at all points, and one from the point 2.
fn write_all(
    out: &mut Transcript,
    steps: &Steps,
    elements: u32,
    seen: &mut RunSet,
    runs: &[(u32, u32)],
)
    requires elements { elements ≡ element_count steps.now }
    requires points { 2 < steps.now.points }
    requires none { seen.old ≡ replicate (element_count steps.now) false }
{
    let mut found = Vec::new(out.alloc);
    let mut frontier = Frontier::new(out.alloc, At::All);
    if let Ok(()) = frontier.add(out.alloc, At::Point(2)) {
        let told = write_grown(out, steps, elements, seen, &mut frontier, runs, &mut found);
        out.note(told);
    }
    drop(frontier);
    drop(found);
}

// Like `write_one`, for a frontier from the points 0 and 2.
fn write_both(
    out: &mut Transcript,
    steps: &Steps,
    elements: u32,
    seen: &mut RunSet,
    runs: &[(u32, u32)],
)
    requires elements { elements ≡ element_count steps.now }
    requires points { 2 < steps.now.points }
    requires none { seen.old ≡ replicate (element_count steps.now) false }
{
    let mut found = Vec::new(out.alloc);
    let mut frontier = Frontier::new(out.alloc, At::Point(0));
    if let Ok(()) = frontier.add(out.alloc, At::Point(2)) {
        let told = write_grown(out, steps, elements, seen, &mut frontier, runs, &mut found);
        out.note(told);
    }
    drop(frontier);
    drop(found);
}

// Like `write_grown`, over a set that is made for it.
fn write_over(out: &mut Transcript, graph: &Graph, from: From, runs: &[(u32, u32)]) {
    if graph.points() <= 2 {
        return;
    }
    if let Ok(steps) = Steps::of(out.alloc, graph) {
        let elements = graph.points() + graph.universals();
        if let Ok(mut seen) = RunSet::empty(out.alloc, elements) {
            match from {
                From::One => write_one(out, &steps, elements, &mut seen, runs),
                From::Both => write_both(out, &steps, elements, &mut seen, runs),
                From::All => write_all(out, &steps, elements, &mut seen, runs),
            }
            drop(seen);
        }
        drop(steps);
    }
}

/// Like `write_over`, for walks from both points over the graph of four points with the edges 0 to
/// 1 and 2 to 3.
pub fn write_frontier(out: &mut Transcript, runs: &[(u32, u32)]) {
    if let Ok(mut builder) = GraphBuilder::new(out.alloc, 4, 1) {
        out.note(builder.next(0, 1));
        out.note(builder.next(2, 3));
        let graph = builder.finish();
        write_over(out, &graph, From::Both, runs);
        drop(graph);
    }
}

// Like `write_over`, over the graph of four points with the edges 0 to 1, 1 to 2 and 1 to 3, of
// which 2 is a return point.
fn write_to_end(out: &mut Transcript, from: From, runs: &[(u32, u32)]) {
    if let Ok(mut builder) = GraphBuilder::new(out.alloc, 4, 1) {
        out.note(builder.next(0, 1));
        out.note(builder.next(1, 2));
        out.note(builder.next(1, 3));
        out.note(builder.ret(2));
        let graph = builder.finish();
        write_over(out, &graph, from, runs);
        drop(graph);
    }
}

/// Like `write_to_end`, for walks from the point 0.
pub fn write_frontier_to_end(out: &mut Transcript, runs: &[(u32, u32)]) {
    write_to_end(out, From::One, runs);
}

/// Like `write_to_end`, for a constraint at all points.
pub fn write_frontier_everywhere(out: &mut Transcript, runs: &[(u32, u32)]) {
    write_to_end(out, From::All, runs);
}

// Runs that are added to the set, and what is newly reached with each; a minus sign if the frontier
// says that it has nothing to go on from.
const GROWN: &[Row] = &[
    (
        "each point in turn",
        Asked(&[(0, 0), (1, 1), (2, 2), (3, 3)]),
        " 0| 1| 2| 3|",
    ),
    // Nothing leads to 1 or 3 but from where walks begin.
    (
        "the points behind them first",
        Asked(&[(1, 1), (3, 3), (2, 2), (0, 0)]),
        "-|-| 2 3| 0 1|",
    ),
    ("all at once", Asked(&[(0, 4)]), " 0 1 2 3|"),
    (
        "a run, and a point before it",
        Asked(&[(1, 3), (0, 0)]),
        " 2 3| 0 1|",
    ),
    // The hole at 1 is filled last; then the end is reached too.
    (
        "a hole is filled",
        FrontierToEnd(&[(0, 0), (2, 2), (4, 4), (1, 1)]),
        " 0||| 1 2 4|",
    ),
    (
        "each as it comes",
        FrontierToEnd(&[(0, 0), (1, 1), (2, 2), (4, 4)]),
        " 0| 1| 2| 4|",
    ),
    // Nothing is reached before the point where walks begin.
    (
        "from the end to the start",
        FrontierToEnd(&[(4, 4), (2, 2), (1, 1), (0, 0)]),
        "-|-|-| 0 1 2 4|",
    ),
    (
        "all and the end at once",
        FrontierToEnd(&[(0, 4)]),
        " 0 1 2 3 4|",
    ),
    (
        "points and ends in one run, then what leads to them",
        FrontierToEnd(&[(2, 4), (0, 0), (1, 1)]),
        "-| 0| 1 2 3 4|",
    ),
    (
        "a jump into a later run",
        FrontierToEnd(&[(0, 1), (3, 3), (2, 2)]),
        " 0 1| 3| 2|",
    ),
    // What comes is asked for, and nothing but that: no walk goes on from it.
    (
        "at all points",
        FrontierEverywhere(&[(3, 3), (0, 0), (4, 4), (1, 2)]),
        " 3| 0| 4| 1 2|",
    ),
];

// Walks begin at the point that was added just as at the first, and go on at a hole that is filled.
#[test]
fn a_frontier_goes_on_from_each_of_its_points(rt: HostRuntime) {
    compare_rows(&rt, rt.alloc(), GROWN);
}
