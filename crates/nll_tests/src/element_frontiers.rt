//! Frontiers, where elements come into the set one by one.
ghost use Rattle.std.specs.Prelude.{◌≡◌, ◌<◌, false, length, OnOk};
ghost use Rattle.nll_problem.specs.Graph.{element_count};
ghost use Rattle.nll_core.specs.Search.{IsIn};
ghost use Rattle.nll_core.specs.Frontiers.{IsFrontierIn};

use super::rows::Asked::Elements as Asked;
use super::rows::{Row, compare_rows};
use super::transcript::Transcript;
use nll_core::{At, BitSet, Element, ElementSet, Frontier, Graph, Memory, RunSet};
use nll_problem::GraphBuilder;

// Puts an element into a set and, if it is new, lets a frontier go on from there.
fn grow<S: ElementSet>(
    graph: &Graph,
    seen: &mut S,
    frontier: &mut Frontier,
    element: Element,
    list: &mut Vec<Element>,
) -> Result<(), Memory>
    requires width { length (S.flags seen.old) ≡ element_count graph.now }
    requires whole { frontier.old.refused ≡ false }
    requires element { element < element_count graph.now }
    requires reached { IsFrontierIn graph.now (IsIn (S.flags seen.old)) frontier.old }
    ensures width { OnOk result (length (S.flags seen.new) ≡ element_count graph.now) }
    ensures whole { OnOk result (frontier.new.refused ≡ false) }
    ensures reached { OnOk result
        (IsFrontierIn graph.now (IsIn (S.flags seen.new)) frontier.new) }
{
    if seen.has(element) {
        return Ok(());
    }
    seen.insert(element)?;
    frontier.grow(graph, seen, element, list)
}

// Writes what a list holds, ascending.
fn write_list(out: &mut Transcript, list: &mut Vec<Element>) {
    list.sort_unstable_by_key(|element| element.0);
    for element in list.as_slice() {
        out.number(" ", element.0, "");
    }
    out.say("|");
}

// Lets a frontier go on where elements come into the set, up to one past the last, and writes the
// list after each.
fn write_grown<S: ElementSet>(
    out: &mut Transcript,
    graph: &Graph,
    seen: &mut S,
    frontier: &mut Frontier,
    elements: &[u32],
    list: &mut Vec<Element>,
) -> Result<(), Memory>
    requires width { length (S.flags seen.old) ≡ element_count graph.now }
    requires whole { frontier.old.refused ≡ false }
    requires reached { IsFrontierIn graph.now (IsIn (S.flags seen.old)) frontier.old }
{
    let count = graph.points() + graph.universals();
    for number in elements {
        let element = Element(*number);
        if element.0 >= count {
            return Ok(());
        }
        grow(graph, seen, frontier, element, list)?;
        write_list(out, list);
    }
    Ok(())
}

// Writes the same of a set that is made for it, and of a list that holds a 9.
fn write_by<S: ElementSet>(out: &mut Transcript, graph: &Graph, at: At, elements: &[u32]) {
    if let Ok(mut seen) = S::empty(out.alloc, graph.points() + graph.universals()) {
        let mut list = Vec::new(out.alloc);
        out.note(list.push(Element(9)));
        let mut frontier = Frontier::new(out.alloc, at);
        let told = write_grown(out, graph, &mut seen, &mut frontier, elements, &mut list);
        out.note(told);
        drop(frontier);
        drop(list);
        drop(seen);
    }
    out.say(";");
}

/// Writes the same of a set of bits, and then of one of runs, over the graph of four points with
/// the edges 0 to 1, 1 to 2, 0 to 3, 3 to 2 and 2 to 0, of which 2 is a return point.
pub fn write_elements(out: &mut Transcript, at: At, elements: &[u32]) {
    if let Ok(mut builder) = GraphBuilder::new(out.alloc, 4, 1) {
        out.note(builder.next(0, 1));
        out.note(builder.next(1, 2));
        out.note(builder.next(0, 3));
        out.note(builder.next(3, 2));
        out.note(builder.next(2, 0));
        out.note(builder.ret(2));
        let graph = builder.finish();
        write_by::<BitSet>(out, &graph, at, elements);
        write_by::<RunSet>(out, &graph, at, elements);
        drop(graph);
    }
}

// Elements that come into the set, and what the list holds after each, with either kind of set.
const GROWN: &[Row] = &[
    (
        "a hole that is filled later",
        Asked(At::Point(0), &[0, 2, 1]),
        " 0 9| 0 9| 0 1 2 9|; 0 9| 0 9| 0 1 2 9|;",
    ),
    // Two ways lead to 2, and a step leads back to 0.
    (
        "where the walk begins comes last",
        Asked(At::Point(0), &[1, 2, 3, 0]),
        " 9| 9| 9| 0 1 2 3 9|; 9| 9| 9| 0 1 2 3 9|;",
    ),
    (
        "an end before its return point",
        Asked(At::Point(0), &[0, 4, 1, 2]),
        " 0 9| 0 9| 0 1 9| 0 1 2 4 9|; 0 9| 0 9| 0 1 9| 0 1 2 4 9|;",
    ),
    (
        "an end behind it",
        Asked(At::Point(0), &[0, 1, 2, 4]),
        " 0 9| 0 1 9| 0 1 2 9| 0 1 2 4 9|; 0 9| 0 1 9| 0 1 2 9| 0 1 2 4 9|;",
    ),
    (
        "a step to a lower point",
        Asked(At::Point(2), &[3, 2, 0]),
        " 9| 2 9| 0 2 3 9|; 9| 2 9| 0 2 3 9|;",
    ),
    // Nothing leads from 2 to 4 but its return, and nothing from 4 to 0.
    (
        "at all points",
        Asked(At::All, &[2, 4, 0]),
        " 2 9| 2 4 9| 0 2 4 9|; 2 9| 2 4 9| 0 2 4 9|;",
    ),
];

// With both kinds of set it has what walks reach, which it puts behind what the list holds.
#[test]
fn a_frontier_goes_on_from_each_element(rt: HostRuntime) {
    compare_rows(&rt, rt.alloc(), GROWN);
}
