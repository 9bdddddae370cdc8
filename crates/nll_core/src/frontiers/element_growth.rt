//! How a frontier goes on once one more element is in the set inside which its constraints ask.

ghost use Rattle.std.specs.Prelude.{◌≡◌, ◌⊎◌, ◌↔◌, ℕ, ◌≤◌, ◌<◌, true, false, length, OnOk, OnErr};
ghost use Rattle.nll_problem.specs.Graph.{element_count, IsNext, IsStep};
ghost use Rattle.nll_core.specs.Search.{IsIn, IsStepInside};
ghost use Rattle.nll_core.specs.Frontiers.{AppendsNew, IsAskedFrom, IsWithout, StepsOn};

use crate::frontiers::inside::Inside;
use crate::frontiers::places::Places;
use crate::search::Search;
use nll_problem::Graph;
use nll_sets::{Element, ElementSet, Memory, RunSet};
use std::mem;

/// Goes on with what constraints ask for from an element that was added to the set inside which
/// they ask, and appends what is newly reached to a list. Where one of them holds at all points,
/// that is the element; otherwise walks go on through it, if one begins there or a step leads there
/// from what is reached.
pub fn go_on<S: ElementSet>(
    graph: &Graph,
    seen: &S,
    starts: &Places,
    element: Element,
    reached: &mut RunSet,
    out: &mut Vec<Element>,
) -> Result<(), Memory>
    requires width { length (S.flags seen.now) ≡ element_count graph.now }
    requires room { element_count graph.now ≤ length reached.old }
    requires element { IsIn (S.flags seen.now) element }
    requires before { (x : ℕ) → IsIn reached.old x
        ↔ IsAskedFrom graph.now (IsWithout (S.flags seen.now) element) starts.now x }
    ensures width { OnOk result (length reached.new ≡ length reached.old) }
    ensures after { OnOk result ((x : ℕ) → IsIn reached.new x
        ↔ IsAskedFrom graph.now (IsIn (S.flags seen.now)) starts.now x) }
    ensures found { OnOk result
        (AppendsNew reached.old reached.new out.old.items out.new.items) }
    ensures none { OnErr result (out.new.items ≡ out.old.items) }
{
    if starts.has_all() {
        reached.insert(element)?;
        out.push(element)?;
        return Ok(());
    }
    let begins = starts.points().next_in(element.0, element.0).is_some();
    if !begins && !is_next(graph, element, reached) {
        return Ok(());
    }
    walk_on(graph, seen, element, reached, out)
}

// Whether a step leads to an element from what is reached. Most steps lead to the next point, so
// the point before it and those after that are looked at first.
fn is_next(graph: &Graph, element: Element, reached: &RunSet) -> bool
    requires element { element < element_count graph.now }
    requires room { element_count graph.now ≤ length reached.now }
    ensures yes { result ≡ true → (x : ℕ) × IsIn reached.now x × IsStep graph.now x element }
    ensures no { (x : ℕ) → IsIn reached.now x → IsStep graph.now x element → result ≡ true }
{
    let points = graph.points();
    if element.0 >= points {
        for point in graph.returns() {
            if reached.has(Element(*point)) {
                return true;
            }
        }
        return false;
    }
    let before = element.0.saturating_sub(1);
    is_next_of(graph, reached, before, points, element.0)
        || is_next_of(graph, reached, 0, before, element.0)
}

// Whether a point is a successor of a reached one, among those from one number up to another.
fn is_next_of(graph: &Graph, reached: &RunSet, from: u32, to: u32, point: u32) -> bool
    requires { to ≤ graph.now.points }
    ensures yes { result ≡ true → (x : ℕ) × IsIn reached.now x × IsNext graph.now x point }
    ensures no { (x : ℕ) → from ≤ x → x < to → IsIn reached.now x → IsNext graph.now x point
        → result ≡ true }
{
    let mut next = from;
    while let Some(found) = reached.next_from(Element(next)) {
        if found.0 >= to {
            return false;
        }
        for successor in graph.next_of(found.0) {
            if *successor == point {
                return true;
            }
        }
        next = found.0 + 1;
    }
    false
}

// Goes on with walks from a new element, and appends what they newly reach to a list.
fn walk_on<S: ElementSet>(
    graph: &Graph,
    seen: &S,
    element: Element,
    reached: &mut RunSet,
    out: &mut Vec<Element>,
) -> Result<(), Memory>
    requires width { length (S.flags seen.now) ≡ element_count graph.now }
    requires room { element_count graph.now ≤ length reached.old }
    requires element { element < element_count graph.now }
    requires closed { (x y : ℕ) → IsIn reached.old x
        → IsStepInside graph.now (S.flags seen.now) x y → IsIn reached.old y ⊎ (y ≡ element) }
    ensures steps { OnOk result (StepsOn (IsStepInside graph.now (S.flags seen.now)) element
        reached.old reached.new) }
    ensures found { OnOk result
        (AppendsNew reached.old reached.new out.old.items out.new.items) }
    ensures none { OnErr result (out.new.items ≡ out.old.items) }
{
    let alloc = *out.allocator();
    let taken = mem::replace(reached, RunSet::new(alloc));
    let mut search = Search::over(alloc, taken);
    search.visit(element)?;
    search.spread::<Inside<S>>(&Inside { graph, set: seen }, 0)?;
    let (set, list) = search.into_parts();
    *reached = set;
    out.extend_from_slice(&list)?;
    Ok(())
}
