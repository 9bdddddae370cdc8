//! The least solution of a problem, by rounds over all constraints until one changes nothing.
//!
//! This is the plain solver with which the tests compare `nll_core`'s: it has the same contract,
//! and forgets after each constraint what it has reached.

ghost use Rattle.std.specs.Prelude.{◌≡◌, ℕ, ◌<◌, ◌↔◌, true, false, Contains, length, IfOk, OnOk};
ghost use Rattle.nll_sets.specs.ElementSet.{flag};
ghost use Rattle.nll_problem.specs.At.{IsAmong};
ghost use Rattle.nll_problem.specs.Graph.{element_count};
ghost use Rattle.nll_problem.specs.Solution.{IsAskedIn, Least};
ghost use Rattle.nll_problem.specs.Walks.{Reaches};
ghost use Rattle.nll_core.specs.Growing.{Gains, Tells, StaysBelow, IsAskedBy, Meets, MeetsEach};
ghost use Rattle.nll_core.specs.Values.{set_of, IsHeld, IsShaped};

use nll_core::{
    At, Constraint, Element, ElementSet, Frontier, Graph, Memory, Problem, RegionId, RunSet,
    Values, base_values,
};
use std::alloc::Global;

/// Gives each region its least value: the base elements, and what the constraints ask for.
///
/// # Cost
/// A round goes through the graph once for each constraint whose point is in the value of its
/// `sub`, and through all elements for each at all points; each round but the last adds an element
/// (not proved).
///
/// # Source
/// RFC 2094, "Solving constraints".
pub fn solve_by_rounds(alloc: Global, problem: &Problem) -> Result<Values, Memory>
    ensures shaped { IfOk result (IsShaped problem.now) }
    ensures least { IfOk result (λ values. (r e : ℕ) → IsHeld values r e ↔ Least problem.now r e) }
{
    let mut values = base_values(alloc, problem)?;
    while round(alloc, problem, &mut values)? {}
    Ok(values)
}

// Applies each constraint once. Answers whether something was new.
fn round(alloc: Global, problem: &Problem, values: &mut Values) -> Result<bool, Memory>
    requires { IsShaped problem.now values.old }
    ensures shaped { IsShaped problem.now values.new }
    ensures kept { (r e : ℕ) → IsHeld values.old r e → IsHeld values.new r e }
    ensures below { StaysBelow problem.now values.old values.new }
    ensures tells { IfOk result (λ changed. Tells changed values.old values.new) }
    ensures closed { IfOk result (λ changed. changed ≡ false → MeetsEach problem.now values.old) }
{
    let mut changed = false;
    for constraint in problem.constraints() {
        let new = apply(alloc, problem, values, *constraint)?;
        changed |= new;
    }
    Ok(changed)
}

// Adds what one constraint asks of the values. Answers whether something was new.
fn apply(
    alloc: Global,
    problem: &Problem,
    values: &mut Values,
    constraint: Constraint,
) -> Result<bool, Memory>
    requires shaped { IsShaped problem.now values.old }
    requires of_problem { Contains problem.now.constraints constraint }
    ensures gains { Gains (IsAskedBy problem.now values.old constraint) values.old values.new }
    ensures asks { OnOk result (Meets problem.now values.old constraint values.new) }
    ensures tells { IfOk result (λ changed. Tells changed values.old values.new) }
{
    let graph = problem.graph();
    let set = values.set(constraint.sub);
    let found = asked_inside(alloc, graph, set, constraint.at)?;
    insert_all(values, constraint.sup, &found)
}

// What a constraint that holds there asks for inside a set.
fn asked_inside(alloc: Global, graph: &Graph, set: &RunSet, at: At) -> Result<Vec<Element>, Memory>
    requires width { length set.now ≡ element_count graph.now }
    requires among { IsAmong graph.now.points at }
    ensures { IfOk result (λ found. (x : ℕ) → Contains found.items x
        ↔ IsAskedIn graph.now (λ z. flag set.now z ≡ true) at x) }
{
    match at {
        At::All => all_of(alloc, set, graph.points() + graph.universals()),
        At::Point(point) => reached_from(alloc, graph, set, point),
    }
}

// What walks from a point reach inside a set. For a frontier the point is the last element that
// comes into the set: without it no walk begins.
fn reached_from(
    alloc: Global,
    graph: &Graph,
    set: &RunSet,
    point: u32,
) -> Result<Vec<Element>, Memory>
    requires width { length set.now ≡ element_count graph.now }
    requires point { point < element_count graph.now }
    ensures { IfOk result (λ found. (x : ℕ) → Contains found.items x
        ↔ Reaches graph.now (λ z. flag set.now z ≡ true) point x) }
{
    let mut found = Vec::new(alloc);
    let element = Element(point);
    if set.has(element) {
        Frontier::new(alloc, At::Point(point)).grow(graph, set, element, &mut found)?;
    }
    Ok(found)
}

// The elements of a set of this length.
fn all_of(alloc: Global, set: &RunSet, count: u32) -> Result<Vec<Element>, Memory>
    requires { length set.now ≡ count }
    ensures { IfOk result
        (λ found. (x : ℕ) → Contains found.items x ↔ (flag set.now x ≡ true)) }
{
    let mut found = Vec::new(alloc);
    for number in 0..count {
        if set.has(Element(number)) {
            found.push(Element(number))?;
        }
    }
    Ok(found)
}

// Inserts elements into the set of a region. Answers whether one of them is new.
fn insert_all(values: &mut Values, region: RegionId, found: &[Element]) -> Result<bool, Memory>
    requires region { region < length values.old }
    requires elements { (x : ℕ) → Contains found.now x → x < length (set_of values.old region) }
    ensures gains { Gains (λ r e. (r ≡ region) × Contains found.now e) values.old values.new }
    ensures covers { OnOk result ((x : ℕ) → Contains found.now x → IsHeld values.new region x) }
    ensures tells { IfOk result (λ changed. Tells changed values.old values.new) }
{
    let mut changed = false;
    for element in found {
        let new = values.insert(region, *element)?;
        changed |= new;
    }
    Ok(changed)
}
