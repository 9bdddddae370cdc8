//! The least solution of a problem: each region whose value grew is visited, until no value grows.
//!
//! A visit meets all constraints that read the region. What they ask is found anew, by a walk for
//! each region that they fill; no walk is kept between visits.

ghost use Rattle.std.specs.Prelude.{◌≡◌, ℕ, ◌≤◌, ◌<◌, ◌↔◌, false, true, Contains, length};
ghost use Rattle.std.specs.Prelude.{IfOk, OnOk};
ghost use Rattle.nll_sets.specs.ElementSet.{flag};
ghost use Rattle.nll_problem.specs.Graph.{element_count};
ghost use Rattle.nll_problem.specs.Solution.{Least};
ghost use Rattle.nll_problem.specs.declared.constraint.Constraint as spec;
ghost use Rattle.nll_core.specs.Values.{IsHeld, IsShaped};
ghost use Rattle.nll_core.specs.Growing.{IsMet};
ghost use Rattle.nll_core.specs.Worklist.{AreRegions, IsTracked, IsCleared, IsOnTheWay, Turns};
ghost use Rattle.nll_core.specs.Worklist.{Completes, Visits};

use crate::bases::base_values;
use crate::indexed::Indexed;
use crate::lines::Lines;
use crate::satisfaction::{Pair, meet, pair_end};
use crate::values::Values;
use crate::walk::Walk;
use nll_problem::{ConstraintIndex, Problem, RegionId};
use nll_sets::Memory;
use std::alloc::Global;

/// Gives each region its least value: the base elements, and what the constraints ask for.
///
/// # Errors
/// - `Memory`.
///
/// # Cost
/// A region is visited again where its value grew. A visit makes a walk for each region that its
/// constraints fill, in as many steps as the walk goes through runs of the value and jumps of the
/// graph (not proved).
///
/// # Source
/// RFC 2094, "Solving constraints".
pub fn solve(alloc: Global, problem: &Problem) -> Result<Values, Memory>
    ensures shaped { IfOk result (IsShaped problem.now) }
    ensures least { IfOk result (λ values. (r e : ℕ) → IsHeld values r e ↔ Least problem.now r e) }
{
    let mut values = base_values(alloc, problem)?;
    close(alloc, problem, &mut values)?;
    Ok(values)
}

// Inserts what the constraints ask of the values, until they ask for nothing more.
fn close(alloc: Global, problem: &Problem, values: &mut Values) -> Result<(), Memory>
    requires { IsShaped problem.now values.old }
    ensures { OnOk result (Completes problem.now values.old values.new) }
{
    let lines = Lines::of(alloc, problem.graph())?;
    let told = close_by(alloc, problem, &lines, values);
    drop(lines);
    told
}

// Like `close`, over the lines of the problem's graph.
fn close_by(
    alloc: Global,
    problem: &Problem,
    lines: &Lines,
    values: &mut Values,
) -> Result<(), Memory>
    requires shaped { IsShaped problem.now values.old }
    requires lines { lines.now ≡ problem.now.graph }
    ensures { OnOk result (Completes problem.now values.old values.new) }
{
    let index = ConstraintIndex::of(alloc, problem)?;
    let indexed = Indexed {
        problem,
        lines,
        index: &index,
    };
    let told = visit_all(alloc, &indexed, values);
    drop(index);
    told
}

// Like `close`, over what was made of the problem.
fn visit_all(alloc: Global, problem: &Indexed<'_>, values: &mut Values) -> Result<(), Memory>
    requires { IsShaped problem.now values.old }
    ensures { OnOk result (Completes problem.now values.old values.new) }
{
    let order = problem.order(alloc)?;
    let mut marks = vec![in alloc; true; problem.regions() as usize]?;
    let mut walk = Walk::new(alloc, problem.elements())?;
    let told = sweep(problem, &order, values, &mut marks, &mut walk);
    drop(walk);
    told
}

// Visits marked regions until none is marked.
fn sweep(
    problem: &Indexed<'_>,
    order: &[u32],
    values: &mut Values,
    marks: &mut Vec<bool>,
    walk: &mut Walk,
) -> Result<(), Memory>
    requires order { AreRegions problem.now order.now }
    requires walk { length walk.old.reached ≡ element_count problem.now.graph }
    requires way { IsOnTheWay problem.now values.old values.old marks.old.items }
    ensures { OnOk result (Completes problem.now values.old values.new) }
{
    let _regions = problem.regions();
    while sweep_backwards(problem, order, values, marks, walk)? {}
    while sweep_all(problem, values, marks, walk)? {}
    Ok(())
}

// Visits each marked region of a list, the last one first. Returns whether something was new.
fn sweep_backwards(
    problem: &Indexed<'_>,
    order: &[u32],
    values: &mut Values,
    marks: &mut Vec<bool>,
    walk: &mut Walk,
) -> Result<bool, Memory>
    requires shaped { IsShaped problem.now values.old }
    requires order { AreRegions problem.now order.now }
    requires walk { length walk.old.reached ≡ element_count problem.now.graph }
    requires width { length marks.old.items ≡ problem.now.regions }
    requires tracked { IsTracked problem.now values.old marks.old.items }
    ensures turns { IfOk result
        (Turns problem.now values.old values.new marks.new.items) }
    ensures walk { OnOk result (length walk.new.reached ≡ element_count problem.now.graph) }
{
    let mut changed = false;
    let mut place = order.len();
    while place > 0 {
        place -= 1;
        let new = turn(problem, values, marks, walk, RegionId(order[place]))?;
        changed |= new;
    }
    Ok(changed)
}

// Visits each marked region by number. Returns whether something was new.
fn sweep_all(
    problem: &Indexed<'_>,
    values: &mut Values,
    marks: &mut Vec<bool>,
    walk: &mut Walk,
) -> Result<bool, Memory>
    requires shaped { IsShaped problem.now values.old }
    requires walk { length walk.old.reached ≡ element_count problem.now.graph }
    requires width { length marks.old.items ≡ problem.now.regions }
    requires tracked { IsTracked problem.now values.old marks.old.items }
    ensures turns { IfOk result
        (Turns problem.now values.old values.new marks.new.items) }
    ensures walk { OnOk result (length walk.new.reached ≡ element_count problem.now.graph) }
    ensures clean { IfOk result (λ changed. changed ≡ false
        → (r : ℕ) → r < problem.now.regions → flag marks.new.items r ≡ false) }
{
    let mut changed = false;
    for region in 0..problem.regions() {
        let new = turn(problem, values, marks, walk, RegionId(region))?;
        changed |= new;
    }
    Ok(changed)
}

// Visits a region, if it is marked.
fn turn(
    problem: &Indexed<'_>,
    values: &mut Values,
    marks: &mut Vec<bool>,
    walk: &mut Walk,
    sub: RegionId,
) -> Result<bool, Memory>
    requires shaped { IsShaped problem.now values.old }
    requires walk { length walk.old.reached ≡ element_count problem.now.graph }
    requires width { length marks.old.items ≡ problem.now.regions }
    requires region { sub < problem.now.regions }
    requires tracked { IsTracked problem.now values.old marks.old.items }
    ensures turns { IfOk result
        (Turns problem.now values.old values.new marks.new.items) }
    ensures walk { OnOk result (length walk.new.reached ≡ element_count problem.now.graph) }
    ensures clean { IfOk result (λ changed. changed ≡ false
        → IsCleared marks.old.items marks.new.items sub) }
{
    let at = sub.0 as usize;
    if !marks[at] {
        return Ok(false);
    }
    marks[at] = false;
    visit(problem, values, marks, walk, sub)
}

// Meets each constraint that reads a region, and marks the regions that gain something.
fn visit(
    problem: &Indexed<'_>,
    values: &mut Values,
    marks: &mut Vec<bool>,
    walk: &mut Walk,
    sub: RegionId,
) -> Result<bool, Memory>
    requires shaped { IsShaped problem.now values.old }
    requires walk { length walk.old.reached ≡ element_count problem.now.graph }
    requires width { length marks.old.items ≡ problem.now.regions }
    requires region { sub < problem.now.regions }
    ensures visits { IfOk result (Visits problem.now sub values.old values.new
        marks.old.items marks.new.items) }
    ensures walk { OnOk result (length walk.new.reached ≡ element_count problem.now.graph) }
    ensures met { OnOk result ((c : spec.Constraint)
        → Contains problem.now.constraints c → c.sub ≡ sub → IsMet problem.now values.new c) }
{
    let _regions = problem.regions();
    let constraints = problem.reading(sub);
    let mut changed = false;
    let mut place = 0;
    while place < constraints.len() {
        let end = pair_end(constraints, place);
        let pair = Pair {
            sub,
            sup: constraints[place].sup,
            constraints: &constraints[place..end],
        };
        let new = meet(problem, values, marks, walk, &pair)?;
        changed |= new;
        place = end;
    }
    Ok(changed)
}
