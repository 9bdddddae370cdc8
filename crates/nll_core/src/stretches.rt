//! Walks through a graph inside the value of a region, a whole stretch of a line at a time.
//!
//! A walk keeps the points that it has reached as a set, and the stretches that it has entered and
//! not yet followed as a list.

ghost use Rattle.std.specs.Prelude.{◌≡◌, ◌⊎◌, ◌↔◌, ℕ, ◌≤◌, ◌<◌, true, Contains, length, [], List};
ghost use Rattle.std.specs.Prelude.{Bool, IfOk, IfErr, OnOk};
ghost use Rattle.nll_problem.specs.Walks.{Reaches};
ghost use Rattle.nll_sets.specs.Runs.{IsInRuns, IsRunFrom, IsWithin};
ghost use Rattle.nll_core.specs.Lines.{IsJump};
ghost use Rattle.nll_core.specs.Search.{IsIn};
ghost use Rattle.nll_core.specs.Walking.{IsFreeTo, GrowsByRuns, IsJumpedTo, IsFollowed};
ghost use Rattle.nll_core.specs.Walking.{AreRunsOfPoints};
ghost use Rattle.nll_core.specs.Walking.{AreIn, IsLineClosed, IsSpread, no_limit, FillsFrom};
ghost use Rattle.nll_core.specs.Frontiers.{ListsNew};

use crate::lines::Lines;
use nll_sets::{Memory, Run, RunSet};

// The run of a set that has a point; or Err with the number before which, from the point on, the
// set has no number.
fn look_up(reached: &RunSet, point: u32) -> Result<Run, u32>
    requires { point < no_limit }
    ensures has { OnOk result (IsIn reached.now point) }
    ensures run { IfOk result (AreIn reached.now) }
    ensures free { IfErr result (IsFreeTo reached.now point) }
{
    let Some(next) = reached.run_from(point) else {
        return Err(u32::MAX);
    };
    if next.first <= point {
        return Ok(next);
    }
    Err(next.first)
}

// Inserts the stretch from a new point of a run of `sub` into the set and appends it to the list:
// as far as its line and the run go on, and before the limit, where the set goes on. Returns a
// number up to which each number from the point on is settled.
fn enter_run(
    lines: &Lines,
    inside: Run,
    limit: u32,
    reached: &mut RunSet,
    todo: &mut Vec<Run>,
    point: u32,
) -> Result<u32, Memory>
    requires point { point < lines.now.points }
    requires widths { lines.now.points ≤ length reached.old }
    requires inside { IsWithin inside point }
    requires free { IsFreeTo reached.old point limit }
    ensures grows { OnOk result ((sub : List Bool) → IsRunFrom sub point inside
        → GrowsByRuns lines.now sub (Reaches lines.now (IsIn sub) point)
        reached.old reached.new todo.old.items todo.new.items) }
    ensures settled { IfOk result (λ next. (sub : List Bool) → IsRunFrom sub point inside
        → IsLineClosed lines.now sub reached.old
        → (x : ℕ) → point ≤ x → x < next → IsIn reached.new x) }
    ensures covers { OnOk result (IsIn reached.new point) }
{
    let _points = lines.points();
    let last = lines.line_end(point).min(inside.last);
    let run = Run {
        first: point,
        last: last.min(limit - 1),
    };
    reached.insert_run(run)?;
    todo.push(run)?;
    Ok(last + 1)
}

/// Enters a point of a run of `sub`. Returns a number up to which each number from the point on is
/// settled.
pub fn enter(
    lines: &Lines,
    inside: Run,
    reached: &mut RunSet,
    todo: &mut Vec<Run>,
    point: u32,
) -> Result<u32, Memory>
    requires point { point < lines.now.points }
    requires widths { lines.now.points ≤ length reached.old }
    requires inside { IsWithin inside point }
    ensures grows { OnOk result ((sub : List Bool) → IsRunFrom sub point inside
        → GrowsByRuns lines.now sub (Reaches lines.now (IsIn sub) point)
        reached.old reached.new todo.old.items todo.new.items) }
    ensures settled { IfOk result (λ next. (sub : List Bool) → IsRunFrom sub point inside
        → IsLineClosed lines.now sub reached.old
        → (x : ℕ) → point ≤ x → x < next → IsIn reached.new x) }
    ensures covers { OnOk result (IsIn reached.new point) }
{
    let _points = lines.points();
    let Err(limit) = look_up(reached, point) else {
        return Ok(point + 1);
    };
    enter_run(lines, inside, limit, reached, todo, point)
}

// Enters a point, if it is in `sub` and not reached. Returns a run of reached points: the one that
// has the point or, if it wasn't reached, the one that was given. Keeps the index of a run of `sub`
// near which later points may lie.
fn go_to(
    lines: &Lines,
    sub: &RunSet,
    near: &mut usize,
    reached: &mut RunSet,
    todo: &mut Vec<Run>,
    known: Run,
    point: u32,
) -> Result<Run, Memory>
    requires point { point < lines.now.points }
    requires widths { lines.now.points ≤ length reached.old }
    requires known { AreIn reached.old known }
    ensures grows { OnOk result (GrowsByRuns lines.now sub.now (Reaches lines.now
        (IsIn sub.now) point)
        reached.old reached.new todo.old.items todo.new.items) }
    ensures known { IfOk result (AreIn reached.new) }
    ensures covers { OnOk result (IsIn sub.now point → IsIn reached.new point) }
{
    let _points = lines.points();
    let limit = match look_up(reached, point) {
        Ok(run) => return Ok(run),
        Err(limit) => limit,
    };
    let (at, found) = sub.run_near(*near, point);
    *near = at;
    let Some(inside) = found else {
        return Ok(known);
    };
    if inside.first <= point {
        enter_run(lines, inside, limit, reached, todo, point)?;
    }
    Ok(known)
}

// Enters the targets of the jumps from the points of a reached run. Returns whether one of these is
// a return point.
fn follow(
    lines: &Lines,
    sub: &RunSet,
    near: &mut usize,
    reached: &mut RunSet,
    todo: &mut Vec<Run>,
    run: Run,
) -> Result<bool, Memory>
    requires proper { run.first ≤ run.last }
    requires points { run.last < lines.now.points }
    requires widths { lines.now.points ≤ length reached.old }
    requires run { AreIn reached.old run }
    ensures grows { OnOk result (GrowsByRuns lines.now sub.now (IsJumpedTo lines.now sub.now run)
        reached.old reached.new todo.old.items todo.new.items) }
    ensures covers { OnOk result
        ((x : ℕ) → IsWithin run x → IsFollowed lines.now sub.now reached.new x) }
    ensures ends { IfOk result (λ ends. (ends ≡ true)
        ↔ ((x : ℕ) × IsWithin run x × IsJump lines.now x lines.now.points)) }
{
    let points = lines.points();
    let mut ends = false;
    // Most targets are reached already, and lie in the same run as the target before.
    let mut known = run;
    for target in lines.jumps(run) {
        if *target >= points {
            ends = true;
        } else if *target < known.first || known.last < *target {
            known = go_to(lines, sub, near, reached, todo, known, *target)?;
        }
    }
    Ok(ends)
}

/// Follows the stretches of a list, and those that it enters, which it appends to the list. Returns
/// whether one of them has a return point.
pub fn spread(
    lines: &Lines,
    sub: &RunSet,
    reached: &mut RunSet,
    list: &mut Vec<Run>,
) -> Result<bool, Memory>
    requires widths { lines.now.points ≤ length reached.old }
    requires fit { AreRunsOfPoints lines.now list.old.items }
    requires listed { (x : ℕ) → IsInRuns list.old.items x → IsIn reached.old x }
    requires inside { (x : ℕ) → IsIn reached.old x → IsIn sub.now x }
    ensures { IfOk result (IsSpread lines.now sub.now reached.old reached.new
        list.old.items list.new.items) }
{
    let mut ended = false;
    let mut near = 0;
    let mut place = 0;
    while place < list.len() {
        let run = list[place];
        place += 1;
        ended |= follow(lines, sub, &mut near, reached, list, run)?;
    }
    Ok(ended)
}

/// Inserts the elements of `sub` from a number on into a set, and appends the runs of those that
/// are new to a list.
pub fn fill_from(
    sub: &RunSet,
    reached: &mut RunSet,
    list: &mut Vec<Run>,
    from: u32,
) -> Result<(), Memory>
    requires width { length reached.old ≡ length sub.now }
    requires short { length sub.now < 4294967296 }
    ensures fills { OnOk result (FillsFrom from sub.now reached.old reached.new) }
    ensures lists { OnOk result (ListsNew reached.old reached.new list.old.items list.new.items) }
{
    let mut next = from;
    while let Some(run) = sub.run_from(next) {
        let rest = Run {
            first: run.first.max(next),
            last: run.last,
        };
        reached.gaps(rest, list)?;
        reached.insert_run(rest)?;
        next = run.last + 1;
    }
    Ok(())
}
