//! How a frontier goes on once a run is added to the set inside which its constraints ask.

ghost use Rattle.std.specs.Prelude.{◌≡◌, ◌↔◌, ℕ, ◌+◌, ◌≤◌, ◌<◌, true, false, [], Contains, length};
ghost use Rattle.std.specs.Prelude.{OnOk, IfOk, IfSome, IfNone};
ghost use Rattle.nll_problem.specs.At.{IsAmong};
ghost use Rattle.nll_problem.specs.Graph.{element_count, IsNext, IsReturn};
ghost use Rattle.nll_problem.specs.Walks.{Reaches};
ghost use Rattle.nll_problem.specs.declared.at.At.{At as places};
ghost use Rattle.nll_sets.specs.Runs.{IsWithin};
ghost use Rattle.nll_core.specs.Lines.{IsJump};
ghost use Rattle.nll_core.specs.Search.{IsIn};
ghost use Rattle.nll_core.specs.Walking.{AreIn, GrowsByRuns, IsLedTo};
ghost use Rattle.nll_core.specs.Frontiers.{FrontierGoesOn, IsAskedFrom, ListsNew, ReachesFrom};
ghost use Rattle.nll_core.specs.Frontiers.{IsIdle, ResumesPoints, WalksOn};

use crate::frontiers::landings::Landings;
use crate::frontiers::places::{Places, Points};
use crate::frontiers::steps::Steps;
use crate::lines::Lines;
use crate::satisfaction::is_empty;
use crate::stretches::{enter, fill_from, spread};
use nll_sets::{Element, ElementSet, Memory, Run, RunSet};

/// Goes on with what constraints ask for from a run of the set inside which they ask, and fills an
/// empty list with the runs of what is newly reached. Where one of them holds at all points, that
/// is the part of the run that is new; otherwise walks go on from their points.
pub fn resume(
    steps: &Steps,
    seen: &RunSet,
    starts: &Places,
    run: Run,
    reached: &mut RunSet,
    found: &mut Vec<Run>,
) -> Result<(), Memory>
    requires seen_width { length seen.now ≡ element_count steps.now }
    requires width { length reached.old ≡ element_count steps.now }
    requires starts { (p : places) → Contains starts.now p → IsAmong steps.now.points p }
    requires run { AreIn seen.now run }
    requires proper { run.first ≤ run.last }
    requires before { (x : ℕ) → IsIn reached.old x
        → IsAskedFrom steps.now (IsIn seen.now) starts.now x }
    requires none { found.old.items ≡ [] }
    ensures width { OnOk result (length reached.new ≡ length reached.old) }
    ensures after { OnOk result
        (FrontierGoesOn steps.now seen.now run starts.now reached.old reached.new) }
    ensures found { OnOk result (ListsNew reached.old reached.new [] found.new.items) }
{
    if starts.has_all() {
        reached.gaps(run, found)?;
        reached.insert_run(run)?;
        return Ok(());
    }
    let points = starts.points();
    resume_walks(steps, seen, &points, run, reached, found)
}

/// Whether going on from a run reaches nothing, since nothing is reached yet and no constraint asks
/// for anything from a place in the run.
pub fn is_idle(starts: &Places, run: Run, reached: &RunSet) -> bool
    ensures { (result ≡ true) ↔ IsIdle starts.now run reached.now }
{
    if starts.has_all() {
        return false;
    }
    let points = starts.points();
    begins_nothing(&points, run, reached)
}

// Goes on with walks from some points, from a run of the set in which they go, and fills an empty
// list with the runs of what is newly reached.
fn resume_walks(
    steps: &Steps,
    seen: &RunSet,
    starts: &Points<'_>,
    run: Run,
    reached: &mut RunSet,
    found: &mut Vec<Run>,
) -> Result<(), Memory>
    requires seen_width { length seen.now ≡ element_count steps.now }
    requires width { length reached.old ≡ element_count steps.now }
    requires starts { (p : ℕ) → Contains starts.now p → p < steps.now.points }
    requires run { AreIn seen.now run }
    requires proper { run.first ≤ run.last }
    requires before { (x : ℕ) → IsIn reached.old x
        → ReachesFrom steps.now (IsIn seen.now) starts.now x }
    requires none { found.old.items ≡ [] }
    ensures width { OnOk result (length reached.new ≡ length reached.old) }
    ensures after { OnOk result
        (WalksOn steps.now seen.now run starts.now reached.old reached.new) }
    ensures found { OnOk result (ListsNew reached.old reached.new [] found.new.items) }
{
    if begins_nothing(starts, run, reached) || has_whole(reached, run) {
        return Ok(());
    }
    let points = steps.lines.points();
    let ended = resume_points(steps, seen, starts, run, reached, found)?;
    // Else the ends in the set are reached: a return point is newly reached, or one was reached
    // before and the run may have an end.
    if !ended && (run.last < points || !has_return(&steps.lines, &steps.landings, reached)) {
        return Ok(());
    }
    fill_from(seen, reached, found, points)?;
    Ok(())
}

// Whether nothing is reached yet, and no walk begins in a run.
fn begins_nothing(starts: &Points<'_>, run: Run, reached: &RunSet) -> bool
    ensures none { result ≡ true → (x : ℕ) → IsIn reached.now x → ⊥ }
    ensures apart { result ≡ true → (p : ℕ) → Contains starts.now p → IsWithin run p → ⊥ }
    ensures all { ((x : ℕ) → IsIn reached.now x → ⊥)
        → ((p : ℕ) → Contains starts.now p → IsWithin run p → ⊥) → result ≡ true }
{
    if !is_empty(reached) {
        return false;
    }
    match starts.next_in(run.first, run.last) {
        Some(_) => false,
        None => true,
    }
}

// Whether a set has a whole run; if so, walks that reached the set went on from there already.
fn has_whole(reached: &RunSet, run: Run) -> bool
    ensures { result ≡ true → (x : ℕ) → IsWithin run x → IsIn reached.now x }
{
    match reached.run_from(run.first) {
        Some(other) => other.first <= run.first && run.last <= other.last,
        None => false,
    }
}

// Goes on among points only. Returns whether a return point is newly reached.
fn resume_points(
    steps: &Steps,
    seen: &RunSet,
    starts: &Points<'_>,
    run: Run,
    reached: &mut RunSet,
    found: &mut Vec<Run>,
) -> Result<bool, Memory>
    requires width { steps.now.points ≤ length reached.old }
    requires starts { (p : ℕ) → Contains starts.now p → p < steps.now.points }
    requires run { AreIn seen.now run }
    requires proper { run.first ≤ run.last }
    requires before { (x : ℕ) → IsIn reached.old x
        → ReachesFrom steps.now (IsIn seen.now) starts.now x }
    requires none { found.old.items ≡ [] }
    ensures { IfOk result (ResumesPoints steps.now seen.now run starts.now
        reached.old reached.new found.old.items found.new.items) }
{
    let Steps { lines, landings } = steps;
    let points = lines.points();
    if run.first >= points {
        return Ok(false);
    }
    let part = Run {
        first: run.first,
        last: run.last.min(points - 1),
    };
    enter_next(lines, seen, part, reached, found)?;
    enter_starts(lines, seen, starts, part, reached, found)?;
    enter_landings(lines, landings, seen, part, reached, found)?;
    spread(lines, seen, reached, found)
}

// Enters the points of a run to which their line leads from the point before, which is reached.
fn enter_next(
    lines: &Lines,
    seen: &RunSet,
    part: Run,
    reached: &mut RunSet,
    found: &mut Vec<Run>,
) -> Result<(), Memory>
    requires points { part.last < lines.now.points }
    requires width { lines.now.points ≤ length reached.old }
    requires part { AreIn seen.now part }
    requires inside { (x : ℕ) → IsIn reached.old x → IsIn seen.now x }
    ensures grows { OnOk result (GrowsByRuns lines.now seen.now
        (IsLedTo lines.now seen.now reached.old)
        reached.old reached.new found.old.items found.new.items) }
    ensures covers { OnOk result ((x : ℕ) → IsIn reached.old x → IsNext lines.now x (x + 1)
        → IsWithin part (x + 1) → IsIn reached.new (x + 1)) }
{
    let _points = lines.points();
    let mut from = part.first.saturating_sub(1);
    while let Some(last) = next_end(reached, from, part.last) {
        if lines.line_end(last) > last {
            enter_point(lines, seen, reached, found, last + 1)?;
        }
        from = last + 1;
    }
    Ok(())
}

// The last number of the first reached run that ends at `from` or later, if that is below the
// limit.
fn next_end(reached: &RunSet, from: u32, limit: u32) -> Option<u32>
    ensures bounds { IfSome result (λ last. (from ≤ last) × (last < limit)) }
    ensures reached { IfSome result (IsIn reached.now) }
    ensures before { IfSome result (λ last. (x : ℕ) → from ≤ x → x < last
        → IsIn reached.now x → IsIn reached.now (x + 1)) }
    ensures none { IfNone result ((x : ℕ) → from ≤ x → x < limit
        → IsIn reached.now x → IsIn reached.now (x + 1)) }
{
    if from >= limit {
        return None;
    }
    match reached.run_from(from) {
        Some(run) if run.last < limit => Some(run.last),
        _ => None,
    }
}

// Enters the points of a run from which walks go.
fn enter_starts(
    lines: &Lines,
    seen: &RunSet,
    starts: &Points<'_>,
    part: Run,
    reached: &mut RunSet,
    found: &mut Vec<Run>,
) -> Result<(), Memory>
    requires points { part.last < lines.now.points }
    requires width { lines.now.points ≤ length reached.old }
    requires part { AreIn seen.now part }
    ensures grows { OnOk result (GrowsByRuns lines.now seen.now
        (ReachesFrom lines.now (IsIn seen.now) starts.now)
        reached.old reached.new found.old.items found.new.items) }
    ensures covers { OnOk result
        ((p : ℕ) → Contains starts.now p → IsWithin part p → IsIn reached.new p) }
{
    let _points = lines.points();
    let mut next = part.first;
    while let Some(start) = starts.next_in(next, part.last) {
        enter_point(lines, seen, reached, found, start)?;
        let Some(entered) = reached.run_from(start) else {
            unreachable!();
        };
        // No start in the run enters anything.
        next = entered.last.min(part.last) + 1;
    }
    Ok(())
}

// Enters the points of a run to which jumps lead from what is reached.
fn enter_landings(
    lines: &Lines,
    landings: &Landings,
    seen: &RunSet,
    part: Run,
    reached: &mut RunSet,
    found: &mut Vec<Run>,
) -> Result<(), Memory>
    requires landings { landings.now ≡ lines.now }
    requires proper { part.first ≤ part.last }
    requires points { part.last < lines.now.points }
    requires width { lines.now.points ≤ length reached.old }
    requires part { AreIn seen.now part }
    requires inside { (x : ℕ) → IsIn reached.old x → IsIn seen.now x }
    ensures grows { OnOk result (GrowsByRuns lines.now seen.now
        (IsLedTo lines.now seen.now reached.old)
        reached.old reached.new found.old.items found.new.items) }
    ensures covers { OnOk result ((x t : ℕ) → IsIn reached.old x → IsJump lines.now x t
        → IsWithin part t → IsIn reached.new t) }
{
    let _points = lines.points();
    for landing in landings.landing_in(part) {
        if reached.has(Element(landing.from)) {
            enter_point(lines, seen, reached, found, landing.to)?;
        }
    }
    Ok(())
}

// Enters a point of the set, from which walks go on.
fn enter_point(
    lines: &Lines,
    seen: &RunSet,
    reached: &mut RunSet,
    found: &mut Vec<Run>,
    point: u32,
) -> Result<(), Memory>
    requires point { point < lines.now.points }
    requires width { lines.now.points ≤ length reached.old }
    requires seen { IsIn seen.now point }
    ensures grows { OnOk result (GrowsByRuns lines.now seen.now
        (Reaches lines.now (IsIn seen.now) point)
        reached.old reached.new found.old.items found.new.items) }
    ensures covers { OnOk result (IsIn reached.new point) }
{
    let Some(inside) = seen.run_from(point) else {
        unreachable!();
    };
    enter(lines, inside, reached, found, point)?;
    Ok(())
}

// Whether a return point is reached. It looks at the return points or at the reached runs,
// whichever are fewer.
fn has_return(lines: &Lines, landings: &Landings, reached: &RunSet) -> bool
    requires landings { landings.now ≡ lines.now }
    requires width { lines.now.points ≤ length reached.now }
    ensures { (result ≡ true) ↔ ((x : ℕ) × IsIn reached.now x × IsReturn lines.now x) }
{
    let points = lines.points();
    let ends = Run {
        first: points,
        last: points,
    };
    let returns = landings.landing_in(ends);
    if returns.len() > reached.runs() {
        for run in reached.as_runs() {
            if landings.has_return_in(*run) {
                return true;
            }
        }
        return false;
    }
    for landing in returns {
        if reached.has(Element(landing.from)) {
            return true;
        }
    }
    false
}
