//! Lists of facts that grow. If memory is refused, a fact that is there already needs none.

ghost use Rattle.std.specs.Prelude.{◌≡◌, ◌≤◌, ◌<◌, ◌↔◌, ◌++◌, ◌∷◌, [], ℕ, Contains};
ghost use Rattle.std.specs.Prelude.{IsOk, IsTrue, OnErr, OnOk};
ghost use Rattle.indexmap.specs.IndexSet.{insert_key};
ghost use Rattle.nll_problem.specs.BaseRuns.{AreInRuns, IsInBaseRun, IsInBaseRuns};
ghost use Rattle.nll_problem.specs.BaseRuns.{facts_of_runs};
ghost use Rattle.nll_problem.specs.Bases.{distinct};
ghost use Rattle.nll_problem.specs.Building.{same_constraint};
ghost use Rattle.nll_problem.specs.declared.base_run.BaseRun as spec;

use crate::base_run::BaseRun;
use crate::constraint::Constraint;
use crate::region::RegionId;
use indexmap::IndexSet;
use nll_sets::Memory;

/// Appends a pair of regions, repeated or not.
///
/// # Errors
/// `Memory` alone, and never for a pair that is there.
pub(crate) fn push_pair(
    pairs: &mut Vec<(RegionId, RegionId)>,
    pair: (RegionId, RegionId),
) -> Result<(), Memory>
    ensures ok { OnOk result
        (distinct pairs.new.items ≡ distinct (pairs.old.items ++ pair ∷ [])) }
    ensures err { OnErr result (pairs.new.items ≡ pairs.old.items) }
    ensures repeated { Contains pairs.old.items pair → IsOk result }
{
    let room = pairs.reserve(1);
    if room.is_err() && pairs.contains(&pair) {
        return Ok(());
    }
    room?;
    pairs.push_reserved(pair);
    Ok(())
}

/// Appends a run of base facts, repeated or not.
///
/// # Errors
/// `Memory` alone, and never where the runs have all its points.
pub(crate) fn push_run(runs: &mut Vec<BaseRun>, run: BaseRun) -> Result<(), Memory>
    ensures ok { OnOk result (distinct (facts_of_runs runs.new.items)
        ≡ distinct (facts_of_runs (runs.old.items ++ run ∷ []))) }
    ensures each { (other : spec.BaseRun)
        → Contains runs.new.items other → Contains (runs.old.items ++ run ∷ []) other }
    ensures err { OnErr result (runs.new.items ≡ runs.old.items) }
    ensures repeated { AreInRuns runs.old.items run → IsOk result }
{
    let room = runs.reserve(1);
    if room.is_err() && has_run(runs.as_slice(), &run) {
        return Ok(());
    }
    room?;
    runs.push_reserved(run);
    Ok(())
}

/// Appends a constraint to the list and to its index, unless it is there.
///
/// # Errors
/// `Memory` alone, and never for a constraint that is there.
pub(crate) fn insert(
    constraints: &mut Vec<Constraint>,
    known: &mut IndexSet<Constraint>,
    constraint: &Constraint,
) -> Result<(), Memory>
    requires { known.old.keys ≡ constraints.old.items }
    ensures ok { OnOk result
        (constraints.new.items ≡ insert_key same_constraint constraints.old.items constraint.now) }
    ensures err { OnErr result (constraints.new.items ≡ constraints.old.items) }
    ensures known { known.new.keys ≡ constraints.new.items }
    ensures repeated { Contains constraints.old.items constraint.now → IsOk result }
{
    let added = known.insert(*constraint)?;
    if !added {
        return Ok(());
    }
    let room = constraints.reserve(1);
    if room.is_err() {
        known.pop();
    }
    room?;
    constraints.push_reserved(*constraint);
    Ok(())
}

// Whether runs have each point of a run.
//
// # Cost
// A pass over all runs, and one more for each that doesn't follow the one before it (not proved).
#[cold]
fn has_run(runs: &[BaseRun], run: &BaseRun) -> bool
    ensures { IsTrue result ↔ AreInRuns runs.now run.now }
{
    let mut point = run.first;
    while point < run.end {
        let end = reach(runs, run.region, point);
        if end == point {
            return false;
        }
        point = end;
    }
    true
}

// The end of points, from one on, that runs of a region have; this point if none has it.
fn reach(runs: &[BaseRun], region: RegionId, point: u32) -> u32
    ensures covered { (p : ℕ) → point ≤ p → p < result → IsInBaseRuns runs.now region p }
    ensures begun { IsInBaseRuns runs.now region point → point < result }
    ensures behind { point ≤ result }
{
    let mut end = point;
    for run in runs {
        end = reach_on(run, region, end);
    }
    end
}

// The end of points, from one on, that a run of the region has; this point if it lacks it.
fn reach_on(run: &BaseRun, region: RegionId, end: u32) -> u32
    ensures covered { (p : ℕ) → end ≤ p → p < result → IsInBaseRun run.now region p }
    ensures begun { (p : ℕ) → p ≤ end → IsInBaseRun run.now region p → p < result }
    ensures behind { end ≤ result }
{
    if run.region == region && run.first <= end {
        return end.max(run.end);
    }
    end
}
