//! The base elements that liveness gives regions, pair by pair.

ghost use Rattle.std.specs.Prelude.{◌≡◌, ◌↔◌, ◌++◌, ◌<◌, ℕ, length, AllPairs, Contains, IfOk, OnOk};
ghost use Rattle.nll_problem.specs.BaseRuns.{IsInBaseRuns, facts_of};
ghost use Rattle.nll_problem.specs.Problem.{IsEarlier};
ghost use Rattle.nll_live.specs.Live.{IsBaseOf};
ghost use Rattle.nll_live.specs.LiveSets.{AreLiveSets};

use crate::base_search::live_runs;
use crate::live_sets::LiveSets;
use nll_body::Body;
use nll_problem::{BaseRun, RegionId};
use nll_sets::Memory;
use std::alloc::Global;

/// The base elements of regions that follow from the liveness of variables, each once, ascending by
/// region, then by point.
///
/// # Errors
/// - `Memory`.
///
/// # Cost
/// That of `live_runs`, which doesn't look into the sets, and sorting the points of its runs (not
/// proved).
///
/// # Source
/// RFC 2094, "Liveness" and "Drop".
pub fn bases(alloc: Global, body: &Body, sets: &LiveSets) -> Result<Vec<(RegionId, u32)>, Memory>
    requires { AreLiveSets body.now sets.now }
    ensures each { IfOk result (λ v. (r p : ℕ) → Contains v.items (r, p) ↔ IsBaseOf body.now r p) }
    ensures ascending { IfOk result (λ v. AllPairs IsEarlier v.items) }
    ensures within { IfOk result (λ v. (r p : ℕ) → Contains v.items (r, p)
        → (r < length body.now.names) × (p < length body.now.points)) }
{
    let base_runs = live_runs(alloc, body)?;
    let pairs = pairs_of(alloc, base_runs.as_slice());
    // Early drop.
    drop(base_runs);
    pairs
}

// The pairs of a region and a point that runs stand for, ascending, each once.
fn pairs_of(alloc: Global, base_runs: &[BaseRun]) -> Result<Vec<(RegionId, u32)>, Memory>
    ensures each { IfOk result (λ v. (r p : ℕ)
        → Contains v.items (r, p) ↔ IsInBaseRuns base_runs.now r p) }
    ensures ascending { IfOk result (λ v. AllPairs IsEarlier v.items) }
{
    let mut pairs = Vec::new(alloc);
    for base_run in base_runs {
        push_pairs(&mut pairs, *base_run)?;
    }
    pairs.sort_unstable();
    pairs.dedup();
    Ok(pairs)
}

// Appends the pairs of a run.
fn push_pairs(pairs: &mut Vec<(RegionId, u32)>, base_run: BaseRun) -> Result<(), Memory>
    ensures { OnOk result (pairs.new.items ≡ pairs.old.items ++ facts_of base_run) }
{
    for point in base_run.first..base_run.end {
        pairs.push((base_run.region, point))?;
    }
    Ok(())
}
