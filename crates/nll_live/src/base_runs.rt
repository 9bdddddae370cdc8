//! Runs of base elements in a list that grows.

ghost use Rattle.std.specs.Prelude.{◌≡◌, ◌-◌, ◌^◌, ◌<◌, ℕ, length, Contains, OnOk};
ghost use Rattle.nll_sets.specs.Runs.{IsInRuns, last_of};
ghost use Rattle.nll_live.specs.BaseRuns.{GainsRuns};

use nll_problem::{BaseRun, RegionId};
use nll_sets::{Memory, Run};

/// Appends, for each of these runs, a run of base elements of each of the regions.
pub(crate) fn push_all(
    base_runs: &mut Vec<BaseRun>,
    regions: &[RegionId],
    runs: &[Run],
) -> Result<(), Memory>
    requires { (k : ℕ) → k < length runs.now → last_of runs.now k < 2 ^ 32 - 1 }
    ensures { OnOk result (GainsRuns (λ r p. Contains regions.now r × IsInRuns runs.now p)
        base_runs.old.items base_runs.new.items) }
{
    for region in regions {
        push_runs(base_runs, *region, runs)?;
    }
    Ok(())
}

// Like `push_all`, for one region.
fn push_runs(base_runs: &mut Vec<BaseRun>, region: RegionId, runs: &[Run]) -> Result<(), Memory>
    requires { (k : ℕ) → k < length runs.now → last_of runs.now k < 2 ^ 32 - 1 }
    ensures { OnOk result (GainsRuns (λ r p. (region ≡ r) × IsInRuns runs.now p)
        base_runs.old.items base_runs.new.items) }
{
    for run in runs {
        base_runs.push(BaseRun {
            region,
            first: run.first,
            end: run.last + 1,
        })?;
    }
    Ok(())
}
