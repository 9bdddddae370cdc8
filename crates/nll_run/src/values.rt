//! The values of all regions, taken from the sets that the owners give up at the end.

ghost use Rattle.std.specs.Prelude.{◌≡◌, ◌↔◌, ℕ, List, IfOk, OnErr};
ghost use Rattle.nll_core.specs.Values.{IsHeld, IsShaped};
ghost use Rattle.nll_cut.specs.Partition.{owner_of};
ghost use Rattle.nll_mail.specs.declared.growth.Growth.{Growth};
ghost use Rattle.nll_owner.specs.Logs.{IsCutOf, IsTold, log_of};
ghost use Rattle.nll_run.specs.Holdings.{HaveValuesOf};

use nll_core::Values;
use nll_cut::Cut;
use nll_owner::Holding;
use nll_problem::{Problem, RegionId};
use nll_sets::Memory;
use std::alloc::Global;

/// The values that have exactly what the owners' logs say: the set of each region is taken out of
/// the holding of its owner.
///
/// # Errors
/// - `Memory`: nothing was taken.
///
/// # Cost
/// One pass over the regions; no set is copied (not proved).
pub fn values_of(
    alloc: Global,
    problem: &Problem,
    cut: &Cut,
    holdings: &mut Vec<Holding>,
) -> Result<Values, Memory>
    requires cut { IsCutOf problem.now cut.now }
    requires holdings { (logs : List (List Growth))
        × HaveValuesOf problem.now cut.now logs holdings.old.items }
    ensures shaped { IfOk result (λ values. IsShaped problem.now values) }
    ensures held { IfOk result (λ values. (logs : List (List Growth))
        → HaveValuesOf problem.now cut.now logs holdings.old.items
        → (r e : ℕ) → IsHeld values r e ↔ IsTold (log_of logs (owner_of cut.now r)) r e) }
    ensures err { OnErr result (holdings.new.items ≡ holdings.old.items) }
{
    let regions = problem.regions();
    let mut sets = Vec::with_capacity(alloc, regions as usize)?;
    for number in 0..regions {
        let region = RegionId(number);
        let owner = cut.owner_of(region);
        sets.push_reserved(holdings[owner as usize].take(alloc, region));
    }
    Ok(Values::of_sets(sets))
}
