//! Universal region errors: which universal regions must outlive another and aren't known to.

ghost use Rattle.std.specs.Prelude.{◌≡◌, ◌+◌, false, IfOk, OnOk};
ghost use Rattle.nll_problem.specs.Problem.{IsUniversal};
ghost use Rattle.nll_core.specs.Values.{IsHeld, IsShaped};
ghost use Rattle.nll_problem.specs.Faults.{AreFaults};
ghost use Rattle.nll_core.specs.Outliving.{HasNoForeignEnd, FindsUpTo};

use crate::known_outlives::outlived_by;
use crate::values::Values;
use nll_problem::{Problem, RegionId};
use nll_sets::{Element, ElementSet, Memory};
use std::alloc::Global;

/// Finds the universal region errors of the values, which may be any: the pairs of universal
/// regions of which the first holds the end of the second and isn't known to outlive it.
///
/// # Errors
/// - `Memory`.
///
/// # Cost
/// For each universal region that holds the end of another, a walk through what it is known to
/// outlive: at most as many steps as there are universal regions and outlives facts (not proved).
///
/// # Source
/// RFC 2094, "Layer 4: Named lifetimes".
pub fn faults(
    alloc: Global,
    problem: &Problem,
    values: &Values,
) -> Result<Vec<(RegionId, RegionId)>, Memory>
    requires { IsShaped problem.now values.now }
    ensures exact { IfOk result (λ faults. AreFaults problem.now (IsHeld values.now) faults.items) }
{
    let mut faults = Vec::new(alloc);
    for longer in 0..problem.universals() {
        if holds_foreign_end(problem, values, longer) {
            add_faults(alloc, problem, values, RegionId(longer), &mut faults)?;
        }
    }
    Ok(faults)
}

// Whether a universal region holds the end of another.
fn holds_foreign_end(problem: &Problem, values: &Values, region: u32) -> bool
    requires shaped { IsShaped problem.now values.now }
    requires universal { IsUniversal problem.now region }
    ensures { result ≡ false → HasNoForeignEnd problem.now values.now region }
{
    let points = problem.points();
    for other in 0..problem.universals() {
        if other != region && values.has(RegionId(region), Element(points + other)) {
            return true;
        }
    }
    false
}

// Adds the faults of one universal region.
fn add_faults(
    alloc: Global,
    problem: &Problem,
    values: &Values,
    longer: RegionId,
    faults: &mut Vec<(RegionId, RegionId)>,
) -> Result<(), Memory>
    requires shaped { IsShaped problem.now values.now }
    requires universal { IsUniversal problem.now longer }
    requires before { FindsUpTo problem.now values.now faults.old.items longer 0 }
    ensures { OnOk result (FindsUpTo problem.now values.now faults.new.items (longer + 1) 0) }
{
    let outlived = outlived_by(alloc, problem, longer)?;
    for shorter in 0..problem.universals() {
        let end = Element(problem.points() + shorter);
        if values.has(longer, end) && !outlived.has(Element(shorter)) {
            faults.push((longer, RegionId(shorter)))?;
        }
    }
    Ok(())
}
