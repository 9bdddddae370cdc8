//! The order in which regions are visited.
//!
//! Only time depends on it, so the contracts say nothing but that it is a list of regions.

ghost use Rattle.std.specs.Prelude.{◌≡◌, ◌<◌, ◌+◌, length, IfOk, OnOk};
ghost use Rattle.nll_problem.specs.Problem.{SameSet};
ghost use Rattle.nll_core.specs.Order.{AreOfRegions, IsDescent};
ghost use Rattle.nll_core.specs.Worklist.{AreRegions};

use nll_problem::{Constraint, ConstraintIndex, Problem};
use nll_sets::Memory;
use std::alloc::Global;

/// A depth-first search from regions to those that are filled from them.
#[derive(Drop)]
pub struct Descent {
    /// The index of the constraint that each region follows next.
    pub next: Vec<usize>,
    pub seen: Vec<bool>,
    /// The regions that the search has entered and not left.
    pub path: Vec<u32>,
    /// The regions that it has left, in that order.
    pub left: Vec<u32>,
}

/// The regions in the order in which a depth-first search leaves them (postorder): backwards, a
/// region that is read comes before those that are filled from it, except in cycles.
pub fn order_of(
    alloc: Global,
    problem: &Problem,
    index: &ConstraintIndex,
) -> Result<Vec<u32>, Memory>
    requires { SameSet index.now problem.now.constraints }
    ensures { IfOk result (λ order. AreRegions problem.now order.items) }
{
    let regions = problem.regions();
    let starts = starts_of(alloc, index.constraints(), regions)?;
    let mut descent = Descent {
        next: Vec::from_slice(alloc, starts.as_slice())?,
        seen: vec![in alloc; false; regions as usize]?,
        path: Vec::new(alloc),
        left: Vec::new(alloc),
    };
    for root in 0..regions {
        enter(&mut descent, regions, root)?;
        descend(
            index.constraints(),
            starts.as_slice(),
            &mut descent,
            regions,
        )?;
    }
    Ok(descent.left)
}

// The indices at which the constraints that read each region begin, and where the last ones end.
fn starts_of(alloc: Global, constraints: &[Constraint], regions: u32) -> Result<Vec<usize>, Memory>
    requires { AreOfRegions regions constraints.now }
    ensures { IfOk result (λ starts. length starts.items ≡ regions + 1) }
{
    let mut starts = vec![in alloc; 0usize; regions as usize + 1]?;
    for place in 0..constraints.len() {
        let sub = constraints[place].sub;
        starts[sub.0 as usize + 1] = place + 1;
    }
    for region in 0..regions as usize {
        starts[region + 1] = starts[region].max(starts[region + 1]);
    }
    Ok(starts)
}

// Goes from the regions that were entered to all that are filled from them, also indirectly.
fn descend(
    constraints: &[Constraint],
    starts: &[usize],
    descent: &mut Descent,
    regions: u32,
) -> Result<(), Memory>
    requires starts { length starts.now ≡ regions + 1 }
    requires constraints { AreOfRegions regions constraints.now }
    requires descent { IsDescent regions descent.old }
    ensures { OnOk result (IsDescent regions descent.new) }
{
    // Each step follows a constraint or leaves a region.
    for _ in 0..constraints.len().saturating_add(starts.len()) {
        let Some(region) = descent.path.pop() else {
            return Ok(());
        };
        let at = region as usize;
        let place = descent.next[at];
        if place >= starts[at + 1] || place >= constraints.len() {
            descent.left.push(region)?;
            continue;
        }
        descent.next[at] = place + 1;
        descent.path.push(region)?;
        let sup = constraints[place].sup;
        enter(descent, regions, sup.0)?;
    }
    Ok(())
}

// Goes on to a region, if it wasn't seen.
fn enter(descent: &mut Descent, regions: u32, region: u32) -> Result<(), Memory>
    requires region { region < regions }
    requires descent { IsDescent regions descent.old }
    ensures { OnOk result (IsDescent regions descent.new) }
{
    if descent.seen[region as usize] {
        return Ok(());
    }
    descent.seen[region as usize] = true;
    descent.path.push(region)?;
    Ok(())
}
