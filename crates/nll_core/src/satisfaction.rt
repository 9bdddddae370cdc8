//! How the constraints of a pair of regions are met.

ghost use Rattle.std.specs.Prelude.{◌≡◌, ℕ, ◌≤◌, ◌<◌, true, false, Contains, length, IfOk, OnOk};
ghost use Rattle.std.specs.Prelude.{◌≢◌};
ghost use Rattle.nll_sets.specs.Runs.{first_of, last_of, IsInRuns};
ghost use Rattle.nll_problem.specs.Graph.{element_count};
ghost use Rattle.nll_core.specs.Values.{set_of, IsHeld, IsShaped};
ghost use Rattle.nll_core.specs.Growing.{Gains, Tells, IsMet};
ghost use Rattle.nll_core.specs.Search.{IsIn};
ghost use Rattle.nll_core.specs.Walking.{PointsAscend, IsAskedOf};
ghost use Rattle.nll_core.specs.Worklist.{AreOfPair, Visits, AreOfOneSup, SupsAscend};
ghost use Rattle.nll_problem.specs.declared.constraint.Constraint as spec;
ghost use Rattle.nll_problem.specs.declared.at.At.TheVariants as ats;

use crate::inclusion::is_seen_within;
use crate::indexed::Indexed;
use crate::values::Values;
use crate::walk::Walk;
use nll_problem::{At, Constraint, RegionId};
use nll_sets::{Memory, Run, RunSet};

/// Constraints of a list that all read the region `sub` and fill the region `sup`.
#[derive(Drop)]
pub struct Pair<'c> {
    pub sub: RegionId,
    pub sup: RegionId,
    pub constraints: &'c [Constraint],
}

/// The index up to which, from one on, the constraints fill the same region.
pub fn pair_end(constraints: &[Constraint], place: usize) -> usize
    requires place { place < length constraints.now }
    requires ascending { SupsAscend constraints.now }
    ensures more { place < result }
    ensures bound { result ≤ length constraints.now }
    ensures same { AreOfOneSup constraints.now place result }
{
    let sup = constraints[place].sup;
    // Most pairs have one constraint.
    if place + 1 == constraints.len() || constraints[place + 1].sup != sup {
        return place + 1;
    }
    let mut low = place + 1;
    let mut high = constraints.len();
    while low < high {
        let middle = low + (high - low) / 2;
        if constraints[middle].sup == sup {
            low = middle + 1;
        } else {
            high = middle;
        }
    }
    low
}

/// Whether one of the constraints of a pair holds at all points. The first one does then.
pub fn is_everywhere(pair: &[Constraint]) -> bool
    requires ascending { PointsAscend pair.now }
    ensures some { result ≡ true → (c : spec.Constraint) × Contains pair.now c × (c.at ≡ ats.All) }
    ensures none { result ≡ false → (c : spec.Constraint) → Contains pair.now c → c.at ≢ ats.All }
{
    if pair.is_empty() {
        return false;
    }
    match pair[0].at {
        At::All => true,
        At::Point(_) => false,
    }
}

/// Meets the constraints of a pair of regions, and marks the one that they fill if it gets
/// something. Returns whether it does.
pub fn meet(
    problem: &Indexed<'_>,
    values: &mut Values,
    marks: &mut Vec<bool>,
    walk: &mut Walk,
    pair: &Pair<'_>,
) -> Result<bool, Memory>
    requires shaped { IsShaped problem.now values.old }
    requires walk { length walk.old.reached ≡ element_count problem.now.graph }
    requires width { length marks.old.items ≡ problem.now.regions }
    requires sub { pair.now.sub < problem.now.regions }
    requires sup { pair.now.sup < problem.now.regions }
    requires pair { AreOfPair problem.now pair.now.sub pair.now.sup pair.now.constraints.now }
    requires ascending { PointsAscend pair.now.constraints.now }
    ensures visits { IfOk result (Visits problem.now pair.now.sub values.old values.new
        marks.old.items marks.new.items) }
    ensures walk { OnOk result (length walk.new.reached ≡ element_count problem.now.graph) }
    ensures met { OnOk result ((c : spec.Constraint)
        → Contains pair.now.constraints.now c → IsMet problem.now values.new c) }
{
    let (sub, sup) = (pair.sub, pair.sup);
    // What is asked for inside a region is in it, and so in another one that has all of it.
    if sup == sub || is_seen_within(values.set(sub), values.set(sup)) {
        return Ok(false);
    }
    let new = fill(problem, values, walk, pair)?;
    marks[sup.0 as usize] |= new;
    Ok(new)
}

// Inserts what the constraints of a pair of regions ask: what walks from their points reach; or all
// of the region that they read, without a walk, where one of them holds at all points. Returns
// whether something was new.
fn fill(
    problem: &Indexed<'_>,
    values: &mut Values,
    walk: &mut Walk,
    pair: &Pair<'_>,
) -> Result<bool, Memory>
    requires shaped { IsShaped problem.now values.old }
    requires walk { length walk.old.reached ≡ element_count problem.now.graph }
    requires sub { pair.now.sub < problem.now.regions }
    requires sup { pair.now.sup < problem.now.regions }
    requires pair { AreOfPair problem.now pair.now.sub pair.now.sup pair.now.constraints.now }
    requires ascending { PointsAscend pair.now.constraints.now }
    ensures gains { OnOk result (Gains
        (λ r e. (r ≡ pair.now.sup)
        × IsAskedOf problem.now.graph (set_of values.old pair.now.sub) pair.now.constraints.now e)
        values.old values.new) }
    ensures asks { OnOk result ((e : ℕ)
        → IsAskedOf problem.now.graph (set_of values.old pair.now.sub) pair.now.constraints.now e
        → IsHeld values.new pair.now.sup e) }
    ensures tells { IfOk result (λ new. Tells new values.old values.new) }
    ensures walk { OnOk result (length walk.new.reached ≡ element_count problem.now.graph) }
{
    let (sub, sup) = (pair.sub, pair.sup);
    let _regions = problem.regions();
    if is_everywhere(pair.constraints) {
        return fill_whole(values, walk, sub, sup);
    }
    walk.reach(problem.lines(), values.set(sub), pair.constraints)?;
    fill_all(values, sup, walk.reached.as_runs())
}

// Inserts all that a region holds into another one; a region that holds nothing gets a copy.
// Returns whether something was new.
fn fill_whole(
    values: &mut Values,
    walk: &mut Walk,
    sub: RegionId,
    sup: RegionId,
) -> Result<bool, Memory>
    requires sub { sub < length values.old }
    requires sup { sup < length values.old }
    requires widths { length (set_of values.old sub) ≡ length (set_of values.old sup) }
    ensures gains { OnOk result
        (Gains (λ r e. (r ≡ sup) × IsHeld values.old sub e) values.old values.new) }
    ensures covers { OnOk result ((e : ℕ) → IsHeld values.old sub e → IsHeld values.new sup e) }
    ensures tells { IfOk result (λ new. Tells new values.old values.new) }
    ensures walk { walk.new.reached ≡ walk.old.reached }
{
    if is_empty(values.set(sup)) {
        let new = !is_empty(values.set(sub));
        values.copy(sub, sup)?;
        return Ok(new);
    }
    walk.list(values.set(sub))?;
    fill_all(values, sup, walk.todo.as_slice())
}

/// Whether a set holds nothing.
pub fn is_empty(set: &RunSet) -> bool
    ensures yes { result ≡ true → (e : ℕ) → IsIn set.now e → ⊥ }
    ensures no { result ≡ false → (e : ℕ) × IsIn set.now e }
{
    set.as_runs().is_empty()
}

// Inserts the elements of runs into the value of a region. Returns whether one of them is new.
fn fill_all(values: &mut Values, region: RegionId, runs: &[Run]) -> Result<bool, Memory>
    requires region { region < length values.old }
    requires fit { (k : ℕ) → k < length runs.now
        → (first_of runs.now k ≤ last_of runs.now k)
        × (last_of runs.now k < length (set_of values.old region)) }
    ensures gains { OnOk result
        (Gains (λ r e. (r ≡ region) × IsInRuns runs.now e) values.old values.new) }
    ensures covers { OnOk result ((e : ℕ) → IsInRuns runs.now e → IsHeld values.new region e) }
    ensures tells { IfOk result (λ changed. Tells changed values.old values.new) }
{
    let mut changed = false;
    for run in runs {
        let new = values.insert_run(region, *run)?;
        changed |= new;
    }
    Ok(changed)
}
