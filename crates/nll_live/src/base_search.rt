//! The base elements that liveness gives regions, variable by variable: the points of one are freed
//! before the next is examined, and a variable that asks for nothing is skipped.

ghost use Rattle.std.specs.Prelude.{◌≡◌, ◌↔◌, ◌+◌, ◌<◌, ℕ, [], length, IfOk, OnOk};
ghost use Rattle.nll_live.specs.Kinds.{AsksFor};
ghost use Rattle.nll_live.specs.Live.{IsBaseOf};
ghost use Rattle.nll_live.specs.Rooms.{IsRoomOf};
ghost use Rattle.nll_live.specs.Searches.{AreOfBody};
ghost use Rattle.nll_problem.specs.BaseRuns.{IsInBaseRuns};
ghost use Rattle.nll_live.specs.BaseRuns.{GainsRuns};

use crate::base_runs::push_all;
use crate::kind::Kind;
use crate::live_points::live_points;
use crate::search::Room;
use crate::ways::Ways;
use nll_body::Body;
use nll_problem::BaseRun;
use nll_sets::Memory;
use std::alloc::Global;

/// The base elements of regions that follow from the liveness of variables, by runs: for each
/// variable and each region that it asks for those of the points where it is live, in no order.
///
/// # Errors
/// - `Memory`.
///
/// # Cost
/// The points and their edges; the uses, drops and definitions of all variables; for each variable
/// whose type has a region, its uses and drops, and the chains of points where it is live, cut at
/// its definitions, with the edges that lead to them; and for each region of its type the runs of
/// these points, which are what comes out (not proved).
///
/// # Source
/// RFC 2094, "Liveness" and "Drop".
pub fn live_runs(alloc: Global, body: &Body) -> Result<Vec<BaseRun>, Memory>
    ensures each { IfOk result (λ v. (r p : ℕ) → IsInBaseRuns v.items r p ↔ IsBaseOf body.now r p) }
    ensures within { IfOk result (λ v. (r p : ℕ) → IsInBaseRuns v.items r p
        → (r < length body.now.names) × (p < length body.now.points)) }
{
    // Clause call: the body is sound.
    let _ = body.points();
    let mut runs = Vec::new(alloc);
    let ways = Ways::of(alloc, body)?;
    let told = push_both(alloc, &ways, &mut runs);
    // Early drop.
    drop(ways);
    told?;
    Ok(runs)
}

// Ladder: writes the runs into an empty list, given what searches in the body go by.
fn push_both(alloc: Global, ways: &Ways<'_>, base_runs: &mut Vec<BaseRun>) -> Result<(), Memory>
    requires ways { AreOfBody ways.now }
    requires nothing { base_runs.old.items ≡ [] }
    ensures { OnOk result
        ((r p : ℕ) → IsInBaseRuns base_runs.new.items r p ↔ IsBaseOf ways.now.body.now r p) }
{
    push_kind(alloc, ways, Kind::Use, base_runs)?;
    push_kind(alloc, ways, Kind::Drop, base_runs)?;
    Ok(())
}

// Appends the runs of base elements that variables ask for where this keeps them live.
fn push_kind(
    alloc: Global,
    ways: &Ways<'_>,
    kind: Kind,
    base_runs: &mut Vec<BaseRun>,
) -> Result<(), Memory>
    requires ways { AreOfBody ways.now }
    ensures { OnOk result (GainsRuns (λ r p. (x : ℕ) × AsksFor kind ways.now.body.now x r p)
        base_runs.old.items base_runs.new.items) }
{
    let mut room = Room::of(alloc, ways.body.points())?;
    for variable in 0..ways.body.variables() {
        push_variable(alloc, ways, kind, variable as u32, &mut room, base_runs)?;
    }
    Ok(())
}

// Like `push_kind`, for one variable. The room's marks are of earlier ones.
fn push_variable(
    alloc: Global,
    ways: &Ways<'_>,
    kind: Kind,
    variable: u32,
    room: &mut Room,
    base_runs: &mut Vec<BaseRun>,
) -> Result<(), Memory>
    requires ways { AreOfBody ways.now }
    requires variable { variable < length ways.now.body.now.variables }
    requires room { IsRoomOf (length ways.now.body.now.points) variable room.old }
    ensures gains { OnOk result (GainsRuns (AsksFor kind ways.now.body.now variable)
        base_runs.old.items base_runs.new.items) }
    ensures room { OnOk result
        (IsRoomOf (length ways.now.body.now.points) (variable + 1) room.new) }
{
    let regions = kind.regions(alloc, ways.body, variable)?;
    // Most variables of most bodies have types without regions.
    if regions.is_empty() {
        return Ok(());
    }
    let points = live_points(alloc, ways, kind, variable, room)?;
    push_all(base_runs, regions.as_slice(), points.as_runs())?;
    Ok(())
}
