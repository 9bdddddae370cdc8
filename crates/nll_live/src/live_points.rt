//! The points where a variable is live, as a set.

ghost use Rattle.std.specs.Prelude.{◌≡◌, ◌↔◌, ◌+◌, ◌<◌, ◌≤◌, ℕ, length, slice_index, true};
ghost use Rattle.std.specs.Prelude.{Contains, IfOk, OnOk};
ghost use Rattle.nll_sets.specs.ElementSet.{flag};
ghost use Rattle.nll_live.specs.Kinds.{KeepsAt};
ghost use Rattle.nll_live.specs.Live.{IsLive};
ghost use Rattle.nll_live.specs.Marks.{IsUnderMark};
ghost use Rattle.nll_live.specs.Rooms.{IsRoomOf};
ghost use Rattle.nll_live.specs.Searches.{AreOfBody};

use crate::kind::Kind;
use crate::search::{Room, Search, search_back};
use crate::ways::Ways;
use nll_sets::{ElementSet, Memory, Run, RunSet};
use std::alloc::Global;

/// The points where this keeps a variable live. The room's marks are of earlier variables.
pub(crate) fn live_points(
    alloc: Global,
    ways: &Ways<'_>,
    kind: Kind,
    variable: u32,
    room: &mut Room,
) -> Result<RunSet, Memory>
    requires ways { AreOfBody ways.now }
    requires variable { variable < length ways.now.body.now.variables }
    requires room { IsRoomOf (length ways.now.body.now.points) variable room.old }
    ensures room { OnOk result
        (IsRoomOf (length ways.now.body.now.points) (variable + 1) room.new) }
    ensures width { IfOk result (λ set. length set ≡ length ways.now.body.now.points) }
    ensures each { IfOk result (λ set. (p : ℕ) → (flag set p ≡ true)
        ↔ IsLive ways.now.body.now (KeepsAt kind ways.now.body.now variable) variable p) }
{
    let points = ways.body.points();
    let ends = ways.ends(kind, variable);
    let starts = ways.starts.as_slice();
    let definitions = ways.definitions[variable as usize].as_slice();
    let search = Search {
        body: ways.body,
        previous: &ways.previous,
        starts,
        definitions,
        variable,
    };
    room.lows.clear();
    search_back(room, variable + 1, &search, ends)?;
    // Inserting at the end of a set costs least.
    room.lows.sort_unstable();
    set_of(alloc, points, room.heights.as_slice(), room.lows.as_slice())
}

// The set of the points that lie between these and their heights.
fn set_of(alloc: Global, points: u32, heights: &[u32], lows: &[u32]) -> Result<RunSet, Memory>
    requires tall { length heights.now ≡ points }
    requires proper { (low : ℕ) → Contains lows.now low → low ≤ slice_index heights.now low }
    requires within { (p : ℕ) → IsUnderMark heights.now lows.now p → p < points }
    ensures width { IfOk result (λ set. length set ≡ points) }
    ensures each { IfOk result (λ set. (p : ℕ)
        → (flag set p ≡ true) ↔ IsUnderMark heights.now lows.now p) }
{
    let mut set = RunSet::empty(alloc, points)?;
    for low in lows {
        set.insert_run(Run {
            first: *low,
            last: heights[*low as usize],
        })?;
    }
    Ok(set)
}
