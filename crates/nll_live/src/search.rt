//! The points where a variable is live, by a search backwards from its uses or drops, in stretches.
//!
//! A search that reaches a point goes on by itself to a lower one: along a chain, up to a
//! definition. That one is marked, and its height is the highest point from which a search came;
//! all points between are reached. One room serves all searches: a mark is the turn of its search,
//! a number of its own.

ghost use Rattle.std.specs.Prelude.{◌≡◌, ◌↔◌, ◌<◌, ◌≤◌, ℕ, [], length, slice_index};
ghost use Rattle.std.specs.Prelude.{Contains, IfOk, IsTrue, OnOk};
ghost use Rattle.nll_live.specs.Live.{DefinesAt, GoesOnUndefined, IsLive};
ghost use Rattle.nll_live.specs.Searches.{IsLowIn, IsSearch};
ghost use Rattle.nll_live.specs.Marks.{IsUnderMark};
ghost use Rattle.nll_live.specs.Rooms.{GetsReached, HasFound, HasReached, IsRoomOf};

use crate::lows::low_of;
use nll_body::Body;
use nll_problem::Predecessors;
use nll_sets::Memory;
use std::alloc::Global;

/// Scratch space of searches: for each point the turn in which it was last marked, and its height;
/// and the points that are marked in this turn.
#[derive(Drop)]
pub(crate) struct Room {
    pub(crate) marks: Vec<u32>,
    pub(crate) heights: Vec<u32>,
    pub(crate) lows: Vec<u32>,
}

/// What a search for a variable goes by: the body and the predecessors of its points, for each
/// point the first one of its chain, and the points that define the variable, ascending.
#[derive(Drop)]
pub(crate) struct Search<'b> {
    pub(crate) body: &'b Body,
    pub(crate) previous: &'b Predecessors<'b>,
    pub(crate) starts: &'b [u32],
    pub(crate) definitions: &'b [u32],
    pub(crate) variable: u32,
}

impl Room {
    /// Room for searches among this many points, with the marks of none.
    pub(crate) fn of(alloc: Global, points: u32) -> Result<Room, Memory>
        ensures { IfOk result (IsRoomOf points 0) }
    {
        let marks = Vec::from_elem(alloc, 0, points as usize)?;
        let heights = Vec::from_elem(alloc, 0, points as usize)?;
        Ok(Room {
            marks,
            heights,
            lows: Vec::new(alloc),
        })
    }
}

/// Writes points and their heights into the room. Between them lie exactly the points from which
/// one of these ends is reachable by a path on which no point before the last defines the variable.
/// The marks are all of earlier turns.
///
/// # Cost
/// For each end, and for each predecessor of one of these points, a binary search among the
/// definitions of the variable (not proved).
pub(crate) fn search_back(
    room: &mut Room,
    turn: u32,
    search: &Search<'_>,
    ends: &[u32],
) -> Result<(), Memory>
    requires search { IsSearch search.now }
    requires width { length room.old.marks.items ≡ length search.now.body.now.points }
    requires tall { length room.old.heights.items ≡ length search.now.body.now.points }
    requires fresh { (p : ℕ) → slice_index room.old.marks.items p < turn }
    requires nothing { room.old.lows.items ≡ [] }
    requires ends { (k : ℕ) → k < length ends.now
        → slice_index ends.now k < length search.now.body.now.points }
    ensures width { OnOk result (length room.new.marks.items ≡ length search.now.body.now.points) }
    ensures tall { OnOk result (length room.new.heights.items ≡ length search.now.body.now.points) }
    ensures fresh { OnOk result ((p : ℕ) → slice_index room.new.marks.items p ≤ turn) }
    ensures proper { OnOk result ((low : ℕ) → Contains room.new.lows.items low
        → low ≤ slice_index room.new.heights.items low) }
    ensures each { OnOk result ((p : ℕ) → IsUnderMark room.new.heights.items room.new.lows.items p
        ↔ IsLive search.now.body.now (Contains ends.now) search.now.variable p) }
{
    for point in ends {
        visit(room, turn, search, *point)?;
    }
    let mut place = 0;
    while place < room.lows.len() {
        let low = room.lows[place];
        place += 1;
        visit_previous(room, turn, search, low)?;
    }
    Ok(())
}

// Visits the points that go on to a point and don't define the variable.
fn visit_previous(room: &mut Room, turn: u32, search: &Search<'_>, point: u32) -> Result<(), Memory>
    requires search { IsSearch search.now }
    requires some { 0 < turn }
    requires found { HasFound room.old turn }
    requires width { length room.old.marks.items ≡ length search.now.body.now.points }
    requires point { point < length search.now.body.now.points }
    ensures reaches { OnOk result (GetsReached
        (λ low p. GoesOnUndefined search.now.body.now search.now.variable p point
        × IsLowIn search.now p low) turn room.old room.new) }
    ensures found { OnOk result (HasFound room.new turn) }
    ensures all { OnOk result ((p : ℕ)
        → GoesOnUndefined search.now.body.now search.now.variable p point
        → HasReached room.new turn p) }
{
    let points = search.previous.previous_of(point);
    for before in points {
        if defines(search.body, search.variable, *before) {
            continue;
        }
        visit(room, turn, search, *before)?;
    }
    Ok(())
}

// Whether a point defines the variable.
fn defines(body: &Body, variable: u32, point: u32) -> bool
    requires { point < length body.now.points }
    ensures { IsTrue result ↔ DefinesAt body.now variable point }
{
    match body.defines(point) {
        Some(defined) => defined == variable,
        None => false,
    }
}

// Comes to a point, and from it by itself to a lower one.
fn visit(room: &mut Room, turn: u32, search: &Search<'_>, point: u32) -> Result<(), Memory>
    requires search { IsSearch search.now }
    requires some { 0 < turn }
    requires found { HasFound room.old turn }
    requires width { length room.old.marks.items ≡ length search.now.body.now.points }
    requires point { point < length search.now.body.now.points }
    ensures reaches { OnOk result (GetsReached (λ low p. (p ≡ point)
        × IsLowIn search.now p low) turn room.old room.new) }
    ensures found { OnOk result (HasFound room.new turn) }
    ensures all { OnOk result (HasReached room.new turn point) }
{
    let low = low_of(search.starts[point as usize], search.definitions, point);
    if room.marks[low as usize] == turn {
        let height = room.heights[low as usize];
        room.heights[low as usize] = height.max(point);
        return Ok(());
    }
    room.lows.push(low)?;
    room.marks[low as usize] = turn;
    room.heights[low as usize] = point;
    Ok(())
}
