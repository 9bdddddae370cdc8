//! Where each variable of a body is live.

ghost use Rattle.std.specs.Prelude.{◌≡◌, ◌↔◌, ◌<◌, [], length, slice_index_or, IfOk, IsTrue};
ghost use Rattle.nll_live.specs.Kinds.{KeepsAt};
ghost use Rattle.nll_live.specs.Live.{IsLive};
ghost use Rattle.nll_live.specs.LiveSets.{AreLiveSets, AreSetsOf, IsInSet};
ghost use Rattle.nll_live.specs.Searches.{AreOfBody};

use crate::kind::Kind;
use crate::live_points::live_points;
use crate::search::Room;
use crate::ways::Ways;
use nll_body::Body;
use nll_sets::{Element, ElementSet, Memory, RunSet};
use std::alloc::Global;
use std::marker::Model;

/// For each variable of a body the points where it is use-live, and those where it is drop-live.
///
/// # Cost
/// A set is kept as the runs of its points, eight bytes each (not proved).
#[derive(Drop)]
pub struct LiveSets {
    pub(crate) uses: Vec<RunSet>,
    pub(crate) drops: Vec<RunSet>,
}

impl Model for LiveSets {
    ghost use Rattle.nll_live.specs.LiveSets as spec;

    ghost Value = { spec.LiveSets };

    ghost view = { λ sets. record { uses = sets.uses.items; drops = sets.drops.items } };
}

impl LiveSets {
    /// Whether a variable is use-live at a point.
    pub fn use_live(&self, variable: u32, point: u32) -> bool
        requires variable { variable < length self.now.uses }
        requires point { point < length (slice_index_or self.now.uses variable []) }
        ensures { IsTrue result ↔ IsInSet self.now.uses variable point }
    {
        self.uses[variable as usize].has(Element(point))
    }

    /// Whether a variable is drop-live at a point.
    pub fn drop_live(&self, variable: u32, point: u32) -> bool
        requires variable { variable < length self.now.drops }
        requires point { point < length (slice_index_or self.now.drops variable []) }
        ensures { IsTrue result ↔ IsInSet self.now.drops variable point }
    {
        self.drops[variable as usize].has(Element(point))
    }
}

/// The points where each variable of a body is use-live, and those where it is drop-live.
///
/// # Errors
/// - `Memory`.
///
/// # Cost
/// The points and their edges; the uses, drops and definitions of all variables; and for each
/// variable its uses and drops, and the chains of points where it is live, cut at its definitions,
/// with the edges that lead to them, and sorting these chains (not proved).
///
/// # Source
/// RFC 2094, "Liveness".
pub fn liveness(alloc: Global, body: &Body) -> Result<LiveSets, Memory>
    ensures { IfOk result (AreLiveSets body.now) }
{
    let ways = Ways::of(alloc, body)?;
    let sets = both_sets(alloc, &ways);
    // Early drop.
    drop(ways);
    sets
}

// Ladder: like `liveness`, given what searches in the body go by.
fn both_sets(alloc: Global, ways: &Ways<'_>) -> Result<LiveSets, Memory>
    requires ways { AreOfBody ways.now }
    ensures { IfOk result (AreLiveSets ways.now.body.now) }
{
    let uses = sets_of(alloc, ways, Kind::Use)?;
    let drops = sets_of(alloc, ways, Kind::Drop)?;
    Ok(LiveSets { uses, drops })
}

// For each variable the points where this keeps it live.
fn sets_of(alloc: Global, ways: &Ways<'_>, kind: Kind) -> Result<Vec<RunSet>, Memory>
    requires ways { AreOfBody ways.now }
    ensures { IfOk result (λ sets. AreSetsOf ways.now.body.now
        (λ x. IsLive ways.now.body.now (KeepsAt kind ways.now.body.now x) x) sets.items) }
{
    let mut room = Room::of(alloc, ways.body.points())?;
    let mut sets = Vec::new(alloc);
    for variable in 0..ways.body.variables() {
        sets.push(live_points(alloc, ways, kind, variable as u32, &mut room)?)?;
    }
    Ok(sets)
}
