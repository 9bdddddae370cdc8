//! How far a backward search goes by itself: along a chain, up to a definition.

ghost use Rattle.std.specs.Prelude.{◌<◌, ◌≤◌, AllPairs};
ghost use Rattle.nll_live.specs.Lows.{IsLow};

/// From a point backwards, the first one of its chain, or the one after the last definition before
/// it, whichever comes later.
///
/// # Cost
/// A search by halves among the definitions (not proved).
pub(crate) fn low_of(start: u32, definitions: &[u32], point: u32) -> u32
    requires start { start ≤ point }
    requires ascending { AllPairs ◌<◌ definitions.now }
    ensures { IsLow start definitions.now point result }
{
    let count = definitions.partition_point(|at| *at < point);
    if count == 0 {
        start
    } else {
        start.max(definitions[count - 1] + 1)
    }
}
