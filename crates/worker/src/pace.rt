//! How much a worker does at once.

ghost use Rattle.std.specs.Prelude.{◌≡◌, ◌<◌, ◌-◌, ◌^◌};
ghost use Rattle.worker.specs.Pacing.{IsAllowed, taken_of};

use crate::gate::Gate;

// At most this many growths are taken out of a mailbox at once.
const MOST_TAKEN: usize = 4096;

// At most this many growths are posted to an owner at once. What the others post is received before
// more follow, so fewer of them wait in mailboxes.
const MOST_POSTED: u64 = 4096;

/// The gate that a worker enters, and how much it does at once.
#[derive(Drop)]
pub struct Pace<'x, G: Gate> {
    pub gate: &'x G,
    /// At most this many growths are received in a turn. If it is 1, all is posted after each turn.
    pub taken: usize,
    /// At most this many growths are posted to an owner at once.
    pub posted: u64,
    ghost some: { 0 < taken },
    ghost single: { taken ≡ 1 → posted ≡ 2 ^ 64 - 1 },
    ghost many: { 1 < taken → posted ≡ 4096 },
}

impl<'x, G: Gate> Pace<'x, G> {
    /// How much a worker does at once with this gate.
    pub fn behind(gate: &'x G) -> Pace<'x, G>
        ensures gate { result.gate.now ≡ gate.now }
        ensures allowed { IsAllowed (G.allows gate.now) result.taken }
    {
        Pace::of(gate, gate.most_growths())
    }

    // How much a worker does at once with a gate that says this number of growths.
    fn of(gate: &'x G, most: usize) -> Pace<'x, G>
        requires allowed { 1 < most → G.allows gate.now most }
        ensures gate { result.gate.now ≡ gate.now }
        ensures taken { result.taken ≡ taken_of most }
    {
        if most <= 1 {
            Pace {
                gate,
                taken: 1,
                posted: u64::MAX,
            }
        } else {
            Pace {
                gate,
                taken: most.min(MOST_TAKEN),
                posted: MOST_POSTED,
            }
        }
    }
}
