//! What a worker counts of its part's log.

ghost use Rattle.std.specs.Prelude.{◌≡◌, ◌+◌, false};
ghost use Rattle.fixpoint.specs.State.{State};
ghost use Rattle.worker.specs.Tallies.{IsTallied, HasGrown, due_of, none_counted};

use fixpoint::Analysis;

/// What a worker counts of its part's log, and of its own turns.
#[derive(Clone, Copy, Debug, PartialEq, Eq)]
pub struct Tally {
    /// How many growths the log had when it was counted last.
    pub grown: u64,
    /// How many of them weren't given yet, over all owners that read them.
    pub waiting: u64,
    /// How many turns there were.
    pub turns: u64,
    /// How many items were cleared in them: the load, and each growth that was received.
    pub cleared: u64,
}

impl Tally {
    /// Nothing is counted yet.
    pub fn none() -> Tally
        ensures { result ≡ none_counted }
    {
        Tally {
            grown: 0,
            waiting: 0,
            turns: 0,
            cleared: 0,
        }
    }
}

/// Counts again if the log has grown: returns how many more growths there are to owe for.
pub fn count_new<A: Analysis>(part: &A::Part, tally: &mut Tally) -> u64
    requires whole { (A.state part.now).broken ≡ false }
    requires grew { (before : State A A.Growth) × HasGrown before (A.state part.now)
        × IsTallied A.rules before tally.old }
    ensures counted { IsTallied A.rules (A.state part.now) tally.new }
    ensures more { (before : State A A.Growth) → HasGrown before (A.state part.now)
        → IsTallied A.rules before tally.old
        → due_of A.rules before + result ≡ due_of A.rules (A.state part.now) }
    ensures same { (tally.new.turns ≡ tally.old.turns) × (tally.new.cleared ≡ tally.old.cleared) }
{
    let grown = A::grown(part);
    if grown == tally.grown {
        return 0;
    }
    // How many growths of the log aren't given yet, over all owners that read them.
    let mut waiting = 0;
    for to in 0..A::owners(part) {
        waiting += A::unsent(part, to);
    }
    let new = waiting - tally.waiting;
    tally.grown = grown;
    tally.waiting = waiting;
    new
}
