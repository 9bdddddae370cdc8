//! Gates that workers enter.

ghost use Rattle.std.specs.Prelude.{ℕ, ◌<◌, ⊤};

/// What a worker enters at the start of each turn. A test may hold the worker there, or record that
/// it came.
///
/// A turn does these steps in this order: the worker enters the gate; its owner loads, or receives
/// one growth, which was taken out of a mailbox before; the worker owes once for all growths that
/// this added, for 0 if there are none; it clears 1; and it posts what is owed for and not yet
/// posted, except what a full mailbox refuses, which is tried again after the next turn. Only then
/// is the gate entered for the next turn.
pub trait Gate {
    /// The owner of this number has entered the gate for this turn. By default it says nothing.
    ghost entered: { Self → ℕ → ℕ → Type 0 } = { λ _ _ _. ⊤ };
    /// A turn may receive up to this many growths, which are several. By default it may not.
    ghost allows: { Self → ℕ → Type 0 } = { λ _ _. ⊥ };

    /// Lets the owner of this number begin this turn. Turn 1 is the load, and the numbers go up by
    /// one.
    fn enter(&self, owner: usize, turn: u64)
        ensures { entered self.now owner turn };

    /// How many growths a turn may receive at most. A worker asks once, before its first turn, and
    /// reads 0 as 1.
    ///
    /// If it is more than 1, a turn receives up to this many growths of one mailbox together and
    /// clears as many, several turns may come before what they owe for is posted, and not all of it
    /// need be posted at once.
    fn most_growths(&self) -> usize
        ensures allowed { 1 < result → allows self.now result }
    {
        1
    }
}

/// A gate that never waits, and allows any number of growths in a turn: nobody sees the turns, and
/// the worker does as much at once as is fastest.
#[derive(Clone, Copy, Debug, PartialEq, Eq)]
pub struct NoGate;

impl Gate for NoGate {
    ghost use Rattle.std.specs.Prelude.{⊤};

    ghost allows = { λ _ _. ⊤ };

    fn enter(&self, _: usize, _: u64) {}

    fn most_growths(&self) -> usize {
        usize::MAX
    }
}
