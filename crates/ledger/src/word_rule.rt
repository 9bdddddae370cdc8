//! The rule of a ledger's two words.
//!
//! The first word is the balance of a book, kept 2^62 higher, and the second one is its stop flag.
//! Each seat of the words knows the figures of its shares; the words are at all times what the
//! figures of all seats say (`specs/Words.antt`).

use crate::figures::Figures;
use atomic_table::{Join, Play, Seat, Split, Table, TableRule};
use std::alloc::Global;

/// The place of the balance among the words.
pub const BALANCE: usize = 0;

/// The place of the flag.
pub const FLAG: usize = 1;

/// The rule of the words.
pub struct TwoWords;

impl TableRule<(), Figures, u64> for TwoWords {
    ghost use Rattle.std.specs.Prelude.{[]};
    ghost use Rattle.ledger.specs.Figures.{figures};
    ghost use Rattle.ledger.specs.Words.{AreWords};

    ghost holds = { λ _ s. AreWords s };

    ghost first = { λ owners. figures 64 owners 0 0 0 0 [] };
}

/// The words of a book.
pub type Words = Table<(), Figures, u64, TwoWords, Global>;

/// A seat of the words.
pub type WordSeat = Seat<(), Figures>;

/// A step: the share owes more, and the balance grows by as much.
pub struct Owes;

impl Play<(), Figures> for Owes {
    ghost use Rattle.std.specs.Prelude.{◌≡◌};
    ghost use Rattle.ledger.specs.Figures.{owing};

    ghost then = { λ step me found now. now ≡ (owing me.0 step.first, me.1) };
}

/// A step: the share cleared more, and the balance falls by as much.
pub struct Clears;

impl Play<(), Figures> for Clears {
    ghost use Rattle.std.specs.Prelude.{◌≡◌};
    ghost use Rattle.ledger.specs.Figures.{clearing};

    ghost then = { λ step me found now. now ≡ (clearing me.0 step.first, me.1) };
}

/// A step: the share set the flag.
pub struct Stops;

impl Play<(), Figures> for Stops {
    ghost use Rattle.std.specs.Prelude.{◌≡◌};
    ghost use Rattle.ledger.specs.Figures.{setting};

    ghost then = { λ step me found now. now ≡ (setting me.0, me.1) };
}

/// A step: the share looked at the flag. Who knows that it is set finds it set.
pub struct Looks;

impl Play<(), Figures> for Looks {
    ghost use Rattle.std.specs.Prelude.{◌≡◌, ◌<◌};
    ghost use Rattle.ledger.specs.Words.{looking};

    ghost then = { λ step me found now. (now ≡ (looking me.0 found, me.1))
        × (0 < me.0.finds → 0 < found) };
}

/// A step: the share looked at the balance. Where it found 0, it left on quiet.
pub struct Leaves;

impl Play<(), Figures> for Leaves {
    ghost use Rattle.std.specs.Prelude.{◌≡◌};
    ghost use Rattle.ledger.specs.Words.{leaving};

    ghost then = { λ step me found now. now ≡ (leaving me.0 found, me.1) };
}

/// A look by a seat that has all parts. Where all of them left on quiet, as much was cleared as was
/// owed; where a share knows that the flag is set, a share set it.
pub struct Concludes;

impl Play<(), Figures> for Concludes {
    ghost use Rattle.std.specs.Prelude.{◌≡◌, ◌<◌};

    ghost then = { λ step me found now. (now ≡ me)
        × (me.0.quiets ≡ me.0.parts → me.0.owed ≡ me.0.cleared)
        × (0 < me.0.finds → 0 < me.0.calls) };
}

/// A share is cut off.
pub struct Deals;

impl Split<Figures> for Deals {
    ghost use Rattle.ledger.specs.Figures.{fewer, fresh};

    ghost left = { fewer };

    ghost right = { λ _. fresh };
}

/// Shares are put together.
pub struct Gathers;

impl Join<Figures> for Gathers {
    ghost use Rattle.ledger.specs.Figures.{none, together};

    ghost both = { together };

    ghost spent = { none };
}
