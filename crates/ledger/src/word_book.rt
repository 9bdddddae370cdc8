//! A book of two words, its shares, and what is left of them.

ghost use Rattle.std.specs.Prelude.{◌≡◌, ◌<◌, ◌≤◌, [], cond, not};
ghost use Rattle.ledger.specs.Amounts.{total_bound};
ghost use Rattle.ledger.specs.Figures.{bit, figures};
ghost use Rattle.fixpoint.specs.Limits.{most_parts};

use crate::figures::Account;
use crate::word_rule::{WordSeat, Words};

/// The words of a book.
#[derive(Drop)]
pub struct WordBook {
    pub(crate) table: Words,
    pub(crate) owners: u16,
    ghost two: { (table.shared.table_id.words ≡ 2) × (table.shared.table_id.slots ≡ 0) },
    ghost few: { (0 < owners) × (owners ≤ most_parts) },
}

/// A share: its account, whether it knows that the flag is set, and its seat of the words, which
/// knows the same.
#[derive(Drop)]
pub struct WordShare {
    pub(crate) account: Account,
    pub(crate) marked: bool,
    pub(crate) seat: WordSeat,
    ghost some: { 0 < seat.me.0.parts },
    ghost knows: { seat.me ≡ (
      figures seat.me.0.parts account.owed account.cleared 0
          (bit account.called) (bit marked) seat.me.0.steps,
      [],
    ) },
    ghost few: { (account.owed < total_bound) × (account.cleared < total_bound) },
}

/// What is left of a share: its account, whether it left on quiet, and its seat.
#[derive(Drop)]
pub struct WordLeft {
    pub(crate) account: Account,
    pub(crate) quiet: bool,
    pub(crate) seat: WordSeat,
    ghost empty: { seat.me.1 ≡ [] },
    ghost knows: { seat.me.0 ≡ figures seat.me.0.parts account.owed account.cleared
        (cond quiet seat.me.0.parts 0) (bit account.called) (bit (not quiet)) seat.me.0.steps },
    ghost few: { (account.owed < total_bound) × (account.cleared < total_bound) },
}
