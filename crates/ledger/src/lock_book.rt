//! A book under a lock, its shares, and what is left of them.

ghost use Rattle.std.specs.Prelude.{◌≡◌, ◌<◌, ◌≤◌, false, cond, not};
ghost use Rattle.crossbeam_queue.specs.Passes.{view};
ghost use Rattle.ledger.specs.Amounts.{total_bound};
ghost use Rattle.ledger.specs.Figures.{bit, figures};
ghost use Rattle.fixpoint.specs.Limits.{most_parts};

use crate::figures::Account;
use crate::lock_rule::{Lock, LockPass};

/// The lock of a book, and by what its shares wait for it.
#[derive(Drop)]
pub struct LockBook<R> {
    pub(crate) rt: R,
    pub(crate) lock: Lock,
    pub(crate) owners: u16,
    ghost few: { (0 < owners) × (owners ≤ most_parts) },
}

/// A share: its account, whether it knows that the flag is set, and its pass of the lock, which
/// knows the same.
#[derive(Drop)]
pub struct LockShare {
    pub(crate) account: Account,
    pub(crate) marked: bool,
    pub(crate) pass: LockPass,
    ghost free: { (view pass).holds ≡ false },
    ghost some: { 0 < (view pass).figures.parts },
    ghost knows: { (view pass).figures
        ≡ figures (view pass).figures.parts account.owed account.cleared 0
        (bit account.called) (bit marked) (view pass).figures.steps },
    ghost few: { (account.owed < total_bound) × (account.cleared < total_bound) },
}

/// What is left of a share: its account, whether it left on quiet, and its pass.
#[derive(Drop)]
pub struct LockLeft {
    pub(crate) account: Account,
    pub(crate) quiet: bool,
    pub(crate) pass: LockPass,
    ghost free: { (view pass).holds ≡ false },
    ghost knows: { (view pass).figures
        ≡ figures (view pass).figures.parts account.owed account.cleared
        (cond quiet (view pass).figures.parts 0) (bit account.called) (bit (not quiet))
        (view pass).figures.steps },
    ghost few: { (account.owed < total_bound) × (account.cleared < total_bound) },
}
