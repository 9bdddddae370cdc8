//! Ledgers under a lock.
//!
//! Each call of a share is one hold of the lock, and changes the share's account by the same. What
//! the rule of the lock knows of the share is its account; so where all shares have left, and their
//! passes are put together, the account of all is what the rule knows of the whole.

ghost use Rattle.std.specs.Prelude.{◌≡◌, ◌+◌, ◌-◌, ◌<◌, ◌≤◌, ℕ, [], false, true};
ghost use Rattle.std.specs.Prelude.{Some, slice_get, vec_capacity, vec_len};
ghost use Rattle.std.specs.List.{sum_by};
ghost use Rattle.crossbeam_queue.specs.Passes.{IsPassOf, view};
ghost use Rattle.ledger.specs.Figures.{figures};
ghost use Rattle.ledger.specs.LockShares.{IsLeftOf, IsNew, cleared_by, has_called, is_quiet};
ghost use Rattle.ledger.specs.LockShares.{number_left, owed_by};
ghost use Rattle.ledger.specs.declared.lock_book.LockLeft.{LockLeft};
ghost use Rattle.ledger.specs.declared.lock_book.LockShare.{LockShare};

use crate::figures::Account;
use crate::ledger::{Leave, Ledger, Totals};
use crate::lock::{Look, begin, find, inspect, lower, raise, set};
use crate::lock_book::{LockBook, LockLeft, LockShare};
use crate::lock_rule::{Lock, LockPass, Parts, Whole};
use nll_sets::Memory;
use std::alloc::Global;
use std::sync::Wait;

/// Ledgers under a lock.
///
/// # Threads
/// Each call of a share is a hold of the lock, and waits while another thread holds it, at last by
/// leaving the processor. That a share gets the lock, or gets it in its turn, is not promised.
///
/// # Cost
/// A call of a share takes as long as its hold; `open` and `gather` take a step for each owner
/// (neither is proved).
#[derive(Clone, Copy)]
pub struct LockLedger<R> {
    /// By which the shares wait.
    pub rt: R,
}

impl<R> LockLedger<R> {
    /// Ledgers whose shares wait by this runtime. Each book is made by `open`.
    pub fn new(rt: R) -> LockLedger<R>
        ensures { result.rt ≡ rt }
    {
        LockLedger { rt }
    }
}

// A share of this number, which has done nothing yet.
fn share_of(number: u16, pass: LockPass) -> LockShare
    requires free { (view pass).holds ≡ false }
    requires some { 0 < (view pass).figures.parts }
    requires knows { (view pass).figures ≡ figures (view pass).figures.parts 1 0 0 0 0
        (view pass).figures.steps }
    ensures account { (result.account.number ≡ number)
        × (result.account.owed ≡ 1) × (result.account.cleared ≡ 0)
        × (result.account.called ≡ false) × (result.marked ≡ false) }
    ensures pass { result.pass ≡ pass }
{
    let account = Account {
        number,
        owed: 1,
        cleared: 0,
        called: false,
    };
    LockShare {
        account,
        marked: false,
        pass,
    }
}

// Deals a share to each owner. The last one keeps the first pass.
fn deal<R>(book: &LockBook<R>, pass: LockPass, shares: &mut Vec<LockShare>)
    requires pass { IsPassOf book.now.lock pass }
    requires free { (view pass).holds ≡ false }
    requires rest { (view pass).figures ≡ figures 64 book.now.owners 0 0 0 0 [] }
    requires room { (shares.old.items ≡ []) × (book.now.owners ≤ vec_capacity shares.old) }
    ensures count { vec_len shares.new ≡ book.now.owners }
    ensures shares { (place : ℕ) (share : LockShare)
        → slice_get shares.new.items place ≡ Some share → IsNew book.now place share }
{
    let mut pass = pass;
    let last = book.owners - 1;
    for number in 0..last {
        let other = book.lock.another::<Parts>(&mut pass);
        shares.push_reserved(share_of(number, other));
    }
    shares.push_reserved(share_of(last, pass));
}

impl<R: Wait + Copy + Send + Sync> Ledger for LockLedger<R> {
    ghost use Rattle.std.specs.Prelude.{◌≡◌, ℕ, Some, false, slice_get, true, vec_len};
    ghost use Rattle.std.specs.List.{sum_by};
    ghost use Rattle.ledger.specs.LockShares.{IsLeftOf, IsShareOf, cleared_by, has_called, is_quiet};
    ghost use Rattle.ledger.specs.LockShares.{number_left, owed_by, owners_of};
    ghost use Rattle.ledger.specs.LockShares.{steps_left, steps_of};
    ghost use Rattle.ledger.specs.declared.lock_book.LockLeft.{LockLeft};

    type Book = LockBook<R>;

    type Share = LockShare;

    type Left = LockLeft;

    ghost owner_count = { owners_of };

    ghost belongs = { IsShareOf };

    ghost number = { λ share. share.account.number };

    ghost owed = { λ share. share.account.owed };

    ghost cleared = { λ share. share.account.cleared };

    ghost called = { λ share. share.account.called };

    ghost marked = { λ share. share.marked };

    ghost steps = { steps_of };

    ghost left_belongs = { IsLeftOf };

    ghost left_number = { number_left };

    ghost left_owed = { owed_by };

    ghost left_cleared = { cleared_by };

    ghost left_called = { has_called };

    ghost left_quiet = { is_quiet };

    ghost left_steps = { steps_left };

    fn open(&self, alloc: Global, owners: u16) -> Result<(LockBook<R>, Vec<LockShare>), Memory> {
        let mut shares = Vec::with_capacity(alloc, owners as usize)?;
        let (lock, mut pass) = Lock::ruled(alloc, 1)?;
        begin(&self.rt, &lock, &mut pass, owners);
        let book = LockBook {
            rt: self.rt,
            lock,
            owners,
        };
        deal(&book, pass, &mut shares);
        Ok((book, shares))
    }

    fn owe(book: &LockBook<R>, share: &mut LockShare, amount: u64) {
        raise(&book.rt, &book.lock, &mut share.pass, amount);
        share.account.owed += amount;
    }

    fn clear(book: &LockBook<R>, share: &mut LockShare, amount: u64) {
        lower(&book.rt, &book.lock, &mut share.pass, amount);
        share.account.cleared += amount;
    }

    fn stop(book: &LockBook<R>, share: &mut LockShare) {
        set(&book.rt, &book.lock, &mut share.pass);
        share.account.called = true;
        share.marked = true;
    }

    fn stopped(book: &LockBook<R>, share: &mut LockShare) -> bool {
        share.marked = find(&book.rt, &book.lock, &mut share.pass);
        share.marked
    }

    fn leave(book: &LockBook<R>, share: LockShare) -> Leave<LockLeft, LockShare> {
        let LockShare {
            account,
            marked,
            mut pass,
        } = share;
        match inspect(&book.rt, &book.lock, &mut pass) {
            Look::Flag => Leave::Stopped(LockLeft {
                account,
                quiet: false,
                pass,
            }),
            Look::Quiet => Leave::Quiet(LockLeft {
                account,
                quiet: true,
                pass,
            }),
            Look::Open => Leave::Open(LockShare {
                account,
                marked,
                pass,
            }),
        }
    }

    fn gather(book: LockBook<R>, lefts: Vec<LockLeft>) -> Totals
        requires count { vec_len lefts ≡ owners_of book }
        requires each { (place : ℕ) (left : LockLeft) → slice_get lefts.items place ≡ Some left
            → IsLeftOf book left × (number_left left ≡ place) }
        ensures owed { result.owed ≡ sum_by owed_by lefts.items }
        ensures cleared { result.cleared ≡ sum_by cleared_by lefts.items }
        ensures quiet { ((place : ℕ) (left : LockLeft)
            → slice_get lefts.items place ≡ Some left → is_quiet left ≡ true)
            → result.owed ≡ result.cleared }
        ensures stopped { (place : ℕ) (left : LockLeft)
            → slice_get lefts.items place ≡ Some left → is_quiet left ≡ false
            → (other : ℕ) × (caller : LockLeft)
            × (slice_get lefts.items other ≡ Some caller) × (has_called caller ≡ true) }
    {
        let mut lefts = lefts;
        let Some(last) = lefts.pop() else {
            unreachable!()
        };
        let LockLeft {
            account,
            mut pass,
            ..
        } = last;
        let mut owed = account.owed;
        let mut cleared = account.cleared;
        while let Some(left) = lefts.pop() {
            owed += left.account.owed;
            cleared += left.account.cleared;
            book.lock.absorb::<Parts>(&mut pass, left.pass);
        }
        book.lock.learn_as::<Whole>(&mut pass);
        Totals { owed, cleared }
    }
}
