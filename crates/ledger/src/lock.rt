//! Holds of a ledger's lock: what a share does, one hold each.

ghost use Rattle.std.specs.Prelude.{◌≡◌, ◌+◌, ◌^◌, ◌<◌, ◌≤◌, [], false, true, cond};
ghost use Rattle.crossbeam_queue.specs.Fifo.{Pushes};
ghost use Rattle.crossbeam_queue.specs.Passes.{IsPassOf, ruled_capacity, view};
ghost use Rattle.ledger.specs.Amounts.{total_bound};
ghost use Rattle.ledger.specs.Figures.{clearing, figures, finding, finding_none, owing, setting};
ghost use Rattle.ledger.specs.Lock.{IsHeldByOne, IsSeen, first, holding, released};

use crate::figures::NOTHING_OWED;
use crate::lock_rule::{
    Begins, Deed, Finds, Grabs, Lock, LockPass, Lowers, Misses, Quiets, Raises, Releases, Sets,
    State, Stays,
};
use crossbeam_utils::Backoff;
use std::sync::Wait;

/// What a look at the state found.
pub enum Look {
    /// The flag is set.
    Flag,
    /// The flag isn't set, and the balance is 0.
    Quiet,
    /// Neither.
    Open,
}

// Takes the lock: waits until the state is in the queue.
fn grab<R: Wait>(rt: &R, lock: &Lock, pass: &mut LockPass) -> State
    requires pass { IsPassOf lock.now pass.old }
    requires free { (view pass.old).holds ≡ false }
    ensures pass { IsPassOf lock.now pass.new }
    ensures holds { view pass.new ≡ holding (view pass.old) result }
    ensures bounds { (2 ^ 61 < result.balance) × (result.balance < 2 ^ 63) }
    ensures told { 0 < (view pass.old).figures.finds → result.flag ≡ true }
{
    let backoff = Backoff::new();
    for _ in rt.forever() {
        if let Some(state) = lock.try_pop_as::<Grabs>(pass) {
            return state;
        }
        backoff.snooze();
    }
    unreachable!()
}

// Gives the lock back, with this state, after what the share did.
fn give<D: Deed, R: Wait>(rt: &R, lock: &Lock, pass: &mut LockPass, state: State)
    requires pass { IsPassOf lock.now pass.old }
    requires rule { let v = view pass.old in Pushes IsHeldByOne (ruled_capacity lock.now)
        pass.old.id v state (λ w. w ≡ released v (D.done v.figures v.held state)) }
    ensures pass { IsPassOf lock.now pass.new }
    ensures then { let v = view pass.old in
        view pass.new ≡ released v (D.done v.figures v.held state) }
{
    let mut next = state;
    for _ in rt.forever() {
        match lock.try_push_as::<Releases<D>>(pass, next) {
            Ok(()) => return,
            Err(back) => next = back,
        }
    }
    unreachable!()
}

/// Puts the first state into a lock: 1 is owed for each owner.
pub fn begin<R: Wait>(rt: &R, lock: &Lock, pass: &mut LockPass, owners: u16)
    requires pass { IsPassOf lock.now pass.old }
    requires first { view pass.old ≡ first }
    ensures pass { IsPassOf lock.now pass.new }
    ensures free { (view pass.new).holds ≡ false }
    ensures then { (view pass.new).figures ≡ figures 64 owners 0 0 0 0 [] }
{
    let next = State {
        balance: NOTHING_OWED + owners as u64,
        flag: false,
    };
    give::<Begins, R>(rt, lock, pass, next);
}

/// Owes so much more.
pub fn raise<R: Wait>(rt: &R, lock: &Lock, pass: &mut LockPass, amount: u64)
    requires pass { IsPassOf lock.now pass.old }
    requires free { (view pass.old).holds ≡ false }
    requires live { (0 < (view pass.old).figures.parts) × ((view pass.old).figures.quiets ≡ 0) }
    requires few { (view pass.old).figures.owed + amount ≤ total_bound }
    ensures pass { IsPassOf lock.now pass.new }
    ensures free { (view pass.new).holds ≡ false }
    ensures then { (view pass.new).figures ≡ owing (view pass.old).figures amount }
{
    let state = grab(rt, lock, pass);
    let next = State {
        balance: state.balance + amount,
        flag: state.flag,
    };
    give::<Raises, R>(rt, lock, pass, next);
}

/// Clears so much more.
pub fn lower<R: Wait>(rt: &R, lock: &Lock, pass: &mut LockPass, amount: u64)
    requires pass { IsPassOf lock.now pass.old }
    requires free { (view pass.old).holds ≡ false }
    requires live { (0 < (view pass.old).figures.parts) × ((view pass.old).figures.quiets ≡ 0) }
    requires few { (view pass.old).figures.cleared + amount ≤ total_bound }
    ensures pass { IsPassOf lock.now pass.new }
    ensures free { (view pass.new).holds ≡ false }
    ensures then { (view pass.new).figures ≡ clearing (view pass.old).figures amount }
{
    let state = grab(rt, lock, pass);
    let next = State {
        balance: state.balance - amount,
        flag: state.flag,
    };
    give::<Lowers, R>(rt, lock, pass, next);
}

/// Sets the flag.
pub fn set<R: Wait>(rt: &R, lock: &Lock, pass: &mut LockPass)
    requires pass { IsPassOf lock.now pass.old }
    requires free { (view pass.old).holds ≡ false }
    requires live { 0 < (view pass.old).figures.parts }
    ensures pass { IsPassOf lock.now pass.new }
    ensures free { (view pass.new).holds ≡ false }
    ensures then { (view pass.new).figures ≡ setting (view pass.old).figures }
{
    let state = grab(rt, lock, pass);
    let next = State {
        balance: state.balance,
        flag: true,
    };
    give::<Sets, R>(rt, lock, pass, next);
}

/// Looks at the flag. Answers whether it is set.
pub fn find<R: Wait>(rt: &R, lock: &Lock, pass: &mut LockPass) -> bool
    requires pass { IsPassOf lock.now pass.old }
    requires free { (view pass.old).holds ≡ false }
    requires live { 0 < (view pass.old).figures.parts }
    ensures pass { IsPassOf lock.now pass.new }
    ensures free { (view pass.new).holds ≡ false }
    ensures found { result ≡ (view pass.new).held.flag }
    ensures then { (view pass.new).figures
        ≡ cond result (finding (view pass.old).figures) (finding_none (view pass.old).figures) }
    ensures told { 0 < (view pass.old).figures.finds → result ≡ true }
{
    let state = grab(rt, lock, pass);
    if state.flag {
        give::<Finds, R>(rt, lock, pass, state);
        true
    } else {
        give::<Misses, R>(rt, lock, pass, state);
        false
    }
}

/// Looks at the flag and, where it isn't set, at the balance.
pub fn inspect<R: Wait>(rt: &R, lock: &Lock, pass: &mut LockPass) -> Look
    requires pass { IsPassOf lock.now pass.old }
    requires free { (view pass.old).holds ≡ false }
    requires live { 0 < (view pass.old).figures.parts }
    ensures pass { IsPassOf lock.now pass.new }
    ensures free { (view pass.new).holds ≡ false }
    ensures then { IsSeen (view pass.new).held (view pass.old).figures (view pass.new).figures
        result }
    ensures told { 0 < (view pass.old).figures.finds → (view pass.new).held.flag ≡ true }
{
    let state = grab(rt, lock, pass);
    if state.flag {
        give::<Finds, R>(rt, lock, pass, state);
        return Look::Flag;
    }
    if state.balance == NOTHING_OWED {
        give::<Quiets, R>(rt, lock, pass, state);
        return Look::Quiet;
    }
    give::<Stays, R>(rt, lock, pass, state);
    Look::Open
}
