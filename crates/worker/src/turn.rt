//! A worker's turns.

ghost use Rattle.std.specs.Prelude.{◌≡◌, ◌+◌, ◌%◌, ◌<◌, ◌≤◌, List, map};
ghost use Rattle.fixpoint.specs.State.{IsSoundPart, first_state};
ghost use Rattle.worker.specs.Mailboxes.{AreAllEmpty, through};
ghost use Rattle.worker.specs.Finishing.{IsFresh, IsOpenStill};
ghost use Rattle.worker.specs.Tallies.{HasGrown, none_counted};
ghost use Rattle.worker.specs.Turning.{IsAtRest, ComesTo, StaysAtWork};

use crate::account::{Account, keep_book};
use crate::gate::Gate;
use crate::inbox::{Heard, Inbox, hear_from};
use crate::pace::Pace;
use fixpoint::Analysis;
use ledger::Ledger;
use mail::Mail;

// At most this many rounds follow each other.
const MOST_ROUNDS: u64 = 32;

// A worker receives this many growths, if it can, before it tries again to post into a full
// mailbox.
const PATIENCE: u64 = 16;

/// The first turn: the part is loaded, and the book is kept of it.
pub fn first_turn<A: Analysis, L: Ledger, G: Gate>(
    pace: &Pace<'_, G>,
    account: &mut Account<'_, L>,
    part: &mut A::Part,
) -> Heard
    requires first { let o = A.state part.old in o ≡ first_state A.rules o.system o.me }
    requires fresh { IsFresh L.Ledger account.old.book.now (A.state part.old).me account.old.share }
    requires uncounted { account.old.tally ≡ none_counted }
    ensures grows { HasGrown (A.state part.old) (A.state part.new) }
    ensures sound { IsSoundPart A.rules (A.state part.new) }
    ensures still { IsOpenStill L.Ledger account.old.book.now account.old.share
        account.new.book.now account.new.share }
    ensures comes { (taken : List (List A.Growth))
        → AreAllEmpty (A.rules.parts (A.state part.old).system) taken
        → ComesTo A.rules (A.state part.new) taken (L.owed account.new.share)
        (L.cleared account.new.share) account.new.tally result }
    ensures entered { G.entered pace.now.gate.now (A.state part.old).me 1 }
{
    pace.gate.enter(A::me(part) as usize, 1);
    match A::load(part) {
        Ok(()) => {}
        Err(_) => return Heard::Memory,
    }
    keep_book::<A, L>(account, part, 1);
    Heard::Growths
}

// The owner that comes so many behind another; behind the last comes owner 0. It has no division,
// which is slow, and would be there for each look into a mailbox.
fn owner_behind(first: u16, step: u16, owners: u16) -> u16
    requires first { first < owners }
    requires step { step < owners }
    ensures within { result < owners }
    ensures behind { result ≡ (first + step) % owners }
{
    let rest = owners - first;
    if step < rest {
        first + step
    } else {
        step - rest
    }
}

/// One look into each mailbox, or up to the first growth if a turn receives at most one. With each
/// turn it begins at the next owner. Returns whether the part received growths, or why the worker
/// has to end.
pub fn round<A: Analysis, M: Mail<A::Growth>, L: Ledger, G: Gate>(
    pace: &Pace<'_, G>,
    account: &mut Account<'_, L>,
    part: &mut A::Part,
    inbox: &mut Inbox<A, M>,
) -> Heard
    requires book { L.belongs account.old.book.now account.old.share }
    requires rests { let a = account.old in IsAtRest A.rules (A.state part.old)
        (map (through M.received) inbox.old.receivers.items)
        (L.owed a.share) (L.cleared a.share) a.tally }
    ensures stays { StaysAtWork A.rules L.Ledger M.Mail (A.state part.old) (A.state part.new)
        account.old.book.now account.old.share account.new.book.now account.new.share
        inbox.old.receivers.items inbox.new.receivers.items }
    ensures comes { let a = account.new in ComesTo A.rules (A.state part.new)
        (map (through M.received) inbox.new.receivers.items)
        (L.owed a.share) (L.cleared a.share) a.tally result }
    ensures single { pace.now.taken ≡ 1
        → account.new.tally.turns ≤ account.old.tally.turns + 1 }
{
    let owners = A::owners(part);
    let first = (account.tally.turns % owners as u64) as u16;
    let mut any = false;
    for step in 0..owners {
        let from = owner_behind(first, step, owners);
        let turn = account.tally.turns + 1;
        match hear_from::<A, M, G>(pace, turn, part, inbox, from) {
            Heard::Nothing => {}
            Heard::Growths => {
                keep_book::<A, L>(account, part, inbox.batch.len() as u64);
                let is_last = pace.taken == 1;
                if is_last {
                    return Heard::Growths;
                }
                any = true;
            }
            Heard::Stray => return Heard::Stray,
            Heard::Memory => return Heard::Memory,
        }
    }
    if any { Heard::Growths } else { Heard::Nothing }
}

/// Looks into each mailbox, and again as long as growths are heard and it isn't time to try a full
/// mailbox again; not again if a turn receives at most one. Returns whether the part received
/// growths, or why the worker has to end.
pub fn rounds<A: Analysis, M: Mail<A::Growth>, L: Ledger, G: Gate>(
    pace: &Pace<'_, G>,
    account: &mut Account<'_, L>,
    part: &mut A::Part,
    inbox: &mut Inbox<A, M>,
) -> Heard
    requires book { L.belongs account.old.book.now account.old.share }
    requires rests { let a = account.old in IsAtRest A.rules (A.state part.old)
        (map (through M.received) inbox.old.receivers.items)
        (L.owed a.share) (L.cleared a.share) a.tally }
    ensures stays { StaysAtWork A.rules L.Ledger M.Mail (A.state part.old) (A.state part.new)
        account.old.book.now account.old.share account.new.book.now account.new.share
        inbox.old.receivers.items inbox.new.receivers.items }
    ensures comes { let a = account.new in ComesTo A.rules (A.state part.new)
        (map (through M.received) inbox.new.receivers.items)
        (L.owed a.share) (L.cleared a.share) a.tally result }
    ensures single { pace.now.taken ≡ 1
        → account.new.tally.turns ≤ account.old.tally.turns + 1 }
{
    // So many items are cleared before a full mailbox is tried again: 0 if nothing waits.
    let until = if account.tally.waiting > 0 {
        account.tally.cleared.saturating_add(PATIENCE)
    } else {
        0
    };
    let mut heard = round::<A, M, L, G>(pace, account, part, inbox);
    let is_only = pace.taken == 1;
    if is_only {
        return heard;
    }
    for _ in 1..MOST_ROUNDS {
        match heard {
            Heard::Growths => {}
            _ => return heard,
        }
        if account.tally.cleared >= until {
            return heard;
        }
        heard = match round::<A, M, L, G>(pace, account, part, inbox) {
            Heard::Nothing => Heard::Growths,
            other => other,
        };
    }
    heard
}
