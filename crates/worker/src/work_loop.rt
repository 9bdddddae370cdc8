//! One worker, from its start until its share has left.

ghost use Rattle.std.specs.Prelude.{◌≡◌, map, true, false};
ghost use Rattle.ledger.specs.Leaving.{IfLeft, IfOpen, IfQuiet, IfStopped};
ghost use Rattle.fixpoint.specs.Finishing.{Finishes};
ghost use Rattle.fixpoint.specs.Logs.{log_of};
ghost use Rattle.fixpoint.specs.State.{first_state};
ghost use Rattle.worker.specs.Mailboxes.{Alike, AreAllEmpty, Both, HasEnds, Keeps, Stays, through};
ghost use Rattle.worker.specs.Finishing.{Leaves, IsFresh, WasStarted};
ghost use Rattle.worker.specs.Tallies.{none_counted};

use crate::account::Account;
use crate::gate::Gate;
use crate::inbox::{Heard, Inbox};
use crate::pace::Pace;
use crate::posts::share_out;
use crate::turn::{first_turn, rounds};
use crossbeam_utils::Backoff;
use fixpoint::{Analysis, Ending};
use ledger::{Leave, Ledger};
use mail::Mail;
use std::sync::Wait;

/// Sets the stop flag, and leaves.
pub fn halt<L: Ledger>(book: &L::Book, share: L::Share) -> L::Left
    requires { L.belongs book.now share }
    ensures left { L.left_belongs book.now result × (L.left_number result ≡ L.number share) }
    ensures stopped { L.left_quiet result ≡ false }
{
    let mut share = share;
    L::stop(book, &mut share);
    match L::leave(book, share) {
        Leave::Stopped(left) => left,
        Leave::Quiet(_) => unreachable!(),
        Leave::Open(_) => unreachable!(),
    }
}

// Asks to leave, once the worker has waited for a while with nothing left to post. If growths wait
// for a place in a mailbox, it leaves only on a stop.
fn ask_to_leave<L: Ledger>(
    book: &L::Book,
    share: L::Share,
    waiting: u64,
    backoff: &Backoff,
) -> Leave<L::Left, L::Share>
    requires { L.belongs book.now share }
    ensures left { IfLeft result (λ left. L.left_belongs book.now left
        × (L.left_number left ≡ L.number share)
        × (L.left_owed left ≡ L.owed share) × (L.left_cleared left ≡ L.cleared share)
        × (L.left_called left ≡ L.called share)) }
    ensures quiet { IfQuiet result (λ left. (L.left_quiet left ≡ true) × (waiting ≡ 0)) }
    ensures stopped { IfStopped result (λ left. L.left_quiet left ≡ false) }
    ensures back { IfOpen result (λ back. L.belongs book.now back
        × (L.number back ≡ L.number share)
        × (L.owed back ≡ L.owed share) × (L.cleared back ≡ L.cleared share)
        × (L.called back ≡ L.called share)) }
{
    let mut share = share;
    if waiting > 0 {
        if L::stopped(book, &mut share) {
            L::leave(book, share)
        } else {
            Leave::Open(share)
        }
    } else if backoff.is_completed() {
        L::leave(book, share)
    } else {
        Leave::Open(share)
    }
}

/// Loads the part and works until the share has left. Returns what is left of it, and how this
/// ended.
pub fn work_on<A: Analysis, M: Mail<A::Growth>, L: Ledger, G: Gate, R: Wait>(
    rt: &R,
    pace: &Pace<'_, G>,
    account: Account<'_, L>,
    part: &mut A::Part,
    senders: &mut Vec<Option<M::S>>,
    inbox: &mut Inbox<A, M>,
) -> (L::Left, Ending)
    requires first { let o = A.state part.old in o ≡ first_state A.rules o.system o.me }
    requires fresh { IsFresh L.Ledger account.book.now (A.state part.old).me account.share }
    requires uncounted { account.tally ≡ none_counted }
    requires ends { HasEnds (A.state part.old).me senders.old.items }
    requires posts { AreAllEmpty (A.rules.parts (A.state part.old).system)
        (map (through M.sent) senders.old.items) }
    requires taken { AreAllEmpty (A.rules.parts (A.state part.old).system)
        (map (through M.received) inbox.old.receivers.items) }
    ensures leaves { Leaves L.Ledger account.entry.book.now (A.state part.old).me result.0
        result.1 }
    ensures started { WasStarted result.1 }
    ensures finishes { let o = A.state part.old in Finishes A.rules o.system o.me (A.state part.new)
        (log_of (map (through M.sent) senders.new.items))
        (log_of (map (through M.received) inbox.new.receivers.items))
        (L.left_owed result.0) (L.left_cleared result.0) result.1 }
    ensures pairs { Alike (Both (Stays M.Mail)) senders.old.items senders.new.items }
    ensures keeps { Alike (Both (Keeps M.Mail)) inbox.old.receivers.items
        inbox.new.receivers.items }
{
    let mut account = account;
    let mut heard = first_turn::<A, L, G>(pace, &mut account, part);
    let backoff = Backoff::new();
    for _ in rt.forever() {
        heard = share_out::<A, M>(heard, part, senders, &mut account.tally, pace.posted);
        let Account { book, share, tally } = account;
        match heard {
            Heard::Stray => return (halt::<L>(book, share), Ending::Stray),
            Heard::Memory => return (halt::<L>(book, share), Ending::Memory),
            Heard::Growths => backoff.reset(),
            Heard::Nothing => backoff.snooze(),
        }
        match ask_to_leave::<L>(book, share, tally.waiting, &backoff) {
            Leave::Quiet(left) => return (left, Ending::Quiet),
            Leave::Stopped(left) => return (left, Ending::Stopped),
            Leave::Open(share) => account = Account { book, share, tally },
        }
        heard = rounds::<A, M, L, G>(pace, &mut account, part, inbox);
    }
    unreachable!()
}
