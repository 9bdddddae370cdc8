//! What a worker owns, and what it gives back.

ghost use Rattle.std.specs.Prelude.{◌≡◌, ℕ, vec_capacity};
ghost use Rattle.fixpoint.specs.State.{first_state};
ghost use Rattle.worker.specs.Finishing.{IsGiven, IsEnded, WasMade, WasStarted};

use crate::account::Account;
use crate::gate::Gate;
use crate::inbox::Inbox;
use crate::outbox::Outbox;
use crate::pace::Pace;
use crate::site::Site;
use crate::tally::Tally;
use crate::work_loop::{halt, work_on};
use fixpoint::{Analysis, Ending};
use ledger::Ledger;
use mail::Mail;
use std::alloc::Global;
use std::sync::Wait;

/// What a worker owns: its number, its share of the ledger's book, the ends of its mailboxes by the
/// other owner, none at its own index, room for its senders once they are closed, and what it
/// returns if it has no part.
#[derive(Drop)]
pub struct Worker<A: Analysis, M: Mail<A::Growth>, L: Ledger> {
    pub me: u16,
    pub share: L::Share,
    pub outbox: Outbox<A, M>,
    pub receivers: Vec<Option<M::R>>,
    pub room: Vec<Option<M::Closed>>,
    pub blank: A::Yield,
}

/// What a worker gives back: the log of its part and what the part returned beside it, what is left
/// of its share, the ends of its mailboxes, and how it ended.
#[derive(Drop)]
pub struct Finished<A: Analysis, M: Mail<A::Growth>, L: Ledger> {
    pub log: Vec<A::Growth>,
    pub yielded: A::Yield,
    pub left: L::Left,
    pub closed: Vec<Option<M::Closed>>,
    pub receivers: Vec<Option<M::R>>,
    pub ending: Ending,
}

/// Runs one worker from its start to its end.
pub fn work<A: Analysis, M: Mail<A::Growth>, L: Ledger, G: Gate, R: Wait>(
    rt: &R,
    site: &Site<'_, A, L, G>,
    worker: Worker<A, M, L>,
) -> Finished<A, M, L>
    requires given { let w = worker in IsGiven L.Ledger M.Mail
        (A.rules.parts site.now.analysis.now) site.now.book.now w.me w.share
        w.outbox.senders.items w.receivers.items w.room.items (vec_capacity w.room) }
    ensures ended { IsEnded L.Ledger A.rules A.yields M.Mail site.now.analysis.now
        site.now.book.now worker.me worker.outbox.senders.items worker.receivers.items
        result.log.items result.yielded result.left result.closed.items result.receivers.items
        result.ending }
    ensures started { WasStarted result.ending }
{
    match site.analysis.part(site.alloc, worker.me) {
        Ok(part) => with_part::<A, M, L, G, R>(rt, site, part, worker),
        Err(_) => call_off::<A, M, L>(site.alloc, site.book, worker, Ending::NoOwner),
    }
}

// Works with the part that was made for the worker.
fn with_part<A: Analysis, M: Mail<A::Growth>, L: Ledger, G: Gate, R: Wait>(
    rt: &R,
    site: &Site<'_, A, L, G>,
    part: A::Part,
    worker: Worker<A, M, L>,
) -> Finished<A, M, L>
    requires first { let o = A.state part in o ≡ first_state A.rules o.system o.me }
    requires given { let w = worker in IsGiven L.Ledger M.Mail
        (A.rules.parts (A.state part).system) site.now.book.now (A.state part).me w.share
        w.outbox.senders.items w.receivers.items w.room.items (vec_capacity w.room) }
    ensures ended { IsEnded L.Ledger A.rules A.yields M.Mail (A.state part).system
        site.now.book.now (A.state part).me worker.outbox.senders.items worker.receivers.items
        result.log.items result.yielded result.left result.closed.items result.receivers.items
        result.ending }
    ensures started { WasStarted result.ending }
{
    let Worker {
        me: _,
        share,
        outbox,
        receivers,
        room,
        blank: _,
    } = worker;
    let mut part = part;
    let mut outbox = outbox;
    let batch = Vec::new(site.alloc);
    let mut inbox = Inbox { receivers, batch };
    let pace = Pace::behind(site.gate);
    let account = Account {
        book: site.book,
        share,
        tally: Tally::none(),
    };
    let (left, ending) = work_on::<A, M, L, G, R>(
        rt,
        &pace,
        account,
        &mut part,
        &mut outbox.senders,
        &mut inbox,
    );
    let (log, yielded) = A::into_parts(part, site.alloc);
    let closed = outbox.close_all(room);
    let Inbox {
        receivers,
        batch: _,
    } = inbox;
    Finished {
        log,
        yielded,
        left,
        closed,
        receivers,
        ending,
    }
}

/// Ends a worker that has no part, for this reason: sets the stop flag by its share, leaves, and
/// closes its senders.
pub fn call_off<A: Analysis, M: Mail<A::Growth>, L: Ledger>(
    alloc: Global,
    book: &L::Book,
    worker: Worker<A, M, L>,
    ending: Ending,
) -> Finished<A, M, L>
    requires given { let w = worker in (owners : ℕ) × IsGiven L.Ledger M.Mail owners book.now w.me
        w.share w.outbox.senders.items w.receivers.items w.room.items (vec_capacity w.room) }
    requires reason { WasMade ending → ⊥ }
    ensures ended { (a : A) → IsEnded L.Ledger A.rules A.yields M.Mail a book.now worker.me
        worker.outbox.senders.items worker.receivers.items result.log.items result.yielded
        result.left result.closed.items result.receivers.items result.ending }
    ensures ending { result.ending ≡ ending }
{
    let Worker {
        me: _,
        share,
        outbox,
        receivers,
        room,
        blank,
    } = worker;
    let left = halt::<L>(book, share);
    let closed = outbox.close_all(room);
    Finished {
        log: Vec::new(alloc),
        yielded: blank,
        left,
        closed,
        receivers,
        ending,
    }
}
