//! The mailboxes of a run, and the workers that own their ends.

ghost use Rattle.std.specs.Prelude.{◌≡◌, ◌≤◌, ℕ, [], map, replicate, slice_get, Some, IfOk};
ghost use Rattle.std.specs.Prelude.{vec_len, vec_capacity};
ghost use Rattle.std.specs.VecDeque.{deque_len};
ghost use Rattle.run.specs.Table.{AreEnds, AreNewEnds, IsEndTable, IsPartRow};

use fixpoint::Analysis;
use ledger::Ledger;
use mail::Mail;
use nll_sets::Memory;
use std::alloc::Global;
use std::collections::VecDeque;
use worker::{Outbox, Worker};

/// This many empty columns.
///
/// # Errors
/// - `Memory`.
pub fn make_columns<T, M: Mail<T>>(
    alloc: Global,
    owners: u16,
) -> Result<Vec<Vec<Option<M::R>>>, Memory>
    ensures { IfOk result (λ columns. map (λ c. c.items) columns.items ≡ replicate owners []) }
{
    let mut columns = Vec::new(alloc);
    for _ in 0..owners {
        columns.push(Vec::new(alloc))?;
    }
    Ok(columns)
}

/// The senders of all owners; the receivers are appended to the columns.
///
/// # Errors
/// - `Memory`.
pub fn make_rows<A: Analysis, M: Mail<A::Growth>>(
    alloc: Global,
    mail: &M,
    owners: u16,
    columns: &mut Vec<Vec<Option<M::R>>>,
) -> Result<Vec<Outbox<A, M>>, Memory>
    requires { map (λ c. c.items) columns.old.items ≡ replicate owners [] }
    ensures { IfOk result (λ rows. IsEndTable (AreEnds (AreNewEnds M.Mail) M.ends) owners owners
        (map (λ o. o.senders.items) rows.items) (map (λ c. c.items) columns.new.items)) }
{
    let mut rows = Vec::new(alloc);
    for from in 0..owners {
        let row = make_row::<A, M>(alloc, mail, from, owners, columns)?;
        rows.push(row)?;
    }
    Ok(rows)
}

// One sender for each other owner; the receivers are appended to the columns.
fn make_row<A: Analysis, M: Mail<A::Growth>>(
    alloc: Global,
    mail: &M,
    from: u16,
    owners: u16,
    columns: &mut Vec<Vec<Option<M::R>>>,
) -> Result<Outbox<A, M>, Memory>
    requires columns { vec_len columns.old ≡ owners }
    ensures row { IfOk result (λ row. IsPartRow (AreEnds (AreNewEnds M.Mail) M.ends) owners from
        row.senders.items (map (λ c. c.items) columns.old.items)
        (map (λ c. c.items) columns.new.items)) }
{
    let mut row = Outbox {
        senders: Vec::with_capacity(alloc, owners as usize)?,
    };
    for to in 0..owners {
        // From an owner to itself there is no mailbox.
        let ends = if from == to {
            (None, None)
        } else {
            let (sender, receiver) = mail.pair(alloc, from, to)?;
            (Some(sender), Some(receiver))
        };
        let (sender, receiver) = ends;
        row.senders.push_reserved(sender);
        columns[to as usize].push(receiver)?;
    }
    Ok(row)
}

/// The workers that own these rows, columns and shares.
///
/// # Errors
/// - `Memory`.
pub fn make_workers<A: Analysis, M: Mail<A::Growth>, L: Ledger>(
    alloc: Global,
    owners: u16,
    rows: VecDeque<Outbox<A, M>>,
    columns: VecDeque<Vec<Option<M::R>>>,
    shares: VecDeque<L::Share>,
) -> Result<Vec<Worker<A, M, L>>, Memory>
    requires rows { deque_len rows ≡ owners }
    requires columns { deque_len columns ≡ owners }
    requires shares { deque_len shares ≡ owners }
    ensures rows { IfOk result (λ ws. map (λ w. w.outbox.senders.items) ws.items
        ≡ map (λ o. o.senders.items) rows.items) }
    ensures columns { IfOk result (λ ws. map (λ w. w.receivers.items) ws.items
        ≡ map (λ c. c.items) columns.items) }
    ensures shares { IfOk result (λ ws. map (λ w. w.share) ws.items ≡ shares.items) }
    ensures each { IfOk result (λ ws. (k : ℕ) (w : _) → slice_get ws.items k ≡ Some w
        → (w.me ≡ k) × (w.room.items ≡ []) × (owners ≤ vec_capacity w.room)) }
{
    let mut rows = rows;
    let mut columns = columns;
    let mut shares = shares;
    let mut workers = Vec::new(alloc);
    for me in 0..owners {
        let room = Vec::with_capacity(alloc, owners as usize)?;
        let Some(outbox) = rows.pop_front() else {
            unreachable!()
        };
        let Some(receivers) = columns.pop_front() else {
            unreachable!()
        };
        let Some(share) = shares.pop_front() else {
            unreachable!()
        };
        workers.push(Worker {
            me,
            share,
            outbox,
            receivers,
            room,
            blank: A::none(alloc),
        })?;
    }
    Ok(workers)
}
