//! One run, from the analysis to its outcome.

ghost use Rattle.std.specs.Prelude.{◌≡◌, ◌<◌, ◌≤◌, ℕ, Bool, true, [], map, slice_get};
ghost use Rattle.std.specs.Prelude.{Some, Err, IfOk, vec_len, vec_capacity};
ghost use Rattle.std.specs.VecDeque.{deque_len};
ghost use Rattle.fixpoint.specs.Limits.{most_parts};
ghost use Rattle.fixpoint.specs.Logs.{log_of};
ghost use Rattle.worker.specs.Finishing.{IsFresh, Leaves, WasMade, WasStarted, FinishedAs};
ghost use Rattle.worker.specs.Mailboxes.{through};
ghost use Rattle.run.specs.Outcome.{IsOutcome};
ghost use Rattle.run.specs.Refusing.{IsReason};
ghost use Rattle.run.specs.Table.{AreEnds, AreNewEnds, IsEndTable};
ghost use Rattle.run.specs.declared.error.RunError.TheVariants.{Thread};

use crate::error::RunError;
use crate::mailboxes::{make_columns, make_rows, make_workers};
use crate::outcome::Outcome;
use crate::parts::{Parts, reason_of, take_apart};
use crate::settlement::settle_all;
use fixpoint::{Analysis, ThreadAnalysis};
use ledger::{Ledger, ThreadLedger};
use mail::{Mail, ThreadMail};
use nll_sets::Memory;
use std::alloc::Global;
use std::collections::VecDeque;
use std::sync::Wait;
use std::thread::Threads;
use worker::{AlwaysStart, Finished, Gate, Permit, Site, Worker, run_all};

/// Runs the parts of an analysis, each in a thread of its own, until nothing is left to do
/// anywhere.
///
/// Each owner receives from each other exactly the growths of the facts that it reads, once each
/// and in the order in which they grew, and none is left behind; the logs tell the least solution.
///
/// # Errors
/// All threads are joined and all senders closed, and what was borrowed is as it was.
/// - `Thread`: a thread couldn't be started.
/// - `Memory`.
///
/// # Cost
/// The work of the parts, and for each growth that is received some two holds of the ledger, a
/// post and a take (not proved). There is a mailbox for each ordered pair of different owners.
pub fn run<
    A: ThreadAnalysis,
    M: ThreadMail<A::Growth>,
    L: ThreadLedger,
    G: Gate + Sync,
    R: Threads + Wait + Sync,
>(
    rt: &R,
    alloc: Global,
    analysis: &A,
    mail: &M,
    ledger: &L,
    gate: &G,
) -> Result<Outcome<A, M::Post>, RunError>
    ensures ok { IfOk result (λ o. IsOutcome A.rules A.yields M.Mail analysis.now
        (map (λ list. list.items) o.grown.items) o.yields.items o.posts.items) }
{
    let permit = AlwaysStart;
    run_with::<A, M, L, G, AlwaysStart, R>(rt, alloc, analysis, mail, ledger, gate, &permit)
}

/// Like `run`, but a permit is asked before each start. It is asked once for each owner, in the
/// order of their numbers; a start that it refuses counts as one that failed.
///
/// # Errors
/// Those of `run`.
/// - `Thread`: the permit refused a start, or a thread couldn't be started. The permit was asked
///   before that.
/// - `Memory`, where no start failed.
pub fn run_with<
    A: ThreadAnalysis,
    M: ThreadMail<A::Growth>,
    L: ThreadLedger,
    G: Gate + Sync,
    P: Permit,
    R: Threads + Wait + Sync,
>(
    rt: &R,
    alloc: Global,
    analysis: &A,
    mail: &M,
    ledger: &L,
    gate: &G,
    permit: &P,
) -> Result<Outcome<A, M::Post>, RunError>
    ensures ok { IfOk result (λ o. IsOutcome A.rules A.yields M.Mail analysis.now
        (map (λ list. list.items) o.grown.items) o.yields.items o.posts.items) }
    ensures permitted { IfOk result (λ _. (owner : ℕ) → owner < A.rules.parts analysis.now
        → P.permits permit.now owner true) }
    ensures thread { result ≡ Err Thread → (owner : ℕ) × (answer : Bool)
        × (owner < A.rules.parts analysis.now) × P.permits permit.now owner answer }
{
    let owners = analysis.parts();
    let (book, workers) = prepare::<A, M, L>(alloc, mail, ledger, owners)?;
    let outcome = {
        let site = Site {
            alloc,
            analysis,
            gate,
            book: &book,
        };
        run_all::<A, M, L, G, P, R>(rt, &site, permit, workers)
    };
    match outcome {
        Ok(finished) => conclude::<A, M, L>(alloc, analysis, book, finished),
        Err(error) => Err(RunError::from(error)),
    }
}

// The book and the workers, each with a fresh share and the ends of its mailboxes.
fn prepare<A: Analysis, M: Mail<A::Growth>, L: Ledger>(
    alloc: Global,
    mail: &M,
    ledger: &L,
    owners: u16,
) -> Result<(L::Book, VecDeque<Worker<A, M, L>>), Memory>
    requires owners { (0 < owners) × (owners ≤ most_parts) }
    ensures book { IfOk result (λ p. L.owner_count p.0 ≡ owners) }
    ensures count { IfOk result (λ p. deque_len p.1 ≡ owners) }
    ensures table { IfOk result (λ p. IsEndTable (AreEnds (AreNewEnds M.Mail) M.ends) owners owners
        (map (λ w. w.outbox.senders.items) p.1.items)
        (map (λ w. w.receivers.items) p.1.items)) }
    ensures each { IfOk result (λ p. (k : ℕ) (w : _) → slice_get p.1.items k ≡ Some w
        → (w.me ≡ k) × (w.room.items ≡ []) × (owners ≤ vec_capacity w.room)) }
    ensures shares { IfOk result (λ p. (k : ℕ) (w : _) → slice_get p.1.items k ≡ Some w
        → IsFresh L.Ledger p.0 k w.share) }
{
    let mut columns = make_columns::<A::Growth, M>(alloc, owners)?;
    let rows = make_rows::<A, M>(alloc, mail, owners, &mut columns)?;
    let (book, shares) = ledger.open(alloc, owners)?;
    let workers = make_workers::<A, M, L>(
        alloc,
        owners,
        VecDeque::from(rows),
        VecDeque::from(columns),
        VecDeque::from(shares),
    )?;
    Ok((book, VecDeque::from(workers)))
}

// Settles the mailboxes and gathers the ledger.
fn conclude<A: Analysis, M: Mail<A::Growth>, L: Ledger>(
    alloc: Global,
    analysis: &A,
    book: L::Book,
    finished: Vec<Finished<A, M, L>>,
) -> Result<Outcome<A, M::Post>, RunError>
    requires book { L.owner_count book ≡ A.rules.parts analysis.now }
    requires count { vec_len finished ≡ A.rules.parts analysis.now }
    requires table { IsEndTable (AreEnds M.closes M.ends) (A.rules.parts analysis.now)
        (A.rules.parts analysis.now) (map (λ d. d.closed.items) finished.items)
        (map (λ d. d.receivers.items) finished.items) }
    requires leaves { (k : ℕ) (d : _) → slice_get finished.items k ≡ Some d
        → Leaves L.Ledger book k d.left d.ending }
    requires finishes { (k : ℕ) (d : _) → slice_get finished.items k ≡ Some d → WasMade d.ending
        → FinishedAs A.rules A.yields analysis.now k
        (log_of (map (through M.all_sent) d.closed.items))
        (log_of (map (through M.received) d.receivers.items)) (L.left_owed d.left)
        (L.left_cleared d.left) d.ending d.log.items d.yielded }
    ensures ok { IfOk result (λ o. IsOutcome A.rules A.yields M.Mail analysis.now
        (map (λ list. list.items) o.grown.items) o.yields.items o.posts.items) }
    ensures refused { (error : RunError)
        → IsReason (map (λ d. d.ending) finished.items) (Some error) → result ≡ Err error }
    ensures thread { result ≡ Err Thread → (k : ℕ) × (d : _)
        × (slice_get finished.items k ≡ Some d) × (WasStarted d.ending → ⊥) }
    ensures started { IfOk result (λ _. (k : ℕ) (d : _) → slice_get finished.items k ≡ Some d
        → WasStarted d.ending) }
{
    if let Some(error) = reason_of::<A, M, L>(&finished) {
        return Err(error);
    }
    let owners = analysis.parts();
    let Parts {
        lefts,
        grown,
        yields,
        rows,
        columns,
    } = take_apart::<A, M, L>(alloc, VecDeque::from(finished))?;
    let _ = L::gather(book, lefts);
    let mut columns = columns;
    let mut posts = Vec::new(alloc);
    settle_all::<A::Growth, M>(VecDeque::from(rows), &mut columns, owners, &mut posts)?;
    Ok(Outcome {
        yields,
        grown,
        posts,
    })
}
