//! A worker as a job, and all workers of a run, each in a thread of its own.

ghost use Rattle.std.specs.Prelude.{IfOk, vec_capacity};
ghost use Rattle.worker.specs.Jobs.{AllOf, Each};
ghost use Rattle.worker.specs.Finishing.{IsAnswered, IsGiven, IsEnded};

use crate::gate::Gate;
use crate::job::{Job, Start};
use crate::permit::Permit;
use crate::site::Site;
use crate::threads::run_jobs;
use crate::worker::{Finished, Worker, call_off, work};
use fixpoint::{Ending, ThreadAnalysis};
use ledger::ThreadLedger;
use mail::ThreadMail;
use std::alloc::AllocError;
use std::collections::VecDeque;
use std::sync::Wait;
use std::thread::Threads;

// If its thread isn't started, a worker ends as `Forbidden` if the permit refused that, otherwise
// as `Unstarted`: the stop flag is set by its share, and its senders are closed.
impl<'x, A: ThreadAnalysis, M: ThreadMail<A::Growth>, L: ThreadLedger, G: Gate + Sync> Job<
    Site<'x, A, L, G>,
> for Worker<A, M, L> {
    ghost use Rattle.std.specs.Prelude.{vec_capacity};
    ghost use Rattle.worker.specs.Finishing.{IsGiven, IsEnded, EndsAs};

    type Done = Finished<A, M, L>;

    ghost is_ready = { λ site w. IsGiven L.Ledger M.Mail (A.rules.parts site.analysis.now)
        site.book.now w.me w.share w.outbox.senders.items w.receivers.items w.room.items
        (vec_capacity w.room) };

    ghost comes = { λ site w start done. IsEnded L.Ledger A.rules A.yields M.Mail
        site.analysis.now site.book.now w.me w.outbox.senders.items w.receivers.items
        done.log.items done.yielded done.left done.closed.items done.receivers.items done.ending
        × EndsAs start done.ending };

    fn run<R: Wait>(self, rt: &R, site: &Site<'x, A, L, G>, start: Start) -> Finished<A, M, L> {
        match start {
            Start::Made => work::<A, M, L, G, R>(rt, site, self),
            Start::Failed => call_off::<A, M, L>(site.alloc, site.book, self, Ending::Unstarted),
            Start::Refused => call_off::<A, M, L>(site.alloc, site.book, self, Ending::Forbidden),
        }
    }
}

/// Starts a thread for each worker whose start the permit allows, and joins them all: returns what
/// each worker gives back, in their order.
///
/// The permit is asked for each worker by its index, right before its start, also after a start
/// that failed. A worker that isn't started ends before the next one is looked at. The workers
/// after it are started all the same, and leave once they see the stop flag.
///
/// # Errors
/// - `AllocError`: out of memory. No worker was started; their senders are closed.
pub fn run_all<
    A: ThreadAnalysis,
    M: ThreadMail<A::Growth>,
    L: ThreadLedger,
    G: Gate + Sync,
    P: Permit,
    R: Threads + Wait + Sync,
>(
    rt: &R,
    site: &Site<'_, A, L, G>,
    permit: &P,
    workers: VecDeque<Worker<A, M, L>>,
) -> Result<Vec<Finished<A, M, L>>, AllocError>
    requires given { AllOf (λ w. IsGiven L.Ledger M.Mail (A.rules.parts site.now.analysis.now)
        site.now.book.now w.me w.share w.outbox.senders.items w.receivers.items w.room.items
        (vec_capacity w.room)) workers.items }
    ensures ended { IfOk result (λ all. Each workers.items all.items (λ k w done.
        IsEnded L.Ledger A.rules A.yields M.Mail site.now.analysis.now site.now.book.now w.me
        w.outbox.senders.items w.receivers.items done.log.items done.yielded done.left
        done.closed.items done.receivers.items done.ending)) }
    ensures answered { IfOk result (λ all. Each workers.items all.items (λ k w done.
        IsAnswered (P.permits permit.now k) done.ending)) }
{
    run_jobs(rt, site.alloc, site, permit, workers)
}
