//! What the workers gave back, taken apart.

ghost use Rattle.std.specs.Prelude.{◌≡◌, map, IfOk};
ghost use Rattle.run.specs.Refusing.{IsReason};

use crate::error::RunError;
use fixpoint::{Analysis, Ending};
use ledger::Ledger;
use mail::Mail;
use nll_sets::Memory;
use std::alloc::Global;
use std::collections::VecDeque;
use worker::Finished;

/// What the workers gave back, by kind.
#[derive(Drop)]
pub struct Parts<A: Analysis, M: Mail<A::Growth>, L: Ledger> {
    pub lefts: Vec<L::Left>,
    pub grown: Vec<Vec<A::Growth>>,
    pub yields: Vec<A::Yield>,
    pub rows: Vec<VecDeque<Option<M::Closed>>>,
    pub columns: Vec<VecDeque<Option<M::R>>>,
}

/// Why the run is refused, if it is: because a worker wasn't started, or else because one was out
/// of memory.
pub fn reason_of<A: Analysis, M: Mail<A::Growth>, L: Ledger>(
    finished: &[Finished<A, M, L>],
) -> Option<RunError>
    ensures { IsReason (map (λ d. d.ending) finished.now) result }
{
    let mut reason = None;
    for done in finished {
        match done.ending {
            Ending::Forbidden => return Some(RunError::Thread),
            Ending::Unstarted => return Some(RunError::Thread),
            Ending::Memory => reason = Some(RunError::Memory),
            Ending::NoOwner => reason = Some(RunError::Memory),
            Ending::Stray => {}
            Ending::Stopped => {}
            Ending::Quiet => {}
        }
    }
    reason
}

/// Takes apart what the workers gave back.
///
/// # Errors
/// - `Memory`.
pub fn take_apart<A: Analysis, M: Mail<A::Growth>, L: Ledger>(
    alloc: Global,
    finished: VecDeque<Finished<A, M, L>>,
) -> Result<Parts<A, M, L>, Memory>
    ensures lefts { IfOk result (λ p. p.lefts.items ≡ map (λ d. d.left) finished.items) }
    ensures grown { IfOk result
        (λ p. map (λ l. l.items) p.grown.items ≡ map (λ d. d.log.items) finished.items) }
    ensures yields { IfOk result (λ p. p.yields.items ≡ map (λ d. d.yielded) finished.items) }
    ensures rows { IfOk result
        (λ p. map (λ r. r.items) p.rows.items ≡ map (λ d. d.closed.items) finished.items) }
    ensures columns { IfOk result
        (λ p. map (λ c. c.items) p.columns.items ≡ map (λ d. d.receivers.items) finished.items) }
{
    let mut finished = finished;
    let mut lefts = Vec::new(alloc);
    let mut grown = Vec::new(alloc);
    let mut yields = Vec::new(alloc);
    let mut rows = Vec::new(alloc);
    let mut columns = Vec::new(alloc);
    while let Some(done) = finished.pop_front() {
        let Finished {
            log,
            yielded,
            left,
            closed,
            receivers,
            ending: _,
        } = done;
        lefts.push(left)?;
        grown.push(log)?;
        yields.push(yielded)?;
        rows.push(VecDeque::from(closed))?;
        columns.push(VecDeque::from(receivers))?;
    }
    Ok(Parts {
        lefts,
        grown,
        yields,
        rows,
        columns,
    })
}
