//! One run, from the problem to its outcome.

ghost use Rattle.std.specs.Prelude.{◌≡◌, ◌<◌, ℕ, Bool, true, length, map, Err, IfOk, Ok};
ghost use Rattle.nll_owner.specs.Logs.{IsCutOf};
ghost use Rattle.nll_owner.specs.Regions.{YieldsValues, rules, system_of};
ghost use Rattle.nll_problem.specs.Problem.{IsSound};
ghost use Rattle.nll_run.specs.Outcome.{IsRunOutcome};
ghost use Rattle.run.specs.Outcome as generic;
ghost use Rattle.run.specs.declared.error.RunError.TheVariants.{Thread};

use crate::outcome::Outcome;
use crate::values::values_of;
use fixpoint::Rules;
use nll_cut::Cut;
use nll_ledger::ThreadLedger;
use nll_mail::{Growth, ThreadMail};
use nll_owner::{Regions, Tables};
use nll_problem::Problem;
use run::{AlwaysStart, Gate, Outcome as RunOfParts, Permit, RunError, run_with as run_parts};
use std::alloc::Global;
use std::sync::Wait;
use std::thread::Threads;

/// Runs the owners of a cut, each in a thread of its own, until nothing is left to do anywhere.
///
/// Each owner receives from each other exactly the growths of the regions that it reads, once each
/// and in the order in which they grew, and none is left behind; the values are the least.
///
/// # Errors
/// All threads are joined and all senders closed, and what was borrowed is as it was.
/// - `Thread`: a thread couldn't be started.
/// - `Memory`.
///
/// # Cost
/// The work of the owners, and for each growth that is received some two holds of the ledger, a
/// post and a take (not proved). There is a mailbox for each ordered pair of different owners.
pub fn run<M: ThreadMail<Growth>, L: ThreadLedger, G: Gate + Sync, R: Threads + Wait + Sync>(
    rt: &R,
    alloc: Global,
    problem: &Problem,
    cut: &Cut,
    mail: &M,
    ledger: &L,
    gate: &G,
) -> Result<Outcome<M::Post>, RunError>
    requires { length cut.now.list ≡ problem.now.regions }
    ensures ok { IfOk result (λ o. IsRunOutcome M.Mail problem.now cut.now o.values
        (map (λ list. list.items) o.grown.items) o.posts.items) }
{
    let permit = AlwaysStart;
    run_with::<M, L, G, AlwaysStart, R>(rt, alloc, problem, cut, mail, ledger, gate, &permit)
}

/// Like `run`, but a permit is asked before each start. It is asked once for each owner, in the
/// order of their numbers; a start that it refuses counts as one that failed.
///
/// # Errors
/// Those of `run`.
/// - `Thread`: the permit refused a start, or a thread couldn't be started. The permit was asked
///   before that.
/// - `Memory`, where no start failed.
pub fn run_with<
    M: ThreadMail<Growth>,
    L: ThreadLedger,
    G: Gate + Sync,
    P: Permit,
    R: Threads + Wait + Sync,
>(
    rt: &R,
    alloc: Global,
    problem: &Problem,
    cut: &Cut,
    mail: &M,
    ledger: &L,
    gate: &G,
    permit: &P,
) -> Result<Outcome<M::Post>, RunError>
    requires { length cut.now.list ≡ problem.now.regions }
    ensures ok { IfOk result (λ o. IsRunOutcome M.Mail problem.now cut.now o.values
        (map (λ list. list.items) o.grown.items) o.posts.items) }
    ensures permitted { IfOk result (λ _. (owner : ℕ) → owner < cut.now.owners
        → P.permits permit.now owner true) }
    ensures thread { result ≡ Err Thread → (owner : ℕ) × (answer : Bool)
        × (owner < cut.now.owners) × P.permits permit.now owner answer }
{
    let tables = Tables::of(alloc, problem, cut)?;
    let regions = Regions::new(problem, cut, &tables);
    // Clause call: the problem and the cut are sound.
    let _ = regions.parts();
    let ran = run_parts::<Regions<'_>, M, L, G, P, R>(
        rt, alloc, &regions, mail, ledger, gate, permit,
    );
    let outcome = conclude::<M>(alloc, problem, cut, ran);
    drop(tables);
    outcome
}

// What comes of a run, by what came of its parts: the values are taken out of what the owners gave
// up.
fn conclude<M: ThreadMail<Growth>>(
    alloc: Global,
    problem: &Problem,
    cut: &Cut,
    ran: Result<RunOfParts<Regions<'_>, M::Post>, RunError>,
) -> Result<Outcome<M::Post>, RunError>
    requires problem { IsSound problem.now }
    requires cut { IsCutOf problem.now cut.now }
    requires ran { IfOk ran (λ o. generic.IsOutcome rules YieldsValues M.Mail
        (system_of problem.now cut.now) (map (λ list. list.items) o.grown.items) o.yields.items
        o.posts.items) }
    ensures ok { IfOk result (λ o. IsRunOutcome M.Mail problem.now cut.now o.values
        (map (λ list. list.items) o.grown.items) o.posts.items) }
    ensures ran { IfOk result (λ _. (o : _) × (ran.entry ≡ Ok o)) }
    ensures thread { result ≡ Err Thread → ran.entry ≡ Err Thread }
{
    let RunOfParts {
        yields,
        grown,
        posts,
    } = ran?;
    let mut holdings = yields;
    let values = values_of(alloc, problem, cut, &mut holdings);
    drop(holdings);
    match values {
        Ok(values) => Ok(Outcome {
            values,
            grown,
            posts,
        }),
        Err(error) => Err(RunError::from(error)),
    }
}
