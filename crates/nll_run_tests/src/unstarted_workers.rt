//! Runs of which some workers aren't started.
ghost use Rattle.std.specs.Prelude.{◌≡◌, length};

use super::deals::{Deal, cut_of};
use super::failure::Failure;
use super::refusals::Refusals;
use super::run_text::{compare, filled, told_over};
use super::watches::Watched;
use nll_core::Problem;
use nll_cut::Cut;
use nll_ledger::{LockLedger, ThreadLedger, WordLedger};
use nll_mail::{Growth, QueueMail, RingMail, ThreadMail};
use nll_run::{NoGate, run_with};
use nll_worked::{BY_TURNS, MANY, REACHED, Written, worked_problem};
use std::alloc::{AllocGlobal, Global};
use std::process::Abort;
use std::sync::Wait;
use std::thread::Threads;

// Which owners are refused, from the first to the last, and how many posts the refusals wait for.
type Refused = (usize, usize, u64);

// A problem, how its regions are assigned, which owners are refused, and the outcome: the answer,
// how many owners the permit was asked for, how many senders were closed, and how often it was
// asked out of turn; then the outcome of a run of the same things that nobody refuses.
type Row = (Written, Deal, Refused, &'static str);

const ROWS: &[Row] = &[
    (
        BY_TURNS,
        Deal::Round(2),
        (0, 0, 0),
        "Thread 2 2 0|0: 0 1 2|1: 0 1|2: 0 1|2: 0 5 1 2|2: 0-1 2 1-0 2",
    ),
    (
        BY_TURNS,
        Deal::Round(2),
        (1, 1, 0),
        "Thread 2 2 0|0: 0 1 2|1: 0 1|2: 0 1|2: 0 5 1 2|2: 0-1 2 1-0 2",
    ),
    (
        BY_TURNS,
        Deal::Round(2),
        (0, 1, 0),
        "Thread 2 2 0|0: 0 1 2|1: 0 1|2: 0 1|2: 0 5 1 2|2: 0-1 2 1-0 2",
    ),
    (
        REACHED,
        Deal::Round(16),
        (15, 15, 0),
        "Thread 16 240 0|0: 0 1 2 3|1: 1 2|2: 1 2|16: 0 4 1 2 2 2|240: 1-2 2",
    ),
    (
        REACHED,
        Deal::Round(16),
        (0, 0, 0),
        "Thread 16 240 0|0: 0 1 2 3|1: 1 2|2: 1 2|16: 0 4 1 2 2 2|240: 1-2 2",
    ),
    (
        REACHED,
        Deal::Round(16),
        (0, 15, 0),
        "Thread 16 240 0|0: 0 1 2 3|1: 1 2|2: 1 2|16: 0 4 1 2 2 2|240: 1-2 2",
    ),
];

// The outcome of a run of the owners of a cut of which some aren't started, and that of the next
// one, over the same problem, cut, mailboxes, ledger and gate.
fn told_twice<M: ThreadMail<Growth>, L: ThreadLedger, R: Threads + Wait + Sync>(
    rt: &R,
    alloc: Global,
    problem: &Problem,
    cut: &Cut,
    mail: &M,
    ledger: &L,
    refused: Refused,
) -> Result<String, Failure>
    requires { length cut.now.list ≡ problem.now.regions }
{
    let (first, last, awaited) = refused;
    let refusals = Refusals::new(first, last, awaited);
    let watched = Watched {
        inner: mail,
        watch: &refusals,
    };
    let mut out = String::new(alloc);
    let error = match run_with(
        rt, alloc, problem, cut, &watched, ledger, &NoGate, &refusals,
    ) {
        Ok(outcome) => {
            drop(outcome);
            None
        }
        Err(error) => Some(error),
    };
    let written = refusals.write(&mut out, error);
    let again = told_over(rt, alloc, problem, cut, &watched, ledger, &NoGate);
    drop(refusals);
    written?;
    out.push_str(&again?)?;
    Ok(out)
}

// Like `told_twice`, for a written problem.
fn told_of<M: ThreadMail<Growth>, L: ThreadLedger, R: Threads + Wait + Sync>(
    rt: &R,
    alloc: Global,
    written: Written,
    deal: Deal,
    mail: &M,
    ledger: &L,
    refused: Refused,
) -> Result<String, Failure> {
    let problem = worked_problem(alloc, written)?;
    let told = match cut_of(alloc, deal, problem.regions()) {
        Ok(cut) => told_twice(rt, alloc, &problem, &cut, mail, ledger, refused),
        Err(error) => Err(Failure::from(error)),
    };
    drop(problem);
    told
}

// Compares the outcomes with each pair of mailbox and ledger.
fn compare_all<R: AllocGlobal + Abort + Threads + Wait + Sync>(
    rt: &R,
    written: Written,
    deal: Deal,
    refused: Refused,
    want: &str,
) {
    let queues = QueueMail::new(rt);
    let rings = RingMail::new();
    let words = WordLedger;
    let lock = LockLedger::new(rt);
    let told = told_of(rt, rt.alloc(), written, deal, &queues, &words, refused);
    compare(rt, told, want);
    let told = told_of(rt, rt.alloc(), written, deal, &queues, &lock, refused);
    compare(rt, told, want);
    let told = told_of(rt, rt.alloc(), written, deal, &rings, &words, refused);
    compare(rt, told, want);
    let told = told_of(rt, rt.alloc(), written, deal, &rings, &lock, refused);
    compare(rt, told, want);
}

// A run of which some workers aren't started reports that, asks for each owner once and in order,
// and closes all senders; and all that it borrowed serves for another run.
#[test]
fn refused_starts_are_told(rt: HostRuntime) {
    for (written, deal, refused, want) in ROWS {
        compare_all(&rt, *written, *deal, *refused, want);
    }
}

// Owner 1 isn't started once owner 0 has filled its ring, which nobody empties.
#[test]
fn full_mailboxes_of_the_unstarted_hold_nothing_up(rt: HostRuntime) {
    let want = filled(rt.alloc(), "2: 0 601 1 300|2: 0-1 300").expect(&rt, "memory");
    let mut told = String::new(rt.alloc());
    let begun = told.push_str("Thread 2 2 0|");
    let written = told.push_str(&want);
    begun.and(written).expect(&rt, "memory");
    compare_all(&rt, MANY, Deal::Blocks(2), (1, 1, 256), &told);
}
