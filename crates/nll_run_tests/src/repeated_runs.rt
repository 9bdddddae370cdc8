//! Runs that may be refused memory, and are then run again. If one growth of memory is refused to a
//! test, the test still passes.
ghost use Rattle.std.specs.Prelude.{◌≡◌, length, IfOk};

use super::deals::{Deal, cut_of};
use super::failure::Failure;
use super::run_text::{compare, filled, told_over};
use nll_answer::meaning;
use nll_core::Problem;
use nll_cut::Cut;
use nll_ledger::{LockLedger, ThreadLedger, WordLedger};
use nll_mail::{Growth, QueueMail, RingMail, ThreadMail};
use nll_run::{NoGate, RunError};
use nll_worked::{
    BY_TURNS, FILLED_HOLE, MANY, REACHED, TWO_BORROWS, Written, text_of, worked_problem,
};
use std::alloc::{AllocGlobal, Global};
use std::process::Abort;
use std::sync::Wait;
use std::thread::Threads;

// A problem, how its regions are assigned, and the outcome of its run.
const ROWS: &[(Written, Deal, &str)] = &[
    (
        REACHED,
        Deal::Round(1),
        "0: 0 1 2 3|1: 1 2|2: 1 2|1: 0 8|0:",
    ),
    (
        REACHED,
        Deal::Round(2),
        "0: 0 1 2 3|1: 1 2|2: 1 2|2: 0 6 1 2|2: 1-0 2",
    ),
    (BY_TURNS, Deal::Round(1), "0: 0 1 2|1: 0 1|2: 0 1|1: 0 7|0:"),
    (
        BY_TURNS,
        Deal::Round(2),
        "0: 0 1 2|1: 0 1|2: 0 1|2: 0 5 1 2|2: 0-1 2 1-0 2",
    ),
    (
        FILLED_HOLE,
        Deal::Round(1),
        "0: 0 1 2 3|1: 0 1 2|2: 0 1 2|3: 1|1: 0 11|0:",
    ),
    (
        FILLED_HOLE,
        Deal::Round(2),
        "0: 0 1 2 3|1: 0 1 2|2: 0 1 2|3: 1|2: 0 7 1 4|2: 1-0 3",
    ),
];

// The outcome of the runs of `TWO_BORROWS`. Its regions 'p, 'foo and 'bar are 1, 2 and 3; 'foo and
// 'bar are asked to hold what 'p holds, from the points 1 and 4 on.
const BORROWS: &[(Deal, &str)] = &[
    (
        Deal::Round(1),
        "0: 0 1 2 3 4 5 6 7|1: 1 2 4 5|2: 1 2 5|3: 4 5|1: 0 17|0:",
    ),
    (
        Deal::Round(2),
        "0: 0 1 2 3 4 5 6 7|1: 1 2 4 5|2: 1 2 5|3: 4 5|2: 0 11 1 6|2: 1-0 4",
    ),
];

// Whether the failure says that memory or a thread was refused.
fn is_refusal(failure: Failure) -> bool {
    match failure {
        Failure::Memory => true,
        Failure::Run(RunError::Memory) => true,
        Failure::Run(RunError::Thread) => true,
        Failure::Problem(_) => false,
        Failure::Cut(_) => false,
    }
}

// The problem that is written.
fn problem_again(rt: &impl Abort, alloc: Global, written: Written) -> Problem {
    match worked_problem(alloc, written) {
        Ok(problem) => problem,
        Err(_) => worked_problem(alloc, written).expect(rt, "memory for the problem"),
    }
}

// The cut of this many regions.
fn cut_again(rt: &impl Abort, alloc: Global, deal: Deal, regions: u32) -> Cut
    ensures { length result.list ≡ regions }
{
    match cut_of(alloc, deal, regions) {
        Ok(cut) => cut,
        Err(_) => cut_of(alloc, deal, regions).expect(rt, "memory for the cut"),
    }
}

// Compares the outcome of a run, or if it is refused memory or a thread, that of the next one over
// the same problem, cut, mailboxes, ledger and gate.
fn compare_again<M: ThreadMail<Growth>, L: ThreadLedger, R: Abort + Threads + Wait + Sync>(
    rt: &R,
    alloc: Global,
    problem: &Problem,
    cut: &Cut,
    mail: &M,
    ledger: &L,
    want: &str,
)
    requires { length cut.now.list ≡ problem.now.regions }
{
    let told = told_over(rt, alloc, problem, cut, mail, ledger, &NoGate);
    match told {
        Ok(_) => compare(rt, told, want),
        Err(failure) => {
            assert!(rt; is_refusal(failure), "{failure:?} for {want}");
            let again = told_over(rt, alloc, problem, cut, mail, ledger, &NoGate);
            compare(rt, again, want);
        }
    }
}

// Like `compare_again`, for a problem whose regions are assigned so.
fn compare_dealt<M: ThreadMail<Growth>, L: ThreadLedger, R: Abort + Threads + Wait + Sync>(
    rt: &R,
    alloc: Global,
    problem: &Problem,
    deal: Deal,
    mail: &M,
    ledger: &L,
    want: &str,
) {
    let cut = cut_again(rt, alloc, deal, problem.regions());
    compare_again(rt, alloc, problem, &cut, mail, ledger, want);
    drop(cut);
}

// The rows, over these mailboxes and this ledger.
fn compare_rows<
    M: ThreadMail<Growth>,
    L: ThreadLedger,
    R: AllocGlobal + Abort + Threads + Wait + Sync,
>(rt: &R, mail: &M, ledger: &L) {
    for (written, deal, want) in ROWS {
        let problem = problem_again(rt, rt.alloc(), *written);
        compare_dealt(rt, rt.alloc(), &problem, *deal, mail, ledger, want);
        drop(problem);
    }
}

// The problem of a MIR text whose lines end with `|`.
fn problem_of_text(rt: &impl Abort, alloc: Global, lines: &str) -> Problem {
    let text = match text_of(alloc, lines) {
        Ok(text) => text,
        Err(_) => text_of(alloc, lines).expect(rt, "memory for the text"),
    };
    let facts = match meaning(alloc, &text) {
        Ok(facts) => facts,
        Err(_) => meaning(alloc, &text).expect(rt, "memory for the body"),
    };
    facts.problem
}

// A body's problem, over these mailboxes and this ledger.
fn compare_borrows<
    M: ThreadMail<Growth>,
    L: ThreadLedger,
    R: AllocGlobal + Abort + Threads + Wait + Sync,
>(rt: &R, mail: &M, ledger: &L) {
    let problem = problem_of_text(rt, rt.alloc(), TWO_BORROWS);
    for (deal, want) in BORROWS {
        compare_dealt(rt, rt.alloc(), &problem, *deal, mail, ledger, want);
    }
    drop(problem);
}

// The outcome of a run of `MANY`, if owner 1 has the region that fills the mailbox.
fn filled_again(rt: &impl Abort, alloc: Global, rest: &str) -> String {
    match filled(alloc, rest) {
        Ok(text) => text,
        Err(_) => filled(alloc, rest).expect(rt, "memory for what is wanted"),
    }
}

// Mailboxes that fill up, over these mailboxes and this ledger.
fn compare_many<
    M: ThreadMail<Growth>,
    L: ThreadLedger,
    R: AllocGlobal + Abort + Threads + Wait + Sync,
>(rt: &R, mail: &M, ledger: &L) {
    let problem = problem_again(rt, rt.alloc(), MANY);
    let alone = filled_again(rt, rt.alloc(), "1: 0 901|0:");
    compare_dealt(
        rt,
        rt.alloc(),
        &problem,
        Deal::Round(1),
        mail,
        ledger,
        &alone,
    );
    let both = filled_again(rt, rt.alloc(), "2: 0 601 1 300|2: 1-0 300");
    compare_dealt(
        rt,
        rt.alloc(),
        &problem,
        Deal::Round(2),
        mail,
        ledger,
        &both,
    );
    drop(problem);
}

#[test]
fn queues_and_words(rt: HostRuntime) {
    compare_rows(&rt, &QueueMail::new(rt), &WordLedger);
}

#[test]
fn queues_and_lock(rt: HostRuntime) {
    compare_rows(&rt, &QueueMail::new(rt), &LockLedger::new(rt));
}

#[test]
fn rings_and_words(rt: HostRuntime) {
    compare_rows(&rt, &RingMail::new(), &WordLedger);
}

#[test]
fn rings_and_lock(rt: HostRuntime) {
    compare_rows(&rt, &RingMail::new(), &LockLedger::new(rt));
}

#[test]
fn a_body_over_queues(rt: HostRuntime) {
    compare_borrows(&rt, &QueueMail::new(rt), &WordLedger);
    compare_borrows(&rt, &QueueMail::new(rt), &LockLedger::new(rt));
}

#[test]
fn a_body_over_rings(rt: HostRuntime) {
    compare_borrows(&rt, &RingMail::new(), &WordLedger);
    compare_borrows(&rt, &RingMail::new(), &LockLedger::new(rt));
}

#[test]
fn full_queues(rt: HostRuntime) {
    compare_many(&rt, &QueueMail::new(rt), &WordLedger);
    compare_many(&rt, &QueueMail::new(rt), &LockLedger::new(rt));
}

#[test]
fn full_rings(rt: HostRuntime) {
    compare_many(&rt, &RingMail::new(), &WordLedger);
    compare_many(&rt, &RingMail::new(), &LockLedger::new(rt));
}
