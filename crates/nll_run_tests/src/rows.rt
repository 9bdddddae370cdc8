//! Runs of worked problems have values and counts that were found by hand.
use super::deals::Deal;
use super::run_text::{compare, filled, told};
use nll_ledger::{LockLedger, ThreadLedger, WordLedger};
use nll_mail::{QueueMail, RingMail};
use nll_run::NoGate;
use nll_worked::{
    BY_TURNS, EVERYWHERE, FILLED_HOLE, MANY, MANY_BOTH_WAYS, ONE_POINT, REACHED, Written,
};
use std::alloc::AllocGlobal;
use std::process::Abort;
use std::sync::Wait;
use std::thread::Threads;

// A problem, how its regions are assigned, and the outcome of its run: the value of each region (a
// universal region has all points, and its end after them), how many logs there are and how long
// each is, how many posts there are and what each received. An owner receives the growths of a
// region if a constraint asks a region of its own to hold what this one holds.
type Row = (Written, Deal, &'static str);

const ROWS: &[Row] = &[
    (
        REACHED,
        Deal::Round(1),
        "0: 0 1 2 3|1: 1 2|2: 1 2|1: 0 8|0:",
    ),
    (
        REACHED,
        Deal::Blocks(1),
        "0: 0 1 2 3|1: 1 2|2: 1 2|1: 0 8|0:",
    ),
    (
        REACHED,
        Deal::Round(2),
        "0: 0 1 2 3|1: 1 2|2: 1 2|2: 0 6 1 2|2: 1-0 2",
    ),
    (
        REACHED,
        Deal::Blocks(2),
        "0: 0 1 2 3|1: 1 2|2: 1 2|2: 0 6 1 2|2: 0-1 2",
    ),
    (
        REACHED,
        Deal::Round(16),
        "0: 0 1 2 3|1: 1 2|2: 1 2|16: 0 4 1 2 2 2|240: 1-2 2",
    ),
    (
        REACHED,
        Deal::Blocks(16),
        "0: 0 1 2 3|1: 1 2|2: 1 2|16: 0 4 1 2 2 2|240: 1-2 2",
    ),
    (
        REACHED,
        Deal::Round(64),
        "0: 0 1 2 3|1: 1 2|2: 1 2|64: 0 4 1 2 2 2|4032: 1-2 2",
    ),
    (
        REACHED,
        Deal::Blocks(64),
        "0: 0 1 2 3|1: 1 2|2: 1 2|64: 0 4 1 2 2 2|4032: 1-2 2",
    ),
    (
        EVERYWHERE,
        Deal::Round(1),
        "0: 0 1 2 3 4 5|1: 0 1 3 4|2: 0 1 3 4|1: 0 14|0:",
    ),
    (
        EVERYWHERE,
        Deal::Round(2),
        "0: 0 1 2 3 4 5|1: 0 1 3 4|2: 0 1 3 4|2: 0 10 1 4|2: 1-0 4",
    ),
    (
        EVERYWHERE,
        Deal::Blocks(2),
        "0: 0 1 2 3 4 5|1: 0 1 3 4|2: 0 1 3 4|2: 0 10 1 4|2: 0-1 4",
    ),
    (
        EVERYWHERE,
        Deal::Round(16),
        "0: 0 1 2 3 4 5|1: 0 1 3 4|2: 0 1 3 4|16: 0 6 1 4 2 4|240: 1-2 4",
    ),
    (
        BY_TURNS,
        Deal::Round(2),
        "0: 0 1 2|1: 0 1|2: 0 1|2: 0 5 1 2|2: 0-1 2 1-0 2",
    ),
    (
        BY_TURNS,
        Deal::Blocks(2),
        "0: 0 1 2|1: 0 1|2: 0 1|2: 0 5 1 2|2: 0-1 2 1-0 2",
    ),
    (
        BY_TURNS,
        Deal::List(2, &[0, 0, 1]),
        "0: 0 1 2|1: 0 1|2: 0 1|2: 0 5 1 2|2: 0-1 2 1-0 2",
    ),
    (
        FILLED_HOLE,
        Deal::Round(1),
        "0: 0 1 2 3|1: 0 1 2|2: 0 1 2|3: 1|1: 0 11|0:",
    ),
    (
        FILLED_HOLE,
        Deal::Blocks(1),
        "0: 0 1 2 3|1: 0 1 2|2: 0 1 2|3: 1|1: 0 11|0:",
    ),
    (
        FILLED_HOLE,
        Deal::Round(2),
        "0: 0 1 2 3|1: 0 1 2|2: 0 1 2|3: 1|2: 0 7 1 4|2: 1-0 3",
    ),
    (
        FILLED_HOLE,
        Deal::Blocks(2),
        "0: 0 1 2 3|1: 0 1 2|2: 0 1 2|3: 1|2: 0 7 1 4|2: 0-1 3 1-0 1",
    ),
    (
        FILLED_HOLE,
        Deal::Round(3),
        "0: 0 1 2 3|1: 0 1 2|2: 0 1 2|3: 1|3: 0 5 1 3 2 3|6: 0-1 1 1-2 3",
    ),
    (
        FILLED_HOLE,
        Deal::Blocks(3),
        "0: 0 1 2 3|1: 0 1 2|2: 0 1 2|3: 1|3: 0 7 1 4|6: 0-1 3 1-0 1",
    ),
    (ONE_POINT, Deal::Round(64), "0: 0 1|64: 0 2|4032:"),
];

// Runs through mailboxes that fill up: the logs and the posts.
const FILLING: &[(Written, &str)] = &[
    (MANY, "2: 0 601 1 300|2: 1-0 300"),
    (MANY_BOTH_WAYS, "2: 0 601 1 300|2: 0-1 300 1-0 300"),
];

// Compares the outcome of a run with either kind of mailbox.
fn compare_mailboxes<L: ThreadLedger, R: AllocGlobal + Abort + Threads + Wait + Sync>(
    rt: &R,
    written: Written,
    deal: Deal,
    ledger: &L,
    want: &str,
) {
    let queues = QueueMail::new(rt);
    let rings = RingMail::new();
    let by_queues = told(rt, rt.alloc(), written, deal, &queues, ledger, &NoGate);
    compare(rt, by_queues, want);
    let by_rings = told(rt, rt.alloc(), written, deal, &rings, ledger, &NoGate);
    compare(rt, by_rings, want);
}

// Like `compare_mailboxes`, with either kind of ledger.
fn compare_all<R: AllocGlobal + Abort + Threads + Wait + Sync>(
    rt: &R,
    written: Written,
    deal: Deal,
    want: &str,
) {
    compare_mailboxes(rt, written, deal, &WordLedger, want);
    compare_mailboxes(rt, written, deal, &LockLedger::new(rt), want);
}

// The outcome of the runs, with each pair of mailbox and ledger.
#[test]
fn runs_come_to_the_least_values(rt: HostRuntime) {
    for (written, deal, want) in ROWS {
        compare_all(&rt, *written, *deal, want);
    }
}

// More growths go from owner to owner than a ring has places.
#[test]
fn full_mailboxes_hold_nothing_up(rt: HostRuntime) {
    for (written, rest) in FILLING {
        let want = filled(rt.alloc(), rest).expect(&rt, "memory");
        compare_all(&rt, *written, Deal::Round(2), &want);
    }
}
