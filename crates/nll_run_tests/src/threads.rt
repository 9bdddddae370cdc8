//! Runs whose owners are held up or watched.
ghost use Rattle.std.specs.Prelude.{◌≡◌, length};

use super::deals::Deal;
use super::failure::Failure;
use super::meeting::Meeting;
use super::notes::Notes;
use super::run_text::{compare, told, told_over};
use super::watches::Watched;
use nll_core::Problem;
use nll_cut::Cut;
use nll_ledger::{LockLedger, ThreadLedger, WordLedger};
use nll_mail::{Growth, QueueMail, RingMail, ThreadMail};
use nll_run::NoGate;
use nll_worked::{BY_TURNS, MANY_BOTH_WAYS, REACHED, Written, worked_problem};
use std::alloc::AllocGlobal;
use std::process::Abort;
use std::sync::Wait;
use std::thread::Threads;

// The outcome of a run of the two owners of `BY_TURNS`.
const WANT: &str = "0: 0 1 2|1: 0 1|2: 0 1|2: 0 5 1 2|2: 0-1 2 1-0 2";

// The two owners work side by side: each begins its turns 1 and 2 only once the other does.
fn meet<M: ThreadMail<Growth>, L: ThreadLedger, R: AllocGlobal + Abort + Threads + Wait + Sync>(
    rt: &R,
    mail: &M,
    ledger: &L,
) {
    let meeting = Meeting::new(2);
    let deal = Deal::Round(2);
    let told = told(rt, rt.alloc(), BY_TURNS, deal, mail, ledger, &meeting);
    compare(rt, told, WANT);
    assert!(rt; meeting.met(), "the owners don't meet");
}

#[test]
fn two_owners_meet(rt: HostRuntime) {
    let (queues, rings) = (QueueMail::new(rt), RingMail::new());
    let lock = LockLedger::new(rt);
    meet(&rt, &queues, &WordLedger);
    meet(&rt, &queues, &lock);
    meet(&rt, &rings, &WordLedger);
    meet(&rt, &rings, &lock);
}

// Each of the two makes its first posts, this many of them, only once the other does.
const POSTS: &[(Written, u64)] = &[(BY_TURNS, 1), (MANY_BOTH_WAYS, 256)];

// The owners of a cut post side by side, this many times.
fn post_over<
    M: ThreadMail<Growth>,
    L: ThreadLedger,
    R: AllocGlobal + Abort + Threads + Wait + Sync,
>(rt: &R, problem: &Problem, cut: &Cut, mail: &M, ledger: &L, times: u64)
    requires { length cut.now.list ≡ problem.now.regions }
{
    let meeting = Meeting::new(times);
    let mail = Watched {
        inner: mail,
        watch: &meeting,
    };
    let told = told_over(rt, rt.alloc(), problem, cut, &mail, ledger, &NoGate);
    let met = told.is_ok() && meeting.met();
    assert!(rt; met, "the owners don't post side by side");
}

// Like `post_over`, for the two owners of each problem.
fn post<M: ThreadMail<Growth>, L: ThreadLedger, R: AllocGlobal + Abort + Threads + Wait + Sync>(
    rt: &R,
    mail: &M,
    ledger: &L,
) {
    for (written, times) in POSTS {
        let problem = worked_problem(rt.alloc(), *written).expect(rt, "a problem");
        let cut = Cut::round(rt.alloc(), problem.regions(), 2).expect(rt, "two owners");
        post_over(rt, &problem, &cut, mail, ledger, *times);
        drop(cut);
        drop(problem);
    }
}

#[test]
fn two_owners_post(rt: HostRuntime) {
    let (queues, rings) = (QueueMail::new(rt), RingMail::new());
    let lock = LockLedger::new(rt);
    post(&rt, &queues, &WordLedger);
    post(&rt, &queues, &lock);
    post(&rt, &rings, &WordLedger);
    post(&rt, &rings, &lock);
}

// Problems whose regions are assigned round-robin to two owners, the outcomes of their runs, and
// what each owner does: it owes and posts the growths that the other reads, has a turn for its load
// and one for each growth that it receives, clears 1 in each, and does nothing wrong.
const STEPS: &[(Written, &str, &str)] = &[
    (BY_TURNS, WANT, "2 2 3 0|2 2 3 0|"),
    (
        REACHED,
        "0: 0 1 2 3|1: 1 2|2: 1 2|2: 0 6 1 2|2: 1-0 2",
        "0 0 3 0|2 2 1 0|",
    ),
];

// The turns of an owner have the numbers 1, 2 and so on. In each of them it owes once, before it
// posts and clears, clears 1 once, and posts all that it owed for before the next turn begins.
fn owe_over<M: ThreadMail<Growth>, L: ThreadLedger, R: AllocGlobal + Abort + Threads + Wait + Sync>(
    rt: &R,
    problem: &Problem,
    cut: &Cut,
    mail: &M,
    ledger: &L,
    want: &str,
    steps: &str,
)
    requires { length cut.now.list ≡ problem.now.regions }
{
    let notes = Notes::new(1);
    let mail = Watched {
        inner: mail,
        watch: &notes,
    };
    let ledger = Watched {
        inner: ledger,
        watch: &notes,
    };
    let told = told_over(rt, rt.alloc(), problem, cut, &mail, &ledger, &notes);
    compare(rt, told, want);
    compare(rt, notes.written(rt.alloc()).map_err(Failure::from), steps);
}

// Like `owe_over`, for the two owners of each problem.
fn owe<M: ThreadMail<Growth>, L: ThreadLedger, R: AllocGlobal + Abort + Threads + Wait + Sync>(
    rt: &R,
    mail: &M,
    ledger: &L,
) {
    for (written, want, steps) in STEPS {
        let problem = worked_problem(rt.alloc(), *written).expect(rt, "a problem");
        let cut = Cut::round(rt.alloc(), problem.regions(), 2).expect(rt, "two owners");
        owe_over(rt, &problem, &cut, mail, ledger, want, steps);
        drop(cut);
        drop(problem);
    }
}

#[test]
fn owe_first(rt: HostRuntime) {
    let (queues, rings) = (QueueMail::new(rt), RingMail::new());
    let lock = LockLedger::new(rt);
    owe(&rt, &queues, &WordLedger);
    owe(&rt, &queues, &lock);
    owe(&rt, &rings, &WordLedger);
    owe(&rt, &rings, &lock);
}
