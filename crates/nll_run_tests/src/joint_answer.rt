//! An answer that two owners find side by side.
use super::meeting::Meeting;
use nll_answer::{Command, answer_run, meaning};
use nll_cut::Cut;
use nll_ledger::{LockLedger, ThreadLedger, WordLedger};
use nll_mail::{Growth, QueueMail, RingMail, ThreadMail};
use std::alloc::AllocGlobal;
use std::process::Abort;
use std::sync::Wait;
use std::thread::Threads;

// Two regions that reach each other, as in `BY_TURNS`.
const TEXT: &[u8] = b"nll-facts 1
points 2
region '1
region '2
next 0 1
return 1
base '1 0
base '2 1
constraint '2 '1 0
constraint '1 '2 0
end
";

const REPORT: &[u8] = b"'static: 0 1 end('static)
'1: 0 1
'2: 0 1
";

// The two owners of an answer work side by side: each begins its turns 1 and 2 only once the other
// does.
fn meet<M: ThreadMail<Growth>, L: ThreadLedger, R: AllocGlobal + Abort + Threads + Wait + Sync>(
    rt: &R,
    mail: &M,
    ledger: &L,
) {
    let facts = meaning(rt.alloc(), TEXT).expect(rt, "the text is right");
    let cut = Cut::round(rt.alloc(), facts.problem.regions(), 2).expect(rt, "two owners");
    let meeting = Meeting::new(2);
    let asked = Command::Values;
    let answer = answer_run(rt, rt.alloc(), asked, &facts, &cut, mail, ledger, &meeting);
    drop(cut);
    drop(facts);
    let (report, status) = answer.expect(rt, "the owners answer");
    assert!(rt;
        status == 0 && report.as_slice() == REPORT,
        "another report"
    );
    assert!(rt; meeting.met(), "the owners don't meet");
}

#[test]
fn two_owners_meet_for_an_answer(rt: HostRuntime) {
    let (queues, rings) = (QueueMail::new(rt), RingMail::new());
    let lock = LockLedger::new(rt);
    meet(&rt, &queues, &WordLedger);
    meet(&rt, &queues, &lock);
    meet(&rt, &rings, &WordLedger);
    meet(&rt, &rings, &lock);
}
