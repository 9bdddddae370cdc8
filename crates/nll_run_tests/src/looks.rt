//! Looks of an owner into the mailboxes of two others.
use super::deals::Deal;
use super::run_text::told;
use super::watches::{Step, Watch, Watched};
use nll_ledger::WordLedger;
use nll_mail::QueueMail;
use nll_problem::At::Point;
use nll_run::Gate;
use nll_worked::Written;
use std::sync::atomic::{AtomicU64, Ordering};
use std::thread;

// Owner 2 gets the 8 points of a region of each of the owners 0 and 1, and posts to owner 0 what it
// hears from one of them: from owner 0 in the first problem, from owner 1 in the second.
const HEARD: &[Written] = &[
    Written {
        points: 8,
        variables: 5,
        full: &[1, 2],
        bases: &[],
        constraints: &[(3, 1, Point(0)), (4, 2, Point(0)), (5, 3, Point(0))],
    },
    Written {
        points: 8,
        variables: 5,
        full: &[1, 2],
        bases: &[],
        constraints: &[(3, 1, Point(0)), (4, 2, Point(0)), (5, 4, Point(0))],
    },
];

const DEAL: Deal = Deal::List(3, &[0, 0, 1, 2, 2, 0]);

// A gate and a watch of mailboxes, by which owner 2 begins to work only once each of the others is
// about to make its eighth post, so that both its mailboxes have growths.
#[derive(Drop)]
struct Looks {
    // How many posts the owners 0 and 1 have begun.
    first: AtomicU64,
    second: AtomicU64,
    // In which turn owner 2 is, and in which it posted first: 0 if in none.
    turn: AtomicU64,
    posted_in: AtomicU64,
}

impl Looks {
    fn new() -> Looks {
        Looks {
            first: AtomicU64::new(0),
            second: AtomicU64::new(0),
            turn: AtomicU64::new(0),
            posted_in: AtomicU64::new(0),
        }
    }

    // Notes that owner 2 posts in this turn, unless it has posted before.
    fn note(&self, turn: u64) {
        if self.posted_in.load(Ordering::SeqCst) == 0 {
            self.posted_in.store(turn, Ordering::SeqCst);
        }
    }

    // Waits for the posts of the others. In vain is as if no turn posted in time.
    fn wait(&self) {
        for _ in 0..10_000_000u32 {
            let first = self.first.load(Ordering::SeqCst);
            if first >= 8 && self.second.load(Ordering::SeqCst) >= 8 {
                return;
            }
            thread::yield_now();
        }
        self.note(u64::MAX);
    }
}

impl Gate for Looks {
    fn enter(&self, owner: usize, turn: u64) {
        if owner == 2 {
            if turn == 1 {
                self.wait();
            }
            self.turn.store(turn, Ordering::SeqCst);
        }
    }
}

impl Watch for Looks {
    fn before(&self, owner: u16, step: Step) {
        match (owner, step) {
            (0, Step::Post) => {
                self.first.fetch_add(1, Ordering::SeqCst);
            }
            (1, Step::Post) => {
                self.second.fetch_add(1, Ordering::SeqCst);
            }
            (2, Step::Post) => self.note(self.turn.load(Ordering::SeqCst)),
            _ => {}
        }
    }
}

// Each turn hears one growth, and both mailboxes have some. Of the three looks that follow the
// load, one begins with each owner: so in one of the turns 2 to 4 each of the others is heard.
#[test]
fn each_look_begins_with_another_mailbox(rt: HostRuntime) {
    for written in HEARD {
        let looks = Looks::new();
        let queues = QueueMail::new(rt);
        let mail = Watched {
            inner: &queues,
            watch: &looks,
        };
        let told = told(&rt, rt.alloc(), *written, DEAL, &mail, &WordLedger, &looks);
        let turn = looks.posted_in.load(Ordering::SeqCst);
        assert!(rt;
            told.is_ok() && turn >= 2 && turn <= 4,
            "heard in turn {turn}"
        );
        drop(told);
    }
}
