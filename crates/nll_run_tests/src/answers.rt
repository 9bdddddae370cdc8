//! Gates that say how many growths a turn may receive.
use super::deals::Deal;
use super::failure::Failure;
use super::notes::Notes;
use super::run_text::{compare, filled, told};
use super::watches::Watched;
use nll_ledger::WordLedger;
use nll_mail::QueueMail;
use nll_run::Gate;
use nll_worked::{BY_TURNS, MANY_BOTH_WAYS};

// A gate that takes notes, and allows this many growths in a turn.
#[derive(Drop)]
struct Answer<'x> {
    notes: &'x Notes,
    most: usize,
}

impl<'x> Gate for Answer<'x> {
    ghost use Rattle.std.specs.Prelude.{◌≡◌};

    ghost allows = { λ gate most. most ≡ gate.most };

    fn enter(&self, owner: usize, turn: u64) {
        self.notes.enter(owner, turn);
    }

    fn most_growths(&self) -> usize {
        self.most
    }
}

// If a gate allows no growth in a turn, each turn receives one all the same: all that it owes and
// posts, and what it clears, is as with a gate that doesn't say.
#[test]
fn none_is_read_as_one(rt: HostRuntime) {
    let notes = Notes::new(1);
    let gate = Answer {
        notes: &notes,
        most: 0,
    };
    let queues = QueueMail::new(rt);
    let mail = Watched {
        inner: &queues,
        watch: &notes,
    };
    let ledger = Watched {
        inner: &WordLedger,
        watch: &notes,
    };
    let told = told(
        &rt,
        rt.alloc(),
        BY_TURNS,
        Deal::Round(2),
        &mail,
        &ledger,
        &gate,
    );
    compare(
        &rt,
        told,
        "0: 0 1 2|1: 0 1|2: 0 1|2: 0 5 1 2|2: 0-1 2 1-0 2",
    );
    let steps = notes.written(rt.alloc()).map_err(Failure::from);
    compare(&rt, steps, "2 2 3 0|2 2 3 0|");
}

// Where a gate allows three growths in a turn, none receives more: each of 300 growths that come
// from the other is cleared once, and at most three of them in a turn.
#[test]
fn no_turn_receives_more_than_three(rt: HostRuntime) {
    let notes = Notes::new(3);
    let gate = Answer {
        notes: &notes,
        most: 3,
    };
    let queues = QueueMail::new(rt);
    let mail = Watched {
        inner: &queues,
        watch: &notes,
    };
    let ledger = Watched {
        inner: &WordLedger,
        watch: &notes,
    };
    let told = told(
        &rt,
        rt.alloc(),
        MANY_BOTH_WAYS,
        Deal::Round(2),
        &mail,
        &ledger,
        &gate,
    );
    let want = filled(rt.alloc(), "2: 0 601 1 300|2: 0-1 300 1-0 300").expect(&rt, "memory");
    compare(&rt, told, &want);
    let steps = notes.written(rt.alloc()).map_err(Failure::from);
    compare(&rt, steps, "300 300 301 0|300 300 301 0|");
}
