//! The states of a world, as it is read, are those that were found by hand.
use super::dealt::{Asked, told};
use super::turns::compare;
use nll_model::Event::{self, Clear, Leave, Load, Owe, Push, Take};
use nll_worked::BY_TURNS;

// Events of two owners, of which the first has the regions 0 and 2, and the second the region 1. A
// growth is written as its region and its element.
const EVENTS: &[Event] = &[
    Load(0),
    Load(1),
    Owe(0),
    Push(0, 1),
    Clear(0),
    Owe(1),
    Clear(1),
    Take(1, 0),
    Leave(0),
    Push(1, 0),
];

// How many of the events there were, what the last one answers, and the state then.
const STATES: &[(usize, &str)] = &[
    (0, "Nothing 0|Nothing 0|2"),
    (1, "done|Fresh 4 fresh 2-1|Nothing 0|2"),
    (2, "done|Fresh 4 fresh 2-1|Fresh 1 fresh 1-0|2"),
    (3, "done|Owed 4 out 2-1|Fresh 1 fresh 1-0|3"),
    (4, "done|Owed 4 box 2-1|Fresh 1 fresh 1-0|3"),
    (7, "done|Nothing 4 box 2-1|Nothing 1 out 1-0|2"),
    (8, "done|Nothing 4|Fresh 1 out 1-0|2"),
    (9, "open|Nothing 4|Fresh 1 out 1-0|2"),
    (10, "done|Nothing 4|Fresh 1 box 1-0|2"),
];

#[test]
fn each_state_is_read(rt: HostRuntime) {
    for (count, want) in STATES {
        if let Some(events) = EVENTS.get(..*count) {
            let told = told(rt.alloc(), BY_TURNS, 2, Asked::Stepped(events));
            compare(&rt, told, want);
        }
    }
}
