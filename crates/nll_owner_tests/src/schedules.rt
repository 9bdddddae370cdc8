//! Schedules come to answers, balances and values that were found by hand.
use super::dealt::{Asked, told};
use super::failure::Failure;
use super::turns::compare;
use nll_model::Event::{self, Clear, Leave, Load, Owe, Push, Take};
use nll_worked::{BY_TURNS, EVERYWHERE, REACHED, Written};
use std::alloc::Global;

// An event of two owners, what it answers, and what each region has then, after the balance.
type Line = (Event, &'static str, &'static str);

// Two owners alternate, and leave in the end. The first has the regions 0 and 2, the second the
// region 1. In the fourth event the mailbox is empty; in the sixteenth a growth is still
// outstanding.
const BY_TURNS_TO_QUIET: &[Line] = &[
    (Load(0), "done|", "balance 2|0: 0 1 2|1:|2: 1|"),
    (Owe(0), "done|", "balance 3|0: 0 1 2|1:|2: 1|"),
    (Clear(0), "done|", "balance 2|0: 0 1 2|1:|2: 1|"),
    (Take(0, 1), "not now|", "balance 2|0: 0 1 2|1:|2: 1|"),
    (Push(0, 1), "done|", "balance 2|0: 0 1 2|1:|2: 1|"),
    (Load(1), "done|", "balance 2|0: 0 1 2|1: 0|2: 1|"),
    (Owe(1), "done|", "balance 3|0: 0 1 2|1: 0|2: 1|"),
    (Push(1, 0), "done|", "balance 3|0: 0 1 2|1: 0|2: 1|"),
    (Clear(1), "done|", "balance 2|0: 0 1 2|1: 0|2: 1|"),
    (Take(1, 0), "done|", "balance 2|0: 0 1 2|1: 0|2: 1|"),
    (Owe(1), "done|", "balance 2|0: 0 1 2|1: 0|2: 1|"),
    (Clear(1), "done|", "balance 1|0: 0 1 2|1: 0|2: 1|"),
    (Take(0, 1), "done|", "balance 1|0: 0 1 2|1: 0|2: 0 1|"),
    (Owe(0), "done|", "balance 2|0: 0 1 2|1: 0|2: 0 1|"),
    (Clear(0), "done|", "balance 1|0: 0 1 2|1: 0|2: 0 1|"),
    (Leave(1), "open|", "balance 1|0: 0 1 2|1: 0|2: 0 1|"),
    (Push(0, 1), "done|", "balance 1|0: 0 1 2|1: 0|2: 0 1|"),
    (Take(1, 0), "done|", "balance 1|0: 0 1 2|1: 0 1|2: 0 1|"),
    (Owe(1), "done|", "balance 2|0: 0 1 2|1: 0 1|2: 0 1|"),
    (Clear(1), "done|", "balance 1|0: 0 1 2|1: 0 1|2: 0 1|"),
    (Push(1, 0), "done|", "balance 1|0: 0 1 2|1: 0 1|2: 0 1|"),
    (Take(0, 1), "done|", "balance 1|0: 0 1 2|1: 0 1|2: 0 1|"),
    (Owe(0), "done|", "balance 1|0: 0 1 2|1: 0 1|2: 0 1|"),
    (Clear(0), "done|", "balance 0|0: 0 1 2|1: 0 1|2: 0 1|"),
    (Leave(0), "quiet|", "balance 0|0: 0 1 2|1: 0 1|2: 0 1|"),
    (Leave(1), "quiet|", "balance 0|0: 0 1 2|1: 0 1|2: 0 1|"),
];

// A problem, how many owners there are, a schedule, and its outcome.
type Row = (Written, u16, &'static [Event], &'static str);

const ROWS: &[Row] = &[
    // One owner leaves once its load is cleared, and isn't loaded again.
    (
        REACHED,
        1,
        &[Load(0), Owe(0), Leave(0), Clear(0), Leave(0), Load(0)],
        "done|done|not now|done|quiet|not now|balance 0|0: 0 1 2 3|1: 1 2|2: 1 2|",
    ),
    (
        EVERYWHERE,
        1,
        &[Load(0), Owe(0), Clear(0), Leave(0)],
        "done|done|done|quiet|balance 0|0: 0 1 2 3 4 5|1: 0 1 3 4|2: 0 1 3 4|",
    ),
    // Of what an owner holds at all points another one gets what it is sent, one after another.
    (
        EVERYWHERE,
        2,
        &[
            Load(0),
            Owe(0),
            Clear(0),
            Load(1),
            Owe(1),
            Push(1, 0),
            Push(1, 0),
            Push(1, 0),
            Clear(1),
            Take(0, 1),
            Owe(0),
            Clear(0),
            Take(0, 1),
            Owe(0),
            Clear(0),
            Take(0, 1),
        ],
        "done|done|done|done|done|done|done|done|done|done|done|done|done|done|done|done|\
            balance 2|0: 0 1 2 3 4 5|1: 0 1 3 4|2: 0 1 3|",
    ),
    // Nothing has happened.
    (BY_TURNS, 2, &[], "balance 2|0:|1:|2:|"),
    // More owners than regions, and events of no owner and of one owner twice.
    (
        REACHED,
        64,
        &[
            Load(1),
            Load(64),
            Take(1, 1),
            Push(1, 1),
            Push(1, 65535),
            Owe(1),
            Push(1, 2),
        ],
        "done|not now|not now|not now|not now|done|done|balance 66|0:|1: 1 2|2:|",
    ),
];

// The balance and the values after this many lines of the schedule.
fn values_after(count: usize) -> &'static str {
    if count == 0 {
        return "balance 2|0:|1:|2:|";
    }
    match BY_TURNS_TO_QUIET.get(count - 1) {
        Some((_, _, values)) => values,
        None => "no line",
    }
}

// What the first this many lines of the schedule come to, and what they are to come to.
fn first_lines(alloc: Global, count: usize) -> Result<(String, String), Failure> {
    let mut events = Vec::new(alloc);
    let mut want = String::new(alloc);
    for (event, answer, _) in BY_TURNS_TO_QUIET.iter().take(count) {
        events.push(*event)?;
        want.push_str(answer)?;
    }
    want.push_str(values_after(count))?;
    let told = told(alloc, BY_TURNS, 2, Asked::Replayed(&events))?;
    Ok((told, want))
}

#[test]
fn each_beginning_of_a_schedule_is_replayed(rt: HostRuntime) {
    for count in 0..BY_TURNS_TO_QUIET.len() + 1 {
        match first_lines(rt.alloc(), count) {
            Ok((told, want)) => assert_eq!(rt; told, want),
            Err(failure) => assert!(rt; false, "{failure:?} after {count}"),
        }
    }
}

#[test]
fn schedules_are_replayed(rt: HostRuntime) {
    for (written, owners, events, want) in ROWS {
        let told = told(rt.alloc(), *written, *owners, Asked::Replayed(events));
        compare(&rt, told, want);
    }
}
