//! Owners that are driven by all orders of turns that are named here come to the same values.
use super::dealt::{Asked, told};
use super::driver::Turn::{self, Load, Post, Take};
use super::failure::Failure;
use nll_worked::{BY_TURNS, EVERYWHERE, FILLED_HOLE, REACHED, TWO_SOURCES, Written};
use std::process::Abort;

// Each of two owners is loaded, and then each sends to the other.
const TWO: &[Turn] = &[
    Load(0),
    Load(1),
    Post(0, 1),
    Take(0, 1),
    Post(1, 0),
    Take(1, 0),
];

// The second is loaded late: growths wait for it.
const TWO_LATE: &[Turn] = &[
    Load(0),
    Post(0, 1),
    Take(0, 1),
    Take(1, 0),
    Load(1),
    Post(1, 0),
    Take(0, 1),
    Take(1, 0),
    Take(1, 0),
];

// All growths go the one way before one goes the other.
const TWO_FAST: &[Turn] = &[
    Load(1),
    Load(0),
    Post(1, 0),
    Take(1, 0),
    Take(1, 0),
    Take(1, 0),
    Take(1, 0),
    Post(0, 1),
    Take(0, 1),
];

const THREE: &[Turn] = &[
    Load(0),
    Load(1),
    Load(2),
    Post(0, 1),
    Post(0, 2),
    Post(1, 0),
    Post(1, 2),
    Post(2, 0),
    Post(2, 1),
    Take(0, 1),
    Take(0, 2),
    Take(1, 0),
    Take(1, 2),
    Take(2, 0),
    Take(2, 1),
];

const THREE_BACK: &[Turn] = &[
    Load(2),
    Post(2, 1),
    Take(2, 1),
    Post(2, 0),
    Load(1),
    Take(2, 1),
    Post(1, 2),
    Take(1, 2),
    Load(0),
    Take(2, 0),
    Post(1, 0),
    Take(1, 0),
    Post(0, 2),
    Take(0, 2),
    Post(0, 1),
    Take(0, 1),
];

// No turns but the whole rounds that the driver ends with.
const NONE: &[Turn] = &[];

/// Problems, how many owners there are, what they have in the end (the value of each region, and
/// what each owner has grown, given and received), and orders of turns that come to it.
pub type Row = (Written, u16, &'static str, &'static [&'static [Turn]]);

pub const ROWS: &[Row] = &[
    (REACHED, 1, "0: 0 1 2 3|1: 1 2|2: 1 2|8 0 0|", &[&[Load(0)]]),
    (
        REACHED,
        2,
        "0: 0 1 2 3|1: 1 2|2: 1 2|6 0 2|2 2 0|",
        &[TWO, TWO_LATE, TWO_FAST, NONE],
    ),
    (
        REACHED,
        3,
        "0: 0 1 2 3|1: 1 2|2: 1 2|4 0 0|2 2 0|2 0 2|",
        &[THREE, THREE_BACK, NONE],
    ),
    (
        EVERYWHERE,
        1,
        "0: 0 1 2 3 4 5|1: 0 1 3 4|2: 0 1 3 4|14 0 0|",
        &[&[Load(0)]],
    ),
    (
        EVERYWHERE,
        2,
        "0: 0 1 2 3 4 5|1: 0 1 3 4|2: 0 1 3 4|10 0 4|4 4 0|",
        &[TWO, TWO_LATE, TWO_FAST, NONE],
    ),
    (
        EVERYWHERE,
        3,
        "0: 0 1 2 3 4 5|1: 0 1 3 4|2: 0 1 3 4|6 0 0|4 4 0|4 0 4|",
        &[THREE, THREE_BACK, NONE],
    ),
    (
        BY_TURNS,
        2,
        "0: 0 1 2|1: 0 1|2: 0 1|5 2 2|2 2 2|",
        &[TWO, TWO_LATE, TWO_FAST, NONE],
    ),
    (
        FILLED_HOLE,
        1,
        "0: 0 1 2 3|1: 0 1 2|2: 0 1 2|3: 1|11 0 0|",
        &[&[Load(0)]],
    ),
    (
        FILLED_HOLE,
        2,
        "0: 0 1 2 3|1: 0 1 2|2: 0 1 2|3: 1|7 0 3|4 3 0|",
        &[TWO, TWO_LATE, TWO_FAST, NONE],
    ),
    (
        FILLED_HOLE,
        3,
        "0: 0 1 2 3|1: 0 1 2|2: 0 1 2|3: 1|5 1 0|3 3 1|3 0 3|",
        &[THREE, THREE_BACK, NONE],
    ),
];

// The turns that are named here are taken, each once and in this order: problems, how many owners
// there are, turns, and for each turn what it answers and what each owner has grown, given and
// received then.
type Taken = (Written, u16, &'static [Turn], &'static str);

const TAKEN: &[Taken] = &[
    (
        REACHED,
        2,
        &[
            Take(1, 0),
            Load(0),
            Load(0),
            Take(1, 0),
            Load(1),
            Post(0, 1),
            Post(1, 0),
            Post(1, 0),
            Take(1, 0),
            Load(2),
            Post(1, 1),
            Take(0, 2),
            Take(1, 0),
            Take(1, 0),
        ],
        "Ok(false) 0 0 0|0 0 0| Ok(true) 4 0 0|0 0 0| Ok(false) 4 0 0|0 0 0| \
         Ok(false) 4 0 0|0 0 0| Ok(true) 4 0 0|2 0 0| Ok(false) 4 0 0|2 0 0| \
         Ok(true) 4 0 0|2 2 0| Ok(false) 4 0 0|2 2 0| Ok(true) 5 0 1|2 2 0| \
         Err(Wrong) 5 0 1|2 2 0| Err(Wrong) 5 0 1|2 2 0| Err(Wrong) 5 0 1|2 2 0| \
         Ok(true) 6 0 2|2 2 0| Ok(false) 6 0 2|2 2 0| ",
    ),
    (
        BY_TURNS,
        2,
        &[
            Load(0),
            Load(1),
            Post(0, 1),
            Take(0, 1),
            Post(1, 0),
            Take(1, 0),
            Post(0, 1),
            Take(0, 1),
            Post(1, 0),
            Take(1, 0),
        ],
        "Ok(true) 4 0 0|0 0 0| Ok(true) 4 0 0|1 0 0| Ok(true) 4 1 0|1 0 0| \
         Ok(true) 4 1 0|1 0 1| Ok(true) 4 1 0|1 1 1| Ok(true) 5 1 1|1 1 1| \
         Ok(true) 5 2 1|1 1 1| Ok(true) 5 2 1|2 1 2| Ok(true) 5 2 1|2 2 2| \
         Ok(true) 5 2 2|2 2 2| ",
    ),
];

// A driver takes the turns that it is given, each once and in this order: turns of three owners,
// and the logs then (the region and the element of each growth).
type Logged = (&'static [Turn], &'static str);

const LOGGED: &[Logged] = &[
    (
        &[
            Load(0),
            Load(1),
            Load(2),
            Post(1, 0),
            Post(2, 0),
            Take(1, 0),
            Take(2, 0),
            Take(1, 0),
        ],
        "0 0|0 1|0 2|0 3|3 0|3 2|3 1| 1 0|1 1| 2 2| ",
    ),
    (
        &[
            Load(0),
            Load(1),
            Load(2),
            Post(1, 0),
            Post(2, 0),
            Take(1, 0),
            Take(1, 0),
            Take(2, 0),
        ],
        "0 0|0 1|0 2|0 3|3 0|3 1|3 2| 1 0|1 1| 2 2| ",
    ),
    (
        &[
            Load(0),
            Load(2),
            Post(2, 0),
            Take(2, 0),
            Load(1),
            Post(1, 0),
            Take(1, 0),
        ],
        "0 0|0 1|0 2|0 3|3 2|3 0|3 1| 1 0|1 1| 2 2| ",
    ),
];

// What three owners say that they have. Owner 0 has the regions 0 and 3 and reads none, owner 1 has
// 1 and reads 3, owner 2 has 2 and reads 1.
const KNOWN: &str = " 0.0 0.1 0.2 0.3 3.1| 1.0 1.1 1.2 3.1| 1.0 1.1 1.2 2.0 2.1 2.2|";

// Turns that name no owner of two, or one owner twice.
const WRONG: &[Turn] = &[
    Load(2),
    Post(0, 2),
    Post(2, 0),
    Post(1, 1),
    Take(0, 2),
    Take(2, 0),
    Take(1, 1),
];

/// Compares what was reported.
pub fn compare(rt: &impl Abort, told: Result<String, Failure>, want: &str) {
    match told {
        Ok(text) => assert!(rt; text.as_str() == want, "{text} for {want}"),
        Err(failure) => assert!(rt; false, "{failure:?} for {want}"),
    }
}

#[test]
fn driven_owners_come_to_the_least_values(rt: HostRuntime) {
    for (written, owners, want, orders) in ROWS {
        for turns in *orders {
            let told = told(rt.alloc(), *written, *owners, Asked::Driven(turns));
            compare(&rt, told, want);
        }
    }
}

#[test]
fn named_turns_are_taken_in_their_order(rt: HostRuntime) {
    for (written, owners, turns, want) in TAKEN {
        let told = told(rt.alloc(), *written, *owners, Asked::Answers(turns));
        compare(&rt, told, want);
    }
}

#[test]
fn a_driver_takes_its_turns_in_their_order(rt: HostRuntime) {
    for (turns, want) in LOGGED {
        let told = told(rt.alloc(), TWO_SOURCES, 3, Asked::Logs(turns));
        compare(&rt, told, want);
    }
}

// Of other regions, and of numbers that the problem doesn't have, it says no.
#[test]
fn an_owner_has_its_values_and_its_copies(rt: HostRuntime) {
    let told = told(rt.alloc(), FILLED_HOLE, 3, Asked::Known(NONE));
    compare(&rt, told, KNOWN);
}

#[test]
fn a_turn_of_no_owner_is_wrong(rt: HostRuntime) {
    for turn in WRONG {
        let turns = [Load(0), *turn];
        let told = told(rt.alloc(), BY_TURNS, 2, Asked::Driven(&turns));
        let is_right = told.err() == Some(Failure::Wrong);
        assert!(rt; is_right, "{turn:?}");
    }
}
