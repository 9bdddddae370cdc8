//! Worked problems, with their least values and their faults.
use super::calls::Call::{Base, Holds, HoldsEverywhere, Next, Outlives, Region, Ret};
use super::problem_text::OfProblem::{Inserted, Values};
use super::rows::Asked::{Made, Random};
use super::rows::{Row, compare, compare_rows};

// Points, universal regions and calls that make a problem, its values, that the plain solver gives
// it the same, and its faults.
const ROWS: &[Row] = &[
    (
        "one point that returns, and 'static alone",
        Made((1, 1), &[Ret(0)], Values),
        "0: 0 1|same|",
    ),
    (
        "a region gets what is reached from the point",
        Made(
            (3, 1),
            &[
                Region,
                Region,
                Next(0, 1),
                Next(1, 2),
                Ret(2),
                Base(1, 1),
                Base(1, 2),
                Holds(2, 1, 1),
            ],
            Values,
        ),
        "0: 0 1 2 3|1: 1 2|2: 1 2|same|",
    ),
    (
        "a point outside the smaller region asks for nothing",
        Made(
            (3, 1),
            &[
                Region,
                Region,
                Next(0, 1),
                Next(1, 2),
                Ret(2),
                Base(1, 1),
                Base(1, 2),
                Holds(2, 1, 0),
            ],
            Values,
        ),
        "0: 0 1 2 3|1: 1 2|2:|same|",
    ),
    (
        "a walk stops where it leaves the region",
        Made(
            (5, 1),
            &[
                Region,
                Region,
                Next(0, 1),
                Next(1, 2),
                Next(2, 3),
                Next(3, 4),
                Ret(4),
                Base(1, 0),
                Base(1, 1),
                Base(1, 3),
                Base(1, 4),
                Holds(2, 1, 0),
            ],
            Values,
        ),
        "0: 0 1 2 3 4 5|1: 0 1 3 4|2: 0 1|same|",
    ),
    (
        "a region asks nothing of itself from a point outside",
        Made(
            (2, 1),
            &[
                Region,
                Region,
                Next(0, 1),
                Next(1, 0),
                Base(1, 1),
                Holds(2, 1, 1),
                Holds(1, 1, 0),
            ],
            Values,
        ),
        "0: 0 1 2|1: 1|2: 1|same|",
    ),
    (
        "two regions grow by turns",
        Made(
            (2, 1),
            &[
                Region,
                Region,
                Next(0, 1),
                Ret(1),
                Base(1, 0),
                Base(2, 1),
                Holds(2, 1, 0),
                Holds(1, 2, 0),
            ],
            Values,
        ),
        "0: 0 1 2|1: 0 1|2: 0 1|same|",
    ),
    (
        "a hole that is filled opens the way",
        Made(
            (3, 1),
            &[
                Region,
                Region,
                Region,
                Next(0, 1),
                Next(1, 2),
                Ret(2),
                Base(1, 0),
                Base(1, 2),
                Base(3, 1),
                Holds(2, 1, 0),
                Holds(1, 3, 1),
            ],
            Values,
        ),
        "0: 0 1 2 3|1: 0 1 2|2: 0 1 2|3: 1|same|",
    ),
    (
        "at all points a region gets what is behind the hole too",
        Made(
            (5, 1),
            &[
                Region,
                Region,
                Next(0, 1),
                Next(1, 2),
                Next(2, 3),
                Next(3, 4),
                Ret(4),
                Base(1, 0),
                Base(1, 1),
                Base(1, 3),
                Base(1, 4),
                HoldsEverywhere(2, 1),
            ],
            Values,
        ),
        "0: 0 1 2 3 4 5|1: 0 1 3 4|2: 0 1 3 4|same|",
    ),
    (
        "in a circle of regions, and beside points",
        Made(
            (3, 1),
            &[
                Region,
                Region,
                Region,
                Next(0, 1),
                Base(1, 2),
                Base(3, 0),
                HoldsEverywhere(2, 1),
                HoldsEverywhere(1, 3),
                HoldsEverywhere(3, 2),
                Holds(2, 1, 0),
                Holds(2, 1, 1),
            ],
            Values,
        ),
        "0: 0 1 2 3|1: 0 2|2: 0 2|3: 0 2|same|",
    ),
    (
        "the end of 'b flows into 'a at all points, where nothing returns",
        Made(
            (2, 3),
            &[Next(0, 1), Next(1, 0), HoldsEverywhere(1, 2)],
            Values,
        ),
        "0: 0 1 2|1: 0 1 3 4|2: 0 1 4|same|1 over 2|",
    ),
    (
        "'a is known to outlive 'b, which it has to at all points",
        Made((1, 3), &[Outlives(1, 2), HoldsEverywhere(1, 2)], Values),
        "0: 0 1|1: 0 2 3|2: 0 3|same|",
    ),
    (
        "the end of 'b flows into 'a at the return",
        Made((2, 3), &[Next(0, 1), Ret(1), Holds(1, 2, 0)], Values),
        "0: 0 1 2|1: 0 1 3 4|2: 0 1 4|same|1 over 2|",
    ),
    (
        "no end flows where nothing returns",
        Made((2, 3), &[Next(0, 1), Next(1, 0), Holds(1, 2, 0)], Values),
        "0: 0 1 2|1: 0 1 3|2: 0 1 4|same|",
    ),
    (
        "'a is known to outlive 'b",
        Made((1, 3), &[Outlives(1, 2), Ret(0), Holds(1, 2, 0)], Values),
        "0: 0 1|1: 0 2 3|2: 0 3|same|",
    ),
    (
        "that 'b outlives 'a is of no use",
        Made((1, 3), &[Outlives(2, 1), Ret(0), Holds(1, 2, 0)], Values),
        "0: 0 1|1: 0 2 3|2: 0 3|same|1 over 2|",
    ),
    (
        "'a is known to outlive 'b by way of 'c",
        Made(
            (1, 4),
            &[Outlives(1, 3), Outlives(3, 2), Ret(0), Holds(1, 2, 0)],
            Values,
        ),
        "0: 0 1|1: 0 2 3|2: 0 3|3: 0 4|same|",
    ),
    (
        "'a must outlive 'static",
        Made((1, 2), &[Ret(0), Holds(1, 0, 0)], Values),
        "0: 0 1|1: 0 1 2|same|1 over 0|",
    ),
    (
        "'static outlives each region",
        Made((1, 3), &[Ret(0), Holds(0, 1, 0), Holds(0, 2, 0)], Values),
        "0: 0 1 2 3|1: 0 2|2: 0 3|same|",
    ),
    (
        "faults come by the first region, then by the second, and through a region variable",
        Made(
            (1, 3),
            &[
                Region,
                Ret(0),
                Holds(3, 1, 0),
                Holds(2, 3, 0),
                Holds(2, 0, 0),
                Holds(1, 2, 0),
            ],
            Values,
        ),
        "0: 0 1|1: 0 1 2 3|2: 0 1 2 3|3: 0 1 2 3|same|1 over 0|1 over 2|2 over 0|2 over 1|",
    ),
];

// Regions and points, and what values that hold nothing answer where they are inserted.
const INSERTED: &[Row] = &[
    (
        "the first point, of 'static",
        Made((2, 1), &[Region], Inserted(0, 0)),
        "false Ok(true)",
    ),
    (
        "the last point, of the last region",
        Made((2, 1), &[Region], Inserted(1, 1)),
        "false Ok(true)",
    ),
];

// A problem has these least values, by both solvers, and these faults, by the first region and then
// by the second. Values take an element that they don't have.
#[test]
fn solves_problems(rt: HostRuntime) {
    compare_rows(&rt, rt.alloc(), ROWS);
    compare_rows(&rt, rt.alloc(), INSERTED);
}

// Both solvers give random problems the same values.
#[test]
fn solves_random_problems_alike(rt: HostRuntime) {
    for seed in 0..2_000 {
        compare(&rt, rt.alloc(), "a random problem", Random(seed), "same");
    }
}
