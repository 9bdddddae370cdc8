//! Large texts with lines of all forms, and large reports. A refusal that is reported though
//! nothing was refused fails here, and breaks no clause.
use super::pieces::{Made, Piece, compare_made};
use std::process::Abort;
use std::sync::Wait;
use std::thread::Threads;

// Facts of 2,001 points in a row. Each of 2,000 regions 'q has two points; 'r asks for all that
// 'q has from the first of them on, 's from the second. Each of 99 universal regions has all points
// and asks for what 'v has; 60 are known to outlive it. The list is a cut.
const FACTS: Made = Made {
    text: &[
        ("nll-facts 1|points 2001|", 0, 1),
        ("universal 'u#|", 0, 99),
        ("universal 'v|", 0, 1),
        ("outlives 'u# 'v|! known||", 0, 60),
        ("region 'r#|region 'q#|region 's#|", 0, 2_000),
        ("next # @|", 0, 2_000),
        ("return 2000|", 0, 1),
        ("base 'q# #|base 'q# @|! two points||", 0, 2_000),
        ("constraint 'r# 'q# #|constraint 's# 'q# @|", 0, 2_000),
        ("constraint 'u# 'v 0|", 0, 99),
        ("end|", 0, 1),
    ],
    list: &[
        ("nll-cut 1|", 0, 1),
        ("0|", 0, 101),
        ("63|! of three regions||5||! and|||7||", 0, 2_000),
    ],
    points: &[(" #", 0, 2_001)],
    wanted: &[
        ("values|sheet", FACTS_VALUES),
        ("values|sheet|--owners|64", FACTS_VALUES),
        (
            "values|sheet|--owners|64|--deal|blocks|--mail|ring",
            FACTS_VALUES,
        ),
        ("values|sheet|--owners|64|--cut|list", FACTS_VALUES),
        ("check|sheet", FACTS_CHECK),
        ("check|sheet|--owners|64|--mail|ring", FACTS_CHECK),
    ],
};

const FACTS_VALUES: &[Piece] = &[
    ("0>'static:~ end('static)|", 0, 1),
    ("'u#:~ end('u#) end('v)|", 0, 99),
    ("'v:~ end('v)|", 0, 1),
    ("'r#: # @|'q#: # @|'s#: @|", 0, 2_000),
    (">", 0, 1),
];

const FACTS_CHECK: &[Piece] = &[
    ("1>", 0, 1),
    ("fault 'u# must outlive 'v|", 60, 99),
    (">", 0, 1),
];

// A body of 1,000 parts that have no walk from one to another. In each a reference 'a is lent, and
// copied to 'b, which is read, put into a struct and handed to a call; the struct is dropped.
const BODY: Made = Made {
    text: &[
        ("nll-mir 1|universal 'u|universal 'v|outlives 'u 'v|", 0, 1),
        ("region 'a#|", 0, 1_000),
        ("region 'b#|", 0, 1_000),
        ("region 'c#|", 0, 1_000),
        ("struct S<'x +> drop (&'x int)|", 0, 1),
        ("let _#: int|", 0, 1_000),
        ("let _$: &'a# int|", 0, 1_000),
        ("let _%: &'b# int|", 0, 1_000),
        ("let _^: S<'c#>|", 0, 1_000),
        ("blocks 3002|", 0, 1),
        (BODY_PART, 0, 1_000),
        (
            "block bb$|drop _^ -> bb3000 unwind bb%||! the call|",
            0,
            1_000,
        ),
        (BODY_CALL, 0, 1_000),
        ("block bb3000|return|block bb3001|stop|end|", 0, 1),
    ],
    list: &[],
    points: &[
        (
            " bb#/0 bb#/1 bb#/2 bb#/3 bb#/4 bb#/5 bb#/6 bb#/7 bb#/8",
            0,
            1_000,
        ),
        (" bb$/0", 0, 1_000),
        (" bb%/0", 0, 1_000),
        (" bb3000/0 bb3001/0", 0, 1),
    ],
    wanted: &[
        ("values|sheet", BODY_VALUES),
        ("values|sheet|--owners|64", BODY_VALUES),
        (
            "values|sheet|--owners|64|--deal|blocks|--mail|ring",
            BODY_VALUES,
        ),
        ("check|sheet", BODY_CHECK),
        ("check|sheet|--owners|64|--mail|ring", BODY_CHECK),
    ],
};

const BODY_PART: &str = "block bb#|_$ = &'a# _#|live _%|_% = copy _$|dead _$|nop|read _%.*|\
    _^ = make S<'c#> (copy _%)|_# = const|switch copy _# bb$ bb%|";

const BODY_CALL: &str = "block bb%|\
    _% = call f(move _%: &'b# int): &'b# int where 'v: 'u -> bb3000|";

const BODY_VALUES: &[Piece] = &[
    ("0>'static:~ end('static)|", 0, 1),
    ("'u:~ end('u)|'v:~ end('u) end('v)|", 0, 1),
    (
        "'a#: bb#/1 bb#/2 bb#/3 bb#/4 bb#/5 bb#/6 bb#/7 bb#/8 bb$/0 bb%/0|",
        0,
        1_000,
    ),
    (
        "'b#: bb#/3 bb#/4 bb#/5 bb#/6 bb#/7 bb#/8 bb$/0 bb%/0|",
        0,
        1_000,
    ),
    ("'c#: bb#/7 bb#/8 bb$/0|", 0, 1_000),
    (">", 0, 1),
];

const BODY_CHECK: &[Piece] = &[("1>fault 'v must outlive 'u|>", 0, 1)];

// A body of as many points as there may be, and its report of 12 MB.
const POINTS: Made = Made {
    text: &[
        ("nll-mir 1|let _0: int|blocks 1|block bb0|", 0, 1),
        ("nop|", 0, 1_048_575),
        ("return|end|", 0, 1),
    ],
    list: &[],
    points: &[(" bb0/#", 0, 1_048_576)],
    wanted: &[
        ("values|sheet", POINTS_VALUES),
        ("values|sheet|--owners|2", POINTS_VALUES),
    ],
};

const POINTS_VALUES: &[Piece] = &[("0>'static:~ end('static)|>", 0, 1)];

// As many regions as there may be, each of them empty.
const REGIONS: Made = Made {
    text: &[
        ("nll-mir 1|", 0, 1),
        ("region 'r#|", 0, 65_535),
        ("let _0: int|blocks 1|block bb0|return|end|", 0, 1),
    ],
    list: &[],
    points: &[],
    wanted: &[
        ("values|sheet", REGIONS_VALUES),
        ("values|sheet|--owners|64", REGIONS_VALUES),
    ],
};

const REGIONS_VALUES: &[Piece] = &[
    ("0>'static: bb0/0 end('static)|", 0, 1),
    ("'r#:|", 0, 65_535),
    (">", 0, 1),
];

// A schedule of two owners: events of all forms, none of them possible before the loads.
const EVENTS: Made = Made {
    text: &[
        ("nll-schedule 1|", 0, 1),
        ("take 0 1|", 0, 4_000),
        ("push 1 0|", 0, 4_000),
        ("owe 0|! not yet||", 0, 4_000),
        ("clear 1|", 0, 4_000),
        ("leave 0|", 0, 4_000),
        ("load 0|load 1|", 0, 1),
    ],
    list: &[],
    points: &[],
    wanted: &[("replay|circle|--owners|2|--schedule|sheet", EVENTS_TOLD)],
};

const EVENTS_TOLD: &[Piece] = &[
    ("0>", 0, 1),
    ("@ not now|", 0, 20_000),
    ("20001 done|20002 done|balance 2|", 0, 1),
    ("'static: 0 1 end('static)|'1: 0|'2: 1|>", 0, 1),
];

// The report of one thread, and of 64 owners however the regions are assigned to them.
#[test]
fn large_facts_are_answered(rt: HostRuntime) {
    compare_made(&rt, &FACTS);
}

#[test]
fn large_bodies_are_answered(rt: HostRuntime) {
    compare_made(&rt, &BODY);
    compare_made(&rt, &POINTS);
    compare_made(&rt, &REGIONS);
}

#[test]
fn large_schedules_are_replayed(rt: HostRuntime) {
    compare_made(&rt, &EVENTS);
}
