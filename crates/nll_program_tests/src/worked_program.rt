//! Worked runs of the program: refusals, owners, cuts, and replays of schedules.
use super::examples::Text::{Beside, Lines, Pieces};
use super::examples::{CHECK, EITHER, Example, OK, Text, VALUES};
use super::program::USAGE_LINE;
use super::worked_facts::{BY_TURNS, BY_TURNS_VALUES, REACHED, REACHED_VALUES};
use nll_worked::{CALLED, RETURNED};

// Words that replay the list by two owners.
const BY_TWO: &[&str] = &["replay|sheet|--owners|2|--schedule|list"];

/// Texts of either kind, and what the program does with them.
pub const PROGRAM: &[Example] = &[
    Example {
        shows: "the number of points isn't that of a point",
        sheet: Lines("nll-facts 1|points 1048576|constraint 'static 'static 1048576|"),
        told: &[(EITHER, Lines("2>>nllc: line 3: range|"))],
    },
    Example {
        shows: "a region of facts too many",
        sheet: Pieces(&[("nll-facts 1|points 1|", 0, 1), ("region 'r#|", 0, 65_536)]),
        told: &[(EITHER, Lines("2>>nllc: line 65538: limit regions|"))],
    },
    Example {
        shows: "cut off behind a line feed",
        sheet: Lines(
            "nll-mir 1|region 'w|struct W<'x +> drop (&'x int)|let _0: int|let _1: W<'w>|\
            blocks 2|block bb0|nop|",
        ),
        told: &[(EITHER, Lines("2>>nllc: line 8: end|"))],
    },
    Example {
        shows: "the last line needs no line feed",
        sheet: Lines(
            "nll-mir 1|region 'w|struct W<'x +> drop (&'x int)|let _0: int|let _1: W<'w>|\
            blocks 2|block bb0|nop|drop _1 -> bb1|block bb1|return|end",
        ),
        told: &[(
            VALUES,
            Lines("0>'static: bb0/0 bb0/1 bb1/0 end('static)|'w: bb0/0 bb0/1|>"),
        )],
    },
    Example {
        shows: "two owners work until both have left",
        sheet: Beside(
            BY_TURNS,
            "nll-schedule 1|load 0|owe 0|clear 0|take 0 1|push 0 1|load 1|owe 1|push 1 0|\
            clear 1|take 1 0|owe 1|clear 1|take 0 1|owe 0|clear 0|leave 1|push 0 1|take 1 0|\
            owe 1|clear 1|push 1 0|take 0 1|owe 0|clear 0|leave 0|leave 1|",
        ),
        told: &[(
            BY_TWO,
            Lines(
                "0>1 done|2 done|3 done|4 not now|5 done|6 done|7 done|8 done|9 done|10 done|\
                11 done|12 done|13 done|14 done|15 done|16 open|17 done|18 done|19 done|20 done|\
                21 done|22 done|23 done|24 done|25 quiet|26 quiet|balance 0|\
                'static: 0 1 end('static)|'1: 0 1|'2: 0 1|>",
            ),
        )],
    },
    Example {
        shows: "there are more owners than regions",
        sheet: Lines(REACHED),
        told: &[(
            &[
                "values|sheet|--owners|16|--mail|queue",
                "values|sheet|--owners|16|--mail|ring",
            ],
            Lines(REACHED_VALUES),
        )],
    },
    Example {
        shows: "a cut that names an owner whom there isn't",
        sheet: Beside(REACHED, "nll-cut 1|0|16|0|"),
        told: &[(
            &[
                "values|sheet|--owners|16|--cut|list|--mail|queue",
                "values|sheet|--owners|16|--cut|list|--mail|ring",
            ],
            Lines("2>>nllc: cut: no such owner at 1|"),
        )],
    },
    Example {
        shows: "an empty file has no header",
        sheet: Lines(""),
        told: &[(EITHER, Lines("2>>nllc: line 1: header|"))],
    },
    Example {
        shows: "a type of 4,096 nodes",
        sheet: Pieces(&[
            ("nll-mir 1|let _0: int|let _1: (int", 0, 1),
            (", int", 0, 4_094),
            (")|blocks 1|block bb0|return|end|", 0, 1),
        ]),
        told: &[(CHECK, Lines(OK))],
    },
    Example {
        shows: "a node too many",
        sheet: Pieces(&[
            ("nll-mir 1|let _0: int|let _1: (int", 0, 1),
            (", int", 0, 4_095),
            (")|blocks 1|block bb0|return|end|", 0, 1),
        ]),
        told: &[(CHECK, Lines("2>>nllc: line 3: type size|"))],
    },
    Example {
        shows: "a reference is returned as one of another universal region",
        sheet: Lines(RETURNED),
        told: &[
            (CHECK, Lines("1>fault 'b must outlive 'a|>")),
            (
                VALUES,
                Lines(
                    "0>'static: bb0/0 bb0/1 end('static)|'a: bb0/0 bb0/1 end('a)|\
                    'b: bb0/0 bb0/1 end('a) end('b)|>",
                ),
            ),
        ],
    },
    Example {
        shows: "an unknown region comes before a point out of range",
        sheet: Lines(
            "nll-facts 1|points 3|region '1|region '2|next 0 1|next 1 2|return 2|base '1 1|\
            base '1 2|constraint 'z '1 9|end|",
        ),
        told: &[(EITHER, Lines("2>>nllc: line 10: unknown|"))],
    },
    Example {
        shows: "an operand goes into a call, and its result out of it",
        sheet: Lines(CALLED),
        told: &[
            (
                VALUES,
                Lines(
                    "0>'static: bb0/0 bb1/0 bb1/1 end('static)|'a: bb0/0 bb1/0|'b: bb1/0|\
                    'c: bb1/0|>",
                ),
            ),
            (CHECK, Lines(OK)),
        ],
    },
];

// Words for texts of which more growths go from owner to owner than a ring has places.
const MANY_WORDS: &[&str] = &[
    "values|sheet|--owners|2|--mail|queue",
    "values|sheet|--owners|2|--mail|ring",
];

// Two regions hold 300 points.
const MANY_VALUES: Text = Pieces(&[
    ("0>'static:", 0, 1),
    (" #", 0, 300),
    (" end('static)|'1:", 0, 1),
    (" #", 0, 300),
    ("|'2:", 0, 1),
    (" #", 0, 300),
    ("|>", 0, 1),
]);

/// How regions are assigned to owners, and what owners do.
pub const OWNERS: &[Example] = &[
    Example {
        shows: "regions that grow by turns, dealt in turns, in blocks and by a list",
        sheet: Beside(BY_TURNS, "nll-cut 1|0|0|1|"),
        told: &[(
            &[
                "values|sheet|--owners|2|--deal|round|--mail|queue",
                "values|sheet|--owners|2|--deal|round|--mail|ring",
                "values|sheet|--owners|2|--deal|blocks|--mail|queue",
                "values|sheet|--owners|2|--deal|blocks|--mail|ring",
                "values|sheet|--owners|2|--cut|list|--mail|queue",
                "values|sheet|--owners|2|--cut|list|--mail|ring",
            ],
            Lines(BY_TURNS_VALUES),
        )],
    },
    Example {
        shows: "0 owners are refused, and 17 are not",
        sheet: Lines(REACHED),
        told: &[
            (
                &[
                    "values|sheet|--owners|0",
                    "check|sheet|--owners|0|--mail|ring",
                ],
                Lines(USAGE_LINE),
            ),
            (
                &[
                    "values|sheet|--owners|17|--mail|queue",
                    "values|sheet|--owners|17|--mail|ring",
                ],
                Lines(REACHED_VALUES),
            ),
        ],
    },
    Example {
        shows: "a cut of a region too few",
        sheet: Beside(REACHED, "nll-cut 1|0|1|"),
        told: &[(
            &[
                "values|sheet|--owners|2|--cut|list|--mail|queue",
                "values|sheet|--owners|2|--cut|list|--mail|ring",
            ],
            Lines("2>>nllc: cut: length|"),
        )],
    },
    Example {
        shows: "one owner leaves once its load is cleared, and loads once",
        sheet: Beside(
            REACHED,
            "nll-schedule 1|load 0|owe 0|leave 0|clear 0|leave 0|load 0|",
        ),
        told: &[(
            &[
                "replay|sheet|--schedule|list",
                "replay|sheet|--owners|1|--schedule|list",
            ],
            Lines(
                "0>1 done|2 done|3 not now|4 done|5 quiet|6 not now|balance 0|\
                'static: 0 1 2 end('static)|'1: 1 2|'2: 1 2|>",
            ),
        )],
    },
    Example {
        shows: "owners that haven't loaded hold nothing",
        sheet: Beside(BY_TURNS, "nll-schedule 1|"),
        told: &[(BY_TWO, Lines("0>balance 2|'static:|'1:|'2:|>"))],
    },
    Example {
        shows: "one region gets more points from another one than a ring has places",
        sheet: Pieces(&[
            ("nll-facts 1|points 300|region '1|region '2|", 0, 1),
            ("next # @|", 0, 299),
            ("return 299|", 0, 1),
            ("base '1 #|", 0, 300),
            ("constraint '2 '1 0|end|", 0, 1),
        ]),
        told: &[(MANY_WORDS, MANY_VALUES)],
    },
    Example {
        shows: "two regions get from each other more points than a ring has places",
        sheet: Pieces(&[
            ("nll-facts 1|points 300|region '1|region '2|", 0, 1),
            ("next # @|", 0, 299),
            ("return 299|", 0, 1),
            ("base '1 #|base '2 #|", 0, 300),
            ("constraint '2 '1 0|constraint '1 '2 0|end|", 0, 1),
        ]),
        told: &[(MANY_WORDS, MANY_VALUES)],
    },
];
