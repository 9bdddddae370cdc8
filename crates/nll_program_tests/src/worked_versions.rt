//! Worked texts of version 2, and their forms in version 1.
use super::examples::Text::Lines;
use super::examples::{CHECK, EITHER, Example, OK, VALUES};
use super::program::USAGE_LINE;
use super::worked_facts::{REACHED, REACHED_VALUES};
use nll_worked::{ASSERTED, FUNCTIONS, TAKERS};

/// Function types, contravariant parameters, 64 owners, and constraints at all points.
pub const VERSION_2: &[Example] = &[
    Example {
        shows: "a function's argument is asked against the way of its result",
        sheet: Lines(FUNCTIONS),
        told: &[
            (
                VALUES,
                Lines(
                    "0>'static: bb0/0 bb0/1 bb0/2 end('static)|'1: bb0/0|'2: bb0/0 bb0/1|'3: bb0/1|\
                    '4: bb0/1|>",
                ),
            ),
            (CHECK, Lines(OK)),
        ],
    },
    Example {
        shows: "an argument of an argument is asked the way of the result",
        sheet: Lines(TAKERS),
        told: &[
            (
                VALUES,
                Lines(
                    "0>'static: bb0/0 bb0/1 bb0/2 end('static)|'1: bb0/0 bb0/1|'2: bb0/0 bb0/1|\
                    '3: bb0/1|'4: bb0/1|>",
                ),
            ),
            (CHECK, Lines(OK)),
        ],
    },
    Example {
        shows: "in version 1 there are no types of functions",
        sheet: Lines(
            "nll-mir 1|region '1|region '2|region '3|region '4|let _0: int|\
            let _1: fn(&'1 int) -> &'2 int|let _2: fn(&'3 int) -> &'4 int|blocks 1|block bb0|\
            _2 = copy _1|read _2|return|end|",
        ),
        told: &[(EITHER, Lines("2>>nllc: line 7: syntax|"))],
    },
    Example {
        shows: "an arrow is no sign and no end of the parameters",
        sheet: Lines(
            "nll-mir 2|region 'a|struct F<'x -> (fn(&'x int) -> int)|let _0: int|blocks 1|\
            block bb0|return|end|",
        ),
        told: &[(EITHER, Lines("2>>nllc: line 3: syntax|"))],
    },
    Example {
        shows: "a blank keeps the sign `-` from the end of the parameters",
        sheet: Lines(
            "nll-mir 2|region 'a|struct F<'x - > (fn(&'x int) -> int)|let _0: int|blocks 1|\
            block bb0|return|end|",
        ),
        told: &[
            (VALUES, Lines("0>'static: bb0/0 end('static)|'a:|>")),
            (CHECK, Lines(OK)),
        ],
    },
    Example {
        shows: "there are up to 64 owners",
        sheet: Lines(REACHED),
        told: &[
            (
                &[
                    "values|sheet|--owners|64|--mail|queue",
                    "values|sheet|--owners|64|--mail|ring",
                ],
                Lines(REACHED_VALUES),
            ),
            (
                &[
                    "values|sheet|--owners|65",
                    "check|sheet|--owners|65|--mail|ring",
                ],
                Lines(USAGE_LINE),
            ),
        ],
    },
    Example {
        shows: "at all points no path is needed",
        sheet: Lines(
            "nll-facts 2|points 3|region '1|region '2|next 0 1|next 1 2|return 2|base '1 1|\
            base '1 2|constraint '2 '1 all|end|",
        ),
        told: &[(
            VALUES,
            Lines("0>'static: 0 1 2 end('static)|'1: 1 2|'2: 1 2|>"),
        )],
    },
    Example {
        shows: "at all points a hole stops nothing",
        sheet: Lines(
            "nll-facts 2|points 5|region '1|region '2|next 0 1|next 1 2|next 2 3|next 3 4|\
            return 4|base '1 0|base '1 1|base '1 3|base '1 4|constraint '2 '1 all|end|",
        ),
        told: &[(
            VALUES,
            Lines("0>'static: 0 1 2 3 4 end('static)|'1: 0 1 3 4|'2: 0 1 3 4|>"),
        )],
    },
    Example {
        shows: "at all points an end passes though nothing returns",
        sheet: Lines(
            "nll-facts 2|points 2|universal 'a|universal 'b|next 0 1|next 1 0|\
            constraint 'a 'b all|end|",
        ),
        told: &[(CHECK, Lines("1>fault 'a must outlive 'b|>"))],
    },
    Example {
        shows: "an assert holds at all points",
        sheet: Lines(ASSERTED),
        told: &[
            (
                VALUES,
                Lines(
                    "0>'static: bb0/0 bb0/1 bb0/2 end('static)|'1: bb0/0 bb0/1|'2: bb0/0 bb0/1|\
                    '3: bb0/0 bb0/1|'4: bb0/1|>",
                ),
            ),
            (CHECK, Lines(OK)),
        ],
    },
    Example {
        shows: "in version 1 there are no constraints at all points",
        sheet: Lines(
            "nll-facts 1|points 3|region '1|region '2|next 0 1|next 1 2|return 2|base '1 1|\
            base '1 2|constraint '2 '1 all|end|",
        ),
        told: &[(EITHER, Lines("2>>nllc: line 10: syntax|"))],
    },
];
