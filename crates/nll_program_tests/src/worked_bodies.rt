//! Worked MIR texts: what statements, borrows and drops ask.
use super::examples::Text::Lines;
use super::examples::{CHECK, Example, OK, VALUES};
use nll_worked::{DROPPED, MOVED, REBORROW, TWO_BORROWS};

/// Liveness, reborrows, drops and subtyping.
pub const BODIES: &[Example] = &[
    Example {
        shows: "a reference that is lent anew on one of two ways",
        sheet: Lines(TWO_BORROWS),
        told: &[
            (
                VALUES,
                Lines(
                    "0>'static: bb0/0 bb0/1 bb1/0 bb1/1 bb1/2 bb2/0 bb2/1 end('static)|\
                    'p: bb0/1 bb1/0 bb1/2 bb2/0|'foo: bb0/1 bb1/0 bb2/0|'bar: bb1/2 bb2/0|>",
                ),
            ),
            (CHECK, Lines(OK)),
        ],
    },
    Example {
        shows: "a borrow behind two `mut` references asks both",
        sheet: Lines(REBORROW),
        told: &[
            (
                VALUES,
                Lines(
                    "0>'static: bb0/0 bb0/1 bb0/2 end('static)|'a: bb0/0 bb0/1|'b: bb0/0 bb0/1|\
                    'r: bb0/1|'s: bb0/1|>",
                ),
            ),
            (CHECK, Lines(OK)),
        ],
    },
    Example {
        shows: "a borrow behind a shared reference asks that one alone",
        sheet: Lines(
            "nll-mir 1|region 'a|region 'b|region 'r|region 's|let _0: int|\
            let _1: &'a mut &'b int|let _2: &'s int|blocks 1|block bb0|_2 = &'r _1.*.*|\
            read _2.*|return|end|",
        ),
        told: &[
            (
                VALUES,
                Lines(
                    "0>'static: bb0/0 bb0/1 bb0/2 end('static)|'a: bb0/0|'b: bb0/0 bb0/1|'r: bb0/1|\
                    's: bb0/1|>",
                ),
            ),
            (CHECK, Lines(OK)),
        ],
    },
    Example {
        shows: "a struct with a drop of its own holds its regions until it is dropped",
        sheet: Lines(DROPPED),
        told: &[
            (
                VALUES,
                Lines("0>'static: bb0/0 bb0/1 bb1/0 end('static)|'w: bb0/0 bb0/1|>"),
            ),
            (CHECK, Lines(OK)),
        ],
    },
    Example {
        shows: "a region that the drop doesn't look behind isn't held",
        sheet: Lines(
            "nll-mir 1|region 'w|struct W<'x + ?> drop (&'x int)|let _0: int|let _1: W<'w>|\
            blocks 2|block bb0|nop|drop _1 -> bb1|block bb1|return|end|",
        ),
        told: &[
            (
                VALUES,
                Lines("0>'static: bb0/0 bb0/1 bb1/0 end('static)|'w:|>"),
            ),
            (CHECK, Lines(OK)),
        ],
    },
    Example {
        shows: "behind a `mut` reference regions are asked both ways",
        sheet: Lines(MOVED),
        told: &[
            (
                VALUES,
                Lines(
                    "0>'static: bb0/0 bb0/1 bb0/2 end('static)|'1: bb0/0 bb0/1|'2: bb0/0 bb0/1|\
                    '3: bb0/1|'4: bb0/1|>",
                ),
            ),
            (CHECK, Lines(OK)),
        ],
    },
];
