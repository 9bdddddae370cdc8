//! Texts at further limits of their formats, and past them, by the whole program.
use super::examples::Text::{Blanks, Lines, Pieces};
use super::examples::{CHECK_ONCE, Example, OK, compare_examples};

// Texts that have something as often as the limit or once more.
const COUNTED: &[Example] = &[
    Example {
        shows: "65,536 variables",
        sheet: Pieces(&[
            ("nll-mir 1|", 0, 1),
            ("let _#: int|", 0, 65_536),
            ("blocks 1|block bb0|return|end|", 0, 1),
        ]),
        told: &[(CHECK_ONCE, Lines(OK))],
    },
    Example {
        shows: "a variable too many",
        sheet: Pieces(&[("nll-mir 1|", 0, 1), ("let _#: int|", 0, 65_537)]),
        told: &[(CHECK_ONCE, Lines("2>>nllc: line 65538: limit variables|"))],
    },
    Example {
        shows: "a region of a body too many",
        sheet: Pieces(&[("nll-mir 1|", 0, 1), ("region 'r#|", 0, 65_536)]),
        told: &[(CHECK_ONCE, Lines("2>>nllc: line 65537: limit regions|"))],
    },
];

// Like `COUNTED`, for long texts.
const LONG: &[Example] = &[
    Example {
        shows: "a text of 67,108,864 bytes isn't too long: its header is read",
        sheet: Blanks(67_108_864),
        told: &[(CHECK_ONCE, Lines("2>>nllc: line 1: header|"))],
    },
    Example {
        shows: "1,048,576 constraints",
        sheet: Pieces(&[
            ("nll-facts 1|points 1048576|region '1|", 0, 1),
            ("constraint '1 '1 #|", 0, 1_048_576),
            ("end|", 0, 1),
        ]),
        told: &[(CHECK_ONCE, Lines(OK))],
    },
    Example {
        shows: "a constraint at all points is one more",
        sheet: Pieces(&[
            ("nll-facts 2|points 1048576|region '1|", 0, 1),
            ("constraint '1 '1 #|", 0, 1_048_576),
            ("constraint '1 '1 all|end|", 0, 1),
        ]),
        told: &[(
            CHECK_ONCE,
            Lines("2>>nllc: line 1048580: limit constraints|"),
        )],
    },
    Example {
        shows: "a repeated constraint is none",
        sheet: Pieces(&[
            ("nll-facts 2|points 1048576|region '1|", 0, 1),
            ("constraint '1 '1 all|", 0, 1),
            ("constraint '1 '1 #|", 0, 1_048_575),
            ("constraint '1 '1 all|constraint '1 '1 5|end|", 0, 1),
        ]),
        told: &[(CHECK_ONCE, Lines(OK))],
    },
    Example {
        shows: "a point of a body too many",
        sheet: Pieces(&[
            ("nll-mir 1|let _0: int|blocks 1|block bb0|", 0, 1),
            ("nop|", 0, 1_048_576),
            ("return|end|", 0, 1),
        ]),
        told: &[(CHECK_ONCE, Lines("2>>nllc: line 1048581: limit points|"))],
    },
];

#[test]
fn limits_are_kept(rt: HostRuntime) {
    compare_examples(&rt, COUNTED);
}

#[test]
fn limits_of_long_texts_are_kept(rt: HostRuntime) {
    compare_examples(&rt, LONG);
}
