//! Worked texts at the borders: cut off, with another line, at the limits and past them.
use super::examples::Text::{Blanks, Edges, Lines, Pieces};
use super::examples::{CHECK, CHECK_ONCE, EITHER, Example, OK};

/// Texts that are cut off, of which one line is another one, and at limits.
pub const BORDERS: &[Example] = &[
    Example {
        shows: "cut off in the type of a variable",
        sheet: Lines("nll-mir 1|region 'w|struct W<'x +> drop (&'x int)|let _0: int|let _1: W"),
        told: &[(EITHER, Lines("2>>nllc: line 5: shape|"))],
    },
    Example {
        shows: "cut off in a target block",
        sheet: Lines(
            "nll-mir 1|region 'w|struct W<'x +> drop (&'x int)|let _0: int|let _1: W<'w>|\
            blocks 2|block bb0|nop|drop _1 -> bb",
        ),
        told: &[(EITHER, Lines("2>>nllc: line 9: syntax|"))],
    },
    Example {
        shows: "cut off behind a target block",
        sheet: Lines(
            "nll-mir 1|region 'w|struct W<'x +> drop (&'x int)|let _0: int|let _1: W<'w>|\
            blocks 2|block bb0|nop|drop _1 -> bb1",
        ),
        told: &[(EITHER, Lines("2>>nllc: line 9: end|"))],
    },
    Example {
        shows: "a header alone is no text",
        sheet: Lines("nll-facts 1"),
        told: &[(EITHER, Lines("2>>nllc: line 1: end|"))],
    },
    Example {
        shows: "a header without its number is none",
        sheet: Lines("nll-facts"),
        told: &[(EITHER, Lines("2>>nllc: line 1: header|"))],
    },
    Example {
        shows: "a region that no line declares",
        sheet: Lines(
            "nll-mir 1|region 'x|struct W<'x +> drop (&'x int)|let _0: int|let _1: W<'w>|\
            blocks 2|block bb0|nop|drop _1 -> bb1|block bb1|return|end|",
        ),
        told: &[(EITHER, Lines("2>>nllc: line 5: unknown|"))],
    },
    Example {
        shows: "the first variable isn't the return place",
        sheet: Lines(
            "nll-mir 1|region 'w|struct W<'x +> drop (&'x int)|let _1: int|let _1: W<'w>|\
            blocks 2|block bb0|nop|drop _1 -> bb1|block bb1|return|end|",
        ),
        told: &[(EITHER, Lines("2>>nllc: line 4: range|"))],
    },
    Example {
        shows: "a block is lacking",
        sheet: Lines(
            "nll-mir 1|region 'w|struct W<'x +> drop (&'x int)|let _0: int|let _1: W<'w>|\
            blocks 3|block bb0|nop|drop _1 -> bb1|block bb1|return|end|",
        ),
        told: &[(EITHER, Lines("2>>nllc: line 12: range|"))],
    },
    Example {
        shows: "a target block that there isn't",
        sheet: Lines(
            "nll-mir 1|region 'w|struct W<'x +> drop (&'x int)|let _0: int|let _1: W<'w>|\
            blocks 1|block bb0|nop|drop _1 -> bb1|block bb1|return|end|",
        ),
        told: &[(EITHER, Lines("2>>nllc: line 9: range|"))],
    },
    Example {
        shows: "a variable that no line declares",
        sheet: Lines(
            "nll-mir 1|region 'w|struct W<'x +> drop (&'x int)|let _0: int|let _1: W<'w>|\
            blocks 2|block bb0|nop|drop _2 -> bb1|block bb1|return|end|",
        ),
        told: &[(EITHER, Lines("2>>nllc: line 9: unknown|"))],
    },
    Example {
        shows: "a block out of its order",
        sheet: Lines(
            "nll-mir 1|region 'w|struct W<'x +> drop (&'x int)|let _0: int|let _1: W<'w>|\
            blocks 2|block bb0|nop|drop _1 -> bb1|block bb2|return|end|",
        ),
        told: &[(EITHER, Lines("2>>nllc: line 10: range|"))],
    },
    Example {
        shows: "256 universal regions",
        sheet: Pieces(&[
            ("nll-facts 1|points 1|", 0, 1),
            ("universal 'u#|", 0, 255),
            ("end|", 0, 1),
        ]),
        told: &[(CHECK, Lines(OK))],
    },
    Example {
        shows: "a universal region too many",
        sheet: Pieces(&[
            ("nll-facts 1|points 1|", 0, 1),
            ("universal 'u#|", 0, 256),
            ("end|", 0, 1),
        ]),
        told: &[(EITHER, Lines("2>>nllc: line 258: limit universals|"))],
    },
    Example {
        shows: "a point too many",
        sheet: Lines("nll-facts 1|points 1048577|"),
        told: &[(EITHER, Lines("2>>nllc: line 2: limit points|"))],
    },
];

/// A text that is too long, and one of too many lines.
pub const BYTES: &[Example] = &[
    Example {
        shows: "a text that is too long is refused before its header is read",
        sheet: Blanks(67_108_865),
        told: &[(CHECK_ONCE, Lines("2>>nllc: line 1: limit text|"))],
    },
    Example {
        shows: "a struct too many",
        sheet: Pieces(&[("nll-mir 1|", 0, 1), ("struct S#()|", 0, 1_025)]),
        told: &[(EITHER, Lines("2>>nllc: line 1026: limit structs|"))],
    },
];

/// As many edges as the limit allows, and one more.
pub const EDGES: &[Example] = &[
    Example {
        shows: "an edge too many",
        sheet: Edges(4_194_305, "end\n"),
        told: &[(CHECK_ONCE, Lines("2>>nllc: line 4194307: limit edges|"))],
    },
    Example {
        shows: "an edge that is there twice is one",
        sheet: Edges(4_194_304, "next 0 0\nend\n"),
        told: &[(CHECK_ONCE, Lines(OK))],
    },
];

/// As many constraints as the limit allows, and more.
pub const CONSTRAINTS: &[Example] = &[
    Example {
        shows: "a constraint too many",
        sheet: Pieces(&[
            ("nll-facts 1|points 1048576|region '1|", 0, 1),
            ("constraint '1 '1 #|", 0, 1_048_576),
            ("constraint '1 'static 0|", 0, 1),
        ]),
        told: &[(
            CHECK_ONCE,
            Lines("2>>nllc: line 1048580: limit constraints|"),
        )],
    },
    Example {
        shows: "a body asks for 1,048,064 constraints",
        sheet: Pieces(&[
            ("nll-mir 1|", 0, 1),
            ("region 'x#|", 0, 4_094),
            ("let _0: int|let _1: (&'x0 int", 0, 1),
            (", &'x# int", 1, 2_047),
            (")|let _2: (&'x2047 int", 0, 1),
            (", &'x# int", 2_048, 4_094),
            (")|blocks 1|block bb0|", 0, 1),
            ("_1 = copy _2|", 0, 512),
            ("return|end|", 0, 1),
        ]),
        told: &[(CHECK_ONCE, Lines(OK))],
    },
    Example {
        shows: "a body asks for too many constraints",
        sheet: Pieces(&[
            ("nll-mir 1|", 0, 1),
            ("region 'x#|", 0, 4_094),
            ("let _0: int|let _1: (&'x0 int", 0, 1),
            (", &'x# int", 1, 2_047),
            (")|let _2: (&'x2047 int", 0, 1),
            (", &'x# int", 2_048, 4_094),
            (")|blocks 1|block bb0|", 0, 1),
            ("_1 = copy _2|", 0, 513),
            ("return|end|", 0, 1),
        ]),
        told: &[(CHECK_ONCE, Lines("2>>nllc: limit constraints|"))],
    },
];
