//! Worked facts texts: values and faults.
use super::examples::Text::Lines;
use super::examples::{CHECK, Example, OK, VALUES};

/// A path leads on from the constraint's point.
pub const REACHED: &str = "nll-facts 1|points 3|region '1|region '2|next 0 1|next 1 2|return 2|\
    base '1 1|base '1 2|constraint '2 '1 1|end|";

/// Its values.
pub const REACHED_VALUES: &str = "0>'static: 0 1 2 end('static)|'1: 1 2|'2: 1 2|>";

/// Two regions grow by turns.
pub const BY_TURNS: &str = "nll-facts 1|points 2|region '1|region '2|next 0 1|return 1|\
    base '1 0|base '2 1|constraint '2 '1 0|constraint '1 '2 0|end|";

/// Its values.
pub const BY_TURNS_VALUES: &str = "0>'static: 0 1 end('static)|'1: 0 1|'2: 0 1|>";

/// What a region gets from another one, ends of universal regions, and faults.
pub const FACTS: &[Example] = &[
    Example {
        shows: "'static holds all points and its end",
        sheet: Lines("nll-facts 1|points 1|return 0|end|"),
        told: &[
            (VALUES, Lines("0>'static: 0 end('static)|>")),
            (CHECK, Lines(OK)),
        ],
    },
    Example {
        shows: "a path leads on from the constraint's point",
        sheet: Lines(REACHED),
        told: &[(VALUES, Lines(REACHED_VALUES)), (CHECK, Lines(OK))],
    },
    Example {
        shows: "nothing is asked at a point outside the region",
        sheet: Lines(
            "nll-facts 1|points 3|region '1|region '2|next 0 1|next 1 2|return 2|base '1 1|\
            base '1 2|constraint '2 '1 0|end|",
        ),
        told: &[
            (VALUES, Lines("0>'static: 0 1 2 end('static)|'1: 1 2|'2:|>")),
            (CHECK, Lines(OK)),
        ],
    },
    Example {
        shows: "a hole stops the walk",
        sheet: Lines(
            "nll-facts 1|points 5|region '1|region '2|next 0 1|next 1 2|next 2 3|next 3 4|\
            return 4|base '1 0|base '1 1|base '1 3|base '1 4|constraint '2 '1 0|end|",
        ),
        told: &[
            (
                VALUES,
                Lines("0>'static: 0 1 2 3 4 end('static)|'1: 0 1 3 4|'2: 0 1|>"),
            ),
            (CHECK, Lines(OK)),
        ],
    },
    Example {
        shows: "round a circle of points a walk ends at a hole",
        sheet: Lines(
            "nll-facts 1|points 2|region '1|region '2|next 0 1|next 1 0|base '1 1|\
            constraint '2 '1 1|constraint '1 '1 0|end|",
        ),
        told: &[
            (VALUES, Lines("0>'static: 0 1 end('static)|'1: 1|'2: 1|>")),
            (CHECK, Lines(OK)),
        ],
    },
    Example {
        shows: "two regions grow by turns",
        sheet: Lines(BY_TURNS),
        told: &[(VALUES, Lines(BY_TURNS_VALUES)), (CHECK, Lines(OK))],
    },
    Example {
        shows: "an end is a fault where it isn't known to be outlived",
        sheet: Lines(
            "nll-facts 1|points 2|universal 'a|universal 'b|next 0 1|return 1|\
            constraint 'a 'b 0|end|",
        ),
        told: &[
            (CHECK, Lines("1>fault 'a must outlive 'b|>")),
            (
                VALUES,
                Lines("0>'static: 0 1 end('static)|'a: 0 1 end('a) end('b)|'b: 0 1 end('b)|>"),
            ),
        ],
    },
    Example {
        shows: "no end is reached where nothing returns",
        sheet: Lines(
            "nll-facts 1|points 2|universal 'a|universal 'b|next 0 1|next 1 0|\
            constraint 'a 'b 0|end|",
        ),
        told: &[(CHECK, Lines(OK))],
    },
    Example {
        shows: "a hole that is filled later opens the way",
        sheet: Lines(
            "nll-facts 1|points 3|region '1|region '2|region '3|next 0 1|next 1 2|return 2|\
            base '1 0|base '1 2|base '3 1|constraint '1 '3 1|constraint '2 '1 0|end|",
        ),
        told: &[
            (
                VALUES,
                Lines("0>'static: 0 1 2 end('static)|'1: 0 1 2|'2: 0 1 2|'3: 1|>"),
            ),
            (CHECK, Lines(OK)),
        ],
    },
    Example {
        shows: "a region is known to outlive another one by two facts",
        sheet: Lines(
            "nll-facts 1|points 2|universal 'a|universal 'b|universal 'c|outlives 'a 'c|\
            outlives 'c 'b|next 0 1|return 1|constraint 'a 'b 0|end|",
        ),
        told: &[(CHECK, Lines(OK))],
    },
    Example {
        shows: "nothing is known to outlive 'static",
        sheet: Lines(
            "nll-facts 1|points 2|universal 'a|universal 'b|next 0 1|return 1|\
            constraint 'a 'static 0|end|",
        ),
        told: &[(CHECK, Lines("1>fault 'a must outlive 'static|>"))],
    },
];
