//! The program over facts texts with constraints at all points.
use super::rows::{Around, Asked, compare_rows, compare_within};

// What is around the lines of a text of version 2.
const SECOND: Around<'static> = ("nll-facts 2|", "|end|");

// Words that ask for the values, in one thread and by owners.
const VALUES: &[&str] = &[
    "values|sheet",
    "values|sheet|--owners|1",
    "values|sheet|--owners|2",
    "values|sheet|--owners|2|--deal|blocks",
    "values|sheet|--owners|2|--mail|ring",
    "values|sheet|--owners|3|--deal|round",
];

// Texts, and what the program reports of their values, whoever computes them.
const VALUED: &str = "
// Without an edge.
points 2|region '1|region '2|base '1 1|constraint '2 '1 all ~ \
    0>'static: 0 1 end('static)|'1: 1|'2: 1|>
// Ends too, without a return point.
points 2|universal 'a|region 'x|next 0 1|next 1 0|constraint 'x 'a all ~ \
    0>'static: 0 1 end('static)|'a: 0 1 end('a)|'x: 0 1 end('a)|>
// What a region gains later.
points 3|region '1|region '2|region '3|base '1 0|base '3 2|constraint '2 '1 all|\
    constraint '1 '3 all ~ 0>'static: 0 1 2 end('static)|'1: 0 2|'2: 0 2|'3: 2|>
// A circle of regions.
points 2|region '1|region '2|base '1 0|base '2 1|constraint '2 '1 all|constraint '1 '2 all ~ \
    0>'static: 0 1 end('static)|'1: 0 1|'2: 0 1|>
// A point beside all points asks for nothing more.
points 3|region '1|region '2|next 0 1|base '1 0|base '1 2|constraint '2 '1 0|\
    constraint '2 '1 all ~ 0>'static: 0 1 2 end('static)|'1: 0 2|'2: 0 2|>
// A path goes through what came at all points, and what a path reaches goes on at all points.
points 3|region '1|region '2|region '3|region '4|next 0 1|next 1 2|base '1 0|base '1 1|\
    constraint '2 '1 all|constraint '3 '2 1|constraint '4 '3 all ~ \
    0>'static: 0 1 2 end('static)|'1: 0 1|'2: 0 1|'3: 1|'4: 1|>
// A region is asked for what it holds.
points 2|region '1|base '1 1|constraint '1 '1 all ~ 0>'static: 0 1 end('static)|'1: 1|>
";

// Texts, and what the program reports of their faults.
const CHECKED: &str = "
// Round a circle of points without a return point there is no fault at a point.
nll-facts 2|points 2|universal 'a|universal 'b|next 0 1|next 1 0|constraint 'a 'b 0|end| ~ 0>ok|>
nll-facts 2|points 2|universal 'a|universal 'b|outlives 'a 'b|constraint 'a 'b all|end| ~ 0>ok|>
";

#[test]
fn values_at_all_points(rt: HostRuntime) {
    for words in VALUES {
        compare_within(&rt, Asked::Run(*words), SECOND, VALUED);
    }
}

#[test]
fn faults_at_all_points(rt: HostRuntime) {
    for words in ["check|sheet", "check|sheet|--owners|2"] {
        compare_rows(&rt, Asked::Run(words), CHECKED);
    }
}
