//! Reports of least values, which were found by hand from the definitions.
use super::rows::{Around, Asked, compare_same, compare_within};
use nll_report::Command;
use std::process::Abort;
use std::sync::Wait;
use std::thread::Threads;

// No region but 'static: it holds every point and its end.
const STATIC: &str = "
points 1 ~ 'static: 0 end('static)|
points 3 ~ 'static: 0 1 2 end('static)|
points 12|next 11 0 ~ 'static: 0 1 2 3 4 5 6 7 8 9 10 11 end('static)|
";

// A constraint asks for what paths from its point reach without leaving the other region.
const PATHS: &str = "
// A point that is reached through another region alone.
points 3|region '1|region '2|region '3|next 0 1|next 1 2|return 2|base '1 0|base '1 2|base '3 1|\
    constraint '2 '1 0|constraint '2 '3 0 ~ \
    'static: 0 1 2 end('static)|'1: 0 2|'2: 0|'3: 1|
// Round the hole, where one of two ways leads on.
points 4|region '1|region '2|next 0 1|next 0 2|next 1 3|next 2 3|return 3|base '1 0|base '1 2|\
    base '1 3|constraint '2 '1 0 ~ \
    'static: 0 1 2 3 end('static)|'1: 0 2 3|'2: 0 2 3|
// Never against an edge.
points 2|region '1|region '2|next 1 0|base '1 0|base '1 1|constraint '2 '1 0 ~ \
    'static: 0 1 end('static)|'1: 0 1|'2: 0|
";

// What a region gains is passed on, whatever the order of the lines, and in circles.
const GAINS: &str = "
// All of a circle of points.
points 3|region '1|region '2|next 0 1|next 1 2|next 2 0|base '1 0|base '1 1|base '1 2|\
    constraint '2 '1 1 ~ \
    'static: 0 1 2 end('static)|'1: 0 1 2|'2: 0 1 2|
// A hole that is filled later than it was met, by lines in any order, some of them twice.
points 3|region '1|region '2|region '3|constraint '2 '1 0|constraint '1 '3 1|base '3 1|base '1 2|\
    base '1 0|return 2|next 1 2|next 0 1|next 0 1|base '3 1|return 2|constraint '2 '1 0 ~ \
    'static: 0 1 2 end('static)|'1: 0 1 2|'2: 0 1 2|'3: 1|
// A row of regions, the last of which is asked first.
points 2|region '1|region '2|region '3|region '4|next 0 1|base '1 0|base '1 1|constraint '4 '3 1|\
    constraint '3 '2 0|constraint '2 '1 0 ~ \
    'static: 0 1 end('static)|'1: 0 1|'2: 0 1|'3: 0 1|'4: 1|
";

// A universal region holds every point and its end; a path reaches the ends after a return point.
const ENDS: &str = "
// Universal regions stand first, without any line about them.
points 2|universal 'b|universal 'a|region 'r ~ \
    'static: 0 1 end('static)|'b: 0 1 end('b)|'a: 0 1 end('a)|'r:|
// Without a return.
points 2|universal 'a|universal 'b|next 0 1|next 1 0|constraint 'a 'b 0 ~ \
    'static: 0 1 end('static)|'a: 0 1 end('a)|'b: 0 1 end('b)|
// A return point with an edge goes on.
points 2|universal 'a|region 'r|return 0|next 0 1|constraint 'r 'a 0 ~ \
    'static: 0 1 end('static)|'a: 0 1 end('a)|'r: 0 1 end('a)|
// A return point behind the constraint's is not come to.
points 2|universal 'a|region 'r|return 0|next 0 1|constraint 'r 'a 1 ~ \
    'static: 0 1 end('static)|'a: 0 1 end('a)|'r: 1|
// Ends stand in the order of the universal regions, not in that of their names.
points 1|universal 'b|universal 'a|region 'r|return 0|constraint 'r 'a 0|constraint 'r 'static 0|\
    constraint 'r 'b 0 ~ \
    'static: 0 end('static)|'b: 0 end('b)|'a: 0 end('a)|'r: 0 end('static) end('b) end('a)|
";

// An end is passed on from region to region like a point after the return points.
const ENDS_PASSED_ON: &str = "
// A plain region passes ends on.
points 3|universal 'a|region 'r|region 's|next 0 1|next 1 2|return 2|constraint 's 'r 1|\
    constraint 'r 'a 0 ~ \
    'static: 0 1 2 end('static)|'a: 0 1 2 end('a)|'r: 0 1 2 end('a)|'s: 1 2 end('a)|
// An end behind a hole is not passed on.
points 3|universal 'a|region 'r|region 's|next 0 1|next 1 2|return 2|base 'r 0|\
    constraint 'r 'a 2|constraint 's 'r 0 ~ \
    'static: 0 1 2 end('static)|'a: 0 1 2 end('a)|'r: 0 2 end('a)|'s: 0|
// A region that holds the return points alone gives no end.
points 2|universal 'a|region 'r|next 0 1|return 1|base 'r 0|base 'r 1|constraint 'a 'r 0 ~ \
    'static: 0 1 end('static)|'a: 0 1 end('a)|'r: 0 1|
points 1|universal 'a|return 0|constraint 'static 'a 0 ~ \
    'static: 0 end('static) end('a)|'a: 0 end('a)|
";

// What is around the lines of a text.
const TEXT: Around<'static> = ("nll-facts 1|", "|end|");

// Ends the test unless these are the reports of the texts' values.
fn compare_values<R: Abort + AllocGlobal + Threads + Wait + Sync>(rt: &R, rows: &str) {
    compare_within(rt, Asked::Answer(Command::Values), TEXT, rows);
}

// Like `compare_values`, and unless the texts have no fault.
fn compare_without_fault<R: Abort + AllocGlobal + Threads + Wait + Sync>(rt: &R, rows: &str) {
    compare_values(rt, rows);
    compare_same(rt, Asked::Answer(Command::Check), TEXT, "ok|", rows);
}

// The report of a text's least values. Where there is no universal region but 'static, there is no
// fault.
#[test]
fn prints_values(rt: HostRuntime) {
    compare_without_fault(&rt, STATIC);
    compare_without_fault(&rt, PATHS);
    compare_without_fault(&rt, GAINS);
    compare_values(&rt, ENDS);
    compare_values(&rt, ENDS_PASSED_ON);
}
