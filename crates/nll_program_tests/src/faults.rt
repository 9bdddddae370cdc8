//! Reports of faults, which were found by hand from the definitions.
use super::rows::{Around, Asked, compare_within};
use nll_report::Command;
use std::process::Abort;
use std::sync::Wait;
use std::thread::Threads;

// A fault is an end that a universal region holds without being known to outlive its region.
const A_FAULT: &str = "
next 0 1|return 1|constraint 'a 'b 0 ~ fault 'a must outlive 'b|status 1
outlives 'b 'a|next 0 1|return 1|constraint 'a 'b 0 ~ fault 'a must outlive 'b|status 1
outlives 'a 'b|next 0 1|return 1|constraint 'a 'b 0 ~ ok|
outlives 'a 'b|outlives 'a 'b|return 1|constraint 'a 'b 1 ~ ok|
// By two facts, in either order, or by one too few.
outlives 'a 'c|outlives 'c 'b|return 1|constraint 'a 'b 1 ~ ok|
outlives 'c 'b|outlives 'a 'c|return 1|constraint 'a 'b 1 ~ ok|
outlives 'a 'c|return 1|constraint 'a 'b 1 ~ fault 'a must outlive 'b|status 1
outlives 'b 'c|outlives 'c 'a|return 1|constraint 'a 'b 1 ~ fault 'a must outlive 'b|status 1
";

// 'static outlives all, and nothing is known to outlive it but by a line.
const ABOVE_STATIC: &str = "
next 0 1|return 1|constraint 'static 'b 0 ~ ok|
next 0 1|return 1|constraint 'a 'static 0 ~ fault 'a must outlive 'static|status 1
outlives 'static 'a|return 1|constraint 'a 'static 1 ~ fault 'a must outlive 'static|status 1
outlives 'a 'static|return 1|constraint 'a 'static 1 ~ ok|
outlives 'a 'static|return 1|constraint 'a 'b 1 ~ ok|
outlives 'a 'b|outlives 'b 'static|return 1|constraint 'a 'c 1 ~ ok|
";

// Where a fault might be looked for, and none is.
const NO_FAULT: &str = "
// Each region outlives itself, and two may outlive each other.
outlives 'a 'a|return 1|constraint 'a 'a 1 ~ ok|
outlives 'a 'b|outlives 'b 'a|return 1|constraint 'a 'b 1|constraint 'b 'a 1 ~ ok|
// Where no return point is come to.
next 0 1|next 1 0|constraint 'a 'b 0 ~ ok|
constraint 'a 'b 1 ~ ok|
return 0|next 0 1|constraint 'a 'b 1 ~ ok|
";

// Faults are ordered by the region that holds the end, then by that of the end, both in region
// order.
const IN_ORDER: &str = "
points 1|universal 'a|universal 'b|universal 'c|return 0|constraint 'c 'b 0|constraint 'b 'a 0|\
    constraint 'a 'c 0 ~ \
    fault 'a must outlive 'b|fault 'a must outlive 'c|fault 'b must outlive 'a|\
    fault 'b must outlive 'c|fault 'c must outlive 'a|fault 'c must outlive 'b|status 1
// The order is that of the lines, not of the names; 'static stands first.
points 1|universal 'b|universal 'a|return 0|constraint 'a 'b 0|constraint 'b 'static 0 ~ \
    fault 'b must outlive 'static|fault 'a must outlive 'static|fault 'a must outlive 'b|status 1
points 1|universal 'b|universal 'a|outlives 'a 'b|return 0|constraint 'a 'b 0|\
    constraint 'b 'static 0 ~ \
    fault 'b must outlive 'static|fault 'a must outlive 'static|status 1
points 1|universal 'b|universal 'a|outlives 'a 'static|return 0|constraint 'a 'b 0|\
    constraint 'b 'static 0 ~ \
    fault 'b must outlive 'static|status 1
// A fault that comes through plain regions is told of universal regions alone.
points 3|universal 'a|universal 'b|region 'r|next 0 1|next 1 2|return 2|base 'r 0|base 'r 1|\
    constraint 'r 'a 2|constraint 'b 'r 0 ~ \
    fault 'b must outlive 'a|status 1
// A hole keeps it off.
points 3|universal 'a|universal 'b|region 'r|next 0 1|next 1 2|return 2|base 'r 0|\
    constraint 'r 'a 2|constraint 'b 'r 0 ~ \
    ok|
";

// What is around the lines of a text, and around those after two points and three universal
// regions.
const TEXT: Around<'static> = ("nll-facts 1|", "|end|");

const THREE: Around<'static> = (
    "nll-facts 1|points 2|universal 'a|universal 'b|universal 'c|",
    "|end|",
);

// Ends the test unless these are the reports of the texts' faults.
fn compare_faults<R: Abort + AllocGlobal + Threads + Wait + Sync>(rt: &R, rows: &str) {
    compare_within(rt, Asked::Answer(Command::Check), THREE, rows);
}

// Whether a universal region holds the end of one that it isn't known to outlive; and all faults of
// a text, in their order.
#[test]
fn finds_faults(rt: HostRuntime) {
    compare_faults(&rt, A_FAULT);
    compare_faults(&rt, ABOVE_STATIC);
    compare_faults(&rt, NO_FAULT);
    compare_within(&rt, Asked::Answer(Command::Check), TEXT, IN_ORDER);
}
