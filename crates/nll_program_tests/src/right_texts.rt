//! Texts that fit, and what they say.
use super::comparison::compare;
use super::problem_text::point_told;
use super::rows::{Asked, compare_rows};
use nll_facts::{facts_not_both, facts_one_fault, facts_one_meaning, facts_some_meaning_or_fault};
use nll_report::{no_text_has_both, one_text_fault, one_text_meaning};

// Texts, and what they say.
const MEANT: &str = "
nll-facts 1|points 1|end| ~ points 1|universal 'static|
// No line feed at the end.
nll-facts 1|points 1|end ~ points 1|universal 'static|
// A header and lines between blanks, and lines that end in CR LF.
\t nll-facts\t\t 1 \r|  points\t2\r|\tregion 'x\r|next 0 1\r|end\r| ~ \
    points 2|universal 'static|region 'x|next 0 1|
// Tokens need no blank between them where they can't be one.
nll-facts 1|points 2|universal'a|region'x|base'x 1|constraint'a'x 0|end| ~ \
    points 2|universal 'static|universal 'a|region 'x|base 'x 1|constraint 'a 'x 0|
// Remarks and blank lines anywhere behind the header.
nll-facts 1||# end|points 1| \t\r|\t# café -|region 'x|#|end||# points 0| ~ \
    points 1|universal 'static|region 'x|
// The points alone are needed.
nll-facts 1|points 2|return 1|end| ~ points 2|universal 'static|return 1|
nll-facts 1|points 1|universal 'a|return 0|constraint 'a 'static 0|end| ~ \
    points 1|universal 'static|universal 'a|return 0|constraint 'a 'static 0|
nll-facts 1|points 3|region 'p|region 'x|region 'y|next 0 1|next 1 2|return 2|base 'p 1|\
    base 'p 2|constraint 'x 'p 1|constraint 'y 'p 0|end| ~ \
    points 3|universal 'static|region 'p|region 'x|region 'y|next 0 1|next 1 2|return 2|\
    base 'p 1|base 'p 2|constraint 'x 'p 1|constraint 'y 'p 0|
// The lines of facts in any order; a point that returns and has an edge, to itself.
nll-facts 1|points 2|universal 'b|universal 'a|outlives 'a 'b|region 'x|constraint 'x 'a 1|\
    return 0|base 'x 0|next 1 0|next 0 0|end| ~ \
    points 2|universal 'static|universal 'b|universal 'a|region 'x|next 0 0|return 0|next 1 0|\
    base 'x 0|constraint 'x 'a 1|
// Facts that are said twice.
nll-facts 1|points 2|region 'x|next 0 1|return 1|base 'x 1|constraint 'x 'x 0|next 0 1|return 1|\
    base 'x 1|constraint 'x 'x 0|end| ~ \
    points 2|universal 'static|region 'x|next 0 1|return 1|base 'x 1|constraint 'x 'x 0|
// A base fact of a universal region says nothing new.
nll-facts 1|points 2|universal 'a|base 'static 1|base 'a 0|end| ~ \
    points 2|universal 'static|universal 'a|
// The format's words, digits and `_` are names, and capital letters are others than small ones.
nll-facts 1|points 1|universal 'end|universal 'Static|region '0|region '_|region 'a|region 'A|\
    region 'a_1|base 'A 0|end| ~ \
    points 1|universal 'static|universal 'end|universal 'Static|region '0|region '_|region 'a|\
    region 'A|region 'a_1|base 'A 0|
// The last point.
nll-facts 1|points 12|region 'x|next 11 10|return 11|base 'x 11|constraint 'x 'x 11|end| ~ \
    points 12|universal 'static|region 'x|next 11 10|return 11|base 'x 11|constraint 'x 'x 11|
";

// Like `MEANT`, for version 2: what version 1 has, and constraints at all points.
const MEANT_BY_SECOND: &str = "
nll-facts 2|points 1|end| ~ points 1|universal 'static|
nll-facts 2|points 2|region 'x|next 0 1|return 1|base 'x 1|constraint 'x 'x 0|end| ~ \
    points 2|universal 'static|region 'x|next 0 1|return 1|base 'x 1|constraint 'x 'x 0|
nll-facts 2|points 1|region 'x|constraint 'x 'x all|end| ~ \
    points 1|universal 'static|region 'x|constraint 'x 'x all|
\tnll-facts\t2\r|points 1|region 'x|constraint'x'x\tall \r|end| ~ \
    points 1|universal 'static|region 'x|constraint 'x 'x all|
// All points are none of the points, and said twice they are said once.
nll-facts 2|points 2|region 'x|constraint 'x 'x 1|constraint 'x 'x all|constraint 'x 'x 0|\
    constraint 'x 'x all|end| ~ \
    points 2|universal 'static|region 'x|constraint 'x 'x 1|constraint 'x 'x all|\
    constraint 'x 'x 0|
// A region may have this name.
nll-facts 2|points 1|region 'all|constraint 'all 'all all|constraint 'all 'all 0|end| ~ \
    points 1|universal 'static|region 'all|constraint 'all 'all all|constraint 'all 'all 0|
";

// A valid text says this, and nothing else.
#[test]
fn reads_texts(rt: HostRuntime) {
    compare_rows(&rt, Asked::Said, MEANT);
    compare_rows(&rt, Asked::Said, MEANT_BY_SECOND);
}

// Facts texts name points by their numbers.
#[test]
fn names_points_by_their_numbers(rt: HostRuntime) {
    let told = point_told(&rt, rt.alloc(), b"nll-facts 1\npoints 12\nend\n", 11);
    compare(&rt, "a point", told, b"Number(11)");
}

// The laws are calls that do nothing.
#[test]
fn states_laws(_rt: HostRuntime) {
    facts_one_meaning();
    facts_one_fault();
    facts_not_both();
    facts_some_meaning_or_fault();
    one_text_fault();
    one_text_meaning();
    no_text_has_both();
}
