//! Texts that are refused: the line and the kind.
use super::rows::{Asked, compare_rows, compare_within};
use std::process::Abort;
use std::sync::Wait;
use std::thread::Threads;

// Whole texts with the line of the fault and its kind.
const TEXTS: &str = "
 ~ line 1: Header
| ~ line 1: Header
points 1|end| ~ line 1: Header
|nll-facts 1|points 1|end| ~ line 1: Header
# facts|nll-facts 1|points 1|end| ~ line 1: Header
nll-facts|points 1|end| ~ line 1: Header
nll-facts1|points 1|end| ~ line 1: Header
nll-facts 3|points 1|end| ~ line 1: Header
nll-facts 1 1|points 1|end| ~ line 1: Header
nll-facts 1 # one|points 1|end| ~ line 1: Header
nll-mir 1|points 1|end| ~ line 1: Header
NLL-FACTS 1|points 1|end| ~ line 1: Header
\u{feff}nll-facts 1|points 1|end| ~ line 1: Header
nll-facts 1 ^|points 1|end| ~ line 1: NotUtf8
nll-facts `|points 1|end| ~ line 1: NotUtf8
// A fault of the first line comes before all others.
nll-facts 3|^| ~ line 1: Header
nll-facts 1 ~ line 1: End
nll-facts 1| ~ line 1: End
nll-facts 1|| ~ line 2: End
nll-facts 1|points 1 ~ line 2: End
nll-facts 1|points 1| ~ line 2: End
nll-facts 1\r|points 1\r| ~ line 2: End
nll-facts 1|points 1||| ~ line 4: End
nll-facts 1|points 1|# end| ~ line 3: End
nll-facts 1|points 2|region 'x|return 1| ~ line 4: End
// As many points as the limit allows are taken, so the next line is faulty.
nll-facts 1|points 1048576|universal 'static|end| ~ line 3: Duplicate
// Blank lines and remarks count.
nll-facts 1||# one|points 0|end| ~ line 4: Range
// The first faulty line is told.
nll-facts 1|points 0|first|^| ~ line 2: Range
nll-facts 1|# ^|points 0| ~ line 2: NotUtf8
// A faulty line comes before an end that is lacking.
nll-facts 1|points 1|return 1| ~ line 3: Range
// All points, in version 1 and in version 2.
nll-facts 1|points 1|region 'x|constraint 'x 'x all|end| ~ line 4: Syntax
nll-facts 1|points 1|constraint 'x 'x all|end| ~ line 3: Syntax
nll-facts 2|points 1|region 'x|constraint 'x 'x all| ~ line 4: End
nll-facts 2|points 1|region 'x|constraint 'x 'x all|region 'y| ~ line 5: Syntax
nll-facts 2|points 1|region 'x|constraint 'x 'y all| ~ line 4: Unknown
nll-facts 2|points 1|region 'x|constraint 'x 'y 1| ~ line 4: Unknown
nll-facts 2|points 1|region 'x|constraint 'x 'x 1| ~ line 4: Range
nll-facts 2|points 1|region 'x|constraint 'x 'x all 0| ~ line 4: Syntax
nll-facts 2|points 1|region 'x|constraint 'x 'x all all| ~ line 4: Syntax
nll-facts 2|points 1|region 'x|constraint 'x 'x 'all| ~ line 4: Syntax
nll-facts 2|points 1|region 'x|constraint 'x 'x All| ~ line 4: Syntax
nll-facts 2|points 1|region 'x|constraint 'x 'x alls| ~ line 4: Syntax
nll-facts 2|points 1|region 'x|constraint 'x all| ~ line 4: Syntax
nll-facts 2|points 1|region 'x|base 'x all| ~ line 4: Syntax
nll-facts 2|points 1|next 0 all| ~ line 3: Syntax
nll-facts 2|points 1|return all| ~ line 3: Syntax
nll-facts 2|points all| ~ line 2: Syntax
";

// Lines that are faulty as the first line after the header.
const FIRST: &str = "
points ~ line 2: Syntax
points 1 1 ~ line 2: Syntax
points 'a ~ line 2: Syntax
points -1 ~ line 2: Syntax
points +1 ~ line 2: Syntax
points 01 ~ line 2: Syntax
points 00 ~ line 2: Syntax
points 1_0 ~ line 2: Syntax
points 0x1 ~ line 2: Syntax
points1 ~ line 2: Syntax
Points 1 ~ line 2: Syntax
points 1 # one ~ line 2: Syntax
points 1\0 ~ line 2: Syntax
points é ~ line 2: Syntax
points ^ ~ line 2: NotUtf8
points 0 ~ line 2: Range
points 1048577 ~ line 2: Limit(Points)
points 999999999 ~ line 2: Limit(Points)
points 1000000000 ~ line 2: Syntax
points 99999999999999999999 ~ line 2: Syntax
// Each other line wants the points before it.
universal 'a ~ line 2: Syntax
universal 'static ~ line 2: Syntax
outlives 'static 'static ~ line 2: Syntax
region 'x ~ line 2: Syntax
next 0 0 ~ line 2: Syntax
return 0 ~ line 2: Syntax
base 'static 0 ~ line 2: Syntax
constraint 'static 'static 0 ~ line 2: Syntax
end ~ line 2: Syntax
";

// Lines that are faulty after the points 0 and 1 and the universal region 'a.
const BEHIND_UNIVERSAL: &str = "
points 2 ~ line 4: Syntax
points 0 ~ line 4: Syntax
universal ~ line 4: Syntax
universal b ~ line 4: Syntax
universal ' ~ line 4: Syntax
universal ' b ~ line 4: Syntax
universal 'b 'c ~ line 4: Syntax
universal 'a' ~ line 4: Syntax
universal 'café ~ line 4: Syntax
universal 'caf` ~ line 4: NotUtf8
universal 'a ~ line 4: Duplicate
universal 'static ~ line 4: Duplicate
outlives 'a ~ line 4: Syntax
outlives 'a 'a 'a ~ line 4: Syntax
outlives 'a: 'a ~ line 4: Syntax
outlives 'z 'a ~ line 4: Unknown
outlives 'a 'z ~ line 4: Unknown
outlives 'A 'a ~ line 4: Unknown
region 'a ~ line 4: Duplicate
region 'static ~ line 4: Duplicate
";

// Lines that are faulty after the points 0 and 1, the universal region 'a and the region 'x.
const BEHIND_REGION: &str = "
universal 'b ~ line 5: Syntax
universal 'x ~ line 5: Syntax
outlives 'a 'a ~ line 5: Syntax
outlives 'z 'a ~ line 5: Syntax
region ~ line 5: Syntax
region y ~ line 5: Syntax
region 'y 1 ~ line 5: Syntax
region 'x ~ line 5: Duplicate
region 'a ~ line 5: Duplicate
next 0 ~ line 5: Syntax
next 0 1 1 ~ line 5: Syntax
next 0 -> 1 ~ line 5: Syntax
next 0, 1 ~ line 5: Syntax
next 0 1000000000 ~ line 5: Syntax
next 2 0 ~ line 5: Range
next 0 2 ~ line 5: Range
next 999999999 0 ~ line 5: Range
return ~ line 5: Syntax
return 0 1 ~ line 5: Syntax
return 'x ~ line 5: Syntax
return 2 ~ line 5: Range
base 'x ~ line 5: Syntax
base 0 'x ~ line 5: Syntax
base 'x 0 1 ~ line 5: Syntax
base 'x 01 ~ line 5: Syntax
base 'z 0 ~ line 5: Unknown
base 'x 2 ~ line 5: Range
base 'static 2 ~ line 5: Range
constraint 'a 'x ~ line 5: Syntax
constraint 'a 0 ~ line 5: Syntax
constraint 'a 'x 'x 0 ~ line 5: Syntax
constraint 'a 'z 0 ~ line 5: Unknown
constraint 'z 'a 0 ~ line 5: Unknown
constraint 'a 'x 2 ~ line 5: Range
end 0 ~ line 5: Syntax
end end ~ line 5: Syntax
ends ~ line 5: Syntax
'x ~ line 5: Syntax
* ~ line 5: Syntax
// Faulty in two ways.
base 'z 2 ~ line 5: Unknown
base 'z 02 ~ line 5: Syntax
constraint 'a 'z 2 ~ line 5: Unknown
constraint 'z 'x 2 ~ line 5: Unknown
# ^ ~ line 5: NotUtf8
- ^ ~ line 5: NotUtf8
points 0 ~ line 5: Syntax
";

// Lines that are faulty after a fact: with it all declarations are over.
const BEHIND_FACT: &str = "
points 2 ~ line 6: Syntax
universal 'a ~ line 6: Syntax
outlives 'a 'a ~ line 6: Syntax
region 'y ~ line 6: Syntax
region 'x ~ line 6: Syntax
next 0 2 ~ line 6: Range
return 2 ~ line 6: Range
";

// Lines that are faulty after the last line.
const BEHIND_END: &str = "
end ~ line 6: Syntax
points 1 ~ line 6: Syntax
region 'y ~ line 6: Syntax
next 0 0 ~ line 6: Syntax
return 2 ~ line 6: Syntax
base 'z 0 ~ line 6: Syntax
x ~ line 6: Syntax
nll-facts 1 ~ line 6: Syntax
# ^ ~ line 6: NotUtf8
";

// Tries lines after lines that are right, each as the last one and before a further line.
fn compare_behind<R: Abort + AllocGlobal + Threads + Wait + Sync>(
    rt: &R,
    before: &str,
    faulty: &str,
) {
    compare_within(rt, Asked::Said, (before, ""), faulty);
    compare_within(rt, Asked::Said, (before, "\r|end|"), faulty);
}

// A text that isn't valid has this fault; a faulty line is refused with this kind, whether it is
// the last one or a further line follows.
#[test]
fn refuses_texts(rt: HostRuntime) {
    compare_rows(&rt, Asked::Said, TEXTS);
    compare_behind(&rt, "nll-facts 1|", FIRST);
    let before = "nll-facts 1|points 2|universal 'a|";
    compare_behind(&rt, before, BEHIND_UNIVERSAL);
    let before = "nll-facts 1|points 2|universal 'a|region 'x|";
    compare_behind(&rt, before, BEHIND_REGION);
    let before = "nll-facts 1|points 2|universal 'a|region 'x|next 0 1|";
    compare_behind(&rt, before, BEHIND_FACT);
    let before = "nll-facts 1|points 2|region 'x|end||";
    compare_behind(&rt, before, BEHIND_END);
}
