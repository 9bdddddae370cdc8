//! Bodies of worked texts: regions, points, edges, and what is used, defined and dropped.
use super::body_text::{Asked, compare_lines};
use nll_worked::{ASSERTED, CALLED, DROPPED, MOVED, REBORROW, RETURNED, TWO_BORROWS};

// Texts, and the bodies that they mean.
const BODIES: &[(&str, &str)] = &[
    (
        TWO_BORROWS,
        "universal 'static|region 'p|region 'foo|region 'bar|4 variables|\
        bb0/0 to 1 uses 1 defines 3|bb0/1 to 2 5 uses 2|bb1/0 to 3 uses 3|\
        bb1/1 to 4 uses 2 defines 3|bb1/2 to 5|bb2/0 to 6 uses 3|bb2/1 returns uses 0|",
    ),
    (
        REBORROW,
        "universal 'static|region 'a|region 'b|region 'r|region 's|3 variables|\
        bb0/0 to 1 uses 1 defines 2|bb0/1 to 2 uses 2|bb0/2 returns uses 0|",
    ),
    (
        DROPPED,
        "universal 'static|region 'w|2 variables|\
        bb0/0 to 1|bb0/1 to 2 drops 1|bb1/0 returns uses 0|",
    ),
    (
        MOVED,
        "universal 'static|region '1|region '2|region '3|region '4|3 variables|\
        bb0/0 to 1 uses 1 defines 2|bb0/1 to 2 uses 2|bb0/2 returns uses 0|",
    ),
    (
        RETURNED,
        "universal 'static|universal 'a|universal 'b|2 variables|\
        bb0/0 to 1 uses 1 defines 0|bb0/1 returns uses 0|",
    ),
    (
        CALLED,
        "universal 'static|region 'a|region 'b|region 'c|3 variables|\
        bb0/0 to 1 uses 1 defines 2|bb1/0 to 2 uses 2|bb1/1 returns uses 0|",
    ),
    // Blanks may be between any two tokens, and are needed only between words.
    (
        SPACED,
        "universal 'static|region 'w|2 variables|\
        bb0/0 to 1|bb0/1 to 2 drops 1|bb1/0 returns uses 0|",
    ),
    // A repeated line says nothing new.
    (
        OUTLIVING,
        "universal 'static|universal 'a|universal 'b|region 'c|\
        outlives 2 1|outlives 1 0|1 variables|bb0/0|",
    ),
    (
        ASSERTED,
        "universal 'static|region '1|region '2|region '3|region '4|assert 3 1|3 variables|\
        bb0/0 to 1 uses 1 defines 2|bb0/1 to 2 uses 2|bb0/2 returns uses 0|",
    ),
    (
        ASSERTING,
        "universal 'static|universal 'a|region 'b|outlives 1 0|assert 2 1|assert 1 2|assert 0 0|\
        1 variables|bb0/0|",
    ),
];

// The text in which a struct is dropped, with other blanks, remarks and empty lines.
const SPACED: &str = "\tnll-mir \t 1\r|  | # the region of a W|region\t'w\r||\
    struct W < 'x+ > drop(& 'x int)|let _0:int|let _1 : W<'w>|blocks   2|\tblock bb0|nop\r|\
    #||drop _1->bb1|# the other block|block bb1|return|end\t|  |# no more|";

// A body in which two universal regions are known to outlive others, one of them by two lines.
const OUTLIVING: &str = "nll-mir 1|universal 'a|universal 'b|outlives 'b 'a|outlives 'a 'static|\
    outlives 'b 'a|region 'c|let _0: &'c int|blocks 1|block bb0|stop|end|";

// A body that asserts something of regions of both kinds, once by two lines.
const ASSERTING: &str = "nll-mir 2|universal 'a|outlives 'a 'static|region 'b|assert 'b : 'a|\
    assert'a:'b|assert 'b : 'a|assert 'static : 'static|let _0: int|blocks 1|block bb0|stop|end|";

// The bodies of worked texts.
#[test]
fn bodies_are_read(rt: HostRuntime) {
    for (text, want) in BODIES {
        compare_lines(&rt, rt.alloc(), Asked::All, text, want);
    }
}
