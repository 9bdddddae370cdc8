//! Where the variables of worked texts are live, and the base elements that regions get of it.
use super::live_text::live_by_both;
use nll_worked::{CALLED, DROPPED, MOVED, REBORROW, RETURNED, TWO_BORROWS, text_of};
use std::alloc::Global;
use std::process::Abort;

// Texts; then for each variable the points where it is use-live, and after `;` those where it is
// drop-live; and the pairs of a region and a point that is one of its base elements. Points are
// numbered in the order of their lines.
const ROWS: &[(&str, &str)] = &[
    (
        TWO_BORROWS,
        "_0: 0 1 2 3 4 5 6;|_1: 0;|_2: 0 1 2 3;|_3: 1 2 4 5;|(1, 1)(1, 2)(1, 4)(1, 5)",
    ),
    (REBORROW, "_0: 0 1 2;|_1: 0;|_2: 1;|(1, 0)(2, 0)(4, 1)"),
    (DROPPED, "_0: 0 1 2;|_1:; 0 1|(1, 0)(1, 1)"),
    (MOVED, "_0: 0 1 2;|_1: 0;|_2: 1;|(1, 0)(2, 0)(3, 1)(4, 1)"),
    // The return place has a region too.
    (RETURNED, "_0: 1;|_1: 0;|(1, 1)(2, 0)"),
    (CALLED, "_0: 0 1 2;|_1: 0;|_2: 1;|(1, 0)(2, 1)"),
    // ---- a struct is dropped

    // The drop doesn't need the region of a marked parameter.
    (
        "nll-mir 1|region 'w|struct W<'x + ?> drop (&'x int)|let _0: int|let _1: W<'w>|blocks 2|\
        block bb0|nop|drop _1 -> bb1|block bb1|return|end|",
        "_0: 0 1 2;|_1:; 0 1|",
    ),
    // What defines the variable ends the range.
    (
        "nll-mir 1|region 'w|struct W<'x +> drop (&'x int)|let _0: int|let _1: W<'w>|blocks 2|\
        block bb0|live _1|drop _1 -> bb1|block bb1|return|end|",
        "_0: 0 1 2;|_1:; 1|(1, 1)",
    ),
    // A struct without a drop of its own drops its fields.
    (
        "nll-mir 1|region 'w|struct W<'x +> drop (&'x int)|struct V<'y +> (W<'y>)|let _0: int|\
        let _1: V<'w>|blocks 2|block bb0|nop|drop _1 -> bb1|block bb1|return|end|",
        "_0: 0 1 2;|_1:; 0 1|(1, 0)(1, 1)",
    ),
    // So does a tuple, of which a reference is nothing to drop.
    (
        "nll-mir 1|region 'a|region 'b|struct W<'x +> drop (&'x int)|let _0: int|\
        let _1: (W<'b>, &'a int)|blocks 2|block bb0|drop _1 -> bb1|block bb1|return|end|",
        "_0: 0 1;|_1:; 0|(2, 0)",
    ),
    (
        "nll-mir 1|region 'a|let _0: int|let _1: &'a int|blocks 2|block bb0|drop _1 -> bb1|\
        block bb1|return|end|",
        "_0: 0 1;|_1:; 0|",
    ),
    // The fields of a struct with a drop of its own are dropped too, marked or not.
    (
        "nll-mir 1|region 'a|struct W<'x +> drop (&'x int)|struct D<T + ?> drop (T)|let _0: int|\
        let _1: D<W<'a>>|blocks 2|block bb0|drop _1 -> bb1|block bb1|return|end|",
        "_0: 0 1;|_1:; 0|(1, 0)",
    ),
    // A variable that is used and then dropped asks for what both ask for, once.
    (
        "nll-mir 1|region 'a|struct W<'x +> drop (&'x int)|let _0: int|let _1: W<'a>|blocks 2|\
        block bb0|read _1|drop _1 -> bb1|block bb1|return|end|",
        "_0: 0 1 2;|_1: 0; 0 1|(1, 0)(1, 1)",
    ),
    // A drop that unwinds leads to both blocks.
    (
        "nll-mir 1|region 'a|region 'b|struct W<'x +> drop (&'x int)|let _0: int|let _1: W<'a>|\
        let _2: &'b int|blocks 3|block bb0|drop _1 -> bb1 unwind bb2|block bb1|return|block bb2|\
        read _2|stop|end|",
        "_0: 0 1;|_1:; 0|_2: 0 2;|(1, 0)(2, 0)(2, 2)",
    ),
    // ---- variables are used and defined

    // Round a loop, up to the definition in front of it.
    (
        "nll-mir 1|region 'a|let _0: int|let _1: &'a int|blocks 3|block bb0|_1 = &'a _0|goto bb1|\
        block bb1|read _1|switch copy _0 bb1 bb2|block bb2|return|end|",
        "_0: 0 1 2 3 4;|_1: 1 2 3;|(1, 1)(1, 2)(1, 3)",
    ),
    // Round a loop, up to the definition in it.
    (
        "nll-mir 1|region 'a|let _0: int|let _1: &'a int|blocks 1|block bb0|read _1|_1 = &'a _0|\
        goto bb0|end|",
        "_0: 0 1 2;|_1: 0 2;|(1, 0)(1, 2)",
    ),
    // A point that uses and defines a variable uses it.
    (
        "nll-mir 1|region 'a|let _0: int|let _1: &'a int|blocks 1|block bb0|_1 = copy _1|read _1|\
        return|end|",
        "_0: 0 1 2;|_1: 0 1;|(1, 0)(1, 1)",
    ),
    // To assign to a part of a variable is to use it.
    (
        "nll-mir 1|region 'a|let _0: int|let _1: (int, &'a int)|blocks 1|block bb0|nop|\
        _1.0 = const|return|end|",
        "_0: 0 1 2;|_1: 0 1;|(1, 0)(1, 1)",
    ),
    // A use after a definition has no effect before it.
    (
        "nll-mir 1|region 'a|let _0: int|let _1: &'a int|blocks 1|block bb0|nop|dead _1|read _1|\
        return|end|",
        "_0: 0 1 2 3;|_1: 2;|(1, 2)",
    ),
    // A call defines its target for both blocks.
    (
        "nll-mir 1|region 'a|let _0: int|let _1: &'a int|blocks 3|block bb0|\
        _1 = call f(): &'a int -> bb1 unwind bb2|block bb1|read _1|return|block bb2|read _1|stop|\
        end|",
        "_0: 0 1 2;|_1: 1 3;|(1, 1)(1, 3)",
    ),
    // A region of two variables has the points of both, each once.
    (
        "nll-mir 1|region 'a|let _0: int|let _1: &'a int|let _2: &'a int|blocks 1|block bb0|\
        read _1|read _2|return|end|",
        "_0: 0 1 2;|_1: 0;|_2: 0 1;|(1, 0)(1, 1)",
    ),
    // 'static occurs in types as other regions do.
    (
        "nll-mir 1|let _0: int|let _1: &'static int|blocks 1|block bb0|read _1.*|return|end|",
        "_0: 0 1;|_1: 0;|(0, 0)",
    ),
    // No path leads out of an endless loop, nor on from a stop.
    (
        "nll-mir 1|region 'a|let _0: &'a int|blocks 3|block bb0|goto bb0|block bb1|stop|block bb2|\
        return|end|",
        "_0: 2;|(1, 2)",
    ),
];

// Both programs report what is expected of a text.
fn assert_told(rt: &impl Abort, alloc: Global, lines: &str, want: &str) {
    let Ok(text) = text_of(alloc, lines) else {
        assert!(rt; false, "{lines}: memory");
        return;
    };
    let told = live_by_both(alloc, text.as_slice());
    drop(text);
    match told {
        Ok((told, plain)) => {
            assert!(rt; told.as_str() == want, "{lines}: {told}");
            assert!(rt; plain.as_str() == want, "{lines}: plainly {plain}");
        }
        Err(error) => assert!(rt; false, "{lines}: {error}"),
    }
}

// Where variables are live, and the base elements.
#[test]
fn liveness_is_told(rt: HostRuntime) {
    for (lines, want) in ROWS {
        assert_told(&rt, rt.alloc(), lines, want);
    }
}
