//! The problems of worked texts, and of texts that ask for something in each way.
use super::problem_text::problem_told;
use nll_rules::one_problem;
use nll_worked::{
    ASSERTED, CALLED, DROPPED, FUNCTIONS, MOVED, REBORROW, RETURNED, TAKERS, TWO_BORROWS,
};

// Texts, and the problems of their bodies. Regions and points go by their numbers; constraints are
// sorted by the region that is outlived, the one that outlives it and the point.
const WORKED: &[(&str, &str)] = &[
    (
        TWO_BORROWS,
        "4 regions|base 1 1|base 1 2|base 1 4|base 1 5|2: 1 @ 1|3: 1 @ 4|",
    ),
    (
        REBORROW,
        "5 regions|base 1 0|base 2 0|base 4 1|1: 3 @ 1|2: 3 @ 1|3: 4 @ 1|",
    ),
    (DROPPED, "2 regions|base 1 0|base 1 1|"),
    (
        MOVED,
        "5 regions|base 1 0|base 2 0|base 3 1|base 4 1|4: 2 @ 1|1: 3 @ 1|2: 4 @ 1|",
    ),
    (RETURNED, "3 regions|base 1 1|base 2 0|2: 1 @ 1|"),
    (CALLED, "4 regions|base 1 0|base 2 1|3: 2 @ 1|1: 3 @ 1|"),
    (
        FUNCTIONS,
        "5 regions|base 1 0|base 2 0|base 3 1|base 4 1|3: 1 @ 1|2: 4 @ 1|",
    ),
    (
        TAKERS,
        "5 regions|base 1 0|base 2 0|base 3 1|base 4 1|1: 3 @ 1|2: 4 @ 1|",
    ),
    (
        ASSERTED,
        "5 regions|base 1 0|base 2 0|base 3 1|base 4 1|3: 1 @ all|4: 2 @ 1|1: 3 @ 1|2: 4 @ 1|",
    ),
];

const FURTHER: &[(&str, &str)] = &[
    // A reborrow goes on behind a `mut` reference, and stops behind a shared one.
    (
        "nll-mir 1|region 'a|region 'b|region 'r|region 's|let _0: int|let _1: &'a mut &'b int|\
        let _2: &'s int|blocks 1|block bb0|_2 = &'r _1.*.*|read _2.*|return|end|",
        "5 regions|base 1 0|base 2 0|base 4 1|2: 3 @ 1|3: 4 @ 1|",
    ),
    // An outlives fact, and one pair of regions at two points.
    (
        "nll-mir 1|universal 'a|universal 'b|outlives 'b 'a|let _0: &'a int|let _1: &'b int|\
        blocks 1|block bb0|_0 = copy _1|_0 = copy _1|return|end|",
        "3 regions|outlives 2 1|base 1 2|base 2 0|base 2 1|2: 1 @ 1|2: 1 @ 2|",
    ),
    // A struct of two operands: of a covariant and an invariant parameter.
    (
        "nll-mir 1|region 'a|region 'b|region 'c|region 'd|region 'e|\
        struct P<'x +, 'y => (&'x int, &'y int)|let _0: int|let _1: &'a int|let _2: P<'d, 'e>|\
        blocks 1|block bb0|_2 = make P<'b, 'c>(copy _1, copy _1)|read _2|return|end|",
        "6 regions|base 1 0|base 4 1|base 5 1|\
        1: 2 @ 1|1: 3 @ 1|5: 3 @ 1|2: 4 @ 1|3: 5 @ 1|",
    ),
    // A call with a pair of its own asks it, and of its result, in both blocks.
    (
        "nll-mir 1|region 'a|region 'b|let _0: int|let _1: &'a int|blocks 3|block bb0|\
        _1 = call f(): &'b int where 'a: 'b -> bb1 unwind bb2|block bb1|read _1|return|block bb2|\
        stop|end|",
        "3 regions|base 1 1|2: 1 @ 1|2: 1 @ 3|1: 2 @ 1|1: 2 @ 3|",
    ),
    // Two calls ask one constraint: it is there once.
    (
        "nll-mir 1|region 'a|region 'b|let _0: int|let _1: &'a int|blocks 4|block bb0|\
        switch const bb1 bb2|block bb1|_1 = call f(): &'b int -> bb3|block bb2|\
        _1 = call g(): &'b int -> bb3|block bb3|return|end|",
        "3 regions|2: 1 @ 3|",
    ),
    // A struct without parameters has `'static` in its field, which is copied and borrowed.
    (
        "nll-mir 1|region 'a|region 'r|region 's|struct S (&'static int)|let _0: int|let _1: S|\
        let _2: &'a int|let _3: &'s &'a int|blocks 1|block bb0|_2 = copy _1.0|_3 = &'r _1.0|\
        return|end|",
        "4 regions|0: 1 @ 1|0: 1 @ 2|2: 3 @ 2|",
    ),
    // Fields are copied to and fro: the first copy comes again, between others.
    (
        "nll-mir 1|region 'a|region 'b|struct S<'x +> (&'x int)|let _0: int|let _1: S<'a>|\
        let _2: S<'b>|blocks 1|block bb0|_1.0 = copy _2.0|_2.0 = copy _1.0|_1.0 = copy _2.0|\
        return|end|",
        "3 regions|base 1 0|base 1 1|base 1 2|base 2 0|base 2 1|base 2 2|\
        2: 1 @ 1|2: 1 @ 3|1: 2 @ 2|",
    ),
    // Fields are copied of variables of one type, and then of one of another type.
    (
        "nll-mir 1|region 'a|region 'b|region 'c|struct S<'x +> (&'x int)|let _0: int|\
        let _1: S<'a>|let _2: S<'b>|let _3: S<'b>|let _4: S<'c>|blocks 1|block bb0|\
        _1.0 = copy _2.0|_1.0 = copy _3.0|_1.0 = copy _4.0|return|end|",
        "4 regions|base 1 0|base 1 1|base 1 2|base 2 0|base 2 1|base 3 0|base 3 1|base 3 2|\
        2: 1 @ 1|2: 1 @ 2|3: 1 @ 3|",
    ),
    // A struct is made of variables of one type, and of one of another type.
    (
        "nll-mir 1|region 'a|region 'b|region 'c|region 'd|struct S<'x +> (&'x int)|let _0: int|\
        let _1: S<'a>|let _2: &'b int|let _3: &'b int|let _4: &'d int|blocks 1|block bb0|\
        _1 = make S<'c>(copy _2)|_1 = make S<'c>(copy _3)|_1 = make S<'c>(copy _4)|return|end|",
        "5 regions|base 2 0|base 2 1|base 4 0|base 4 1|base 4 2|\
        3: 1 @ 1|3: 1 @ 2|3: 1 @ 3|2: 3 @ 1|2: 3 @ 2|4: 3 @ 3|",
    ),
    // Calls differ in where they return, and the last one in a pair of its own.
    (
        "nll-mir 1|region 'a|region 'b|region 'c|struct S<'x +> (&'x int)|let _0: int|\
        let _1: S<'a>|blocks 4|block bb0|_1.0 = call f(): &'b int where 'c: 'b -> bb1|block bb1|\
        _1.0 = call f(): &'b int where 'c: 'b -> bb2|block bb2|\
        _1.0 = call f(): &'b int where 'b: 'c -> bb3|block bb3|return|end|",
        "4 regions|base 1 0|base 1 1|base 1 2|\
        2: 1 @ 1|2: 1 @ 2|2: 1 @ 3|3: 2 @ 1|3: 2 @ 2|2: 3 @ 3|",
    ),
    // A tuple of nine references of one region is copied twice.
    (
        "nll-mir 1|region 'a|region 'b|let _0: int|let _1: (&'a int, &'a int, &'a int, &'a int, \
        &'a int, &'a int, &'a int, &'a int, &'a int)|let _2: (&'b int, &'b int, &'b int, \
        &'b int, &'b int, &'b int, &'b int, &'b int, &'b int)|blocks 1|block bb0|_1 = copy _2|\
        _1 = copy _2|read _1|return|end|",
        "3 regions|base 1 2|base 2 0|base 2 1|2: 1 @ 1|2: 1 @ 2|",
    ),
    // Borrows of one field differ in their regions alone, and the first comes again.
    (
        "nll-mir 1|region 'a|region 'r|region 's|region 'b|region 'c|struct S<'x +> (&'x int)|\
        let _0: int|let _1: S<'a>|let _2: int|let _3: &'b &'c int|blocks 1|block bb0|\
        _3 = &'r _1.0|_3 = &'s _1.0|_3 = &'r _1.0|return|end|",
        "6 regions|base 1 0|base 1 1|base 1 2|2: 4 @ 1|2: 4 @ 3|3: 4 @ 2|\
        1: 5 @ 1|1: 5 @ 2|1: 5 @ 3|",
    ),
    // A field without regions is borrowed: the pair is of the references' own regions alone.
    (
        "nll-mir 1|region 'a|region 'r|struct B<T +> ((T, int))|let _0: int|let _1: B<int>|\
        let _2: &'a mut (int, int)|blocks 1|block bb0|_2 = &'r mut _1.0|return|end|",
        "3 regions|2: 1 @ 1|",
    ),
    // The region of a marked parameter is not held at a drop.
    (
        "nll-mir 1|region 'w|struct W<'x + ?> drop (&'x int)|let _0: int|let _1: W<'w>|blocks 2|\
        block bb0|nop|drop _1 -> bb1|block bb1|return|end|",
        "2 regions|",
    ),
];

// Texts of version 2.
const SECOND: &[(&str, &str)] = &[
    // An argument for a contravariant parameter, and one that may be left dangling.
    (
        "nll-mir 2|region '1|region '2|struct F<'x - >(fn(&'x int) -> int)|let _0: int|\
        let _1: F<'1>|let _2: F<'2>|blocks 1|block bb0|_2 = copy _1|return|end|",
        "3 regions|base 1 0|2: 1 @ 1|",
    ),
    // A function for a contravariant parameter: the sign is reversed twice.
    (
        "nll-mir 2|region '1|region '2|struct C<T - >(fn(T) -> int)|let _0: int|\
        let _1: C<fn(&'1 int) -> int>|let _2: C<fn(&'2 int) -> int>|blocks 1|block bb0|\
        _2 = copy _1|return|end|",
        "3 regions|base 1 0|1: 2 @ 1|",
    ),
    // Behind a `mut` reference an argument is invariant, and so is what is behind one in an
    // argument.
    (
        "nll-mir 2|region 'a|region '1|region 'b|region '2|let _0: int|\
        let _1: &'a mut fn(&'1 int) -> int|let _2: &'b mut fn(&'2 int) -> int|blocks 1|block bb0|\
        _2 = move _1|return|end|",
        "5 regions|base 1 0|base 2 0|4: 2 @ 1|1: 3 @ 1|2: 4 @ 1|",
    ),
    (
        "nll-mir 2|region '1|region '2|region '3|region '4|let _0: int|\
        let _1: fn(&'1 mut &'2 int) -> int|let _2: fn(&'3 mut &'4 int) -> int|blocks 1|block bb0|\
        _2 = copy _1|return|end|",
        "5 regions|base 1 0|base 2 0|3: 1 @ 1|4: 2 @ 1|2: 4 @ 1|",
    ),
    // Two arguments; of a function without arguments its result alone.
    (
        "nll-mir 2|region '1|region '2|region '3|region '4|let _0: int|\
        let _1: fn(&'1 int, &'2 int) -> int|let _2: fn(&'3 int, &'4 int) -> int|blocks 1|\
        block bb0|_2 = copy _1|return|end|",
        "5 regions|base 1 0|base 2 0|3: 1 @ 1|4: 2 @ 1|",
    ),
    (
        "nll-mir 2|region '1|region '2|let _0: int|let _1: fn() -> &'1 int|\
        let _2: fn() -> &'2 int|blocks 1|block bb0|_2 = copy _1|return|end|",
        "3 regions|base 1 0|1: 2 @ 1|",
    ),
    // A function has no drop regions; where a struct's own drop needs its argument, those that are
    // written in a function for it are held.
    (
        "nll-mir 2|region '1|let _0: int|let _1: fn(&'1 int) -> &'1 int|blocks 2|block bb0|nop|\
        drop _1 -> bb1|block bb1|return|end|",
        "2 regions|",
    ),
    (
        "nll-mir 2|region '1|region '2|struct D<T = > drop (T)|let _0: int|\
        let _1: D<fn(&'1 int) -> &'2 int>|blocks 2|block bb0|nop|drop _1 -> bb1|block bb1|return|\
        end|",
        "3 regions|base 1 0|base 1 1|base 2 0|base 2 1|",
    ),
    // What a body asserts is added to what its statements ask of the same regions, and is there
    // once; between universal regions too, and of one region by itself.
    (
        "nll-mir 2|universal 'u|universal 'v|region 'a|region 'b|assert 'a : 'b|assert 'u : 'v|\
        assert 'a : 'b|assert 'b : 'b|let _0: int|let _1: &'a int|let _2: &'b int|blocks 1|\
        block bb0|_2 = copy _1|return|end|",
        "5 regions|base 3 0|1: 2 @ all|3: 4 @ all|3: 4 @ 1|4: 4 @ all|",
    ),
    // A text of version 1 means in version 2 what it means in version 1.
    (
        "nll-mir 2|region '1|region '2|region '3|region '4|let _0: int|let _1: &'1 mut &'2 int|\
        let _2: &'3 mut &'4 int|blocks 1|block bb0|_2 = move _1|read _2.*.*|return|end|",
        "5 regions|base 1 0|base 2 0|base 3 1|base 4 1|4: 2 @ 1|1: 3 @ 1|2: 4 @ 1|",
    ),
];

#[test]
fn problems_are_found(rt: HostRuntime) {
    for rows in [WORKED, FURTHER, SECOND] {
        for (lines, want) in rows {
            match problem_told(rt.alloc(), lines) {
                Ok(told) => assert!(rt; told.as_str() == *want, "{lines}: {told}"),
                Err(_) => assert!(rt; false, "{lines}: memory"),
            }
        }
    }
}

// The law is a call that does nothing.
#[test]
fn states_a_law(_rt: HostRuntime) {
    one_problem();
}
