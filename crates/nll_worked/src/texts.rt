//! MIR texts, with `|` in place of each line feed.

/// A reference of one region is lent twice, on two ways to one point.
pub const TWO_BORROWS: &str = "nll-mir 1|region 'p|region 'foo|region 'bar|let _0: int|\
    let _1: int|let _2: int|let _3: &'p int|blocks 3|block bb0|_3 = &'foo _1|\
    switch copy _2 bb1 bb2|block bb1|read _3.*|_3 = &'bar _2|goto bb2|block bb2|read _3.*|return|\
    end|";

/// A borrow of what is behind two references.
pub const REBORROW: &str = "nll-mir 1|region 'a|region 'b|region 'r|region 's|let _0: int|\
    let _1: &'a mut &'b mut int|let _2: &'s int|blocks 1|block bb0|_2 = &'r _1.*.*|read _2.*|\
    return|end|";

/// A struct with a drop of its own is dropped.
pub const DROPPED: &str = "nll-mir 1|region 'w|struct W<'x +> drop (&'x int)|let _0: int|\
    let _1: W<'w>|blocks 2|block bb0|nop|drop _1 -> bb1|block bb1|return|end|";

/// A reference to a reference is moved.
pub const MOVED: &str = "nll-mir 1|region '1|region '2|region '3|region '4|let _0: int|\
    let _1: &'1 mut &'2 int|let _2: &'3 mut &'4 int|blocks 1|block bb0|_2 = move _1|read _2.*.*|\
    return|end|";

/// A reference is returned as one of another universal region.
pub const RETURNED: &str = "nll-mir 1|universal 'a|universal 'b|let _0: &'a int|let _1: &'b int|\
    blocks 1|block bb0|_0 = copy _1|return|end|";

/// A function is copied: of version 2.
pub const FUNCTIONS: &str = "nll-mir 2|region '1|region '2|region '3|region '4|let _0: int|\
    let _1: fn(&'1 int) -> &'2 int|let _2: fn(&'3 int) -> &'4 int|blocks 1|block bb0|\
    _2 = copy _1|read _2|return|end|";

/// A function is copied that takes functions: of version 2.
pub const TAKERS: &str = "nll-mir 2|region '1|region '2|region '3|region '4|let _0: int|\
    let _1: fn(fn(&'1 int) -> int) -> &'2 int|let _2: fn(fn(&'3 int) -> int) -> &'4 int|blocks 1|\
    block bb0|_2 = copy _1|read _2|return|end|";

/// A reference to a reference is moved, and one of its new regions is to hold all that an old one
/// holds: of version 2.
pub const ASSERTED: &str = "nll-mir 2|region '1|region '2|region '3|region '4|assert '3 : '1|\
    let _0: int|let _1: &'1 mut &'2 int|let _2: &'3 mut &'4 int|blocks 1|block bb0|_2 = move _1|\
    read _2.*.*|return|end|";

/// A function is called.
pub const CALLED: &str = "nll-mir 1|region 'a|region 'b|region 'c|let _0: int|let _1: &'a int|\
    let _2: &'b int|blocks 2|block bb0|_2 = call f(copy _1: &'c int): &'c int -> bb1|block bb1|\
    read _2.*|return|end|";
