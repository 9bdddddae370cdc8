//! MIR texts with a fault: the line, and the first kind of fault that it has.
use super::body_text::{Asked, read};
use super::comparison::compare;
use super::rows::{Table, compare_tables};
use nll_mir_text::is_mir_header;
use std::process::Abort;

// Texts whose lines end with `|`, and their faults: of order, and of a text's ends.
const ORDER: &str = "
 ~ line 1: Header
nll-facts 1| ~ line 1: Header
nll-mir 2 ~ line 1: End
nll-mir 2| ~ line 1: End
nll-mir 3| ~ line 1: Header
nll-mir 12| ~ line 1: Header
nll-mir 1 ~ line 1: End
nll-mir 1|# a comment|| ~ line 3: End
nll-mir 1|end| ~ line 2: Syntax
nll-mir 1|blocks 1| ~ line 2: Syntax
nll-mir 1|block bb0| ~ line 2: Syntax
nll-mir 1|nop| ~ line 2: Syntax
nll-mir 1|region 'a|universal 'b| ~ line 3: Syntax
nll-mir 1|region 'a|outlives 'static 'static| ~ line 3: Syntax
nll-mir 1|let _0: int|struct S()| ~ line 3: Syntax
nll-mir 1|let _0: int|blocks 1|blocks 1| ~ line 4: Syntax
nll-mir 1|let _0: int|blocks 1|let _1: int| ~ line 4: Syntax
nll-mir 1|let _0: int|blocks 1|nop| ~ line 4: Syntax
nll-mir 1|let _0: int|blocks 1|end| ~ line 4: Range
nll-mir 1|let _0: int|blocks 1|block bb0|end| ~ line 5: Syntax
nll-mir 1|let _0: int|blocks 1|block bb0|block bb1| ~ line 5: Syntax
nll-mir 1|let _0: int|blocks 1|block bb0|stop|nop| ~ line 6: Syntax
nll-mir 1|let _0: int|blocks 1|block bb0|stop|stop| ~ line 6: Syntax
nll-mir 1|let _0: int|blocks 1|block bb0|stop|end|end| ~ line 7: Syntax
nll-mir 1|let _0: int|blocks 1|block bb0|stop| ~ line 5: End
";

// Declarations after the header, and their faults.
const DECLARATIONS: &str = "
universal 'static| ~ line 2: Duplicate
universal 'a|universal 'a| ~ line 3: Duplicate
universal 'a|region 'a| ~ line 3: Duplicate
region 'a|region 'a| ~ line 3: Duplicate
universal 'a|outlives 'a 'b| ~ line 3: Unknown
outlives 'static 'a| ~ line 2: Unknown
// The regions of a struct's fields are 'static and its own.
region 'a|struct S(&'a int)| ~ line 3: Unknown
struct S(&'static int)| ~ line 2: End
struct S<'a +>(&'a int)| ~ line 2: End
region 'a|struct S<'a +>(&'a int)| ~ line 3: End
struct S<'static +>(int)| ~ line 2: Duplicate
struct S<'a +, 'a =>(int)| ~ line 2: Duplicate
struct S<T +, T =>(int)| ~ line 2: Duplicate
struct S<S +>(int)| ~ line 2: Duplicate
struct S()|struct S()| ~ line 3: Duplicate
struct T()|struct S<T +>(int)| ~ line 3: Duplicate
// An unknown name is told before a name that is declared twice.
struct S<T +, T =>(U)| ~ line 2: Unknown
struct S<'a +, 'a =>(&'b int)| ~ line 2: Unknown
struct S<T +, T =>(T)| ~ line 2: Duplicate
// A struct isn't known in its own fields.
struct S(S)| ~ line 2: Unknown
struct S(T)|struct T()| ~ line 2: Unknown
struct T()|struct S(T)| ~ line 3: End
// Arguments are as many as the parameters, and of their kinds.
struct T<'a +>()|struct S(T)| ~ line 3: Shape
struct T<'a +>()|struct S(T<int>)| ~ line 3: Shape
struct T<'a +, U =>()|struct S(T<int, 'static>)| ~ line 3: Shape
struct T<'a +, U =>()|struct S(T<'static>)| ~ line 3: Shape
struct T<'a +, U =>()|struct S(T<'static, int>)| ~ line 3: End
struct S<T +>(T<int>)| ~ line 2: Shape
// A name that is declared twice is told before arguments that don't fit.
struct T<'a +>()|struct S<U +, U +>(T)| ~ line 3: Duplicate
struct t()| ~ line 2: Syntax
struct S<>()| ~ line 2: Syntax
struct S<T>()| ~ line 2: Syntax
struct S<T -> ()| ~ line 2: Syntax
struct S| ~ line 2: Syntax
let _1: int| ~ line 2: Range
let _0: int|let _2: int| ~ line 3: Range
let _0: int|let _0: int| ~ line 3: Range
let _0: T| ~ line 2: Unknown
let _1: T| ~ line 2: Unknown
let _0: &'a int| ~ line 2: Unknown
struct S<'a +>()|let _1: S| ~ line 3: Range
struct S<'a +>()|let _0: S| ~ line 3: Shape
let _0: fn| ~ line 2: Syntax
let _0: int|blocks 0| ~ line 3: Range
let _0: int|blocks 1048577| ~ line 3: Limit(Points)
let _0: int|blocks 01| ~ line 3: Syntax
let _0: int|blocks 2|block bb1| ~ line 4: Range
let _0: int|blocks 2|block bb0|stop|block bb0| ~ line 6: Range
let _0: int|blocks 1|block bb0|stop|block bb1| ~ line 6: Range
let _0: int|blocks 2|block bb0|stop|end| ~ line 6: Range
";

// Statements and terminators at the first point of a body, and their faults. The body has the
// variables `_0: int`, `_1: &'r int`, `_2: &'q mut int`, `_3: (int, &'r int)`, `_4: S<'r>` with
// one field `&'x int`, `_5: D<int>` with a field of its type parameter, and one block.
const STATEMENTS: &str = "
_6 = const ~ line 14: Unknown
live _6 ~ line 14: Unknown
dead _6 ~ line 14: Unknown
drop _6 -> bb0 ~ line 14: Unknown
read _6.* ~ line 14: Unknown
_0 = copy _6 ~ line 14: Unknown
_1 = &'z _0 ~ line 14: Unknown
_1 = make U(const) ~ line 14: Unknown
_0 = call f(): int where 'z: 'r -> bb0 ~ line 14: Unknown
_0 = call f(const: &'z int): int -> bb0 ~ line 14: Unknown
_0 = call f(): U -> bb0 ~ line 14: Unknown
// A region of a struct's own is unknown in a body.
_1 = &'x _0 ~ line 14: Unknown
goto bb1 ~ line 14: Range
switch const bb0 bb1 ~ line 14: Range
drop _0 -> bb0 unwind bb1 ~ line 14: Range
_0 = call f(): int -> bb1 ~ line 14: Range
// The kinds are judged over the whole line.
_0 = call f(copy _1: int): int -> bb1 ~ line 14: Range
drop _6 -> bb1 ~ line 14: Unknown
read _0.* ~ line 14: Shape
read _0.0 ~ line 14: Shape
read _1.0 ~ line 14: Shape
read _3.* ~ line 14: Shape
read _3.2 ~ line 14: Shape
read _4.1 ~ line 14: Shape
read _4.* ~ line 14: Shape
_0 = copy _1 ~ line 14: Shape
_1 = const ~ line 14: Shape
_1 = copy _2 ~ line 14: Shape
_1 = &'r mut _0 ~ line 14: Shape
_2 = &'r _0 ~ line 14: Shape
_1 = &'r _1 ~ line 14: Shape
_3 = make (int, int)(const, const) ~ line 14: Shape
_3 = make (int, &'r int)(const) ~ line 14: Shape
_3 = make (int, &'r int)(const, copy _1, const) ~ line 14: Shape
_0 = make int() ~ line 14: Shape
_4 = make S(copy _1) ~ line 14: Shape
_4 = make S<'r>(const) ~ line 14: Shape
_5 = make D<int>(copy _1) ~ line 14: Shape
switch copy _1 bb0 ~ line 14: Shape
_0 = call f(copy _1: int): int -> bb0 ~ line 14: Shape
_0 = call f(): &'r int -> bb0 ~ line 14: Shape
goto bb ~ line 14: Syntax
switch const ~ line 14: Syntax
_0 = call (): int -> bb0 ~ line 14: Syntax
_0 = fn ~ line 14: Syntax
";

// Statements and terminators that are taken at the first point of that body.
const TAKEN: &str = "
_0 = const ~ line 15: End
_1 = copy _4.0 ~ line 15: End
_1 = &'q _0 ~ line 15: End
_1 = &'static _2.* ~ line 15: End
_2 = &'r mut _5.0 ~ line 15: End
_0 = copy _5.0 ~ line 15: End
_3 = make (int, &'q int)(const, move _1) ~ line 15: End
_4 = make S<'q>(copy _1) ~ line 15: End
_5 = make D<int>(copy _0) ~ line 15: End
_3.0 = copy _2.* ~ line 15: End
_1 = copy _3.1 ~ line 15: End
";

// Terminators that are taken there.
const ENDED: &str = "
goto bb0 ~ line 14: End
switch copy _3.0 bb0 ~ line 14: End
drop _5 -> bb0 ~ line 14: End
_1 = call g(const: int, copy _1: &'q int): &'static int where 'q: 'r, 'r: 'static -> bb0 ~ lin\
e 14: End
_0 = call mut(): int -> bb0 unwind bb0 ~ line 14: End
";

// The lines in front of that statement, each ending with `|`.
const DECLARED: &str = "nll-mir 1|region 'r|region 'q|struct S<'x +>(&'x int)|struct D<T =>(T)|\
    let _0: int|let _1: &'r int|let _2: &'q mut int|let _3: (int, &'r int)|let _4: S<'r>|\
    let _5: D<int>|blocks 1|block bb0|";

// The text in which a struct is dropped, with one line changed, and its fault.
const CHANGED: &str = "
nll-mir 1|region 'w|struct W<'x +> drop (&'x int)|let _0: int|let _1: W|blocks 2|block bb0|nop|\
drop _1 -> bb1|block bb1|return|end| ~ line 5: Shape
nll-mir 1|region 'w|struct W<'x +> drop (&'x int)|let _0: int|let _1: W<'w>|blocks 2|block bb0|\
nop|drop _1 -> bb|block bb1|return|end| ~ line 9: Syntax
nll-mir 1|region 'x|struct W<'x +> drop (&'x int)|let _0: int|let _1: W<'w>|blocks 2|block bb0|\
nop|drop _1 -> bb1|block bb1|return|end| ~ line 5: Unknown
nll-mir 1|region 'w|struct W<'x +> drop (&'x int)|let _1: int|let _1: W<'w>|blocks 2|block bb0|\
nop|drop _1 -> bb1|block bb1|return|end| ~ line 4: Range
nll-mir 1|region 'w|struct W<'x +> drop (&'x int)|let _0: int|let _1: W<'w>|blocks 3|block bb0|\
nop|drop _1 -> bb1|block bb1|return|end| ~ line 12: Range
nll-mir 1|region 'w|struct W<'x +> drop (&'x int)|let _0: int|let _1: W<'w>|blocks 1|block bb0|\
nop|drop _1 -> bb1|block bb1|return|end| ~ line 9: Range
nll-mir 1|region 'w|struct W<'x +> drop (&'x int)|let _0: int|let _1: W<'w>|blocks 2|block bb0|\
nop|drop _2 -> bb1|block bb1|return|end| ~ line 9: Unknown
nll-mir 1|region 'w|struct W<'x +> drop (&'x int)|let _0: int|let _1: W<'w>|blocks 2|block bb0|\
nop|drop _1 -> bb1|block bb2|return|end| ~ line 10: Range
";

// That text, cut off: after a `let` line without arguments, after the `nop` line, and after `drop
// _1 -> bb1`. It lacks its end, unless what is left is wrong.
const CUT: &str = "
nll-mir 1|region 'w|struct W<'x +> drop (&'x int)|let _0: int|let _1: W| ~ line 5: Shape
nll-mir 1|region 'w|struct W<'x +> drop (&'x int)|let _0: int|let _1: W<'w>|blocks 2|block bb0|\
nop| ~ line 8: End
nll-mir 1|region 'w|struct W<'x +> drop (&'x int)|let _0: int|let _1: W<'w>|blocks 2|block bb0|\
nop|drop _1 -> bb| ~ line 9: Syntax
nll-mir 1|region 'w|struct W<'x +> drop (&'x int)|let _0: int|let _1: W<'w>|blocks 2|block bb0|\
nop|drop _1 -> bb1| ~ line 9: End
// The last line needs no line feed.
nll-mir 1|region 'w|struct W<'x +> drop (&'x int)|let _0: int|let _1: W<'w>|blocks 2|block bb0|\
nop|drop _1 -> bb1|block bb1|return|end ~ universal 'static|region 'w|2 variables|bb0/0 to 1|\
bb0/1 to 2 drops 1|bb1/0 returns uses 0|
";

// Lines that version 2 has, after the header and two declarations, and whether version 1 has them.
const OF_SECOND: &str = "
let _0: fn() -> int ~ line 4: Syntax
let _0: (int, &'r fn(int) -> int) ~ line 4: Syntax
let _0: S<fn(int) -> int> ~ line 4: Syntax
struct F<'x - >(&'x int) ~ line 4: Syntax
struct F<'x +, T - ?>(T) ~ line 4: Syntax
struct F<'x ->(&'x int) ~ line 4: Syntax
struct F(fn() -> int) ~ line 4: Syntax
struct F<'x +>(&'x int) ~ line 4: End
let _0: fn ~ line 4: Syntax
let _0: Fn ~ line 4: Unknown
assert 'r : 'static ~ line 4: Syntax
assert 'r : 'q ~ line 4: Syntax
";

// Lines that assert something, after the header and a region, in version 2.
const ASSERTS: &str = "
assert 'r : 'static ~ line 3: End
assert 'static : 'r ~ line 3: End
assert'r:'r ~ line 3: End
assert 'r : 'r|assert 'r : 'r ~ line 4: End
assert 'r : 'q ~ line 3: Unknown
assert 'q : 'r ~ line 3: Unknown
assert 'r : 'q|region 'q ~ line 3: Unknown
assert 'r : 'r|region 'q ~ line 4: Syntax
assert 'r : 'r|universal 'q ~ line 4: Syntax
assert 'r : 'r|outlives 'static 'static ~ line 4: Syntax
assert 'r : 'r|struct S() ~ line 4: End
struct S()|assert 'r : 'r ~ line 4: Syntax
let _0: int|assert 'r : 'r ~ line 4: Syntax
assert 'r 'r ~ line 3: Syntax
assert 'r : ~ line 3: Syntax
assert 'r ~ line 3: Syntax
assert ~ line 3: Syntax
assert 'r : 'r, 'r : 'r ~ line 3: Syntax
assert 'r : r ~ line 3: Syntax
assert 'r : 'r : 'r ~ line 3: Syntax
Assert 'r : 'r ~ line 3: Syntax
";

// The rows for version 2. A function is known where its parts are, and a function type isn't made.
const IN_SECOND: &str = "
let _0: fn() -> int ~ line 4: End
let _0: (int, &'r fn(int) -> int) ~ line 4: End
let _0: S<fn(int) -> int> ~ line 4: End
struct F<'x - >(&'x int) ~ line 4: End
struct F<'x +, T - ?>(T) ~ line 4: End
struct F<'x ->(&'x int) ~ line 4: Syntax
struct F(fn() -> int) ~ line 4: End
let _0: fn ~ line 4: Syntax
let _0: fn(&'q int) -> int ~ line 4: Unknown
let _0: fn(int) -> &'q int ~ line 4: Unknown
let _0: fn(int) -> U ~ line 4: Unknown
let _0: fn(S) -> int ~ line 4: Shape
let _0: fn(int) -> S ~ line 4: Shape
";

// The lines in front of statements over functions, each ending with `|`.
const FUNCTIONAL: &str = "nll-mir 2|region 'r|let _0: int|let _1: fn(&'r int) -> int|\
    let _2: fn() -> int|let _3: fn(&'r int) -> &'r int|let _4: fn(&'static int) -> int|blocks 1|\
    block bb0|";

// Statements of a text with functions, and their faults.
const OF_FUNCTIONS: &str = "
_0 = make fn() -> int() ~ line 10: Shape
_0 = make fn(int) -> int(const) ~ line 10: Shape
read _1.0 ~ line 10: Shape
read _1.* ~ line 10: Shape
_1 = copy _2 ~ line 10: Shape
_1 = copy _3 ~ line 10: Shape
_1 = const ~ line 10: Shape
_1 = copy _4 ~ line 10: End
_0 = copy _1 ~ line 10: Shape
_0 = call fn(copy _1: fn(&'r int) -> int): int -> bb0 ~ line 10: End
_1 = call f(): fn(&'r int) -> int -> bb0 ~ line 10: End
_1 = call f(): fn(&'q int) -> int -> bb0 ~ line 10: Unknown
_1 = call f(): fn() -> int -> bb0 ~ line 10: Shape
";

// In version 1 the word after `call` may be `fn` too, and no type of a call or of what is made may
// have a function.
const CALLS: &str = "
_0 = call fn(const: int): int -> bb0 ~ line 5: End
_0 = call f(const: fn() -> int): int -> bb0 ~ line 5: Syntax
_0 = call f(const: int): fn() -> int -> bb0 ~ line 5: Syntax
_0 = make fn() -> int() ~ line 5: Syntax
_0 = make (fn() -> int)(const) ~ line 5: Syntax
";

// All these tables. In each row of `TAKEN` and `ENDED` the text only lacks its end.
const TABLES: &[Table<'static>] = &[
    (Asked::All, ("", ""), ("", ""), ORDER),
    (Asked::All, ("nll-mir 1|", ""), ("", ""), DECLARATIONS),
    (Asked::All, (DECLARED, "|stop|"), ("", ""), STATEMENTS),
    (Asked::All, (DECLARED, "|stop|"), ("", ""), TAKEN),
    (Asked::All, (DECLARED, "|"), ("", ""), ENDED),
    (Asked::All, ("", ""), ("", ""), CHANGED),
    (Asked::All, ("", ""), ("", ""), CUT),
    (
        Asked::All,
        ("nll-mir 1|region 'r|struct S<T +>(T)|", "|"),
        ("", ""),
        OF_SECOND,
    ),
    (
        Asked::All,
        ("nll-mir 2|region 'r|struct S<T +>(T)|", "|"),
        ("", ""),
        IN_SECOND,
    ),
    (Asked::All, ("nll-mir 2|region 'r|", "|"), ("", ""), ASSERTS),
    (Asked::All, (FUNCTIONAL, "|"), ("", ""), OF_FUNCTIONS),
    (
        Asked::All,
        ("nll-mir 1|let _0: int|blocks 1|block bb0|", "|"),
        ("", ""),
        CALLS,
    ),
];

// Lines, and whether each is the header of a MIR text of some version.
const HEADERS: &[(&str, bool)] = &[
    ("nll-mir 1", true),
    ("nll-mir 2", true),
    ("\tnll-mir  2 \r", true),
    ("nll-mir 3", false),
    ("nll-mir 0", false),
    ("nll-mir 12", false),
    ("nll-mir", false),
    ("nll-mir1", false),
    ("nll-mir 1 2", false),
    ("nll-facts 1", false),
    ("", false),
];

// Ends the test unless this is reported about a line.
fn compare_header(rt: &impl Abort, line: &str, is_header: bool) {
    let right = is_mir_header(line.as_bytes()) == is_header;
    assert!(rt; right, "header {line}");
}

// Each text has that fault, or none; and a line is a header or none.
#[test]
fn texts_are_refused(rt: HostRuntime) {
    compare_tables(&rt, rt.alloc(), TABLES);
    for header in HEADERS {
        compare_header(&rt, header.0, header.1);
    }
}

// Bytes that are no text are reported before the header, in a skipped line, and after a form.
#[test]
fn no_text(rt: HostRuntime) {
    let told = read(&rt, rt.alloc(), b"\xFF", Asked::All);
    compare(&rt, "header", told.as_str(), "line 1: NotUtf8");
    let told = read(&rt, rt.alloc(), b"nll-mir 1\n# \xFF\n", Asked::All);
    compare(&rt, "comment", told.as_str(), "line 2: NotUtf8");
    let told = read(
        &rt,
        rt.alloc(),
        b"nll-mir 1\nuniversal 'a\xFF\n",
        Asked::All,
    );
    compare(&rt, "form", told.as_str(), "line 2: NotUtf8");
    let told = read(
        &rt,
        rt.alloc(),
        b"nll-mir 1\nuniversal 'a # \xC3\xA9\n",
        Asked::All,
    );
    compare(&rt, "remark behind a form", told.as_str(), "line 2: Syntax");
}
