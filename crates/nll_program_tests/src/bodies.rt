//! The program over MIR texts.
use super::comparison::compare;
use super::examples::OK;
use super::limits::{repeat, say_each};
use super::notes::say;
use super::program::run_on;
use super::rows::{ALONE, Asked, compare_row, compare_rows};
use std::process::Abort;
use std::sync::Wait;
use std::thread::Threads;

// A function that wants a reference for ever is copied in the place of one that wants it for a
// while: `examples/keep.mir`, of version 2.
const KEPT: &str = "nll-mir 2|# static KEPT: Mutex<&'static u8>;|\
    # fn keep(x: &'static u8) { *KEPT.lock() = x }|#|# fn leak() {|#     let local = 5;|\
    #     let f: fn(&'short u8) = keep;|#     f(&'loan local);|# }|region 'short|region 'loan|\
    region 'p|region 'arg|let _0: int|# local, keep, f, and the reference that f is given|\
    let _1: int|let _2: fn(&'static int) -> int|let _3: fn(&'short int) -> int|\
    let _4: &'p int|blocks 2|block bb0|_3 = copy _2|_4 = &'loan _1|\
    _0 = call f(copy _3: fn(&'arg int) -> int, copy _4: &'arg int): int -> bb1|block bb1|\
    return|end|";

// A reference in a variable is used later on one way only.
const LATER_USE: &str = "nll-mir 1|region 'slot|region 'loan|let _0: int|let _1: int|let _2: int|\
    let _3: &'slot mut int|blocks 3|block bb0|_3 = &'loan mut _1|switch copy _2 bb1 bb2|\
    block bb1|_3.* = const|goto bb2|block bb2|_1 = const|return|end|";

// A lookup returns a reference on one path, and borrows again on the other: the third problem case
// of RFC 2094.
const LOOKUP: &str = "nll-mir 1|universal 'r|region 'found|region 'insert|region 'get|region '2|\
    region '3|region '4|region '6|region 'x|region 'y|region 'z|struct Map ()|struct Value ()|\
    struct Option<T +> (T)|let _0: &'r mut Value|let _1: &'r mut Map|let _2: &'2 mut Map|\
    let _3: Option<&'3 mut Value>|let _4: &'4 mut Map|let _5: ()|let _6: &'6 mut Map|blocks 6|\
    block bb0|_2 = &'found mut _1.*|\
    _3 = call get_mut(move _2: &'x mut Map): Option<&'x mut Value> -> bb1|\
    block bb1|read _3|switch const bb2 bb3|block bb2|_0 = move _3.0|return|\
    block bb3|_4 = &'insert mut _1.*|_5 = call insert(move _4: &'y mut Map): () -> bb4|\
    block bb4|_6 = &'get mut _1.*|_0 = call get(move _6: &'z mut Map): &'z mut Value -> bb5|\
    block bb5|return|end|";

// Ends the test unless these are what `values` and `check` do with a text.
fn compare_body<R: Abort + AllocGlobal + Threads + Wait + Sync>(
    rt: &R,
    lines: &str,
    of_values: &str,
    of_check: &str,
) {
    compare_row(rt, Asked::Run("values|sheet"), ALONE, lines, of_values);
    compare_row(rt, Asked::Run("check|sheet"), ALONE, lines, of_check);
}

// A MIR text is answered by the problem of its body.
#[test]
fn answers_mir_texts(rt: HostRuntime) {
    compare_body(
        &rt,
        LATER_USE,
        "0>'static: bb0/0 bb0/1 bb1/0 bb1/1 bb2/0 bb2/1 end('static)|'slot: bb0/1 bb1/0|\
            'loan: bb0/1 bb1/0|>",
        OK,
    );
    compare_body(
        &rt,
        LOOKUP,
        "0>'static: bb0/0 bb0/1 bb1/0 bb1/1 bb2/0 bb2/1 bb3/0 bb3/1 bb4/0 bb4/1 bb5/0 end('static)|\
            'r: bb0/0 bb0/1 bb1/0 bb1/1 bb2/0 bb2/1 bb3/0 bb3/1 bb4/0 bb4/1 bb5/0 end('r)|\
            'found: bb0/1 bb1/0 bb1/1 bb2/0 bb2/1 end('r)|'insert: bb3/1|'get: bb4/1 bb5/0 end('r)|\
            '2: bb0/1 bb1/0 bb1/1 bb2/0 bb2/1 end('r)|'3: bb1/0 bb1/1 bb2/0 bb2/1 end('r)|\
            '4: bb3/1|'6: bb4/1 bb5/0 end('r)|'x: bb1/0 bb1/1 bb2/0 bb2/1 end('r)|'y:|\
            'z: bb5/0 end('r)|>",
        OK,
    );
}

// Like the test above, for texts of version 2.
#[test]
fn answers_mir_texts_of_version_2(rt: HostRuntime) {
    compare_body(
        &rt,
        KEPT,
        "0>'static: bb0/0 bb0/1 bb0/2 bb1/0 end('static)|\
            'short: bb0/1 bb0/2 bb1/0 end('static)|'loan: bb0/2 bb1/0 end('static)|\
            'p: bb0/2 bb1/0 end('static)|'arg: bb1/0 end('static)|>",
        OK,
    );
    // A universal region holds, at all points, the end of another one: no path is needed.
    compare_body(
        &rt,
        "nll-mir 2|universal 'a|universal 'b|assert 'a : 'b|let _0: int|blocks 1|block bb0|\
            goto bb0|end|",
        "0>'static: bb0/0 end('static)|'a: bb0/0 end('a) end('b)|'b: bb0/0 end('b)|>",
        "1>fault 'a must outlive 'b|>",
    );
    compare_body(
        &rt,
        "nll-mir 2|universal 'a|universal 'b|outlives 'a 'b|assert 'a : 'b|let _0: int|blocks 1|\
            block bb0|goto bb0|end|",
        "0>'static: bb0/0 end('static)|'a: bb0/0 end('a) end('b)|'b: bb0/0 end('b)|>",
        OK,
    );
}

// MIR texts with a fault, with the line that reports it.
const REFUSED: &str = "
nll-mir 3| ~ 2>>nllc: line 1: header|
nll-mir 1|assert 'static : 'static| ~ 2>>nllc: line 2: syntax|
nll-mir 2|assert 'static : 'a| ~ 2>>nllc: line 2: unknown|
nll-mir 1|points 1|end| ~ 2>>nllc: line 2: syntax|
nll-facts 1|let _0: int| ~ 2>>nllc: line 2: syntax|
";

// The fault of a MIR text is reported, and no fault of another format.
#[test]
fn refuses_mir_texts(rt: HostRuntime) {
    compare_rows(&rt, Asked::Run("check|sheet"), REFUSED);
}

// Writes a text that assigns one variable to another this many times. Their types have 16,384
// regions in invariant places, each its own, so each assignment requires 32,768 constraints.
fn write_assignments(out: &mut String, count: u32) {
    say(out, "nll-mir 1\n");
    say_each(out, (0, 32_768), "region 'x", "\n");
    say(out, "struct S<'p0 =");
    say_each(out, (1, 16_384), ", 'p", " =");
    say(out, "> ()\nlet _0: int\nlet _1: S<'x0");
    say_each(out, (1, 16_384), ", 'x", "");
    say(out, ">\nlet _2: S<'x16384");
    say_each(out, (16_385, 32_768), ", 'x", "");
    say(out, ">\nblocks 1\nblock bb0\n");
    repeat(out, count, "_1 = copy _2\n");
    say(out, "return\nend\n");
}

// Ends the test unless the program reports this of the faults of such a text.
fn compare_assignments<R: Abort + AllocGlobal + Threads + Wait + Sync>(
    rt: &R,
    count: u32,
    want: &[u8],
) {
    let mut text = String::new(rt.alloc());
    write_assignments(&mut text, count);
    let told = run_on(rt, "check|sheet", text.as_bytes());
    drop(text);
    compare(rt, "assignments", told, want);
}

// 32 assignments require exactly as many constraints as the limit, and one more is refused.
#[test]
fn refuses_constraints_past_the_limit(rt: HostRuntime) {
    compare_assignments(&rt, 32, b"0>ok\n>");
    compare_assignments(&rt, 33, b"2>>nllc: limit constraints\n");
}
