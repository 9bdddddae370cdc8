//! Beginnings of texts of all formats, and texts with one byte changed, by the readers of the
//! program and by the slow readers.
use super::facts::Facts;
use super::lists::{Cut, Schedule};
use super::mir::Mir;
use super::quick::{write_cut, write_facts, write_mir, write_schedule};
use super::slow::write_slowly;
use nll_worked::{
    CALLED, DROPPED, FUNCTIONS, MOVED, REBORROW, RETURNED, TAKERS, TWO_BORROWS, text_of,
};
use std::alloc::Global;
use std::process::Abort;

// The formats of texts.
#[derive(Clone, Copy)]
enum Format {
    Facts,
    Mir,
    Cut,
    // Of two owners.
    Schedule,
}

// What the program's reader reports about a text.
fn told_quickly(alloc: Global, format: Format, text: &[u8]) -> String {
    let mut out = String::new(alloc);
    match format {
        Format::Facts => write_facts(alloc, &mut out, text),
        Format::Mir => write_mir(alloc, &mut out, text),
        Format::Cut => write_cut(alloc, &mut out, text),
        Format::Schedule => write_schedule(alloc, &mut out, text, 2),
    }
    out
}

// What the slow reader reports about a text.
fn told_slowly(alloc: Global, format: Format, text: &[u8]) -> String {
    let mut out = String::new(alloc);
    match format {
        Format::Facts => {
            write_slowly(alloc, &mut out, (text, "nll-facts"), &mut Facts::new(alloc));
        }
        Format::Mir => write_slowly(alloc, &mut out, (text, "nll-mir"), &mut Mir::new(alloc)),
        Format::Cut => write_slowly(alloc, &mut out, (text, "nll-cut"), &mut Cut::new(alloc)),
        Format::Schedule => {
            let said = &mut Schedule::new(alloc, 2);
            write_slowly(alloc, &mut out, (text, "nll-schedule"), said);
        }
    }
    out
}

// Bytes that mean something in a text, are next to those that do, or are no UTF-8.
const BYTES: &[u8] = &[
    0, 9, 10, 13, 32, 35, 36, 38, 39, 41, 44, 45, 46, 48, 49, 50, 51, 52, 57, 62, 127, 128, 195,
    255,
];

// A piece that is left out has at most this many bytes.
const LONGEST: usize = 12;

// A facts text of each form of line, with a remark that has a letter of two bytes.
const FACTS: &str = "nll-facts 1|points 2|universal 'a|outlives 'a 'a|# \u{e9}|region 'x|next 0 1|\
    return 1|base 'x 0|constraint 'x 'a 0|end|";

// A facts text of version 2, with a constraint at all points.
const EVERYWHERE: &str = "nll-facts 2|points 2|universal 'a|region 'x|next 0 1|return 1|\
    base 'x 0|constraint 'x 'a all|constraint 'x 'a 1|end|";

// A chain of points.
const CHAIN: &str = "nll-facts 1|points 3|region '1|region '2|next 0 1|next 1 2|return 2|\
    base '1 1|base '1 2|constraint '2 '1 1|end|";

// A MIR text of each form of line, with each form of type, parameter and place.
const FORMS: &str = "nll-mir 1|universal 'a|universal 'b|outlives 'b 'a|region 'x|struct S(int)|\
    # \u{e9}|struct W<'r +, T =, 'q = ?, U + ?> drop (&'r mut T, (S, &'static U), ())|let _0: int|\
    let _1: W<'x, (int, S), 'a, &'b int>|let _2: (S, (int, S))|let _3: &'x mut (int, S)|\
    let _4: &'b int|blocks 4|block bb0|live _2|_2 = make (S, (int, S))(move _1.1.0, copy _3.*)|\
    _0 = const|_3 = &'a mut _2.1|_1.0.*.0 = copy _1.1.1.*.*|nop|switch copy _3.*.0 bb1 bb2 bb0|\
    block bb1|_4 = call f(copy _2.1: (int, S), const: int): &'a int where 'a: 'b, 'x: 'static \
    -> bb2 unwind bb3|block bb2|dead _2|drop _1 -> bb3 unwind bb0|block bb3|read _1.1|return|end|";

// A MIR text of version 2 with functions in each place of a type, with parameters that are
// marked `-`, and with what holds at all points.
const MARKED: &str = "nll-mir 2|universal 'a|region 'x|assert 'x : 'a|assert 'static: 'x|\
    struct F<'r - ?, T - >(fn(&'r int, T) -> (T, int))|\
    let _0: int|let _1: F<'x, fn() -> int>|let _2: fn(fn(&'x int) -> int, int) -> &'x int|\
    let _3: (fn() -> fn() -> int, int)|blocks 2|block bb0|_2 = copy _2|_0 = copy _3.1|\
    _0 = call f(copy _1.0: fn(&'x int, fn() -> int) -> (fn() -> int, int)): int -> bb1|\
    block bb1|read _3.0|drop _1 -> bb0|end|";

// A cut file, and a schedule until all is quiet.
const CUT: &str = "nll-cut 1|0|# as before|65535||12|";

const SCHEDULE: &str = "nll-schedule 1|load 0|owe 0|clear 0|take 0 1|push 0 1|load 1|owe 1|\
    push 1 0|clear 1|take 1 0|owe 1|clear 1|take 0 1|owe 0|clear 0|leave 1|push 0 1|take 1 0|\
    owe 1|clear 1|push 1 0|take 0 1|owe 0|clear 0|leave 0|leave 1|";

// MIR texts that read a place whose type has 4,096 nodes, and one of 4,097.
const LARGE: &[&str] = &[
    "nll-mir 1|struct A<T +>((T, T, T, T, T, T, T, T, T, T, T, T, T, T, T))|\
    struct B<T +>(A<(T, T, T, T, T, T, T, T, T, T, T, T, T, T, T, T)>)|\
    struct C<T +>(B<(T, T, T, T, T, T, T, T, T, T, T, T, T, T, T, T)>)|\
    let _0: C<int>|blocks 1|block bb0|read _0.0.0.0|stop|end|",
    "nll-mir 1|struct A<T +>((T, T, T, T, T, T, T, T, T, T, T, T, T, T, T, int))|\
    struct B<T +>(A<(T, T, T, T, T, T, T, T, T, T, T, T, T, T, T, T)>)|\
    struct C<T +>(B<(T, T, T, T, T, T, T, T, T, T, T, T, T, T, T, T)>)|\
    let _0: C<int>|blocks 1|block bb0|read _0.0.0.0|stop|end|",
];

const TEXTS: &[(Format, &str)] = &[
    (Format::Mir, TWO_BORROWS),
    (Format::Mir, REBORROW),
    (Format::Mir, DROPPED),
    (Format::Mir, MOVED),
    (Format::Mir, RETURNED),
    (Format::Mir, CALLED),
    (Format::Mir, FORMS),
    (Format::Mir, FUNCTIONS),
    (Format::Mir, TAKERS),
    (Format::Mir, MARKED),
    (Format::Facts, CHAIN),
    (Format::Facts, FACTS),
    (Format::Facts, EVERYWHERE),
    (Format::Cut, CUT),
    (Format::Schedule, SCHEDULE),
];

// Ends the test unless both readers report the same about a text. The number says which it is.
fn compare(rt: &impl Abort, alloc: Global, format: Format, text: &[u8], number: (usize, u8)) {
    let quick = told_quickly(alloc, format, text);
    let slow = told_slowly(alloc, format, text);
    let is_same = quick.as_str() == slow.as_str();
    assert!(rt; is_same, "{number:?}: {quick}, and slowly {slow}");
}

// Like `compare`, for each beginning of a text. The number is its length.
fn compare_beginnings(rt: &impl Abort, alloc: Global, format: Format, text: &[u8]) {
    for length in 0..=text.len() {
        let beginning = text.get(..length).unwrap_or(b"");
        compare(rt, alloc, format, beginning, (length, 0));
    }
}

// Like `compare`, for a text with each of the bytes at one place.
fn compare_place(rt: &impl Abort, alloc: Global, format: Format, text: &mut [u8], place: usize) {
    for byte in BYTES {
        if let Some(changed) = text.get_mut(place) {
            *changed = *byte;
        }
        compare(rt, alloc, format, text, (place, *byte));
    }
}

// Like `compare_place`, for each place of a text.
fn compare_changes(rt: &impl Abort, alloc: Global, format: Format, text: &mut [u8]) {
    for place in 0..text.len() {
        let kept = text.get(place).copied().unwrap_or(0);
        compare_place(rt, alloc, format, text, place);
        if let Some(changed) = text.get_mut(place) {
            *changed = kept;
        }
    }
}

// Like `compare`, for a text without a piece of it. The number says where the piece was.
fn compare_without(
    rt: &impl Abort,
    alloc: Global,
    format: Format,
    text: &[u8],
    (begin, end): (usize, usize),
) {
    let mut rest = Vec::new(alloc);
    for at in 0..text.len() {
        if at < begin || end <= at {
            let _ = rest.push(text[at]);
        }
    }
    compare(rt, alloc, format, rest.as_slice(), (begin, 1));
}

// Like `compare_without`, for each piece that begins at a place.
fn compare_pieces(rt: &impl Abort, alloc: Global, format: Format, text: &[u8], begin: usize) {
    for length in 1..=LONGEST {
        let end = begin.saturating_add(length);
        compare_without(rt, alloc, format, text, (begin, end));
    }
}

// Both readers report the same about each beginning of a text.
#[test]
fn beginnings_are_read(rt: HostRuntime) {
    for (format, lines) in TEXTS {
        let text = text_of(rt.alloc(), lines).expect(&rt, "memory");
        compare_beginnings(&rt, rt.alloc(), *format, text.as_slice());
    }
}

// Both readers report the same about a text, whatever byte is at whatever place.
#[test]
fn changed_texts_are_read(rt: HostRuntime) {
    for (format, lines) in TEXTS {
        let mut text = text_of(rt.alloc(), lines).expect(&rt, "memory");
        compare_changes(&rt, rt.alloc(), *format, text.as_mut_slice());
    }
}

// Both readers report the same about a text without any short piece of it.
#[test]
fn torn_texts_are_read(rt: HostRuntime) {
    for (format, lines) in TEXTS {
        let text = text_of(rt.alloc(), lines).expect(&rt, "memory");
        for begin in 0..text.len() {
            compare_pieces(&rt, rt.alloc(), *format, text.as_slice(), begin);
        }
    }
}

// Both readers report the same about a type that is as large as it may be, and about a larger one.
#[test]
fn large_types_are_read(rt: HostRuntime) {
    for lines in LARGE {
        let text = text_of(rt.alloc(), lines).expect(&rt, "memory");
        compare(&rt, rt.alloc(), Format::Mir, text.as_slice(), (0, 0));
    }
}
