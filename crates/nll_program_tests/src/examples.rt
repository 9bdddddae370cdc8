//! Worked examples of the whole program: texts in full, and what the program does with words over
//! them.
use super::comparison::compare;
use super::notes::{count, say};
use super::pieces::{Piece, text_of};
use super::program::run_at_desk;
use super::rows::{ALONE, bytes_of};
use std::alloc::Global;
use std::process::Abort;
use std::sync::Wait;
use std::thread::Threads;

/// How a text is written.
#[derive(Clone, Copy)]
pub enum Text {
    /// Its lines, as in a row.
    Lines(&'static str),
    /// Its lines, and those of a cut or a schedule beside it, at the path `list`.
    Beside(&'static str, &'static str),
    /// Pieces that are repeated.
    Pieces(&'static [Piece]),
    /// A facts text of this many edges, each another one, and further lines with their line feeds.
    Edges(u32, &'static str),
    /// This many blanks.
    Blanks(usize),
}

/// What an example shows, a text at the path `sheet`, and what the program does with each of some
/// words.
pub struct Example {
    pub shows: &'static str,
    pub sheet: Text,
    pub told: &'static [Told],
}

/// Words, separated by bars, and what the program does with each of them.
pub type Told = (&'static [&'static str], Text);

/// Words that ask for values: of one thread, and of owners of either kind of mailbox.
pub const VALUES: &[&str] = &[
    "values|sheet",
    "values|sheet|--owners|1|--mail|queue",
    "values|sheet|--owners|1|--mail|ring",
    "values|sheet|--owners|2|--mail|queue",
    "values|sheet|--owners|2|--mail|ring",
    "values|sheet|--owners|3|--mail|queue",
    "values|sheet|--owners|3|--mail|ring",
    "values|sheet|--owners|2|--deal|blocks|--mail|queue",
    "values|sheet|--owners|2|--deal|blocks|--mail|ring",
];

/// Words that ask for faults.
pub const CHECK: &[&str] = &[
    "check|sheet",
    "check|sheet|--owners|1|--mail|queue",
    "check|sheet|--owners|1|--mail|ring",
    "check|sheet|--owners|2|--mail|queue",
    "check|sheet|--owners|2|--mail|ring",
];

/// Words that ask for faults of a long text.
pub const CHECK_ONCE: &[&str] = &["check|sheet"];

/// Words that ask for either, of a text that is refused.
pub const EITHER: &[&str] = &[
    "values|sheet",
    "check|sheet",
    "values|sheet|--owners|2|--mail|queue",
    "check|sheet|--owners|2|--mail|ring",
];

/// What `check` does if there is no fault.
pub const OK: &str = "0>ok|>";

// Writes as many edges of 2,049 points, each another one.
fn write_edges(out: &mut String, end: u32) {
    for number in 0..end {
        say(out, "next ");
        count(out, u64::from(number / 2_049));
        say(out, " ");
        count(out, u64::from(number % 2_049));
        say(out, "\n");
    }
}

// A facts text of as many edges of 2,049 points and further lines.
fn edges_text(alloc: Global, edges: u32, lines: &str) -> String {
    let mut text = String::new(alloc);
    say(&mut text, "nll-facts 1\npoints 2049\n");
    write_edges(&mut text, edges);
    say(&mut text, lines);
    text
}

// The bytes of a text.
fn bytes_in<R: Abort + AllocGlobal + Threads + Wait + Sync>(rt: &R, text: Text) -> Vec<u8> {
    match text {
        Text::Lines(lines) => bytes_of(rt, ALONE, lines),
        Text::Beside(lines, _) => bytes_of(rt, ALONE, lines),
        Text::Pieces(pieces) => text_of(rt.alloc(), pieces, "").into_bytes(),
        Text::Edges(edges, lines) => edges_text(rt.alloc(), edges, lines).into_bytes(),
        Text::Blanks(bytes) => Vec::from_elem(rt.alloc(), b' ', bytes).expect(rt, "memory"),
    }
}

// The lines beside a text.
fn list_beside(text: Text) -> &'static str {
    match text {
        Text::Beside(_, list) => list,
        _ => "",
    }
}

// Ends the test unless that is what the program does with each of the words over two texts.
fn compare_told<R: Abort + AllocGlobal + Threads + Wait + Sync>(
    rt: &R,
    shows: &str,
    (sheet, list): (&[u8], &[u8]),
    (words, want): &Told,
) {
    let want = bytes_in(rt, *want);
    for words in *words {
        let told = run_at_desk(rt, words, sheet, list);
        compare(rt, shows, told, want.as_slice());
    }
}

// Ends the test unless an example is right.
fn compare_example<R: Abort + AllocGlobal + Threads + Wait + Sync>(rt: &R, example: &Example) {
    let sheet = bytes_in(rt, example.sheet);
    let list = bytes_of(rt, ALONE, list_beside(example.sheet));
    for told in example.told {
        compare_told(rt, example.shows, (sheet.as_slice(), list.as_slice()), told);
    }
}

/// Ends the test unless each example is right.
pub fn compare_examples<R: Abort + AllocGlobal + Threads + Wait + Sync>(
    rt: &R,
    examples: &[Example],
) {
    for example in examples {
        compare_example(rt, example);
    }
}
