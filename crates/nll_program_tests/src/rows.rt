//! Tables of texts and of what is reported of them: in each row a text, ` ~ `, and what is
//! reported. An empty row, or one that begins with `//`, is skipped.
use super::answers::{answer_handed, answer_to};
use super::comparison::compare;
use super::problem_text::said;
use super::program::{FaultAt, help_told, paths_asked, run, run_at_desk, run_on};
use super::words::line_told;
use nll_report::Command;
use std::process::Abort;
use std::sync::Wait;
use std::thread::Threads;

/// What is asked of a text.
#[derive(Clone, Copy)]
pub enum Asked {
    /// What a facts text says.
    Said,
    /// The answer to a command.
    Answer(Command),
    /// The answer to a command, with the text handed over.
    Handed(Command),
    /// What the program does with these words over the text.
    Run(&'static str),
    /// What the program does with these words over the texts of the shelf and the text, which is at
    /// the path `sheet`.
    Desk(&'static str),
    /// Which line the words are. They are separated by bars.
    Line,
    /// What the program does with the words, over the texts of the shelf, if standard output and
    /// standard error have these faults.
    Program(FaultAt, FaultAt),
    /// The status of the program with the words, and which texts of the shelf it asks for, in
    /// order.
    Opened,
    /// Whether the words are answered with help that ends so.
    Help(&'static str),
}

/// What is before something, and what is after it.
pub type Around<'a> = (&'a str, &'a str);

/// Nothing is around a whole text.
pub const ALONE: Around<'static> = ("", "");

// The byte that a byte of a row stands for: a bar for the end of a line, `!` for a bar, `^` and a
// back quote for bytes that are no UTF-8.
fn meant(byte: u8) -> u8 {
    match byte {
        b'|' => b'\n',
        b'!' => b'|',
        b'^' => 0xff,
        b'`' => 0xe9,
        _ => byte,
    }
}

// Puts the bytes that some of a row stands for.
fn put_meant(rt: &impl Abort, out: &mut Vec<u8>, row: &str) {
    for byte in row.as_bytes() {
        out.push(meant(*byte)).expect(rt, "memory");
    }
}

/// The bytes that some of a row stands for, with what is around it.
pub fn bytes_of<R: Abort + AllocGlobal + Threads + Wait + Sync>(
    rt: &R,
    (front, back): Around<'_>,
    row: &str,
) -> Vec<u8> {
    let mut out = Vec::new(rt.alloc());
    put_meant(rt, &mut out, front);
    put_meant(rt, &mut out, row);
    put_meant(rt, &mut out, back);
    out
}

/// What is reported of words, or of a text.
pub fn told<R: Abort + AllocGlobal + Threads + Wait + Sync>(
    rt: &R,
    asked: Asked,
    words: &str,
    text: &[u8],
) -> String {
    match asked {
        Asked::Said => said(rt, rt.alloc(), text),
        Asked::Answer(command) => answer_to(rt.alloc(), command, text),
        Asked::Handed(command) => answer_handed(rt, rt.alloc(), command, text),
        Asked::Run(words) => run_on(rt, words, text),
        Asked::Desk(words) => run_at_desk(rt, words, text, b""),
        Asked::Line => line_told(rt, rt.alloc(), words),
        Asked::Program(of_out, of_err) => run(rt, words, of_out, of_err),
        Asked::Opened => paths_asked(rt, words),
        Asked::Help(end) => help_told(rt, words, end),
    }
}

/// Ends the test unless this is reported of a text, both as in a row.
pub fn compare_row<R: Abort + AllocGlobal + Threads + Wait + Sync>(
    rt: &R,
    asked: Asked,
    around: Around<'_>,
    row: &str,
    want: &str,
) {
    let text = bytes_of(rt, around, row);
    let told = told(rt, asked, row, text.as_slice());
    drop(text);
    let want = bytes_of(rt, ALONE, want);
    compare(rt, row, told, want.as_slice());
}

// Whether a row isn't skipped.
fn says_something(row: &str) -> bool {
    !row.is_empty() && !row.starts_with("//")
}

// Compares each row of a table or, if what is reported is given, each text of it.
fn compare_each<R: Abort + AllocGlobal + Threads + Wait + Sync>(
    rt: &R,
    asked: Asked,
    around: Around<'_>,
    same: Option<&str>,
    rows: &str,
) {
    for row in rows.split('\n') {
        if says_something(row) {
            let (text, want) = row.split_once(" ~ ").unwrap_or((row, "a row"));
            compare_row(rt, asked, around, text, same.unwrap_or(want));
        }
    }
}

/// Ends the test unless of each text of a table exactly what its row says is reported.
pub fn compare_rows<R: Abort + AllocGlobal + Threads + Wait + Sync>(
    rt: &R,
    asked: Asked,
    rows: &str,
) {
    compare_each(rt, asked, ALONE, None, rows);
}

/// Like `compare_rows`, with something around each text.
pub fn compare_within<R: Abort + AllocGlobal + Threads + Wait + Sync>(
    rt: &R,
    asked: Asked,
    around: Around<'_>,
    rows: &str,
) {
    compare_each(rt, asked, around, None, rows);
}

/// Like `compare_within`, with the same reported of each text.
pub fn compare_same<R: Abort + AllocGlobal + Threads + Wait + Sync>(
    rt: &R,
    asked: Asked,
    around: Around<'_>,
    same: &str,
    rows: &str,
) {
    compare_each(rt, asked, around, Some(same), rows);
}
