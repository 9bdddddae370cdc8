//! Texts in which something is repeated very often.
use super::body_text::{Asked, read};
use super::comparison::compare;
use super::pieces::{write_number, write_piece};
use std::alloc::Global;
use std::process::Abort;

/// What comes first, what is repeated, and what comes last. A `#` in what is repeated is the number
/// of the repetition, from 0.
pub type Repeated<'a> = (&'a str, &'a str, &'a str);

/// Such a text, how often, and how much is reported about it.
pub type Row = (Repeated<'static>, u32, &'static str);

// Writes something often.
fn write_same(rt: &impl Abort, out: &mut String, piece: &str, count: u32) {
    for _ in 0..count {
        write_piece(rt, out, piece);
    }
}

// Writes numbers that count up from 0, each between two words.
fn write_numbered(rt: &impl Abort, out: &mut String, before: &str, behind: &str, count: u32) {
    for number in 0..count {
        write_number(rt, out, before, u64::from(number), behind);
    }
}

/// Writes something often, with its number where it has one.
pub fn write_often(rt: &impl Abort, out: &mut String, piece: &str, count: u32) {
    match piece.split_once('#') {
        Some((before, behind)) => write_numbered(rt, out, before, behind, count),
        None => write_same(rt, out, piece, count),
    }
}

/// A text in which something is repeated this often.
pub fn repeated(
    rt: &impl Abort,
    alloc: Global,
    (front, piece, back): Repeated<'_>,
    count: u32,
) -> String {
    let mut text = String::new(alloc);
    write_piece(rt, &mut text, front);
    write_often(rt, &mut text, piece, count);
    write_piece(rt, &mut text, back);
    text
}

/// Ends the test if something else is reported of such a text.
pub fn compare_repeated(
    rt: &impl Abort,
    alloc: Global,
    parts: Repeated<'_>,
    count: u32,
    want: &str,
) {
    let text = repeated(rt, alloc, parts, count);
    let told = read(rt, alloc, text.as_bytes(), Asked::Size);
    compare(rt, parts.1, told.as_str(), want);
}

/// Like `compare_repeated`, for each row.
pub fn compare_each(rt: &impl Abort, alloc: Global, rows: &[Row]) {
    for (parts, count, want) in rows {
        compare_repeated(rt, alloc, *parts, *count, want);
    }
}
