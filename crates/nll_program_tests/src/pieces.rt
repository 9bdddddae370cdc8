//! Texts of pieces that are repeated, each time with another number, and what the program does with
//! them.
use super::comparison::compare;
use super::notes::{count, say};
use super::program::run_at_desk;
use std::alloc::Global;
use std::process::Abort;
use std::sync::Wait;
use std::thread::Threads;

/// A piece, and the numbers with which it is repeated: from the first to before the second.
///
/// In a piece `|` stands for a line feed, `#` for the number, `@` for the one after it, `$`, `%`
/// and `^` for those 1,000, 2,000 and 3,000 after it, `!` for `#`, and `~` for all points.
pub type Piece = (&'static str, u32, u32);

/// A text and a list beside it, the points of the text as a report has them, and what the program
/// does with words over both.
pub struct Made {
    pub text: &'static [Piece],
    pub list: &'static [Piece],
    pub points: &'static [Piece],
    pub wanted: &'static [(&'static str, &'static [Piece])],
}

// The number that a byte of a piece stands for.
fn number_of(byte: u8, number: u32) -> Option<u64> {
    let number = u64::from(number);
    match byte {
        b'#' => Some(number),
        b'@' => Some(number + 1),
        b'$' => Some(number + 1_000),
        b'%' => Some(number + 2_000),
        b'^' => Some(number + 3_000),
        _ => None,
    }
}

// The words that a byte of a piece stands for.
fn words_of<'a>(byte: u8, points: &'a str) -> Option<&'a str> {
    match byte {
        b'|' => Some("\n"),
        b'!' => Some("#"),
        b'~' => Some(points),
        _ => None,
    }
}

// Writes what a byte of a piece stands for.
fn write_byte(out: &mut String, byte: u8, number: u32, points: &str) {
    if let Some(number) = number_of(byte, number) {
        count(out, number);
    } else if let Some(words) = words_of(byte, points) {
        say(out, words);
    } else {
        let _ = out.push(char::from(byte));
    }
}

// Writes a piece with a number.
fn write_piece(out: &mut String, piece: &str, number: u32, points: &str) {
    for byte in piece.as_bytes() {
        write_byte(out, *byte, number, points);
    }
}

// Writes a piece with each of its numbers.
fn write_often(out: &mut String, (piece, first, end): Piece, points: &str) {
    for number in first..end {
        write_piece(out, piece, number, points);
    }
}

/// The text of pieces.
pub fn text_of(alloc: Global, pieces: &[Piece], points: &str) -> String {
    let mut out = String::new(alloc);
    for piece in pieces {
        write_often(&mut out, *piece, points);
    }
    out
}

// Ends the test unless that is what the program does with words over a text and a list.
fn compare_run<R: Abort + AllocGlobal + Threads + Wait + Sync>(
    rt: &R,
    words: &str,
    (text, list): (&str, &str),
    want: &str,
) {
    let told = run_at_desk(rt, words, text.as_bytes(), list.as_bytes());
    compare(rt, words, told, want.as_bytes());
}

/// Like `compare_run`, of a text of pieces and the words of each row.
pub fn compare_made<R: Abort + AllocGlobal + Threads + Wait + Sync>(rt: &R, made: &Made) {
    let points = text_of(rt.alloc(), made.points, "");
    let text = text_of(rt.alloc(), made.text, points.as_str());
    let list = text_of(rt.alloc(), made.list, points.as_str());
    for (words, want) in made.wanted {
        let want = text_of(rt.alloc(), want, points.as_str());
        compare_run(rt, words, (text.as_str(), list.as_str()), want.as_str());
    }
}
