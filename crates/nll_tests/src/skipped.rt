//! Lines that are skipped.
use super::rows::Asked::Skipped;
use super::rows::{Row, compare_rows};
use super::transcript::Transcript;
use nll_text::is_skipped_line;

/// Writes whether a line is skipped.
pub fn write_skipped(out: &mut Transcript, line: &[u8]) {
    out.show("", &is_skipped_line(line));
}

// Lines, and whether they are skipped.
const LINES: &[Row] = &[
    ("no byte", Skipped(b""), "Ok(true)"),
    ("blanks", Skipped(b" \t\r"), "Ok(true)"),
    ("a remark", Skipped(b"\t # end - '"), "Ok(true)"),
    ("a remark of no bytes", Skipped(b"#"), "Ok(true)"),
    (
        "a remark that is no ASCII",
        Skipped(b"# caf\xc3\xa9"),
        "Ok(true)",
    ),
    (
        "a remark that is no text",
        Skipped(b"# caf\xe9"),
        "Err(NotUtf8)",
    ),
    ("a remark behind a word", Skipped(b"end # x"), "Ok(false)"),
    ("a sign alone", Skipped(b"-"), "Ok(false)"),
    ("a byte that is no token", Skipped(b";"), "Ok(false)"),
    ("a byte that is no blank", Skipped(b"\x0b"), "Ok(false)"),
    (
        "a letter that is no ASCII",
        Skipped(b"\xc3\xa9"),
        "Ok(false)",
    ),
    (
        "no text, which is told first",
        Skipped(b"; caf\xe9"),
        "Err(NotUtf8)",
    ),
    (
        "no text behind tokens",
        Skipped(b"next 1 2\xff"),
        "Err(NotUtf8)",
    ),
];

// A line of blanks alone is skipped, and so is a remark.
#[test]
fn lines_are_skipped(rt: HostRuntime) {
    compare_rows(&rt, rt.alloc(), LINES);
}
