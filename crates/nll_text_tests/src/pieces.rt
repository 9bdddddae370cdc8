//! Pieces and numbers in what is reported. If an allocation fails for them, the test ends.
use std::process::Abort;

/// Writes a piece of text.
pub fn write_piece(rt: &impl Abort, out: &mut String, piece: &str) {
    out.push_str(piece).expect(rt, "memory");
}

/// Writes a number between two words.
pub fn write_number(rt: &impl Abort, out: &mut String, before: &str, number: u64, behind: &str) {
    write!(out, "{before}{number}{behind}").expect(rt, "memory");
}

/// Writes numbers after a word, where there are any.
pub fn write_numbers(rt: &impl Abort, out: &mut String, word: &str, numbers: &[u32]) {
    if !numbers.is_empty() {
        write_piece(rt, out, word);
    }
    for number in numbers {
        write_number(rt, out, " ", u64::from(*number), "");
    }
}
