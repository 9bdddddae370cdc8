//! Writing down the results of calls. If memory is refused for it, some of the text is missing, so
//! that it isn't what a test expects.
use std::fmt::{Debug, Display};
use std::str;

/// Writes words.
pub fn say(out: &mut String, words: &str) {
    let _ = out.push_str(words);
}

/// Writes bytes that are UTF-8.
pub fn say_bytes(out: &mut String, bytes: &[u8]) {
    say(out, str::from_utf8(bytes).unwrap_or("not utf-8"));
}

/// Writes what is displayed.
pub fn print<T: Display>(out: &mut String, value: &T) {
    let _ = write!(out, "{value}");
}

/// Writes what shows in a message for developers.
pub fn show<T: Debug>(out: &mut String, value: &T) {
    let _ = write!(out, "{value:?}");
}

/// Writes a number.
pub fn count(out: &mut String, number: u64) {
    print(out, &number);
}
