//! What tests write down of the reports that they get, and comparing it with what was found by
//! hand.
use std::alloc::Global;
use std::fmt::{Debug, Display};
use std::process::Abort;

/// A text that grows until an allocation fails, and then remembers that one failed.
#[derive(Drop)]
pub struct Transcript {
    text: String,
    is_refused: bool,
    /// The allocator of the calls.
    pub alloc: Global,
}

impl Transcript {
    /// An empty text.
    pub fn new(alloc: Global) -> Transcript {
        Transcript {
            text: String::new(alloc),
            is_refused: false,
            alloc,
        }
    }

    /// Remembers whether a call was refused.
    pub fn note<E: Drop>(&mut self, done: Result<(), E>) {
        self.is_refused |= done.is_err();
    }

    /// Writes words.
    pub fn say(&mut self, words: &str) {
        let written = self.text.push_str(words);
        self.note(written);
    }

    /// Writes a value after words.
    pub fn show<T: Debug>(&mut self, before: &str, value: &T) {
        let written = write!(self.text, "{before}{value:?}");
        self.note(written);
    }

    /// Writes what an error prints, and a bar.
    pub fn print<T: Display>(&mut self, error: &T) {
        let written = write!(self.text, "{error}|");
        self.note(written);
    }

    /// Writes a number between words.
    pub fn number(&mut self, before: &str, number: u32, behind: &str) {
        let written = write!(self.text, "{before}{number}{behind}");
        self.note(written);
    }

    /// Writes two numbers, each with words after it.
    pub fn pair(&mut self, first: u32, between: &str, second: u32, behind: &str) {
        self.number("", first, between);
        self.number("", second, behind);
    }

    /// Writes a size after words.
    pub fn size(&mut self, before: &str, size: usize) {
        self.show(before, &size);
    }

    /// Writes a number, or that there is none, after words.
    pub fn option(&mut self, before: &str, number: Option<u32>) {
        self.show(before, &number);
    }

    /// Writes numbers as a list after words.
    pub fn numbers(&mut self, before: &str, numbers: &[u32]) {
        self.show(before, &numbers);
    }

    /// Writes whether something is so, between words.
    pub fn flag(&mut self, before: &str, is_so: bool, behind: &str) {
        let written = write!(self.text, "{before}{is_so}{behind}");
        self.note(written);
    }

    /// Writes words, bytes that are ASCII, and a bar.
    pub fn part(&mut self, before: &str, bytes: &[u8]) {
        self.say(before);
        for byte in bytes {
            let written = self.text.push(char::from(*byte));
            self.note(written);
        }
        self.say("|");
    }

    /// What was written.
    pub fn text(&self) -> &str {
        self.text.as_str()
    }

    /// Ends the test where something else was written, or a call was refused.
    pub fn compare(&self, rt: &impl Abort, says: &str, want: &str) {
        let told = self.text();
        let right = told == want && !self.is_refused;
        assert!(rt; right, "{says}: {told}");
    }
}
