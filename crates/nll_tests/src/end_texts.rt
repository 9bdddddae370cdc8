//! The loop over the lines of a text, with a reader of the smallest texts that may stop too early:
//! of one line `end`, and of lines that are skipped.

ghost use Rattle.std.specs.Prelude.{◌≡◌, ◌↔◌, IsTrue};
ghost use Rattle.nll_tests.specs.EndTexts.{end_texts, end_word, Tells};

use super::rows::Asked::Loop;
use super::rows::{Row, compare_rows};
use super::transcript::Transcript;
use nll_format::{LineReader, TextError, TextKind, open_text, pass_over, read_lines};

// Whether a line is `end`.
fn is_end(line: &[u8]) -> bool
    ensures { IsTrue result ↔ line.now ≡ end_word }
{
    line == b"end".as_slice()
}

// A reader that writes each line that it gets, and knows whether a line `end` came.
#[derive(Drop)]
struct Ends {
    has_end: bool,
    told: Transcript,
}

impl<'a> LineReader<'a, ()> for Ends {
    ghost format_of = { λ _. end_texts };

    ghost holds = { λ _ forms reader. Tells reader.has_end forms };

    ghost ready = { λ _. Unit {0} };

    fn read_line(&mut self, _format: &(), line: &'a [u8]) -> Result<(), TextKind> {
        self.told.part("", line);
        if !is_end(line) {
            return pass_over(line);
        }
        if self.has_end {
            return Err(TextKind::Duplicate);
        }
        self.has_end = true;
        Ok(())
    }

    fn has_ended(&self, _format: &()) -> bool {
        self.has_end
    }
}

// Writes the lines after the header.
fn write_lines(out: &mut Transcript, text: &[u8]) -> Result<(), TextError> {
    let body = open_text(text, b"ends", b"1")?;
    let mut ends = Ends {
        has_end: false,
        told: Transcript::new(out.alloc),
    };
    let read = read_lines(&mut ends, &(), body);
    out.say(ends.told.text());
    drop(ends);
    read
}

/// Writes which lines of a text the loop passes on, and what it says of them.
pub fn write_loop(out: &mut Transcript, text: &[u8]) {
    match write_lines(out, text) {
        Ok(()) => out.say("fine"),
        Err(error) => {
            out.show("line ", &error.line);
            out.show(": ", &error.kind);
        }
    }
}

// All lines after a header.
const LINES: &[Row] = &[
    ("a header alone", Loop(b"ends 1"), "line 1: End"),
    ("a header and a line feed", Loop(b"ends 1\n"), "line 1: End"),
    ("an empty line", Loop(b"ends 1\n\n"), "|line 2: End"),
    ("the line that is needed", Loop(b"ends 1\nend"), "end|fine"),
    (
        "skipped lines around it",
        Loop(b"ends 1\n# a\n\nend\n#b\n"),
        "# a||end|#b|fine",
    ),
    (
        "no line is read behind a faulty one",
        Loop(b"ends 1\nend\nx\nend\n"),
        "end|x|line 3: Syntax",
    ),
    (
        "what is wrong with a line behind others",
        Loop(b"ends 1\n\nend\n\nend\n"),
        "|end||end|line 5: Duplicate",
    ),
    (
        "the text stops too early",
        Loop(b"ends 1\n#\n#\n"),
        "#|#|line 3: End",
    ),
];

// A reader gets the lines after the header, up to the first faulty one.
#[test]
fn lines_are_handed_to_a_reader(rt: HostRuntime) {
    compare_rows(&rt, rt.alloc(), LINES);
}
