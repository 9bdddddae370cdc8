//! Lines of texts: what is asked of them, and texts that are cut into lines.
use super::rows::Asked::Line;
use super::rows::{Row, compare_lines, compare_rows};
use super::transcript::Transcript;
use super::{mir_lines, type_names, written_types};
use nll_mir_grammar::is_capital;
use nll_text::{is_header, next_line};

/// What is asked of a line.
#[derive(Clone, Copy)]
pub enum OfLine {
    /// The lines into which it is cut, where it is a text.
    Lines,
    /// Whether it is a header of this kind and version.
    Header(&'static str, &'static str),
    /// Whether it begins as the name of a struct does.
    Capital,
    /// The type at the front.
    Type,
    /// Whether a function is written in the type at the front.
    Function,
    /// What the names in the type at the front mean.
    Names,
    /// Its statement over numbers, and what that does.
    Resolved,
    /// Its form.
    Form,
    /// Whether its form is one of version 1.
    First,
    /// How its statement goes on.
    Exits,
    /// What its statement over numbers does, and where it goes on.
    Effects,
}

/// Writes what is reported about a line.
pub fn write_line(out: &mut Transcript, line: &str, asked: OfLine) {
    match asked {
        OfLine::Lines => write_lines(out, line),
        OfLine::Header(kind, version) => {
            out.flag(
                "",
                is_header(line.as_bytes(), kind.as_bytes(), version.as_bytes()),
                "",
            )
        }
        OfLine::Capital => out.flag("", is_capital(line.as_bytes()), ""),
        OfLine::Names | OfLine::Resolved | OfLine::Effects | OfLine::Exits => {
            type_names::write_in_scope(out, line, asked)
        }
        _ => write_told(out, line.as_bytes(), asked),
    }
}

// Writes what is reported about a line of a MIR text, or of the type at the front.
fn write_told(out: &mut Transcript, line: &[u8], asked: OfLine) {
    match asked {
        OfLine::Type => written_types::write_front(out, line),
        OfLine::Function => written_types::write_function_flag(out, line),
        OfLine::First => mir_lines::write_version_flag(out, line),
        _ => mir_lines::write_form(out, line),
    }
}

// Writes the lines of a text, each with a bar after it.
fn write_lines(out: &mut Transcript, text: &str) {
    let mut left = Some(text.as_bytes());
    for _ in 0..=text.len() {
        if let Some(text) = left {
            let (line, after) = next_line(text);
            out.part("", line);
            left = after;
        }
    }
}

// Texts, and their lines with a bar after each.
const LINES: &[(&str, &str)] = &[
    ("", "|"),
    ("\n", "|"),
    ("a", "a|"),
    ("a\n", "a|"),
    ("\n\n", "||"),
    ("\na", "|a|"),
    ("a\n\n", "a||"),
    ("a\nbc\nd", "a|bc|d|"),
    ("a\rb\r\nc", "a\rb\r|c|"),
];

// Lines, and whether they are the header of facts texts.
const HEADERS: &[(&str, &str)] = &[
    ("nll-facts 1", "true"),
    (" \tnll-facts\t \r1\r", "true"),
    ("nll-facts", "false"),
    ("nll-facts1", "false"),
    ("nll-facts 11", "false"),
    ("nll-facts 1 1", "false"),
    ("nll-facts 1#", "false"),
    ("nll-mir 1", "false"),
    ("# nll-facts 1", "false"),
    ("\u{feff}nll-facts 1", "false"),
    ("", "false"),
];

// Lines that aren't headers, whatever the kind is.
const OTHERS: &[Row] = &[
    ("1", Line(OfLine::Header("", "1")), "false"),
    ("a b 1", Line(OfLine::Header("a b", "1")), "false"),
];

// A line ends at a line feed, and nothing follows the last one. A header is two runs of bytes that
// aren't blanks.
#[test]
fn texts_are_cut_into_lines(rt: HostRuntime) {
    compare_lines(&rt, rt.alloc(), OfLine::Lines, LINES);
    compare_lines(&rt, rt.alloc(), OfLine::Header("nll-facts", "1"), HEADERS);
    compare_rows(&rt, rt.alloc(), OTHERS);
}
