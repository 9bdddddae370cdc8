//! The slow readers: what a text of a format says, or its one fault, as text.
use super::line::Line;
use super::tokens::{Bytes, is_header, is_skipped, is_utf8, put_lines};
use nll_format::TextKind::{self, End, Header, NotUtf8};
use std::alloc::Global;

// The versions that a format may have.
const VERSIONS: &[&str] = &["1", "2"];

/// What the lines of a text say together.
pub trait Said<'a> {
    /// Begins a text of a version. Whether the format has it.
    fn begin(&mut self, version: &str) -> bool;

    /// Reads a further line, notes what is wrong with it, and adds what it says.
    fn read(&mut self, line: &mut Line<'a>);

    /// Whether a text may stop after these lines.
    fn may_stop(&self) -> bool;

    /// Writes what is said.
    fn write(&self, out: &mut String);
}

// The kind of fault of a header, which reports of which version the text is.
fn header_fault<'a, S: Said<'a>>(line: &[u8], kind: &str, said: &mut S) -> Option<TextKind> {
    if !is_utf8(line) {
        return Some(NotUtf8);
    }
    for version in VERSIONS {
        if is_header(line, kind, version) && said.begin(version) {
            return None;
        }
    }
    Some(Header)
}

// The kind of fault of a further line, which adds what it says.
fn line_fault<'a, S: Said<'a>>(alloc: Global, line: Bytes<'a>, said: &mut S) -> Option<TextKind> {
    if !is_utf8(line) {
        return Some(NotUtf8);
    }
    if is_skipped(line) {
        return None;
    }
    let mut line = Line::new(alloc, line);
    said.read(&mut line);
    line.fault()
}

// The index of the first line that has a fault, and its kind.
fn first_fault<'a, S: Said<'a>>(
    alloc: Global,
    lines: &[Bytes<'a>],
    kind: &str,
    said: &mut S,
) -> Option<(usize, TextKind)> {
    for at in 0..lines.len() {
        let line = lines[at];
        let fault = if at == 0 {
            header_fault(line, kind, said)
        } else {
            line_fault(alloc, line, said)
        };
        if let Some(kind) = fault {
            return Some((at, kind));
        }
    }
    None
}

/// Writes the line and the kind of a fault.
pub fn write_fault(out: &mut String, line: u64, kind: TextKind) {
    let _ = write!(out, "line {line}: {kind:?}");
}

/// Writes how many points, regions, universal regions among these, and variables a text has.
pub fn write_counts(out: &mut String, points: u64, regions: (usize, usize), variables: usize) {
    let (all, universals) = regions;
    let _ = write!(
        out,
        "{points} points, {all} regions, {universals} universal, {variables} variables"
    );
}

/// Writes what a text of a kind says, or its fault. Nothing is said before.
pub fn write_slowly<'a, S: Said<'a>>(
    alloc: Global,
    out: &mut String,
    (text, kind): (Bytes<'a>, &str),
    said: &mut S,
) {
    let mut lines = Vec::new(alloc);
    put_lines(&mut lines, text);
    let fault = first_fault(alloc, lines.as_slice(), kind, said);
    match fault {
        Some((at, kind)) => write_fault(out, (at as u64).saturating_add(1), kind),
        None if said.may_stop() => said.write(out),
        None => write_fault(out, lines.len() as u64, End),
    }
}
