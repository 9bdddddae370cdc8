//! Facts texts.
use super::line::Line;
use super::regions::Regions;
use super::slow::{Said, write_counts};
use super::tokens::is;
use nll_format::TextKind::{Limit, Range, Syntax};
use nll_problem::Kind;
use std::alloc::Global;

/// What the lines of a facts text say, as far as it matters to later lines.
#[derive(Drop)]
pub struct Facts<'a> {
    // Whether a constraint may hold at all points: from version 2 on.
    may_be_everywhere: bool,
    // The last group of lines that was reached.
    reached: u32,
    points: u64,
    regions: Regions<'a>,
}

// Lines by their first words, their groups, and a letter for each part after the word.
const FORMS: &[(&str, u32, &str)] = &[
    ("points", 1, "n"),
    ("universal", 2, "u"),
    ("outlives", 3, "oo"),
    ("region", 4, "x"),
    ("next", 5, "pp"),
    ("return", 5, "p"),
    ("base", 5, "rp"),
    ("constraint", 5, "rrw"),
    ("end", 6, ""),
];

// The group of a line and the letters of its parts, by its first word.
fn form_of(word: &[u8]) -> Option<(u32, &'static str)> {
    for (known, group, parts) in FORMS {
        if is(word, known) {
            return Some((*group, parts));
        }
    }
    None
}

impl<'a> Facts<'a> {
    /// No line says anything.
    pub fn new(alloc: Global) -> Facts<'a> {
        Facts {
            may_be_everywhere: false,
            reached: 0,
            points: 0,
            regions: Regions::new(alloc),
        }
    }

    // Reads how many points there are.
    fn count(&mut self, line: &mut Line<'a>) {
        self.points = line.number("");
        line.wrong_if(self.points == 0, Range);
        line.wrong_if(self.points > 1_048_576, Limit(Kind::Points));
    }

    // Reads a point.
    fn point(&mut self, line: &mut Line<'a>) {
        let point = line.number("");
        line.wrong_if(point >= self.points, Range);
    }

    // Reads where a constraint holds.
    fn place(&mut self, line: &mut Line<'a>) {
        if line.has("all") {
            line.wrong_if(!self.may_be_everywhere, Syntax);
        } else {
            self.point(line);
        }
    }

    // Reads the part of a letter.
    fn part(&mut self, line: &mut Line<'a>, letter: u8) {
        match letter {
            b'n' => self.count(line),
            b'u' => self.regions.declare_universal(line),
            b'o' => self.regions.universal(line),
            b'x' => self.regions.declare(line),
            b'r' => self.regions.known(line),
            b'w' => self.place(line),
            _ => self.point(line),
        }
    }

    // Whether a line of a group may follow those before.
    fn is_in_order(&self, group: u32) -> bool {
        let is_begun = (group == 1) == (self.reached == 0);
        is_begun && self.reached <= group && self.reached != 6
    }
}

impl<'a> Said<'a> for Facts<'a> {
    fn begin(&mut self, version: &str) -> bool {
        self.may_be_everywhere = version == "2";
        true
    }

    fn read(&mut self, line: &mut Line<'a>) {
        let form = form_of(line.take());
        line.wrong_if(form.is_none(), Syntax);
        let (group, parts) = form.unwrap_or((0, ""));
        line.wrong_if(!self.is_in_order(group), Syntax);
        for letter in parts.as_bytes() {
            self.part(line, *letter);
        }
        self.reached = group;
    }

    fn may_stop(&self) -> bool {
        self.reached == 6
    }

    fn write(&self, out: &mut String) {
        write_counts(out, self.points, self.regions.counts(), 0);
    }
}
