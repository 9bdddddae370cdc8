//! MIR texts: declarations, blocks, and the order of lines.
use super::line::Line;
use super::points::read_point;
use super::regions::Regions;
use super::shapes::{Struct, Tokens, copy, is_large, part_at, parts_of, put_all};
use super::slow::{Said, write_counts};
use super::tokens::{Bytes, is, is_among, is_region};
use super::types::{read_fields, read_type};
use nll_format::TextKind::{Duplicate, Limit, Range, Syntax, TypeSize, Unknown};
use nll_problem::Kind;
use std::alloc::Global;

/// What the lines of a MIR text say, as far as it matters to later lines.
#[derive(Drop)]
pub struct Mir<'a> {
    pub alloc: Global,
    // Whether the text is of version 2.
    pub is_second: bool,
    // The last group of lines that was reached.
    reached: u32,
    pub regions: Regions<'a>,
    pub structs: Vec<Struct<'a>>,
    // The shapes of the variables' types.
    pub variables: Vec<Tokens<'a>>,
    // How many blocks there must be, how many there are, and how many points.
    blocks: u64,
    begun: u64,
    points: u64,
    // Whether the last block lacks its terminator.
    owes: bool,
}

// The groups of lines by their first words. All others are at points.
const GROUPS: &[(&str, u32)] = &[
    ("universal", 1),
    ("outlives", 2),
    ("region", 3),
    ("assert", 4),
    ("struct", 5),
    ("let", 6),
    ("blocks", 7),
    ("block", 8),
    ("end", 9),
];

// The group of a line by its first word; 10 of those at points.
fn group_of(word: &[u8]) -> u32 {
    for (known, group) in GROUPS {
        if is(word, known) {
            return *group;
        }
    }
    10
}

// Reads a parameter of a struct.
fn read_parameter<'a>(line: &mut Line<'a>, is_second: bool) -> Bytes<'a> {
    let name = line.front();
    if is_region(name) {
        line.region();
    } else {
        line.name();
    }
    let is_signed = line.has("+") || (is_second && line.has("-"));
    if !is_signed {
        line.want("=");
    }
    line.has("?");
    name
}

// Reads the parameters of a struct, where there are some.
fn read_parameters<'a>(alloc: Global, line: &mut Line<'a>, is_second: bool) -> Tokens<'a> {
    let mut parameters = Vec::new(alloc);
    if !line.has("<") {
        return parameters;
    }
    for _ in 0..line.left() {
        let _ = parameters.push(read_parameter(line, is_second));
        if !line.has(",") {
            break;
        }
    }
    line.want(">");
    parameters
}

// Whether a name occurs twice.
fn has_repeats(names: &[Bytes<'_>]) -> bool {
    for at in 0..names.len() {
        if is_among(names.get(at + 1..).unwrap_or(&[]), names[at]) {
            return true;
        }
    }
    false
}

impl<'a> Mir<'a> {
    /// No line says anything.
    pub fn new(alloc: Global) -> Mir<'a> {
        Mir {
            alloc,
            is_second: false,
            reached: 0,
            regions: Regions::new(alloc),
            structs: Vec::new(alloc),
            variables: Vec::new(alloc),
            blocks: 0,
            begun: 0,
            points: 0,
            owes: false,
        }
    }

    // Whether a line of a group may follow those before.
    fn is_in_order(&self, group: u32) -> bool {
        let is_between = (self.reached == 7 || self.reached == 8) && !self.owes;
        match group {
            7 => self.reached == 6,
            8 | 9 => is_between,
            10 => self.reached == 8 && self.owes,
            _ => self.reached <= group,
        }
    }

    // Whether a struct has this name.
    fn has_struct(&self, name: &[u8]) -> bool {
        for declared in self.structs.as_slice() {
            if declared.name == name {
                return true;
            }
        }
        false
    }

    // Notes a name of a struct's own that is declared already. Its own are `'static` and its
    // parameters.
    fn judge_names(&self, line: &mut Line<'a>, name: &[u8], own: &[Bytes<'a>]) {
        line.wrong_if(self.has_struct(name) || has_repeats(own), Duplicate);
        for known in own {
            line.wrong_if(*known == name || self.has_struct(known), Duplicate);
        }
    }

    // Notes fields that have too many nodes.
    fn judge_fields(&self, line: &mut Line<'a>, fields: &[Bytes<'a>]) {
        let parts = parts_of(self.alloc, fields);
        for part in parts.as_slice() {
            line.wrong_if(is_large(part_at(fields, Some(part))), TypeSize);
        }
    }

    // Reads what follows `assert`.
    fn assert(&mut self, line: &mut Line<'a>) {
        line.wrong_if(!self.is_second, Syntax);
        self.regions.known(line);
        line.want(":");
        self.regions.known(line);
    }

    // Reads what follows `struct`.
    fn declare_struct(&mut self, line: &mut Line<'a>) {
        let name = line.name();
        let parameters = read_parameters(self.alloc, line, self.is_second);
        line.has("drop");
        let mut own: Tokens<'a> = Vec::new(self.alloc);
        let _ = own.push(b"'static");
        put_all(&mut own, parameters.as_slice());
        self.judge_names(line, name, own.as_slice());
        let fields = read_fields(self, line, own.as_slice());
        self.judge_fields(line, fields.as_slice());
        let _ = self.structs.push(Struct {
            name,
            parameters,
            fields,
        });
    }

    // Reads what follows `let`.
    fn declare_variable(&mut self, line: &mut Line<'a>) {
        let number = line.number("_");
        line.wrong_if(number != self.variables.len() as u64, Range);
        line.want(":");
        let shape = read_type(self, line);
        let _ = self.variables.push(shape);
    }

    // Reads what follows `blocks`.
    fn count_blocks(&mut self, line: &mut Line<'a>) {
        self.blocks = line.number("");
        line.wrong_if(self.blocks == 0, Range);
        line.wrong_if(self.blocks > 1_048_576, Limit(Kind::Points));
    }

    // Reads what follows `block`.
    fn begin_block(&mut self, line: &mut Line<'a>) {
        let number = line.number("bb");
        line.wrong_if(number != self.begun || number >= self.blocks, Range);
        self.begun = self.begun.saturating_add(1);
        self.owes = true;
    }

    // Reads a statement or terminator.
    fn add_point(&mut self, line: &mut Line<'a>, first: Bytes<'a>) {
        self.owes = !read_point(self, line, first);
        self.points = self.points.saturating_add(1);
    }

    // Reads what follows the first word of a declaration.
    fn declare(&mut self, line: &mut Line<'a>, group: u32) {
        match group {
            1 => self.regions.declare_universal(line),
            2 => {
                self.regions.universal(line);
                self.regions.universal(line);
            }
            3 => self.regions.declare(line),
            4 => self.assert(line),
            5 => self.declare_struct(line),
            _ => self.declare_variable(line),
        }
    }

    // Reads what follows the first word of a line of a block, or of a line around blocks.
    fn go_on(&mut self, line: &mut Line<'a>, group: u32, first: Bytes<'a>) {
        match group {
            7 => self.count_blocks(line),
            8 => self.begin_block(line),
            9 => line.wrong_if(self.begun < self.blocks, Range),
            _ => self.add_point(line, first),
        }
    }

    /// The shape of a variable; none where it isn't declared.
    pub fn variable(&self, line: &mut Line<'a>, number: u64) -> Tokens<'a> {
        let place = usize::try_from(number).unwrap_or(usize::MAX);
        let found = self.variables.get(place);
        line.wrong_if(found.is_none(), Unknown);
        match found {
            Some(shape) => copy(self.alloc, shape.as_slice()),
            None => Vec::new(self.alloc),
        }
    }

    /// Reads a block to which a terminator goes.
    pub fn target(&self, line: &mut Line<'a>) {
        let block = line.number("bb");
        line.wrong_if(block >= self.blocks, Range);
    }
}

impl<'a> Said<'a> for Mir<'a> {
    fn begin(&mut self, version: &str) -> bool {
        self.is_second = version == "2";
        true
    }

    fn read(&mut self, line: &mut Line<'a>) {
        let first = line.take();
        let group = group_of(first);
        line.wrong_if(!self.is_in_order(group), Syntax);
        if group < 7 {
            self.declare(line, group);
        } else {
            self.go_on(line, group, first);
        }
        self.reached = group.min(8 + u32::from(group == 9));
    }

    fn may_stop(&self) -> bool {
        self.reached == 9
    }

    fn write(&self, out: &mut String) {
        let variables = self.variables.len();
        write_counts(out, self.points, self.regions.counts(), variables);
    }
}
