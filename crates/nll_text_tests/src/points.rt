//! MIR texts: statements and terminators.
use super::line::Line;
use super::mir::Mir;
use super::shapes::{
    Tokens, are_same, as_tuple, int, is_large, part, part_at, parts_of, pointed_to, reference,
};
use super::tokens::{Bytes, is};
use super::types::read_type;
use nll_format::TextKind::{Shape, Syntax, TypeSize};
use std::alloc::Global;

// ---- places and operands

// Reads what follows the `.` of a projection: the shape after it.
fn read_projection<'a>(mir: &Mir<'a>, line: &mut Line<'a>, shape: &[Bytes<'a>]) -> Tokens<'a> {
    let behind = if line.has("*") {
        pointed_to(mir.alloc, shape)
    } else {
        part(mir.alloc, mir.structs.as_slice(), shape, line.number(""))
    };
    line.wrong_if(behind.is_empty(), Shape);
    line.wrong_if(is_large(behind.as_slice()), TypeSize);
    behind
}

// Reads a variable.
fn read_variable<'a>(mir: &Mir<'a>, line: &mut Line<'a>) -> Tokens<'a> {
    let number = line.number("_");
    mir.variable(line, number)
}

// Reads projections: the shape after them.
fn read_projections<'a>(mir: &Mir<'a>, line: &mut Line<'a>, first: Tokens<'a>) -> Tokens<'a> {
    let mut shape = first;
    for _ in 0..line.left() {
        if !line.has(".") {
            break;
        }
        shape = read_projection(mir, line, shape.as_slice());
    }
    shape
}

// Reads a place: its shape.
fn read_place<'a>(mir: &Mir<'a>, line: &mut Line<'a>) -> Tokens<'a> {
    let shape = read_variable(mir, line);
    read_projections(mir, line, shape)
}

// Reads an operand: its shape.
fn read_operand<'a>(mir: &Mir<'a>, line: &mut Line<'a>) -> Tokens<'a> {
    if line.has("const") {
        return int(mir.alloc);
    }
    let is_copied = line.has("copy");
    if !is_copied {
        line.want("move");
    }
    read_place(mir, line)
}

// Notes shapes that aren't one.
fn want_same(line: &mut Line<'_>, shape: &[Bytes<'_>], other: &[Bytes<'_>]) {
    line.wrong_if(!are_same(shape, other), Shape);
}

// ---- right sides

// Reads what follows the `&` of a borrow: the shape of the reference.
fn read_borrow<'a>(mir: &Mir<'a>, line: &mut Line<'a>) -> Tokens<'a> {
    mir.regions.known(line);
    let is_mutable = line.has("mut");
    let shape = read_place(mir, line);
    reference(mir.alloc, is_mutable, shape.as_slice())
}

// Reads operands for these parts, between `(` and `)`.
fn read_operands<'a>(mir: &Mir<'a>, line: &mut Line<'a>, whole: &[Bytes<'a>]) {
    let parts = parts_of(mir.alloc, whole);
    let mut count = 0usize;
    line.want("(");
    for _ in 0..line.left() {
        if count == 0 && is(line.front(), ")") {
            break;
        }
        let operand = read_operand(mir, line);
        want_same(line, operand.as_slice(), part_at(whole, parts.get(count)));
        count = count.saturating_add(1);
        if !line.has(",") {
            break;
        }
    }
    line.want(")");
    line.wrong_if(count != parts.len(), Shape);
}

// Notes parts that have too many nodes.
fn judge_parts<'a>(alloc: Global, line: &mut Line<'a>, whole: &[Bytes<'a>]) {
    let parts = parts_of(alloc, whole);
    for part in parts.as_slice() {
        line.wrong_if(is_large(part_at(whole, Some(part))), TypeSize);
    }
}

// Reads what follows `make`: the shape of what is made.
fn read_make<'a>(mir: &Mir<'a>, line: &mut Line<'a>) -> Tokens<'a> {
    let shape = read_type(mir, line);
    let whole = as_tuple(mir.alloc, mir.structs.as_slice(), shape.as_slice());
    line.wrong_if(whole.is_empty(), Shape);
    read_operands(mir, line, whole.as_slice());
    judge_parts(mir.alloc, line, whole.as_slice());
    shape
}

// Reads an operand and its type.
fn read_argument<'a>(mir: &Mir<'a>, line: &mut Line<'a>) {
    let operand = read_operand(mir, line);
    line.want(":");
    let shape = read_type(mir, line);
    want_same(line, operand.as_slice(), shape.as_slice());
}

// Reads the operands of a call and their types, between `(` and `)`.
fn read_arguments<'a>(mir: &Mir<'a>, line: &mut Line<'a>) {
    line.want("(");
    let is_empty = line.has(")");
    if is_empty {
        return;
    }
    for _ in 0..line.left() {
        read_argument(mir, line);
        if !line.has(",") {
            break;
        }
    }
    line.want(")");
}

// Reads what of a call comes after `where`, where it has that.
fn read_bounds<'a>(mir: &Mir<'a>, line: &mut Line<'a>) {
    if !line.has("where") {
        return;
    }
    for _ in 0..line.left() {
        mir.regions.known(line);
        line.want(":");
        mir.regions.known(line);
        if !line.has(",") {
            break;
        }
    }
}

// Reads where a terminator goes on.
fn read_exits<'a>(mir: &Mir<'a>, line: &mut Line<'a>) {
    line.want("->");
    mir.target(line);
    if line.has("unwind") {
        mir.target(line);
    }
}

// Reads what follows `call`: the shape of the result.
fn read_call<'a>(mir: &Mir<'a>, line: &mut Line<'a>) -> Tokens<'a> {
    line.word();
    read_arguments(mir, line);
    line.want(":");
    let shape = read_type(mir, line);
    read_bounds(mir, line);
    read_exits(mir, line);
    shape
}

// Reads what is assigned: its shape.
fn read_right<'a>(mir: &Mir<'a>, line: &mut Line<'a>) -> Tokens<'a> {
    if line.has("&") {
        read_borrow(mir, line)
    } else if line.has("make") {
        read_make(mir, line)
    } else if line.has("call") {
        read_call(mir, line)
    } else {
        read_operand(mir, line)
    }
}

// ---- lines

// Reads an assignment after its variable. Answers whether it is a terminator: a call.
fn read_assignment<'a>(mir: &Mir<'a>, line: &mut Line<'a>, variable: Bytes<'a>) -> bool {
    let number = line.number_in(variable, "_");
    let first = mir.variable(line, number);
    let target = read_projections(mir, line, first);
    line.want("=");
    let is_call = is(line.front(), "call");
    let right = read_right(mir, line);
    want_same(line, right.as_slice(), target.as_slice());
    is_call
}

// Reads what follows `switch`.
fn read_switch<'a>(mir: &Mir<'a>, line: &mut Line<'a>) {
    let operand = read_operand(mir, line);
    want_same(line, operand.as_slice(), &[b"int"]);
    mir.target(line);
    for _ in 0..line.left() {
        mir.target(line);
    }
}

// What follows the first word of a line.
#[derive(Clone, Copy)]
enum Behind {
    Nothing,
    Place,
    Variable,
    Target,
    Targets,
    VariableAndExits,
}

// Lines at points by their first words, and which are terminators. All others are assignments.
const FORMS: &[(&str, Behind, bool)] = &[
    ("read", Behind::Place, false),
    ("live", Behind::Variable, false),
    ("dead", Behind::Variable, false),
    ("nop", Behind::Nothing, false),
    ("goto", Behind::Target, true),
    ("switch", Behind::Targets, true),
    ("drop", Behind::VariableAndExits, true),
    ("return", Behind::Nothing, true),
    ("stop", Behind::Nothing, true),
];

// What follows a word, and whether it begins a terminator.
fn form_of(word: &[u8]) -> Option<(Behind, bool)> {
    for (known, behind, is_terminator) in FORMS {
        if is(word, known) {
            return Some((*behind, *is_terminator));
        }
    }
    None
}

// Reads what follows the first word.
fn read_behind<'a>(mir: &Mir<'a>, line: &mut Line<'a>, behind: Behind) {
    match behind {
        Behind::Nothing => line.wrong_if(false, Syntax),
        Behind::Place => drop(read_place(mir, line)),
        Behind::Variable => drop(read_variable(mir, line)),
        Behind::Target => mir.target(line),
        Behind::Targets => read_switch(mir, line),
        Behind::VariableAndExits => {
            drop(read_variable(mir, line));
            read_exits(mir, line);
        }
    }
}

/// Reads a statement or terminator after its first token. Answers whether it is a terminator.
pub fn read_point<'a>(mir: &Mir<'a>, line: &mut Line<'a>, first: Bytes<'a>) -> bool {
    let Some((behind, is_terminator)) = form_of(first) else {
        return read_assignment(mir, line, first);
    };
    read_behind(mir, line, behind);
    is_terminator
}
