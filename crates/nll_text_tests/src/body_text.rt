//! What a MIR text says, or its fault, as text. If an allocation fails, the test ends.
ghost use Rattle.std.specs.Prelude.{◌<◌, length};

use super::body_types::{write_forms, write_places, write_typed, write_variables};
use super::comparison::compare;
use super::pieces::{write_number, write_numbers, write_piece};
use super::slow::write_fault;
use nll_body::Body;
use nll_format::{Labels, PointName, TextError};
use nll_mir_text::read_mir;
use nll_problem::{Graph, RegionId};
use nll_worked::text_of;
use std::alloc::Global;
use std::process::Abort;

/// What is asked of a body.
#[derive(Clone, Copy)]
pub enum Asked {
    /// What it says.
    All,
    /// How much it has, and what its last point does.
    Size,
    /// How many edges leave its first point, and whether the block ends there.
    First,
    /// The regions of each variable's type.
    Variables,
    /// The form of each variable's type, and the regions of its parts.
    Forms,
    /// The regions of the types of the places that `types` has.
    Places,
    /// The regions of the types of variables and statements, by number.
    Typed,
}

// ---- writing

// Writes a region.
fn write_region(rt: &impl Abort, out: &mut String, kind: &str, labels: &Labels, region: RegionId)
    requires { region < length labels.now.names }
{
    let name = labels.region(region);
    write!(out, "{kind} '{name}|").expect(rt, "memory");
}

// Writes the regions in their order.
fn write_regions(rt: &impl Abort, out: &mut String, body: &Body) {
    let labels = body.labels();
    for number in 0..labels.regions() {
        let region = RegionId(number.min(100_000) as u32);
        let is_universal = region.0 < body.universals();
        let kind = if is_universal { "universal" } else { "region" };
        write_region(rt, out, kind, labels, region);
    }
}

// Writes pairs of regions after a word: which universal region is known to outlive which, or which
// region must hold all that another one holds.
fn write_pairs(rt: &impl Abort, out: &mut String, word: &str, pairs: &[(u32, u32)]) {
    for (longer, shorter) in pairs {
        write_number(rt, out, word, u64::from(*longer), " ");
        write_number(rt, out, "", u64::from(*shorter), "|");
    }
}

// Writes the name of a point.
fn write_point(rt: &impl Abort, out: &mut String, labels: &Labels, point: u32) {
    match labels.point(point) {
        PointName::Number(number) => write_number(rt, out, "", u64::from(number), ""),
        PointName::Block(block, place) => {
            write_number(rt, out, "bb", u64::from(block), "/");
            write_number(rt, out, "", u64::from(place), "");
        }
    }
}

// Writes a number after a word, where there is one.
fn write_found(rt: &impl Abort, out: &mut String, word: &str, number: Option<u32>) {
    if let Some(number) = number {
        write_number(rt, out, word, u64::from(number), "");
    }
}

// Writes where a point leads, and whether it is a return point.
fn write_ways(rt: &impl Abort, out: &mut String, graph: &Graph, point: u32)
    requires { point < graph.now.points }
{
    write_numbers(rt, out, " to", graph.next_of(point));
    let is_return = graph.is_return(point);
    write_piece(rt, out, if is_return { " returns" } else { "" });
}

// Writes the variables that are used at a point.
fn write_uses(rt: &impl Abort, alloc: Global, out: &mut String, body: &Body, point: u32)
    requires { point < length body.now.points }
{
    let mut used = Vec::new(alloc);
    body.uses(point, &mut used).expect(rt, "memory");
    write_numbers(rt, out, " uses", used.as_slice());
}

// Writes where a point leads, and what is used, defined and dropped at it.
fn write_line(rt: &impl Abort, alloc: Global, out: &mut String, body: &Body, point: u32)
    requires { point < length body.now.points }
{
    write_point(rt, out, body.labels(), point);
    write_ways(rt, out, body.graph(), point);
    write_uses(rt, alloc, out, body, point);
    write_found(rt, out, " defines ", body.defines(point));
    write_found(rt, out, " drops ", body.drops(point));
    write_piece(rt, out, "|");
}

// Writes what each point of a body does.
fn write_lines(rt: &impl Abort, alloc: Global, out: &mut String, body: &Body) {
    for point in 0..body.points() {
        write_line(rt, alloc, out, body, point);
    }
}

// Writes what a body says.
fn write_body(rt: &impl Abort, alloc: Global, out: &mut String, body: &Body) {
    write_regions(rt, out, body);
    write_pairs(rt, out, "outlives ", body.outlives());
    write_pairs(rt, out, "assert ", body.asserts());
    write_number(rt, out, "", body.variables() as u64, " variables|");
    write_lines(rt, alloc, out, body);
}

// Writes how much a body has, and what its last point does.
fn write_size(rt: &impl Abort, alloc: Global, out: &mut String, body: &Body) {
    write_number(rt, out, "", body.regions() as u64, " regions, ");
    write_number(rt, out, "", body.variables() as u64, " variables|");
    match body.points().checked_sub(1) {
        Some(last) => write_line(rt, alloc, out, body, last),
        None => write_piece(rt, out, "no point"),
    }
}

// Writes how many edges leave the first point of a body, and whether the block ends there.
fn write_first(rt: &impl Abort, out: &mut String, body: &Body) {
    if body.points() != 0 {
        let line = body.line_at(0);
        let ends = line.statements.is_terminator(line.statement);
        let edges = body.graph().next_of(0).len();
        write_number(rt, out, "", edges as u64, if ends { " ends" } else { "" });
    }
}

// Writes what is asked of a body.
fn write_asked(rt: &impl Abort, alloc: Global, out: &mut String, body: &Body, asked: Asked) {
    match asked {
        Asked::All => write_body(rt, alloc, out, body),
        Asked::Size => write_size(rt, alloc, out, body),
        Asked::First => write_first(rt, out, body),
        Asked::Variables => write_variables(rt, alloc, out, body),
        Asked::Forms => write_forms(rt, alloc, out, body),
        Asked::Places => write_places(rt, alloc, out, body),
        Asked::Typed => write_typed(rt, alloc, out, body),
    }
}

// ---- of texts

// What the body that was read answers, or the text's fault.
fn told(rt: &impl Abort, alloc: Global, read: Result<Body, TextError>, asked: Asked) -> String {
    let mut out = String::new(alloc);
    match read {
        Ok(body) => write_asked(rt, alloc, &mut out, &body, asked),
        Err(fault) => write_fault(&mut out, fault.line, fault.kind),
    }
    out
}

/// What a text says, or its fault.
pub fn read(rt: &impl Abort, alloc: Global, text: &[u8], asked: Asked) -> String {
    told(rt, alloc, read_mir(alloc, text), asked)
}

/// Ends the test if something else is reported of a text of lines that end with `|`.
pub fn compare_lines(rt: &impl Abort, alloc: Global, asked: Asked, lines: &str, want: &str) {
    let text = text_of(alloc, lines).expect(rt, "memory");
    let told = read(rt, alloc, text.as_slice(), asked);
    compare(rt, lines, told.as_str(), want);
}
