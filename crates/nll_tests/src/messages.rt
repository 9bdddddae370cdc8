//! Errors, and how they are printed.
use super::rows::{Asked, Row, compare_rows};
use super::transcript::Transcript;
use fixpoint::PartError;
use nll_core::{BuildError, Kind, Memory};
use nll_cut::CutError;
use nll_format::{TextError, TextKind};
use nll_model::ModelError;
use nll_text::NotUtf8;
use std::alloc::{AllocError, AllocFailed};
use std::fmt::Display;

// Errors of builders.
const BUILD_ERRORS: &[BuildError] = &[
    BuildError::PointRange,
    BuildError::RegionRange,
    BuildError::Limit(Kind::Text),
    BuildError::Limit(Kind::Points),
    BuildError::Limit(Kind::Edges),
    BuildError::Limit(Kind::Universals),
    BuildError::Limit(Kind::Regions),
    BuildError::Limit(Kind::Constraints),
    BuildError::Limit(Kind::Variables),
    BuildError::Limit(Kind::Structs),
    BuildError::Memory,
];

// Errors of cuts.
const CUT_ERRORS: &[CutError] = &[
    CutError::Owners,
    CutError::Length,
    CutError::NoSuchOwner(4),
    CutError::Memory,
];

// Errors of parts, and of steps of a world.
const PART_ERRORS: &[PartError] = &[PartError::Memory, PartError::Broken];

const MODEL_ERRORS: &[ModelError] = &[
    ModelError::NotNow,
    ModelError::Owner(PartError::Memory),
    ModelError::Owner(PartError::Broken),
];

// What is wrong with lines.
const TEXT_KINDS: &[TextKind] = &[
    TextKind::NotUtf8,
    TextKind::Header,
    TextKind::Syntax,
    TextKind::Unknown,
    TextKind::Duplicate,
    TextKind::Range,
    TextKind::Shape,
    TextKind::TypeSize,
    TextKind::Limit(Kind::Edges),
    TextKind::End,
    TextKind::Memory,
];

// Prints each error.
fn write_each<E: Display>(out: &mut Transcript, errors: &[E]) {
    for error in errors {
        out.print(error);
    }
}

/// Writes what errors print, each with a bar after it.
pub fn write_messages(out: &mut Transcript) {
    write_each(out, BUILD_ERRORS);
    write_each(out, CUT_ERRORS);
    write_each(out, PART_ERRORS);
    write_each(out, MODEL_ERRORS);
    write_each(out, TEXT_KINDS);
    let (line, kind) = (7, TextKind::End);
    out.print(&TextError { line, kind });
    out.print(&Memory::from(AllocError));
    out.print(&NotUtf8);
}

/// Writes what becomes of a failed allocation, whatever it comes from.
pub fn write_memory(out: &mut Transcript) {
    let memory = Memory::from(AllocError);
    out.show("", &memory);
    out.show("|", &Memory::from(AllocFailed { value: 1u8 }));
    out.show("|", &BuildError::from(AllocError));
    out.show("|", &BuildError::from(AllocFailed { value: 1u8 }));
    out.show("|", &BuildError::from(memory));
    out.show("|", &CutError::from(AllocError));
    out.show("|", &CutError::from(AllocFailed { value: 1u8 }));
    out.show("|", &CutError::from(memory));
}

// What errors print, and what becomes of a failed allocation.
const ERRORS: &[Row] = &[
    (
        "errors",
        Asked::Messages,
        "no such point|no such region|more bytes than the limit|more points than the limit|\
         more edges than the limit|more universal regions than the limit|\
         more regions than the limit|more constraints than the limit|\
         more variables than the limit|more structs than the limit|out of memory|\
         no owner, or too many|not an owner for each region|no such owner at 4|out of memory|\
         out of memory|an earlier call was refused|\
         not now|out of memory|an earlier call was refused|\
         the line isn't UTF-8|the first line isn't the header|\
         the line has none of the forms, or stands out of order|\
         a name that no earlier line declares|a name that is declared already|\
         a number that isn't allowed in its place|types that don't fit|a type of too many nodes|\
         past the limit: Edges|the text stops before its last line|out of memory|\
         line 7: the text stops before its last line|\
         a growth of memory was refused|not UTF-8|",
    ),
    (
        "memory",
        Asked::Memory,
        "Memory(())|Memory(())|Memory|Memory|Memory|Memory|Memory|Memory",
    ),
];

// An error prints what was wrong, and a failed allocation is reported as such, whatever it comes
// from.
#[test]
fn errors_are_told(rt: HostRuntime) {
    compare_rows(&rt, rt.alloc(), ERRORS);
}
