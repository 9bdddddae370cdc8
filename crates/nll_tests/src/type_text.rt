//! What types, structs and shapes report, as text.
ghost use Rattle.std.specs.Prelude.{◌<◌, length};

use super::meetings::{Meeting, write_both, write_meeting};
use super::transcript::Transcript;
use super::type_data::Step::{Int, Named, Parameter, Reference, Tuple};
use super::type_data::{Step, Written, declare, types_of};
use super::type_rows::write_row;
use super::well_formed::is_well_formed;
use nll_core::RegionId;
use nll_sets::Memory;
use nll_types::{Node, Projection, Structs, Ty, TypeTable, behind, copy, put_in};

// The structs of the tests:
//  0 has a drop of its own, which needs its region;
//  1 has one that doesn't, as its region is marked;
//  2 has one that doesn't need its type parameter, which is the type of its field;
//  3 has one that needs its type parameter;
//  4 has no drop, and a reference to its parameter and a struct 0 for fields;
//  5 has a struct 0 of 'static for its field, and a pair of its parameter.
const STRUCTS: &[Written<'static>] = &[
    (&[false], &[], true, &[]),
    (&[true], &[], true, &[Int]),
    (&[], &[true], true, &[Parameter(0)]),
    (&[], &[false], true, &[]),
    (
        &[false],
        &[false],
        false,
        &[Parameter(0), Reference(1, true), Named(0, &[1], 0)],
    ),
    (
        &[],
        &[false],
        false,
        &[Named(0, &[0], 0), Parameter(0), Parameter(0), Tuple(2)],
    ),
];

// Writes regions.
fn write_regions(out: &mut Transcript, regions: &[RegionId]) {
    for region in regions {
        out.number(" ", region.0, "");
    }
}

// Writes some types, one after another.
#[cycle(writing)]
fn write_types(out: &mut Transcript, types: &[Ty]) {
    for ty in types {
        out.say(" ");
        write_type(out, ty);
    }
}

/// Writes a type.
#[cycle(writing)]
pub fn write_type(out: &mut Transcript, ty: &Ty) {
    match ty {
        Ty::Int => out.say("int"),
        Ty::Parameter(number) => out.size("P", *number),
        Ty::Reference(region, mutable, target) => {
            let mark = if *mutable { " mut " } else { " " };
            out.number("&", region.0, mark);
            write_type(out, target);
        }
        Ty::Tuple(parts) => {
            out.say("(");
            write_types(out, parts.as_slice());
            out.say(" )");
        }
        Ty::Named(number, regions, types) => {
            out.size("S", *number);
            out.say("<");
            write_regions(out, regions.as_slice());
            write_types(out, types.as_slice());
            out.say(" >");
        }
        Ty::Function(arguments, returned) => {
            out.say("fn(");
            write_types(out, arguments.as_slice());
            out.say(" ) ");
            write_type(out, returned);
        }
    }
}

// Writes a type that was requested, where there is one.
fn write_asked(out: &mut Transcript, asked: Result<Option<Ty>, Memory>) {
    match asked {
        Ok(Some(ty)) => {
            write_type(out, &ty);
            drop(ty);
        }
        Ok(None) => out.say("none"),
        Err(_) => out.say("refused"),
    }
}

// Writes which of the first ten regions were found.
fn write_found(out: &mut Transcript, found: Result<Vec<RegionId>, Memory>) {
    match found {
        Ok(regions) => {
            for number in 0..10u32 {
                if regions.contains(&RegionId(number)) {
                    out.number(" ", number, "");
                }
            }
            drop(regions);
        }
        Err(_) => out.say("refused"),
    }
}

// Writes the regions of a type that keeps to what is declared, and its drop regions.
fn write_live(out: &mut Transcript, structs: &Structs, ty: &Ty) {
    if is_well_formed(structs, ty, 10, 0) {
        write_found(out, structs.regions(out.alloc, ty));
        out.say(" drop");
        write_found(out, structs.drop_regions(out.alloc, ty));
    } else {
        out.say(" ill");
    }
}

// Writes the type behind projections from a type that is copied.
fn write_behind_copy(
    out: &mut Transcript,
    structs: &Structs,
    ty: &Ty,
    projections: &[Projection],
) -> Result<(), Memory> {
    let from = copy(out.alloc, ty)?;
    write_asked(out, behind(out.alloc, structs, from, projections));
    Ok(())
}

// Writes the shape of a place in a variable of a type: its nodes, its parts, and whether each type
// on the way is small.
fn write_shape(
    out: &mut Transcript,
    table: &mut TypeTable,
    ty: &Ty,
    projections: &[Projection],
) -> Result<(), Memory> {
    let number = table.shape(out.alloc, ty, &[])?;
    match table.place_shape(out.alloc, number, projections)? {
        Some((found, small)) => {
            out.size(" size ", table.shapes().size(found));
            out.show(" parts ", &table.parts(found));
            out.flag(" small ", small, "");
        }
        None => out.say(" no shape"),
    }
    Ok(())
}

// Declares the structs of the tests.
fn declare_all(out: &mut Transcript, table: &mut TypeTable) {
    for written in STRUCTS {
        declare(out, table, written);
    }
}

// Writes what is reported about the last type that steps make, and of a place in it.
fn write_made(
    out: &mut Transcript,
    table: &mut TypeTable,
    steps: &[Step],
    projections: &[Projection],
) {
    declare_all(out, table);
    let types = types_of(out, steps, 0);
    if let Some(ty) = types.last() {
        let written = write_behind_copy(out, table.structs(), ty, projections);
        out.note(written);
        let shaped = write_shape(out, table, ty, projections);
        out.note(shaped);
        write_live(out, table.structs(), ty);
    }
    drop(types);
}

// Writes what nodes that are added make: a reference to an `int`, and the `int` once more.
fn write_added(out: &mut Transcript, table: &mut TypeTable) -> Result<(), Memory> {
    let int = table.add(Node::Int)?;
    let reference = table.add(Node::Reference(true, int))?;
    let again = table.add(Node::Int)?;
    out.flag("same ", table.shapes().is_same(int, again), "");
    out.flag(" other ", table.shapes().is_same(reference, again), "");
    Ok(())
}

// Writes whether a type that was made has the shape of this number.
fn write_same(out: &mut Transcript, table: &mut TypeTable, number: usize, made: Result<Ty, Memory>)
    requires { number < length table.old.shapes }
    ensures { number < length table.new.shapes }
{
    if let Ok(made) = made {
        let other = table.shape(out.alloc, &made, &[]);
        drop(made);
        if let Ok(other) = other {
            out.flag("", table.shapes().is_same(number, other), "");
        }
    }
}

// Writes the size of a type, and whether its copy and the type with arguments substituted have its
// shape. It has no parameter.
fn write_size(out: &mut Transcript, table: &mut TypeTable, ty: &Ty) {
    if let Ok(number) = table.shape(out.alloc, ty, &[]) {
        out.size("size ", table.shapes().size(number));
        out.flag(" small ", table.shapes().is_small(number), " copy ");
        write_same(out, table, number, copy(out.alloc, ty));
        out.say(" put ");
        let put = put_in(out.alloc, ty, &[RegionId(2)], &[]);
        write_same(out, table, number, put);
    }
}

// Writes what is reported about an `int` after this many references.
fn write_deep(out: &mut Transcript, table: &mut TypeTable, depth: usize) {
    let types = types_of(out, &[Int], depth);
    if let Some(ty) = types.last() {
        write_size(out, table, ty);
    }
    drop(types);
}

// Declares a struct with a drop of its own and this many further ones, each of which has for its
// field the one before it of a pair of its own parameter.
fn declare_doubling(out: &mut Transcript, table: &mut TypeTable, more: usize) {
    let first: Written<'_> = (&[], &[false], true, &[Parameter(0)]);
    declare(out, table, &first);
    for number in 0..more {
        let steps = [Parameter(0), Parameter(0), Tuple(2), Named(number, &[], 1)];
        declare(out, table, &(&[], &[false], false, &steps));
    }
}

// Writes how large what is behind this many first fields of a type is, and how many shapes there
// are.
fn write_behind(out: &mut Transcript, table: &mut TypeTable, ty: &Ty, times: usize) {
    if let Ok(from) = table.shape(out.alloc, ty, &[]) {
        let mut number = from;
        for _ in 0..times {
            if let Ok(Some(next)) = table.behind(out.alloc, Projection::Field(0), number) {
                number = next;
            }
        }
        out.size("size ", table.shapes().size(number));
        out.size(" of ", table.shapes().len());
        out.say(" shapes,");
    }
}

// Writes what is reported about the last of this many structs that double, of a reference, and of
// what is behind it.
fn write_doubling(out: &mut Transcript, table: &mut TypeTable, more: usize) {
    declare_doubling(out, table, more);
    let types = types_of(out, &[Int, Reference(3, false)], 0);
    let ty = Ty::Named(more, Vec::new(out.alloc), types);
    write_behind(out, table, &ty, more.saturating_add(1));
    write_live(out, table.structs(), &ty);
    drop(ty);
}

/// What is asked of types.
#[derive(Clone, Copy)]
pub enum OfType {
    /// The last type that steps make, and a place in it: the place's type and shape, and the type's
    /// regions and drop regions.
    Place(&'static [Step], &'static [Projection]),
    /// Nodes that are added.
    Added,
    /// An `int` after this many references.
    Deep(usize),
    /// The last of this many structs that double.
    Doubling(usize),
    /// What is judged of a place, where `_0` and `_1` have the last two types that steps make.
    Meeting(&'static [Step], Meeting, (u32, &'static [Projection])),
    /// What is judged of some together.
    Both,
    /// A type that a shape and a row of regions make.
    OfRow,
}

// Writes what is reported over a table.
fn write_told(out: &mut Transcript, table: &mut TypeTable, asked: OfType) {
    match asked {
        OfType::Place(steps, projections) => write_made(out, table, steps, projections),
        OfType::Added => {
            let added = write_added(out, table);
            out.note(added);
        }
        OfType::Deep(depth) => write_deep(out, table, depth),
        OfType::Doubling(more) => write_doubling(out, table, more),
        OfType::Meeting(steps, meeting, place) => write_meeting(out, table, steps, meeting, place),
        OfType::Both => write_both(out),
        OfType::OfRow => write_row(out),
    }
}

/// Writes what is reported about types.
pub fn write_typed(out: &mut Transcript, asked: OfType) {
    let mut table = TypeTable::new(out.alloc);
    write_told(out, &mut table, asked);
    drop(table);
}
