//! What is judged where types meet in a statement.
ghost use Rattle.std.specs.Prelude.{◌≡◌, ◌<◌, ◌∷◌, [], ℕ, IfOk, length};
ghost use Rattle.nll_types.specs.Rows.{shape_numbers};
ghost use Rattle.nll_types.specs.Table.{AreBelow};
ghost use Rattle.nll_body.specs.Flat.{statement_in};
ghost use Rattle.nll_body.specs.Statements.{types_written};

use super::transcript::Transcript;
use super::type_data::{Step, types_of};
use nll_body::{FlatCall, Judgement, Places, Slice, Statements, Stmt, judge_statement};
use nll_core::RegionId;
use nll_sets::Memory;
use nll_types::{Operand, Place, Projection, Ty, TypeTable, Typed};
use smallvec::SmallVec;
use std::alloc::Global;

/// What meets, of the variable `_0` and of a place.
#[derive(Clone, Copy)]
pub enum Meeting {
    /// What the place has goes to `_0`.
    Assigned,
    /// A reference to the place, `mut` or not, goes to `_0`.
    Borrowed(bool),
    /// What a call returns, of the type of `_0`, goes to the place.
    Given,
    /// The place's value is switched on: an `int` is required.
    Wanted,
    /// Nothing: the place is read.
    Read,
}

// A place of a variable.
fn place_of(alloc: Global, variable: u32, projections: &[Projection]) -> Result<Place, Memory> {
    let projections = SmallVec::from_slice(alloc, projections)?;
    Place::new(alloc, variable, projections)
}

// A type of this shape.
fn of_shape(shape: usize) -> Typed
    ensures { result.shape ≡ shape }
{
    Typed { shape, first: 0 }
}

// A call without arguments whose result, of a type, goes to a place.
fn add_call(statements: &mut Statements, ty: Typed, place: &Place) -> Result<Stmt, Memory>
    ensures { IfOk result (λ s. types_written (statement_in statements.new s) ≡ ty ∷ []) }
{
    let none = Slice { first: 0, count: 0 };
    let call = FlatCall {
        place: statements.add_place(place)?,
        arguments: none,
        result: ty,
        wheres: none,
        target: 0,
        unwind: None,
    };
    statements.add_call(call)
}

// The statement in which they meet, where `_0` has this type.
fn add_meeting(
    statements: &mut Statements,
    meeting: Meeting,
    first: Typed,
    place: Place,
) -> Result<Stmt, Memory>
    ensures { IfOk result (λ s. (n : ℕ) → first.shape < n
        → AreBelow n (shape_numbers (types_written (statement_in statements.new s)))) }
{
    let whole = Place::Whole(0);
    match meeting {
        Meeting::Assigned => statements.add_assign(&whole, &Operand::Copy(place)),
        Meeting::Borrowed(mutable) => statements.add_borrow(&whole, RegionId(0), mutable, &place),
        Meeting::Given => add_call(statements, first, &place),
        Meeting::Wanted => statements.add_switch(&Operand::Move(place), &[0]),
        Meeting::Read => Ok(Stmt::Read(statements.add_place(&place)?)),
    }
}

// What is judged of a place, where `_0` and `_1` have types of these shapes.
fn judged(
    alloc: Global,
    table: &mut TypeTable,
    first: usize,
    second: usize,
    meeting: Meeting,
    place: Place,
) -> Result<Judgement, Memory>
    requires first { first < length table.old.shapes }
    requires second { second < length table.old.shapes }
{
    let mut statements = Statements::new(alloc);
    let statement = add_meeting(&mut statements, meeting, of_shape(first), place)?;
    let places = Places {
        variables: &[of_shape(first), of_shape(second)],
        statements: &statements,
    };
    judge_statement(alloc, table, &places, &statement)
}

// Writes what is judged, with a bar after it.
fn write_judgement(out: &mut Transcript, judgement: Judgement) {
    out.flag("declared ", judgement.declared, "");
    out.flag(" fits ", judgement.fits, "");
    out.flag(" small ", judgement.small, "|");
}

// Writes what is judged of a place, where `_0` and `_1` have these types.
fn write_types(
    out: &mut Transcript,
    table: &mut TypeTable,
    (first, second): (&Ty, &Ty),
    meeting: Meeting,
    (variable, projections): (u32, &[Projection]),
) -> Result<(), Memory> {
    let first = table.shape(out.alloc, first, &[])?;
    let second = table.shape(out.alloc, second, &[])?;
    let place = place_of(out.alloc, variable, projections)?;
    let judgement = judged(out.alloc, table, first, second, meeting, place)?;
    write_judgement(out, judgement);
    Ok(())
}

/// Writes what is judged of a place, where `_0` and `_1` have the last two of the types that steps
/// make.
pub fn write_meeting(
    out: &mut Transcript,
    table: &mut TypeTable,
    steps: &[Step],
    meeting: Meeting,
    place: (u32, &[Projection]),
) {
    let types = types_of(out, steps, 0);
    if let [.., first, second] = types.as_slice() {
        let written = write_types(out, table, (first, second), meeting, place);
        out.note(written);
    }
    drop(types);
}

/// Writes what is judged of some together.
pub fn write_both(out: &mut Transcript) {
    let small = Judgement::fitting(true, true);
    write_judgement(out, small.and(small));
    write_judgement(out, small.and(Judgement::fitting(false, false)));
    write_judgement(out, small.and(Judgement::unfit(true)));
}
