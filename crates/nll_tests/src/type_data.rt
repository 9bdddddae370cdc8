//! Types, structs and tables that are written as data. If an allocation fails, something else is
//! made, and the transcript says so.
use super::transcript::Transcript;
use super::well_formed::has_good_fields;
use nll_core::RegionId;
use nll_types::{Declaration, Parameter, Sign, Ty, TypeTable};

/// A step in making types. It takes its parts from the end of the list of those made so far, and
/// appends the type that it makes.
#[derive(Clone, Copy)]
pub enum Step {
    Int,
    Parameter(usize),
    /// A reference of this region, `mut` or not, to the last type.
    Reference(u32, bool),
    /// A tuple of this many of the last types.
    Tuple(usize),
    /// A struct, its region arguments, and this many of the last types for its type arguments.
    Named(usize, &'static [u32], usize),
}

/// A struct: which of its region parameters are marked, which of its type parameters, whether it
/// has a drop of its own, and the steps that make the types of its fields.
pub type Written<'a> = (&'a [bool], &'a [bool], bool, &'a [Step]);

// The last types of a list, taken from it.
fn take_last(out: &mut Transcript, types: &mut Vec<Ty>, count: usize) -> Vec<Ty> {
    let at = types.len().saturating_sub(count);
    match types.split_off(at) {
        Ok(taken) => taken,
        Err(_) => {
            out.say("refused");
            Vec::new(out.alloc)
        }
    }
}

// A reference to the last type, which is taken from the list.
fn reference_to_last(out: &mut Transcript, types: &mut Vec<Ty>, region: u32, mutable: bool) -> Ty {
    match Box::new(out.alloc, types.pop().unwrap_or(Ty::Int)) {
        Ok(target) => Ty::Reference(RegionId(region), mutable, target),
        Err(_) => {
            out.say("refused");
            Ty::Int
        }
    }
}

// Numbers as regions.
fn regions_of(out: &mut Transcript, numbers: &[u32]) -> Vec<RegionId> {
    let mut regions = Vec::new(out.alloc);
    for number in numbers {
        out.note(regions.push(RegionId(*number)));
    }
    regions
}

// The type that a step makes.
fn made(out: &mut Transcript, types: &mut Vec<Ty>, step: Step) -> Ty {
    match step {
        Step::Int => Ty::Int,
        Step::Parameter(number) => Ty::Parameter(number),
        Step::Reference(region, mutable) => reference_to_last(out, types, region, mutable),
        Step::Tuple(count) => Ty::Tuple(take_last(out, types, count)),
        Step::Named(number, regions, count) => {
            let regions = regions_of(out, regions);
            Ty::Named(number, regions, take_last(out, types, count))
        }
    }
}

/// The types that steps make, and then this many references to the last one.
pub fn types_of(out: &mut Transcript, steps: &[Step], references: usize) -> Vec<Ty> {
    let mut types = Vec::new(out.alloc);
    for step in steps {
        let ty = made(out, &mut types, *step);
        out.note(types.push(ty));
    }
    for _ in 0..references {
        let ty = reference_to_last(out, &mut types, 1, false);
        out.note(types.push(ty));
    }
    types
}

// Parameters, marked or not.
fn parameters_of(out: &mut Transcript, marks: &[bool]) -> Vec<Parameter> {
    let mut parameters = Vec::new(out.alloc);
    for mark in marks {
        let (sign, may_dangle) = (Sign::Covariant, *mark);
        out.note(parameters.push(Parameter { sign, may_dangle }));
    }
    parameters
}

// Declares a struct, or writes that its fields don't keep to what is declared.
fn declare_good(out: &mut Transcript, table: &mut TypeTable, declaration: Declaration) {
    let few = declaration.regions.len() < 1_000;
    let good = has_good_fields(table.structs(), &declaration);
    if few && good {
        out.note(table.declare(out.alloc, declaration));
    } else {
        out.say("no such struct");
    }
}

/// Declares a struct.
pub fn declare(out: &mut Transcript, table: &mut TypeTable, written: &Written<'_>) {
    let declaration = Declaration {
        regions: parameters_of(out, written.0),
        types: parameters_of(out, written.1),
        has_drop: written.2,
        fields: types_of(out, written.3, 0),
    };
    declare_good(out, table, declaration);
}
