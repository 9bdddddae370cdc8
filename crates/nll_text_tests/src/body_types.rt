//! The types of a body's variables and of places in them, by the regions that are written in each.
ghost use Rattle.std.specs.Prelude.{◌≡◌, ◌<◌, length, Some};
ghost use Rattle.nll_types.specs.Places.{type_of, path_of};
ghost use Rattle.nll_types.specs.Structs.{IsWellFormed};
ghost use Rattle.nll_types.specs.Types.{TypeTree};
ghost use Rattle.nll_types.specs.Views.{tree};

use super::body_text::{Asked, compare_lines};
use super::pieces::{write_number, write_piece};
use nll_body::{Body, StatementAt, Stmt, TypedBody};
use nll_problem::RegionId;
use nll_sets::Memory;
use nll_types::{BodyTypes, Place, Projection, Ty, TypeAt, TypeForm, Typed, TypesAt, behind};
use smallvec::SmallVec;
use std::alloc::Global;
use std::process::Abort;

// A body whose variables have references, a tuple and a struct, and which makes a tuple.
const BODY: &str = "nll-mir 1|region 'a|region 'b|region 'c|struct W<'x +>(&'x int)|let _0: int|\
    let _1: &'a mut &'b int|let _2: (int, W<'c>)|blocks 1|block bb0|\
    _2 = make (int, W<'b>)(const, copy _2.1)|stop|end|";

// Writes which of the first four regions are among these.
fn write_which(rt: &impl Abort, out: &mut String, regions: &[RegionId]) {
    for number in 0..4 {
        if regions.contains(&RegionId(number)) {
            write_number(rt, out, " ", u64::from(number), "");
        }
    }
}

// Writes the regions of a type.
fn write_type(rt: &impl Abort, alloc: Global, out: &mut String, body: &Body, ty: &Ty)
    requires { IsWellFormed body.now.structs (length body.now.names) 0 (tree ty.now) }
{
    let regions = body.structs().regions(alloc, ty).expect(rt, "memory");
    write_which(rt, out, regions.as_slice());
}

// Writes the regions of a variable's type.
fn write_variable(rt: &impl Abort, alloc: Global, out: &mut String, body: &Body, variable: u32)
    requires { variable < length body.now.variables }
{
    write_piece(rt, out, "|");
    let ty = body.var_type(variable).tree(alloc).expect(rt, "memory");
    write_type(rt, alloc, out, body, &ty);
}

/// Writes the regions of each variable's type.
pub fn write_variables(rt: &impl Abort, alloc: Global, out: &mut String, body: &Body) {
    for variable in 0..body.variables() {
        write_variable(rt, alloc, out, body, variable as u32);
    }
}

// Writes the regions of the type of a place that has one.
fn write_found(rt: &impl Abort, alloc: Global, out: &mut String, body: &Body, place: &Place)
    requires { (t : TypeTree)
        × (type_of body.now.structs body.now.variables (path_of place.now) ≡ Some t) }
{
    let ty = body.place_type(alloc, place).expect(rt, "memory");
    write_type(rt, alloc, out, body, &ty);
}

// Writes the regions of a place's type, or that it has none.
fn write_place(
    rt: &impl Abort,
    alloc: Global,
    out: &mut String,
    body: &Body,
    place: &Place,
) -> Result<(), Memory> {
    let variable = place.variable();
    if variable as usize >= body.variables() {
        write_piece(rt, out, " none");
        return Ok(());
    }
    let ty = body.var_type(variable).tree(alloc)?;
    match behind(alloc, body.structs(), ty, place.projections())? {
        Some(ty) => {
            drop(ty);
            write_found(rt, alloc, out, body, place);
        }
        None => write_piece(rt, out, " none"),
    }
    Ok(())
}

// Writes the regions of the type of a place in a variable.
fn write_one(
    rt: &impl Abort,
    alloc: Global,
    out: &mut String,
    body: &Body,
    (variable, projections): (u32, &[Projection]),
) {
    let projections = SmallVec::from_slice(alloc, projections).expect(rt, "memory");
    let place = Place::new(alloc, variable, projections).expect(rt, "memory");
    write_place(rt, alloc, out, body, &place).expect(rt, "memory");
}

/// Writes the regions of the types of the places below, each after a bar.
pub fn write_places(rt: &impl Abort, alloc: Global, out: &mut String, body: &Body) {
    for place in PLACES {
        write_piece(rt, out, "|");
        write_one(rt, alloc, out, body, *place);
    }
}

// Writes the regions of some types.
#[cycle(trees)]
fn write_trees(rt: &impl Abort, out: &mut String, types: &[Ty]) {
    for ty in types {
        write_tree(rt, out, ty);
    }
}

// Writes the regions of a type that has no function in it.
#[cycle(trees)]
fn write_tree(rt: &impl Abort, out: &mut String, ty: &Ty) {
    match ty {
        Ty::Int | Ty::Parameter(_) | Ty::Function(_, _) => {}
        Ty::Reference(region, _, target) => {
            write_which(rt, out, &[*region]);
            write_tree(rt, out, target);
        }
        Ty::Tuple(parts) => write_trees(rt, out, parts.as_slice()),
        Ty::Named(_, regions, types) => {
            write_which(rt, out, regions.as_slice());
            write_trees(rt, out, types.as_slice());
        }
    }
}

// Writes the regions of a type by number.
fn write_number_of(rt: &impl Abort, alloc: Global, out: &mut String, types: &BodyTypes, ty: Typed) {
    write_piece(rt, out, "|");
    if ty.shape < types.table.shapes().len() {
        let ty = types.tree(alloc, ty).expect(rt, "memory");
        write_tree(rt, out, &ty);
    }
}

// Writes the regions of the type that is made at a point, if one is.
fn write_made(rt: &impl Abort, alloc: Global, out: &mut String, line: StatementAt<'_>) {
    if let Stmt::Make(number) = line.statement {
        if let Some(made) = line.statements.make(*number) {
            write_number_of(rt, alloc, out, line.types, made.ty);
        }
    }
}

/// Writes the regions of the types that go by number: of the variables, of the statements, and of
/// the statement at each point.
pub fn write_typed(rt: &impl Abort, alloc: Global, out: &mut String, body: &Body) {
    let TypedBody {
        types,
        variables,
        points,
    } = body.typed();
    for ty in variables {
        write_number_of(rt, alloc, out, types, *ty);
    }
    for point in 0..points.len() {
        let line = StatementAt {
            statement: points.at(point),
            statements: points,
            types,
        };
        write_made(rt, alloc, out, line);
    }
    for point in 0..body.points() {
        write_made(rt, alloc, out, body.line_at(point));
    }
}

// Writes that a type is a struct of this number, and its own regions.
fn write_struct(rt: &impl Abort, out: &mut String, number: usize, regions: &[RegionId]) {
    write_number(rt, out, "struct ", number as u64, "");
    for region in regions {
        write_number(rt, out, " '", u64::from(region.0), "");
    }
}

// Writes the regions of a type that is kept in a body.
fn write_kept(rt: &impl Abort, alloc: Global, out: &mut String, ty: TypeAt<'_>) {
    let ty = ty.tree(alloc).expect(rt, "memory");
    write_piece(rt, out, ";");
    write_tree(rt, out, &ty);
}

// Writes the regions of each of the first four types of a row.
fn write_kept_row(rt: &impl Abort, alloc: Global, out: &mut String, row: TypesAt<'_>) {
    let mut rest = row;
    for _ in 0..4 {
        if let Some((first, others)) = rest.split_first() {
            write_kept(rt, alloc, out, first);
            rest = others;
        }
    }
}

// Writes that a type is a reference, and the regions of its parts.
fn write_reference(
    rt: &impl Abort,
    alloc: Global,
    out: &mut String,
    (region, mutable): (RegionId, bool),
    target: TypeAt<'_>,
) {
    let form = if mutable {
        "mutable reference '"
    } else {
        "shared reference '"
    };
    write_number(rt, out, form, u64::from(region.0), "");
    write_kept(rt, alloc, out, target);
}

// Writes that a type is a function, and the regions of its parts.
fn write_function(
    rt: &impl Abort,
    alloc: Global,
    out: &mut String,
    inputs: TypesAt<'_>,
    output: TypeAt<'_>,
) {
    write_piece(rt, out, "function");
    write_kept_row(rt, alloc, out, inputs);
    write_piece(rt, out, " to");
    write_kept(rt, alloc, out, output);
}

// Writes the form of a type that is kept in a body, and the regions of its parts.
fn write_form(rt: &impl Abort, alloc: Global, out: &mut String, ty: TypeAt<'_>) {
    match ty.form() {
        TypeForm::Int => write_piece(rt, out, "int"),
        TypeForm::Parameter(_) => write_piece(rt, out, "parameter"),
        TypeForm::Reference(region, mutable, target) => {
            write_reference(rt, alloc, out, (region, mutable), target);
        }
        TypeForm::Tuple(parts) => {
            write_piece(rt, out, "tuple");
            write_kept_row(rt, alloc, out, parts);
        }
        TypeForm::Named(number, regions, types) => {
            write_struct(rt, out, number, regions);
            write_kept_row(rt, alloc, out, types);
        }
        TypeForm::Function(inputs, output) => write_function(rt, alloc, out, inputs, output),
    }
}

/// Writes the form of each variable's type, and the regions of its parts.
pub fn write_forms(rt: &impl Abort, alloc: Global, out: &mut String, body: &Body) {
    for variable in 0..body.variables() {
        write_piece(rt, out, "|");
        write_form(rt, alloc, out, body.var_type(variable as u32));
    }
}

// The regions of each variable's type: of the second those of a reference to a reference, of the
// third that of a struct in a tuple.
#[test]
fn variables_have_types(rt: HostRuntime) {
    compare_lines(&rt, rt.alloc(), Asked::Variables, BODY, "|| 1 2| 3");
}

// By number the types are the same. The tuple that is made has a region of its own.
#[test]
fn types_go_by_number(rt: HostRuntime) {
    compare_lines(&rt, rt.alloc(), Asked::Typed, BODY, "|| 1 2| 3| 2| 2");
}

// Each form of a type, with parts that differ in their regions.
const FORMS: &str = "nll-mir 2|region 'a|region 'b|region 'c|struct V<T +>(T)|\
    struct W<'x +, 'y +, T +, U +>(&'x T, &'y U)|let _0: int|let _1: &'a mut &'b int|\
    let _2: &'b &'a mut int|let _3: (&'c int, int, &'a &'b int)|\
    let _4: W<'b, 'a, &'c int, V<&'a int>>|let _5: fn(&'c int, &'b int) -> &'a int|let _6: ()|\
    blocks 1|block bb0|stop|end|";

// Each type is seen where it is kept, with its parts and their regions.
#[test]
fn types_have_forms(rt: HostRuntime) {
    let want =
        "|int|mutable reference '1; 2|shared reference '2; 1|tuple; 3;; 1 2|struct 1 '2 '1; 3; 1|\
        function; 3; 2 to; 1|tuple";
    compare_lines(&rt, rt.alloc(), Asked::Forms, FORMS, want);
}

const DEREF: Projection = Projection::Deref;

const FIRST: Projection = Projection::Field(0);

const SECOND: Projection = Projection::Field(1);

// Places: `_0`, `_1`, `_1.*`, `_1.*.*`, `_2`, `_2.0`, `_2.1`, `_2.1.0` and `_2.1.0.*`; and `_1.0`,
// `_2.1.1` and `_3`, which there are not.
const PLACES: &[(u32, &[Projection])] = &[
    (0, &[]),
    (1, &[]),
    (1, &[DEREF]),
    (1, &[DEREF, DEREF]),
    (2, &[]),
    (2, &[FIRST]),
    (2, &[SECOND]),
    (2, &[SECOND, FIRST]),
    (2, &[SECOND, FIRST, DEREF]),
    (1, &[FIRST]),
    (2, &[SECOND, SECOND]),
    (3, &[]),
];

// The type of a place in a variable is that of what is taken of it. The report has the regions of
// each place's type.
#[test]
fn places_have_types(rt: HostRuntime) {
    let want = "|| 1 2| 2|| 3|| 3| 3|| none| none| none";
    compare_lines(&rt, rt.alloc(), Asked::Places, BODY, want);
}
