//! Looking up the names in a written type, once each, piece by piece.

ghost use Rattle.std.specs.Prelude.{◌≡◌, ◌<◌, ◌&&◌, ◌++◌, ℕ, List, true, false, length, map};
ghost use Rattle.std.specs.Prelude.{[], reverse, IfOk, IfSome, MatchOption, OnOk};
ghost use Rattle.nll_types.specs.Shapes.{shape_of, shapes_of};
ghost use Rattle.nll_types.specs.Table.{AreBelow, shape_in, shapes_in};
ghost use Rattle.nll_types.specs.Grown.{AddsTypes};
ghost use Rattle.nll_types.specs.Tables.{AddsShapes};
ghost use Rattle.nll_types.specs.Types.{TypeTree};
ghost use Rattle.nll_sets.specs.Prefix.{IsPrefix};
ghost use Rattle.nll_mir_grammar.specs.TypeTexts.{make_function, make_named, plain, written};
ghost use Rattle.nll_mir_text.specs.Naming.{Scope as naming_scope, has_arguments, is_known};
ghost use Rattle.nll_mir_text.specs.Resolution.{HasRoom, IsResolved, scope_of};
ghost use Rattle.nll_mir_text.specs.Resolving as spec;
ghost use Rattle.nll_mir_text.specs.Resolving.{IsAllResolved, IsHeadBelow, IsOf, KeepsRegions};
ghost use Rattle.nll_mir_text.specs.Resolving.{Resolves, ResolvingState};
ghost use Rattle.nll_mir_text.specs.Resolving.{regions_around, run_pieces, shape_with};
ghost use Rattle.nll_mir_text.specs.Resolving.{type_completed, types_inside, with_references};
ghost use Rattle.nll_mir_text.specs.Resolving.{without_references, without_row};

use crate::made::{Head, Made, number_of, pop};
use crate::rows::{Mark, Rows, are_of, newest_row, pop_reference, takes};
use crate::scope::{Scope, find};
use nll_mir_grammar::{TypePiece, TypeText};
use nll_problem::RegionId;
use nll_sets::Memory;
use nll_types::{BodyTypes, Node, Typed};
use std::alloc::Global;

/// What is resolved of a type so far, in lists that are used again for the next one. Each name so
/// far is known.
#[derive(Drop)]
pub struct Resolving {
    /// The shapes of the types that are made.
    shapes: Made,
    rows: Rows,
    /// Each name so far has arguments of the kinds that it takes.
    fits: bool,
}

impl Resolving {
    /// Nothing is resolved.
    pub fn new(alloc: Global) -> Resolving
        ensures { (result.shapes.items ≡ []) × (result.rows.items ≡ []) }
    {
        Resolving {
            shapes: Vec::new(alloc),
            rows: Vec::new(alloc),
            fits: true,
        }
    }
}

// Makes the references that wait for a type around it. Answers the shape of the outermost.
fn put_around(types: &mut BodyTypes, rows: &mut Rows, target: usize) -> Result<usize, Memory>
    requires { target < length types.old.table.shapes }
    ensures grows { AddsShapes types.old.table types.new.table }
    ensures within { IfOk result (λ i. i < length types.new.table.shapes) }
    ensures shape { IfOk result (λ i. (t : TypeTree)
        → shape_in types.old.table.shapes target ≡ shape_of t → shape_in types.new.table.shapes i
        ≡ shape_of (with_references t (reverse rows.old.items))) }
    ensures regions { OnOk result (types.new.regions.items
        ≡ types.old.regions.items ++ regions_around (reverse rows.old.items)) }
    ensures rows { OnOk result
        (reverse rows.new.items ≡ without_references (reverse rows.old.items)) }
{
    let mut shape = target;
    while let Some((mutable, region)) = pop_reference(rows) {
        let head = Head::Reference(mutable, shape);
        shape = number_of(*rows.allocator(), &mut types.table, head, &[shape])?;
        types.regions.push(region)?;
    }
    Ok(shape)
}

// A type is complete, and with it the references that wait for it.
fn put_shape(target: usize, types: &mut BodyTypes, made: &mut Resolving) -> Result<(), Memory>
    requires target { target < length types.old.table.shapes }
    requires below { AreBelow (length types.old.table.shapes) made.old.shapes.items }
    ensures grows { AddsShapes types.old.table types.new.table }
    ensures below { OnOk result (AreBelow (length types.new.table.shapes) made.new.shapes.items) }
    ensures made { OnOk result ((st : ResolvingState) (t : TypeTree) → IsOf st types.old made.old
        → shape_in types.old.table.shapes target ≡ shape_of t
        → IsOf (type_completed t st) types.new made.new) }
{
    let shape = put_around(types, &mut made.rows, target)?;
    made.shapes.reserve(1)?;
    made.shapes.push_reserved(shape);
    Ok(())
}

// The type that a head makes of the newest row is complete.
#[inline(always)]
fn put_row(head: Head, types: &mut BodyTypes, made: &mut Resolving) -> Result<(), Memory>
    requires head { IsHeadBelow (length types.old.table.shapes) head }
    requires below { AreBelow (length types.old.table.shapes) made.old.shapes.items }
    ensures grows { AddsShapes types.old.table types.new.table }
    ensures below { OnOk result (AreBelow (length types.new.table.shapes) made.new.shapes.items) }
    ensures made { OnOk result ((st : ResolvingState) (t : TypeTree) → IsOf st types.old made.old
        → shape_with (shapes_in types.old.table.shapes) head (shapes_of (types_inside st))
        ≡ shape_of t → IsOf (type_completed t (without_row st)) types.new made.new) }
{
    let newest = newest_row(made.rows.as_slice());
    let start = newest.types.min(made.shapes.len());
    let parts = &made.shapes.as_slice()[start..];
    let target = number_of(*made.shapes.allocator(), &mut types.table, head, parts)?;
    made.shapes.truncate(start);
    made.rows.truncate(newest.place.saturating_sub(1));
    put_shape(target, types, made)
}

// The function of the newest row, with the newest type as its result, is made.
fn put_function(types: &mut BodyTypes, made: &mut Resolving) -> Result<(), Memory>
    requires below { AreBelow (length types.old.table.shapes) made.old.shapes.items }
    ensures grows { AddsShapes types.old.table types.new.table }
    ensures made { OnOk result ((s : naming_scope)
        → Resolves s make_function types.old made.old types.new made.new true) }
{
    let output = pop(&mut types.table, &mut made.shapes)?;
    put_row(Head::Function(output), types, made)
}

// Appends the regions among arguments. Answers how many there are.
fn push_regions(arguments: &[Mark], regions: &mut Vec<RegionId>) -> Result<usize, Memory>
    ensures count { IfOk result (λ n. n ≡ length (spec.regions_in arguments.now)) }
    ensures regions { IfOk result
        (λ _. regions.new.items ≡ regions.old.items ++ spec.regions_in arguments.now) }
{
    let before = regions.len();
    for argument in arguments {
        if let Mark::Region(region) = argument {
            regions.push(*region)?;
        }
    }
    Ok(regions.len() - before)
}

// What a name means is made, where the name is known: a type parameter in place of the newest row,
// as it takes no arguments, or a struct with that row as its arguments.
fn put_named(
    scope: &Scope<'_>,
    name: &[u8],
    types: &mut BodyTypes,
    made: &mut Resolving,
) -> Result<bool, Memory>
    requires below { AreBelow (length types.old.table.shapes) made.old.shapes.items }
    ensures grows { AddsShapes types.old.table types.new.table }
    ensures made { IfOk result (λ known. Resolves (scope_of scope.now) (make_named name.now)
        types.old made.old types.new made.new known) }
{
    let row = newest_row(made.rows.as_slice());
    let arguments = &made.rows.as_slice()[row.place..];
    let (number, is_parameter) = find(scope.parameters, name);
    if is_parameter {
        made.fits &= are_of(arguments, &[]);
        made.rows.truncate(row.place.saturating_sub(1));
        made.shapes.truncate(row.types);
        types.regions.truncate(row.regions);
        let target = types.table.add(Node::Parameter(number))?;
        put_shape(target, types, made)?;
        return Ok(true);
    }
    let (number, known) = find(scope.structs, name);
    if !known {
        return Ok(false);
    }
    made.fits &= takes(scope, number, arguments);
    let count = push_regions(arguments, &mut types.regions)?;
    put_row(Head::Named(number, count), types, made)?;
    Ok(true)
}

// Resolves a piece. Answers whether the name in it, if there is one, is known.
fn resolve_piece(
    scope: &Scope<'_>,
    piece: &TypePiece<'_>,
    types: &mut BodyTypes,
    made: &mut Resolving,
) -> Result<bool, Memory>
    requires room { HasRoom scope.now }
    requires below { AreBelow (length types.old.table.shapes) made.old.shapes.items }
    ensures grows { AddsShapes types.old.table types.new.table }
    ensures made { IfOk result (λ known. Resolves (scope_of scope.now) (plain piece.now)
        types.old made.old types.new made.new known) }
{
    let (mark, known) = match piece {
        TypePiece::Reference(mutable, region) => {
            let (number, known) = find(scope.regions, region);
            (Mark::Behind(*mutable, RegionId(number as u32)), known)
        }
        TypePiece::Region(region) => {
            let (number, known) = find(scope.regions, region);
            (Mark::Region(RegionId(number as u32)), known)
        }
        TypePiece::Row => (Mark::Row(made.shapes.len(), types.regions.len()), true),
        TypePiece::Part => (Mark::Part, true),
        TypePiece::Named(name) => return put_named(scope, name, types, made),
        TypePiece::Int => {
            let target = types.table.int()?;
            put_shape(target, types, made)?;
            return Ok(true);
        }
        TypePiece::Tuple => {
            put_row(Head::Tuple, types, made)?;
            return Ok(true);
        }
        TypePiece::Function => {
            put_function(types, made)?;
            return Ok(true);
        }
    };
    made.rows.reserve(1)?;
    made.rows.push_reserved(mark);
    Ok(known)
}

// Resolves pieces, one after another, up to a name that isn't known. Answers the shape of the type
// that is made last.
fn resolve_pieces(
    scope: &Scope<'_>,
    pieces: &[TypePiece<'_>],
    types: &mut BodyTypes,
    made: &mut Resolving,
) -> Result<Option<usize>, Memory>
    requires room { HasRoom scope.now }
    requires below { AreBelow (length types.old.table.shapes) made.old.shapes.items }
    ensures grows { AddsShapes types.old.table types.new.table }
    ensures within { IfOk result (λ o. IfSome o (λ i. i < length types.new.table.shapes)) }
    ensures shape { IfOk result (λ o. (st : ResolvingState) → IsOf st types.old made.old
        → MatchOption o ((run_pieces (scope_of scope.now) (map plain pieces.now) st).known ≡ false)
        (IsAllResolved (run_pieces (scope_of scope.now)
        (map plain pieces.now) st) types.new made.new)) }
    ensures kept { IfOk result (λ _. (st : ResolvingState) (rs : List ℕ)
        → IsOf st types.old made.old
        → KeepsRegions (scope_of scope.now) rs (map plain pieces.now) st
        → IsPrefix rs types.new.regions.items) }
{
    for piece in pieces {
        if !resolve_piece(scope, piece, types, made)? {
            return Ok(None);
        }
    }
    let shape = pop(&mut types.table, &mut made.shapes)?;
    Ok(Some(shape))
}

/// Resolves the names in a type, where each is known: its shape is in the table then, and its row
/// at the end of the list of regions; and the flag stays true where each name has arguments of the
/// kinds that it takes.
///
/// # Cost
/// Linear in the type, and one look-up a name, up to the first that isn't known (not proved).
pub fn resolve(
    scope: &Scope<'_>,
    text: &TypeText<'_>,
    types: &mut BodyTypes,
    made: &mut Resolving,
    fits: &mut bool,
) -> Result<Option<Typed>, Memory>
    requires { HasRoom scope.now }
    ensures adds { IfOk result (λ _. AddsTypes types.old types.new) }
    ensures fits { IfOk result (λ o. IfSome o (λ _. fits.new
        ≡ (fits.old && has_arguments (scope_of scope.now) (written text.now)))) }
    ensures resolved { IfOk result
        (λ o. MatchOption o (is_known (scope_of scope.now) (written text.now) ≡ false)
        (IsResolved (scope_of scope.now) (written text.now) types.new)) }
{
    let first = types.regions.len();
    made.shapes.clear();
    made.rows.clear();
    made.fits = true;
    let told = resolve_pieces(scope, text.pieces(), types, made);
    *fits &= made.fits;
    let Some(shape) = told? else {
        return Ok(None);
    };
    Ok(Some(Typed { shape, first }))
}
