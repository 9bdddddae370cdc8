//! Operands against types: those of a tuple or struct that is made, and those of a call.

ghost use Rattle.std.specs.Prelude.{◌≡◌, ◌↔◌, ◌&&◌, ◌<◌, List, Some, length, map, IfOk, IsTrue};
ghost use Rattle.std.specs.List.{flat_map, list_all};
ghost use Rattle.nll_types.specs.Declarations.{structs_of};
ghost use Rattle.nll_types.specs.Operands.{operand_type, place_in};
ghost use Rattle.nll_types.specs.Places.{part_count, small_prefixes};
ghost use Rattle.nll_types.specs.Rows.{shape_numbers};
ghost use Rattle.nll_types.specs.Shapes.{shape_of, is_small};
ghost use Rattle.nll_types.specs.Table.{AreBelow, shape_in};
ghost use Rattle.nll_types.specs.Tables.{AddsShapes, HaveShapes};
ghost use Rattle.nll_types.specs.Types.{TypeTree};
ghost use Rattle.nll_types.specs.declared.typed.Typed.{Typed};
ghost use Rattle.nll_body.specs.Judging.{IsJudged, have_variables, operand_at};
ghost use Rattle.nll_body.specs.TypePairs.{beside_parts, operand_types, parts_of_type};
ghost use Rattle.nll_body.specs.Typing as spec;
ghost use Rattle.nll_body.specs.Typing.{pairs_agree, parts_are_small};

use crate::declared::are_operands_declared;
use crate::flat::FlatOperand;
use crate::judgement::Judgement;
use crate::meetings::judge_operand;
use crate::places::Places;
use nll_sets::Memory;
use nll_types::{TypeTable, Typed};
use std::alloc::Global;

// Whether types of this shape have this many parts.
fn has_parts(table: &TypeTable, shape: usize, count: usize) -> bool
    requires { shape < length table.now.shapes }
    ensures { (t : TypeTree) → shape_in table.now.shapes shape ≡ shape_of t
        → IsTrue result ↔ (part_count (structs_of table.now.structs) t ≡ Some count) }
{
    match table.parts(shape) {
        Some(parts) => parts == count,
        None => false,
    }
}

/// Judges the operands of which a tuple or struct of this shape is made.
pub(crate) fn judge_parts(
    alloc: Global,
    table: &mut TypeTable,
    places: &Places<'_>,
    operands: &[FlatOperand],
    shape: usize,
) -> Result<Judgement, Memory>
    requires variables { AreBelow (length table.old.shapes)
        (shape_numbers places.now.variables.now) }
    requires shape { shape < length table.old.shapes }
    ensures grows { AddsShapes table.old table.new }
    ensures declared { IfOk result (λ j. j.declared
        ≡ have_variables (length places.now.variables.now)
        (flat_map place_in (map (operand_at places.now) operands.now))) }
    ensures judged { IfOk result (λ j. (types : List TypeTree) (t : TypeTree)
        → HaveShapes table.old.shapes (shape_numbers places.now.variables.now) types
        → shape_in table.old.shapes shape ≡ shape_of t → IsJudged (pairs_agree (beside_parts
        (operand_types (structs_of table.old.structs) types
        (map (operand_at places.now) operands.now))
        (parts_of_type (structs_of table.old.structs) t)))
        (list_all (small_prefixes (structs_of table.old.structs) types)
        (flat_map place_in (map (operand_at places.now) operands.now))
        && parts_are_small (parts_of_type (structs_of table.old.structs) t)) j) }
{
    if !has_parts(table, shape, operands.len()) {
        let declared = are_operands_declared(places, operands);
        return Ok(Judgement::unfit(declared));
    }
    let mut judged = Judgement::fitting(true, true);
    for place in 0..operands.len() {
        let Some(part) = table.part(alloc, shape, place)? else {
            return Ok(Judgement::unfit(are_operands_declared(places, operands)));
        };
        let one = judge_operand(alloc, table, places, operands[place], part)?;
        judged = judged.and(one);
    }
    Ok(judged)
}

/// Judges the operands of a call against the types of the parameters for which they are.
pub(crate) fn judge_arguments(
    alloc: Global,
    table: &mut TypeTable,
    places: &Places<'_>,
    arguments: &[(FlatOperand, Typed)],
) -> Result<Judgement, Memory>
    requires variables { AreBelow (length table.old.shapes)
        (shape_numbers places.now.variables.now) }
    requires written { AreBelow (length table.old.shapes)
        (shape_numbers (map (λ a. a.1) arguments.now)) }
    ensures grows { AddsShapes table.old table.new }
    ensures declared { IfOk result (λ j. j.declared
        ≡ have_variables (length places.now.variables.now)
        (flat_map place_in (map (λ a. operand_at places.now a.0) arguments.now))) }
    ensures judged { IfOk result (λ j. (types : List TypeTree) (g : Typed → TypeTree)
        → HaveShapes table.old.shapes (shape_numbers places.now.variables.now) types
        → HaveShapes table.old.shapes (shape_numbers (map (λ a. a.1) arguments.now))
        (map (λ a. g a.1) arguments.now) → IsJudged (list_all (λ a. spec.agree
        (operand_type (structs_of table.old.structs) types (operand_at places.now a.0))
        (Some (g a.1))) arguments.now)
        (list_all (small_prefixes (structs_of table.old.structs) types)
        (flat_map place_in (map (λ a. operand_at places.now a.0) arguments.now))
        && list_all is_small (map (λ a. g a.1) arguments.now)) j) }
{
    let mut judged = Judgement::fitting(true, true);
    for place in 0..arguments.len() {
        let argument = &arguments[place];
        let one = judge_operand(alloc, table, places, argument.0, argument.1.shape)?;
        judged = judged.and(one);
    }
    Ok(judged)
}
