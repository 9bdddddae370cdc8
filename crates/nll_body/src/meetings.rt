//! Types that meet: of what goes somewhere, and of where it goes.

ghost use Rattle.std.specs.Prelude.{◌≡◌, ◌&&◌, ◌∷◌, [], ◌<◌, List, Some, length, IfOk};
ghost use Rattle.std.specs.List.{list_all};
ghost use Rattle.nll_types.specs.Declarations.{structs_of};
ghost use Rattle.nll_types.specs.Operands.{operand_type, place_in};
ghost use Rattle.nll_types.specs.Places.{type_of, small_prefixes};
ghost use Rattle.nll_types.specs.Rows.{shape_numbers};
ghost use Rattle.nll_types.specs.Shapes.{shape_of, is_small};
ghost use Rattle.nll_types.specs.Table.{AreBelow, shape_in};
ghost use Rattle.nll_types.specs.Tables.{AddsShapes, HaveShapes};
ghost use Rattle.nll_types.specs.Types.{TypeTree};
ghost use Rattle.nll_body.specs.Judging as spec;
ghost use Rattle.nll_body.specs.Judging.{IsJudged, have_variables, operand_at, path_at};

use crate::flat::FlatOperand;
use crate::found::{agree, shape_found};
use crate::judgement::Judgement;
use crate::places::{Places, find_operand, find_place};
use nll_sets::Memory;
use nll_types::TypeTable;
use std::alloc::Global;

/// Judges a value of a type of this shape that goes to a place.
pub(crate) fn judge_given(
    alloc: Global,
    table: &mut TypeTable,
    places: &Places<'_>,
    shape: usize,
    place: u32,
) -> Result<Judgement, Memory>
    requires variables { AreBelow (length table.old.shapes)
        (shape_numbers places.now.variables.now) }
    requires shape { shape < length table.old.shapes }
    ensures grows { AddsShapes table.old table.new }
    ensures declared { IfOk result (λ j. j.declared ≡ have_variables
        (length places.now.variables.now) (path_at places.now place ∷ [])) }
    ensures judged { IfOk result (λ j. (types : List TypeTree) (t : TypeTree)
        → HaveShapes table.old.shapes (shape_numbers places.now.variables.now) types
        → shape_in table.old.shapes shape ≡ shape_of t → IsJudged (spec.agree (Some t)
        (type_of (structs_of table.old.structs) types (path_at places.now place)))
        (is_small t && small_prefixes (structs_of table.old.structs) types
        (path_at places.now place)) j) }
{
    let target = find_place(alloc, table, places, place)?;
    let value = shape_found(table.shapes(), shape);
    Ok(agree(table.shapes(), value, target))
}

/// Judges an operand against a type of this shape.
pub(crate) fn judge_operand(
    alloc: Global,
    table: &mut TypeTable,
    places: &Places<'_>,
    operand: FlatOperand,
    shape: usize,
) -> Result<Judgement, Memory>
    requires variables { AreBelow (length table.old.shapes)
        (shape_numbers places.now.variables.now) }
    requires shape { shape < length table.old.shapes }
    ensures grows { AddsShapes table.old table.new }
    ensures declared { IfOk result (λ j. j.declared ≡ have_variables
        (length places.now.variables.now) (place_in (operand_at places.now operand))) }
    ensures judged { IfOk result (λ j. (types : List TypeTree) (t : TypeTree)
        → HaveShapes table.old.shapes (shape_numbers places.now.variables.now) types
        → shape_in table.old.shapes shape ≡ shape_of t → IsJudged (spec.agree
        (operand_type (structs_of table.old.structs) types
        (operand_at places.now operand)) (Some t))
        (list_all (small_prefixes (structs_of table.old.structs) types)
        (place_in (operand_at places.now operand)) && is_small t) j) }
{
    let found = find_operand(alloc, table, places, operand)?;
    let wanted = shape_found(table.shapes(), shape);
    Ok(agree(table.shapes(), found, wanted))
}
