//! What is found of places and operands over variables with types of known shapes.

ghost use Rattle.std.specs.Prelude.{◌≡◌, ◌<◌, List, length, IfOk, IfSome, nat_lt};
ghost use Rattle.std.specs.List.{list_all};
ghost use Rattle.nll_types.specs.Declarations.{structs_of};
ghost use Rattle.nll_types.specs.Operands.{operand_type, place_in};
ghost use Rattle.nll_types.specs.Places.{type_of, small_prefixes};
ghost use Rattle.nll_types.specs.Rows.{shape_numbers};
ghost use Rattle.nll_types.specs.Table.{AreBelow};
ghost use Rattle.nll_types.specs.Tables.{AddsShapes, HaveShapes};
ghost use Rattle.nll_types.specs.Types.{TypeTree};
ghost use Rattle.nll_body.specs.Found.{IsShapeFound};
ghost use Rattle.nll_body.specs.Judging.{have_variables, operand_at, path_at};

use crate::flat::FlatOperand;
use crate::found::Found;
use crate::statements::Statements;
use nll_sets::Memory;
use nll_types::{Node, TypeTable, Typed};
use std::alloc::Global;

/// What gives places their types: the types of the variables, and the lists in which places have
/// numbers.
#[derive(Clone, Copy)]
pub struct Places<'a> {
    pub variables: &'a [Typed],
    pub statements: &'a Statements,
}

/// The shape of a place, where the place has a type, and whether the types of its prefixes are
/// small.
pub(crate) fn find_place(
    alloc: Global,
    table: &mut TypeTable,
    places: &Places<'_>,
    place: u32,
) -> Result<Found, Memory>
    requires { AreBelow (length table.old.shapes) (shape_numbers places.now.variables.now) }
    ensures grows { AddsShapes table.old table.new }
    ensures declared { IfOk result (λ f. f.declared ≡ nat_lt (path_at places.now place).variable
        (length places.now.variables.now)) }
    ensures within { IfOk result (λ f. IfSome f.shape (λ s. s < length table.new.shapes)) }
    ensures found { IfOk result (λ f. (types : List TypeTree)
        → HaveShapes table.old.shapes (shape_numbers places.now.variables.now) types
        → IsShapeFound table.new.shapes f.shape f.small
        (type_of (structs_of table.old.structs) types (path_at places.now place))
        (small_prefixes (structs_of table.old.structs) types (path_at places.now place))) }
{
    let variable = places.statements.variable(place) as usize;
    let declared = variable < places.variables.len();
    let untyped = Found {
        declared,
        shape: None,
        small: false,
    };
    if !declared {
        return Ok(untyped);
    }
    let from = places.variables[variable].shape;
    match table.place_shape(alloc, from, places.statements.projections(place))? {
        Some((shape, small)) => Ok(Found {
            declared,
            shape: Some(shape),
            small,
        }),
        None => Ok(untyped),
    }
}

/// The shape of an operand, where it has a type, and whether the types of its place are small.
pub(crate) fn find_operand(
    alloc: Global,
    table: &mut TypeTable,
    places: &Places<'_>,
    operand: FlatOperand,
) -> Result<Found, Memory>
    requires { AreBelow (length table.old.shapes) (shape_numbers places.now.variables.now) }
    ensures grows { AddsShapes table.old table.new }
    ensures declared { IfOk result (λ f. f.declared ≡ have_variables
        (length places.now.variables.now) (place_in (operand_at places.now operand))) }
    ensures within { IfOk result (λ f. IfSome f.shape (λ s. s < length table.new.shapes)) }
    ensures found { IfOk result (λ f. (types : List TypeTree)
        → HaveShapes table.old.shapes (shape_numbers places.now.variables.now) types
        → IsShapeFound table.new.shapes f.shape f.small
        (operand_type (structs_of table.old.structs) types (operand_at places.now operand))
        (list_all (small_prefixes (structs_of table.old.structs) types)
        (place_in (operand_at places.now operand)))) }
{
    match operand {
        FlatOperand::Const => {
            let shape = table.int()?;
            Ok(Found {
                declared: true,
                shape: Some(shape),
                small: true,
            })
        }
        FlatOperand::Copy(place) | FlatOperand::Move(place) => {
            find_place(alloc, table, places, place)
        }
    }
}
