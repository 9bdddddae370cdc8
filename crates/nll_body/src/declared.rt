//! Whether variables are declared where no place of theirs is looked up.

ghost use Rattle.std.specs.Prelude.{◌≡◌, length, map};
ghost use Rattle.std.specs.List.{flat_map};
ghost use Rattle.nll_types.specs.Operands.{place_in};
ghost use Rattle.nll_body.specs.Judging.{have_variables, operand_at};

use crate::flat::FlatOperand;
use crate::places::Places;

// Whether the variable of an operand's place is declared.
fn is_operand_declared(places: &Places<'_>, operand: FlatOperand) -> bool
    ensures { result ≡ have_variables (length places.now.variables.now)
        (place_in (operand_at places.now operand)) }
{
    match operand {
        FlatOperand::Const => true,
        FlatOperand::Copy(place) | FlatOperand::Move(place) => {
            (places.statements.variable(place) as usize) < places.variables.len()
        }
    }
}

/// Whether the variables of the operands' places are declared.
pub(crate) fn are_operands_declared(places: &Places<'_>, operands: &[FlatOperand]) -> bool
    ensures { result ≡ have_variables (length places.now.variables.now)
        (flat_map place_in (map (operand_at places.now) operands.now)) }
{
    for operand in operands {
        if !is_operand_declared(places, *operand) {
            return false;
        }
    }
    true
}
