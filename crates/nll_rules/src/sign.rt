//! The signs of positions.

ghost use Rattle.std.specs.Prelude.{◌≡◌};
ghost use Rattle.nll_types.specs.Declarations.{structs_of};
ghost use Rattle.nll_types.specs.Structs.{struct_at};
ghost use Rattle.nll_rules.specs.Positions as spec;

use nll_types::{Parameter, Sign, Structs};

/// The product of two signs.
pub(crate) fn times(outer: Sign, inner: Sign) -> Sign
    ensures { result ≡ spec.times outer inner }
{
    match outer {
        Sign::Covariant => inner,
        Sign::Contravariant => match inner {
            Sign::Covariant => Sign::Contravariant,
            Sign::Contravariant => Sign::Covariant,
            Sign::Invariant => Sign::Invariant,
        },
        Sign::Invariant => Sign::Invariant,
    }
}

/// The sign of a parameter, or this one where there is no such parameter.
pub(crate) fn sign_or(parameters: &[Parameter], place: usize, other: Sign) -> Sign
    ensures { result ≡ spec.sign_or parameters.now place other }
{
    if place < parameters.len() {
        parameters[place].sign
    } else {
        other
    }
}

/// The region parameters of a struct; where there is no such struct, none.
pub(crate) fn region_parameters(structs: &Structs, number: usize) -> &[Parameter]
    ensures { result.now ≡ (struct_at (structs_of structs.now) number).regions }
{
    if number < structs.len() {
        structs.get(number).regions.as_slice()
    } else {
        &[]
    }
}

/// The type parameters of a struct; where there is no such struct, none.
pub(crate) fn type_parameters(structs: &Structs, number: usize) -> &[Parameter]
    ensures { result.now ≡ (struct_at (structs_of structs.now) number).types }
{
    if number < structs.len() {
        structs.get(number).types.as_slice()
    } else {
        &[]
    }
}
