//! The types of places.

ghost use Rattle.std.specs.Prelude.{◌≡◌, IfOk, option_map};
ghost use Rattle.nll_types.specs.Declarations.{structs_of};
ghost use Rattle.nll_types.specs.Places.{behind, behind_all};
ghost use Rattle.nll_types.specs.Views.{tree};

use crate::place::Projection;
use crate::structs::Structs;
use crate::substitution::put_in;
use crate::ty::Ty;
use nll_sets::Memory;
use std::alloc::Global;

// The type behind one projection, where there is one.
fn step(
    alloc: Global,
    structs: &Structs,
    ty: Ty,
    projection: Projection,
) -> Result<Option<Ty>, Memory>
    ensures { IfOk result (λ o. option_map tree o
        ≡ behind (structs_of structs.now) projection (tree ty)) }
{
    match projection {
        Projection::Deref => match ty {
            Ty::Reference(_, _, target) => Ok(Some(Box::into_inner(target))),
            _ => Ok(None),
        },
        Projection::Field(place) => match ty {
            Ty::Tuple(mut parts) => {
                let place = place as usize;
                if place < parts.len() {
                    Ok(Some(parts.swap_remove(place)))
                } else {
                    Ok(None)
                }
            }
            Ty::Named(number, regions, types) => match structs.field(number, place as usize) {
                Some(field) => {
                    let made = put_in(alloc, field, regions.as_slice(), types.as_slice())?;
                    Ok(Some(made))
                }
                None => Ok(None),
            },
            _ => Ok(None),
        },
    }
}

/// The type behind projections from a type, where there is one.
///
/// # Cost
/// Linear in the type and in those of the fields of structs on the way (not proved).
pub fn behind(
    alloc: Global,
    structs: &Structs,
    ty: Ty,
    projections: &[Projection],
) -> Result<Option<Ty>, Memory>
    ensures { IfOk result (λ o. option_map tree o
        ≡ behind_all (structs_of structs.now) projections.now (tree ty)) }
{
    let mut current = ty;
    for projection in projections {
        match step(alloc, structs, current, *projection)? {
            Some(next) => current = next,
            None => return Ok(None),
        }
    }
    Ok(Some(current))
}
