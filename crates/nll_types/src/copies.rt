//! Copies of types.

ghost use Rattle.std.specs.Prelude.{◌≡◌, IfOk, map};
ghost use Rattle.nll_types.specs.Views.{tree};

use crate::ty::Ty;
use nll_sets::Memory;
use std::alloc::Global;

/// A copy of the type.
///
/// # Cost
/// Linear in the type.
#[cycle(copies)]
pub fn copy(alloc: Global, ty: &Ty) -> Result<Ty, Memory>
    ensures { IfOk result (λ t. tree t ≡ tree ty.now) }
{
    match ty {
        Ty::Int => Ok(Ty::Int),
        Ty::Parameter(number) => Ok(Ty::Parameter(*number)),
        Ty::Reference(region, mutable, target) => {
            let target = Box::new(alloc, copy(alloc, target)?)?;
            Ok(Ty::Reference(*region, *mutable, target))
        }
        Ty::Tuple(parts) => Ok(Ty::Tuple(copy_all(alloc, parts.as_slice())?)),
        Ty::Named(number, regions, types) => {
            let regions = Vec::from_slice(alloc, regions.as_slice())?;
            let types = copy_all(alloc, types.as_slice())?;
            Ok(Ty::Named(*number, regions, types))
        }
        Ty::Function(arguments, returned) => {
            let returned = Box::new(alloc, copy(alloc, returned)?)?;
            let arguments = copy_all(alloc, arguments.as_slice())?;
            Ok(Ty::Function(arguments, returned))
        }
    }
}

// A copy of the types.
#[cycle(copies)]
fn copy_all(alloc: Global, types: &[Ty]) -> Result<Vec<Ty>, Memory>
    ensures { IfOk result (λ v. map tree v.items ≡ map tree types.now) }
{
    let mut copies = Vec::with_capacity(alloc, types.len())?;
    for ty in types {
        copies.push_reserved(copy(alloc, ty)?);
    }
    Ok(copies)
}
