//! Arguments substituted for the parameters of a struct.

ghost use Rattle.std.specs.Prelude.{◌≡◌, IfOk, map};
ghost use Rattle.nll_types.specs.Structs as spec;
ghost use Rattle.nll_types.specs.Views.{tree, trees};

use crate::copies::copy;
use crate::ty::Ty;
use nll_problem::RegionId;
use nll_sets::Memory;
use std::alloc::Global;

// What a region of a field's type becomes.
pub(crate) fn region_in(regions: &[RegionId], region: RegionId) -> RegionId
    ensures { result ≡ spec.region_in regions.now region }
{
    if region.0 == 0 {
        return RegionId(0);
    }
    let place = (region.0 - 1) as usize;
    regions.get(place).copied().unwrap_or(RegionId(0))
}

// What the regions of a field's type become.
fn regions_in(alloc: Global, regions: &[RegionId], of: &[RegionId]) -> Result<Vec<RegionId>, Memory>
    ensures { IfOk result (λ v. v.items ≡ map (spec.region_in regions.now) of.now) }
{
    let mut put = Vec::with_capacity(alloc, of.len())?;
    for region in of {
        put.push_reserved(region_in(regions, *region));
    }
    Ok(put)
}

/// A field's type with the region arguments and the type arguments substituted for the parameters.
///
/// # Cost
/// Linear in the type that it makes.
#[cycle(substitution)]
pub fn put_in(alloc: Global, ty: &Ty, regions: &[RegionId], types: &[Ty]) -> Result<Ty, Memory>
    ensures { IfOk result (λ t. tree t ≡ spec.put_in regions.now (trees types.now) (tree ty.now)) }
{
    match ty {
        Ty::Int => Ok(Ty::Int),
        Ty::Parameter(number) => match types.get(*number) {
            Some(ty) => copy(alloc, ty),
            None => Ok(Ty::Int),
        },
        Ty::Reference(region, mutable, target) => {
            let target = Box::new(alloc, put_in(alloc, target, regions, types)?)?;
            Ok(Ty::Reference(region_in(regions, *region), *mutable, target))
        }
        Ty::Tuple(parts) => Ok(Ty::Tuple(put_in_all(alloc, parts.as_slice(), regions, types)?)),
        Ty::Named(number, own, arguments) => {
            let own = regions_in(alloc, regions, own.as_slice())?;
            let arguments = put_in_all(alloc, arguments.as_slice(), regions, types)?;
            Ok(Ty::Named(*number, own, arguments))
        }
        Ty::Function(inputs, returned) => {
            let returned = Box::new(alloc, put_in(alloc, returned, regions, types)?)?;
            let inputs = put_in_all(alloc, inputs.as_slice(), regions, types)?;
            Ok(Ty::Function(inputs, returned))
        }
    }
}

// The types with the arguments substituted.
#[cycle(substitution)]
fn put_in_all(
    alloc: Global,
    parts: &[Ty],
    regions: &[RegionId],
    types: &[Ty],
) -> Result<Vec<Ty>, Memory>
    ensures { IfOk result (λ v. trees v.items
        ≡ spec.put_in_all regions.now (trees types.now) (trees parts.now)) }
{
    let mut put = Vec::with_capacity(alloc, parts.len())?;
    for part in parts {
        put.push_reserved(put_in(alloc, part, regions, types)?);
    }
    Ok(put)
}
