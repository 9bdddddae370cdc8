//! Types that keep to what is declared, found among those that the tests make: no functions.
ghost use Rattle.std.specs.Prelude.{◌≡◌, ◌<◌, IsTrue, All, length};
ghost use Rattle.nll_types.specs.Structs.{IsWellFormed, AreWellFormed, HasGoodFields, struct_at};
ghost use Rattle.nll_types.specs.Declarations.{declared, structs_of};
ghost use Rattle.nll_types.specs.Views.{tree, trees};

use nll_core::RegionId;
use nll_types::{Declaration, Structs, Ty};

// Whether all regions have numbers below this.
fn are_below(regions: &[RegionId], bound: usize) -> bool
    ensures { IsTrue result → All (λ r. r < bound) regions.now }
{
    for region in regions {
        if region.0 as usize >= bound {
            return false;
        }
    }
    true
}

// Whether there is a struct of this number that takes this many region and type arguments.
fn takes(structs: &Structs, number: usize, regions: usize, types: usize) -> bool
    ensures { IsTrue result → (number < length structs.now)
        × (regions ≡ length (struct_at (structs_of structs.now) number).regions)
        × (types ≡ length (struct_at (structs_of structs.now) number).types) }
{
    if number >= structs.len() {
        return false;
    }
    let declaration = structs.get(number);
    regions == declaration.regions.len() && types == declaration.types.len()
}

/// Whether a type keeps to what is declared, with this many regions and type parameters.
#[cycle(well_formed)]
pub fn is_well_formed(structs: &Structs, ty: &Ty, regions: usize, parameters: usize) -> bool
    ensures { IsTrue result
        → IsWellFormed (structs_of structs.now) regions parameters (tree ty.now) }
{
    match ty {
        Ty::Int => true,
        Ty::Parameter(number) => *number < parameters,
        Ty::Reference(region, _, target) => {
            (region.0 as usize) < regions && is_well_formed(structs, target, regions, parameters)
        }
        Ty::Tuple(parts) => are_well_formed(structs, parts.as_slice(), regions, parameters),
        Ty::Named(number, own, types) => {
            if !takes(structs, *number, own.len(), types.len()) {
                return false;
            }
            are_below(own.as_slice(), regions)
                && are_well_formed(structs, types.as_slice(), regions, parameters)
        }
        Ty::Function(_, _) => false,
    }
}

// Whether types keep to what is declared.
#[cycle(well_formed)]
fn are_well_formed(structs: &Structs, types: &[Ty], regions: usize, parameters: usize) -> bool
    ensures { IsTrue result
        → AreWellFormed (structs_of structs.now) regions parameters (trees types.now) }
{
    for ty in types {
        if !is_well_formed(structs, ty, regions, parameters) {
            return false;
        }
    }
    true
}

/// Whether the fields of a struct that must be declared keep to the structs before it and to its
/// own parameters.
pub fn has_good_fields(structs: &Structs, declaration: &Declaration) -> bool
    ensures { IsTrue result → HasGoodFields (structs_of structs.now) (declared declaration.now) }
{
    let regions = declaration.regions.len() + 1;
    let parameters = declaration.types.len();
    are_well_formed(structs, declaration.fields.as_slice(), regions, parameters)
}
