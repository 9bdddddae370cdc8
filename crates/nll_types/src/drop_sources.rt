//! Where the drop regions of a struct come from, by its declaration.

ghost use Rattle.std.specs.Prelude.{◌<◌, ◌-◌, ◌^◌, ◌++◌, ◌∷◌, [], List};
ghost use Rattle.std.specs.Prelude.{OnOk, IfOk, length};
ghost use Rattle.nll_types.specs.Structs.{Struct, HasGoodFields};
ghost use Rattle.nll_types.specs.Declarations.{declared, structs_of};
ghost use Rattle.nll_types.specs.Sources.{AddsSources, AreSourcesOf};
ghost use Rattle.nll_types.specs.Collecting.{IsKeptRegion, IsInKept};

use crate::drop_search::collect_parts;
use crate::parameter::Parameter;
use crate::source::{Source, add_where};
use crate::structs::{Declaration, Structs};
use indexmap::IndexSet;
use nll_problem::RegionId;
use nll_sets::Memory;
use std::alloc::Global;

// Adds the region parameters that aren't marked.
fn collect_kept_regions(parameters: &[Parameter], out: &mut IndexSet<Source>) -> Result<(), Memory>
    requires { length parameters.now < 2 ^ 32 - 1 }
    ensures { OnOk result ((all : List Struct) → AddsSources all
        (IsKeptRegion parameters.now) out.old.keys out.new.keys) }
{
    for place in 0..parameters.len() {
        let kept = !parameters[place].may_dangle;
        add_where(kept, out, Source::Region(RegionId(place as u32 + 1)))?;
    }
    Ok(())
}

// Adds what is written in the arguments for the type parameters that aren't marked.
fn collect_kept_types(parameters: &[Parameter], out: &mut IndexSet<Source>) -> Result<(), Memory>
    ensures { OnOk result ((all : List Struct) → AddsSources all
        (IsInKept parameters.now) out.old.keys out.new.keys) }
{
    for place in 0..parameters.len() {
        let kept = !parameters[place].may_dangle;
        add_where(kept, out, Source::AnyOf(place))?;
    }
    Ok(())
}

/// Where the drop regions of the next struct come from.
pub(crate) fn sources_of(
    alloc: Global,
    structs: &Structs,
    declaration: &Declaration,
) -> Result<IndexSet<Source>, Memory>
    requires fields { HasGoodFields (structs_of structs.now) (declared declaration.now) }
    requires few { length declaration.now.regions.items < 2 ^ 32 - 1 }
    ensures { IfOk result (λ s. AreSourcesOf
        (structs_of structs.now ++ declared declaration.now ∷ []) (length structs.now) s.keys) }
{
    let mut out = IndexSet::new(alloc);
    if declaration.has_drop {
        collect_kept_regions(declaration.regions.as_slice(), &mut out)?;
        collect_kept_types(declaration.types.as_slice(), &mut out)?;
    }
    let fields = declaration.fields.as_slice();
    collect_parts(structs, fields, false, true, &mut out)?;
    Ok(out)
}
