//! The search for drop regions: one walk of the written type, over what is known of each struct.

ghost use Rattle.std.specs.Prelude.{◌↔◌, ◌++◌, ℕ, List, Contains, OnOk, IsTrue};
ghost use Rattle.nll_types.specs.Structs.{Struct, IsWellFormed, AreWellFormed, region_in};
ghost use Rattle.nll_types.specs.declared.source.Source.TheVariants.{Region as region};
ghost use Rattle.nll_types.specs.Views.{tree, trees};
ghost use Rattle.nll_types.specs.Declarations.{structs_of};
ghost use Rattle.nll_types.specs.Sources.{AddsSources, IsWantedOf, IsWantedOfOne};
ghost use Rattle.nll_types.specs.Collecting.{IsPutRegion, IsSourceRegion, WantsWritten};
ghost use Rattle.nll_types.specs.Collecting.{WantsDropped};

use crate::source::{Source, add, add_where};
use crate::structs::Structs;
use crate::substitution::region_in;
use crate::ty::Ty;
use indexmap::IndexSet;
use nll_problem::RegionId;
use nll_sets::Memory;

// Adds the regions, where they are required.
fn collect_regions(
    regions: &[RegionId],
    wanted: bool,
    out: &mut IndexSet<Source>,
) -> Result<(), Memory>
    ensures { OnOk result ((all : List Struct) → AddsSources all
        (λ rs ts r. IsTrue wanted × IsPutRegion regions.now rs ts r) out.old.keys out.new.keys) }
{
    if !wanted {
        return Ok(());
    }
    for region in regions {
        add(out, Source::Region(*region))?;
    }
    Ok(())
}

// Adds what the regions of a struct's sources become with these arguments, where they are required.
fn collect_sources(
    sources: &[Source],
    regions: &[RegionId],
    wanted: bool,
    out: &mut IndexSet<Source>,
) -> Result<(), Memory>
    ensures { OnOk result ((all : List Struct) → AddsSources all
        (λ rs ts r. IsTrue wanted × IsSourceRegion sources.now regions.now rs ts r)
        out.old.keys out.new.keys) }
{
    if !wanted {
        return Ok(());
    }
    for source in sources {
        if let Source::Region(number) = source {
            add(out, Source::Region(region_in(regions, *number)))?;
        }
    }
    Ok(())
}

// Whether drop regions are required and the source is among the sources.
fn wants(sources: &IndexSet<Source>, source: Source, dropped: bool) -> bool
    ensures { IsTrue result ↔ (IsTrue dropped × Contains sources.now.keys source) }
{
    dropped && sources.contains(&source)
}

/// Adds sources of the regions that are written in a type, of its drop regions, or of both.
#[cycle(drop_search)]
pub(crate) fn collect(
    structs: &Structs,
    ty: &Ty,
    written: bool,
    dropped: bool,
    out: &mut IndexSet<Source>,
) -> Result<(), Memory>
    ensures { OnOk result ((later : List Struct) (regions parameters : ℕ)
        → IsWellFormed (structs_of structs.now) regions parameters (tree ty.now)
        → AddsSources (structs_of structs.now ++ later)
        (IsWantedOf (structs_of structs.now ++ later) (IsTrue written) (IsTrue dropped)
        (tree ty.now)) out.old.keys out.new.keys) }
{
    match ty {
        Ty::Int => Ok(()),
        Ty::Parameter(number) => {
            add_where(written, out, Source::AnyOf(*number))?;
            add_where(dropped, out, Source::DropOf(*number))
        }
        Ty::Reference(region, _, target) => {
            add_where(written, out, Source::Region(*region))?;
            collect(structs, target, written, false, out)
        }
        Ty::Tuple(parts) => collect_parts(structs, parts.as_slice(), written, dropped, out),
        Ty::Named(number, regions, types) => {
            let Some(sources) = structs.sources(*number) else {
                return Ok(());
            };
            collect_regions(regions.as_slice(), written, out)?;
            collect_sources(sources.as_slice(), regions.as_slice(), dropped, out)?;
            collect_arguments(structs, sources, types.as_slice(), written, dropped, out)
        }
        Ty::Function(arguments, returned) => {
            collect_parts(structs, arguments.as_slice(), written, false, out)?;
            collect(structs, returned, written, false, out)
        }
    }
}

// Adds sources of the regions of some types.
#[cycle(drop_search)]
pub(crate) fn collect_parts(
    structs: &Structs,
    parts: &[Ty],
    written: bool,
    dropped: bool,
    out: &mut IndexSet<Source>,
) -> Result<(), Memory>
    ensures { OnOk result ((later : List Struct) (regions parameters : ℕ)
        → AreWellFormed (structs_of structs.now) regions parameters (trees parts.now)
        → AddsSources (structs_of structs.now ++ later)
        (IsWantedOfOne (structs_of structs.now ++ later)
        (λ _. IsTrue written) (λ _. IsTrue dropped) (trees parts.now)) out.old.keys out.new.keys) }
{
    for part in parts {
        collect(structs, part, written, dropped, out)?;
    }
    Ok(())
}

// Adds sources of the regions of a struct's type arguments.
#[cycle(drop_search)]
fn collect_arguments(
    structs: &Structs,
    sources: &IndexSet<Source>,
    arguments: &[Ty],
    written: bool,
    dropped: bool,
    out: &mut IndexSet<Source>,
) -> Result<(), Memory>
    ensures { OnOk result ((later : List Struct) (regions parameters : ℕ)
        → AreWellFormed (structs_of structs.now) regions parameters (trees arguments.now)
        → AddsSources (structs_of structs.now ++ later)
        (IsWantedOfOne (structs_of structs.now ++ later)
        (WantsWritten sources.now.keys written dropped)
        (WantsDropped sources.now.keys dropped) (trees arguments.now)) out.old.keys out.new.keys) }
{
    for place in 0..arguments.len() {
        let written = written | wants(sources, Source::AnyOf(place), dropped);
        let dropped = wants(sources, Source::DropOf(place), dropped);
        collect(structs, &arguments[place], written, dropped, out)?;
    }
    Ok(())
}
