//! Where the drop regions of a struct come from.

ghost use Rattle.std.specs.Prelude.{List, IsTrue, OnOk};
ghost use Rattle.nll_types.specs.Structs.{Struct};
ghost use Rattle.nll_types.specs.Sources.{AddsSources, Yields};

use indexmap::IndexSet;
use nll_problem::RegionId;
use nll_sets::Memory;

/// Where some drop regions of a struct come from, in the terms of its declaration.
#[derive(Clone, Copy, PartialEq, Eq, Hash)]
pub(crate) enum Source {
    /// A region of the declaration: `'static`, or the argument for a region parameter.
    Region(RegionId),
    /// Each region that is written in the argument for a type parameter.
    AnyOf(usize),
    /// Each drop region of the argument for a type parameter.
    DropOf(usize),
}

// Adds a source to the sources.
pub(crate) fn add(sources: &mut IndexSet<Source>, new: Source) -> Result<(), Memory>
    ensures { OnOk result ((all : List Struct) → AddsSources all
        (λ rs ts r. Yields all rs ts new r) sources.old.keys sources.new.keys) }
{
    let _added = sources.insert(new)?;
    Ok(())
}

// Adds a source to the sources, if it is required.
pub(crate) fn add_where(
    wanted: bool,
    sources: &mut IndexSet<Source>,
    new: Source,
) -> Result<(), Memory>
    ensures { OnOk result ((all : List Struct) → AddsSources all
        (λ rs ts r. IsTrue wanted × Yields all rs ts new r) sources.old.keys sources.new.keys) }
{
    if wanted {
        add(sources, new)?;
    }
    Ok(())
}
