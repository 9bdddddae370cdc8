//! The regions of a type that liveness requires.

ghost use Rattle.std.specs.Prelude.{◌≢◌, ◌↔◌, ℕ, IsTrue, IfOk};
ghost use Rattle.std.specs.Prelude.{Contains, AllPairs};
ghost use Rattle.nll_types.specs.Types.{HasRegion};
ghost use Rattle.nll_types.specs.Structs.{IsWellFormed};
ghost use Rattle.nll_types.specs.Views.{tree};
ghost use Rattle.nll_types.specs.DropRegions.{IsDropRegion};
ghost use Rattle.nll_types.specs.Declarations.{structs_of};
ghost use Rattle.nll_types.specs.Sources.{IsWanted};

use crate::drop_search::collect;
use crate::source::Source;
use crate::structs::Structs;
use crate::ty::Ty;
use indexmap::IndexSet;
use nll_problem::RegionId;
use nll_sets::Memory;
use std::alloc::Global;

// Regions of a type: those that are written in it, its drop regions, or both.
fn find(
    alloc: Global,
    structs: &Structs,
    ty: &Ty,
    written: bool,
    dropped: bool,
) -> Result<Vec<RegionId>, Memory>
    requires { (regions : ℕ) × IsWellFormed (structs_of structs.now) regions 0 (tree ty.now) }
    ensures each { IfOk result (λ v. (r : ℕ) → Contains v.items r
        ↔ IsWanted (structs_of structs.now) (IsTrue written) (IsTrue dropped) (tree ty.now) r) }
    ensures once { IfOk result (λ v. AllPairs (λ q r. q ≢ r) v.items) }
{
    let mut sources = IndexSet::new(alloc);
    collect(structs, ty, written, dropped, &mut sources)?;
    let mut found = Vec::new(alloc);
    for source in sources.as_slice() {
        if let Source::Region(region) = source {
            found.push(*region)?;
        }
    }
    Ok(found)
}

impl Structs {
    /// The regions that are written in the type of a variable, each once.
    ///
    /// # Cost
    /// Linear in the written type (not proved).
    pub fn regions(&self, alloc: Global, ty: &Ty) -> Result<Vec<RegionId>, Memory>
        requires { (regions : ℕ) × IsWellFormed (structs_of self.now) regions 0 (tree ty.now) }
        ensures each { IfOk result (λ v. (r : ℕ) → Contains v.items r ↔ HasRegion (tree ty.now) r) }
        ensures once { IfOk result (λ v. AllPairs (λ q r. q ≢ r) v.items) }
    {
        find(alloc, self, ty, true, false)
    }

    /// The drop regions of the type of a variable, each once.
    ///
    /// # Cost
    /// Linear in the written type and the sources of the structs that are written in it, and never
    /// in the types behind fields (not proved).
    pub fn drop_regions(&self, alloc: Global, ty: &Ty) -> Result<Vec<RegionId>, Memory>
        requires { (regions : ℕ) × IsWellFormed (structs_of self.now) regions 0 (tree ty.now) }
        ensures each { IfOk result (λ v. (r : ℕ) → Contains v.items r
            ↔ IsDropRegion (structs_of self.now) (tree ty.now) r) }
        ensures once { IfOk result (λ v. AllPairs (λ q r. q ≢ r) v.items) }
    {
        find(alloc, self, ty, false, true)
    }
}
