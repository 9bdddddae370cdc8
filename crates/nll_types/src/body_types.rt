//! The types of a body.

ghost use Rattle.std.specs.Prelude.{◌≡◌, ◌<◌, [], length, IfOk};
ghost use Rattle.nll_types.specs.Rows.{tree_at};
ghost use Rattle.nll_types.specs.Views.{tree};

use crate::trees::tree_of;
use crate::ty::Ty;
use crate::type_table::TypeTable;
use crate::typed::Typed;
use nll_problem::RegionId;
use nll_sets::Memory;
use std::alloc::Global;

/// The types of a body: its structs, the shapes, and the rows of regions of all types, one behind
/// the other in one list.
#[derive(Drop)]
pub struct BodyTypes {
    pub table: TypeTable,
    pub regions: Vec<RegionId>,
}

impl BodyTypes {
    /// No struct and no type.
    pub fn new(alloc: Global) -> BodyTypes
        ensures structs { result.table.structs ≡ [] }
        ensures shapes { result.table.shapes ≡ [] }
        ensures regions { result.regions.items ≡ [] }
    {
        BodyTypes {
            table: TypeTable::new(alloc),
            regions: Vec::new(alloc),
        }
    }

    /// A type as a tree.
    ///
    /// # Cost
    /// Linear in the type; it recurses to its depth (not proved).
    pub fn tree(&self, alloc: Global, ty: Typed) -> Result<Ty, Memory>
        requires { ty.shape < length self.now.table.shapes }
        ensures { IfOk result
            (λ t. tree t ≡ tree_at self.now.table.shapes self.now.regions.items ty) }
    {
        let mut at = ty.first;
        tree_of(
            alloc,
            self.table.shapes(),
            ty.shape,
            self.regions.as_slice(),
            &mut at,
        )
    }
}
