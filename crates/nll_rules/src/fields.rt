//! The fields of structs that are known: their shapes, and where their regions are in the row of
//! the struct.

ghost use Rattle.std.specs.Prelude.{◌≡◌, IfOk};
ghost use Rattle.nll_types.specs.Structs.{region_in};
ghost use Rattle.nll_rules.specs.TypeRows.{row_from};

use nll_problem::RegionId;
use nll_sets::Memory;
use std::alloc::Global;

/// A field of a struct with arguments: the number of the struct's shape, and the field's place.
#[derive(Clone, Copy, PartialEq, Eq, Hash)]
pub(crate) struct FieldKey {
    pub(crate) shape: usize,
    pub(crate) place: usize,
}

/// The type of a field: its shape, and the template that makes its row of the row of the struct.
#[derive(Drop)]
pub(crate) struct FieldRow {
    pub(crate) shape: usize,
    /// A number for each region of the field's row: 0 for `'static`, and k + 1 for the region at
    /// the place k of the struct's row.
    pub(crate) template: Vec<usize>,
}

// The region of a number of a template.
fn region_at(row: &[RegionId], number: usize) -> RegionId
    ensures { result ≡ region_in row.now number }
{
    if number == 0 || number > row.len() {
        RegionId(0)
    } else {
        row[number - 1]
    }
}

impl FieldRow {
    /// The row of the field, where this is the row of the struct.
    pub(crate) fn of(&self, alloc: Global, row: &[RegionId]) -> Result<Vec<RegionId>, Memory>
        ensures { IfOk result (λ v. v.items ≡ row_from row.now self.now.template.items) }
    {
        let template = self.template.as_slice();
        let mut made = Vec::with_capacity(alloc, template.len())?;
        for number in template {
            made.push_reserved(region_at(row, *number));
        }
        Ok(made)
    }
}

/// A field of a use of a struct: the number of the struct's shape, the field's place, and the row
/// of the use.
#[derive(PartialEq, Eq, Hash, Drop)]
pub(crate) struct FieldUse {
    pub(crate) shape: usize,
    pub(crate) place: usize,
    pub(crate) row: Vec<RegionId>,
}
