//! What types that meet ask of each other.

ghost use Rattle.std.specs.Prelude.{◌≡◌, ◌++◌, ◌∷◌, [], ℕ, List, OnOk};
ghost use Rattle.nll_rules.specs.Pairs.{AddsPairs};

use crate::row_signs::push_new;
use crate::type_row::TypeRow;
use nll_problem::RegionId;
use nll_sets::Memory;

/// A type and another, of whose rows the first flows into the second.
#[derive(Clone, Copy, PartialEq, Eq, Hash)]
pub(crate) struct Meeting {
    pub(crate) one: TypeRow,
    pub(crate) other: TypeRow,
}

/// Pairs of regions, the first of which must outlive the second.
pub(crate) type Pairs = Vec<(RegionId, RegionId)>;

/// Appends that the region must outlive the last one of a row, which is a reference's own.
pub(crate) fn ask_own(region: RegionId, row: &[RegionId], pairs: &mut Pairs) -> Result<(), Memory>
    ensures { OnOk result ((before : List ℕ) (last : ℕ) → row.now ≡ before ++ last ∷ []
        → AddsPairs (λ x. (region, last) ≡ x) pairs.old.items pairs.new.items) }
{
    match row.last().copied() {
        Some(last) => push_new((region, last), pairs),
        None => Ok(()),
    }
}
