//! The rows of parts of tuples.

ghost use Rattle.std.specs.Prelude.{◌≡◌, MatchOption, None, Some, length, slice_get};
ghost use Rattle.nll_types.specs.Rows.{region_row, region_rows};
ghost use Rattle.nll_types.specs.Shapes.{shapes_of};
ghost use Rattle.nll_types.specs.Types.{TypeTree, TypeTrees, type_at, type_count};
ghost use Rattle.nll_rules.specs.TypeRows.{IsWholeRow, row_in_lists, starts_from};

use crate::type_row::{RowLists, TypeRow};

/// The part at a place of a tuple, where it has the part. The tuple's parts have these shapes, and
/// their rows begin at these places of its row.
pub(crate) fn tuple_part(
    lists: &RowLists<'_>,
    starts: &[usize],
    parts: &[usize],
    row: TypeRow,
    place: usize,
) -> Option<TypeRow>
    ensures { (ts : TypeTrees) → starts.now ≡ starts_from 0 (shapes_of ts)
        → length parts.now ≡ type_count ts → row_in_lists lists.now row ≡ region_rows ts
        → MatchOption result (type_at ts place ≡ None)
        (λ r. (t : TypeTree) × (type_at ts place ≡ Some t)
        × (slice_get parts.now place ≡ Some r.shape) × (row_in_lists lists.now r ≡ region_row t)
        × IsWholeRow (row_in_lists lists.now r) r) }
{
    if place >= parts.len() || place + 1 >= starts.len() {
        return None;
    }
    Some(lists.slice(row, starts[place], starts[place + 1], parts[place]))
}
