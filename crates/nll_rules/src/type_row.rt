//! Types at hand: a shape, and where its row of regions is.

ghost use Rattle.std.specs.Prelude.{◌≡◌, ◌≤◌, ◌-◌, ◌++◌, ◌∷◌, [], ℕ, IfOk, MatchOption};
ghost use Rattle.std.specs.Prelude.{OnErr, OnOk, drop, length, take};
ghost use Rattle.nll_rules.specs.TypeRows.{IsWholeRow, row_in_lists};

use nll_problem::RegionId;
use nll_sets::Memory;

/// A type: its shape, and where in the lists of rows its row begins and how many regions it has.
#[derive(Clone, Copy, PartialEq, Eq, Hash)]
pub(crate) struct TypeRow {
    pub(crate) shape: usize,
    pub(crate) first: usize,
    pub(crate) count: usize,
}

/// The lists in which rows are: that of the body's types, and that of rows that were made, whose
/// places go on where those of the first end.
#[derive(Drop)]
pub(crate) struct RowLists<'a> {
    pub(crate) body: &'a [RegionId],
    pub(crate) made: Vec<RegionId>,
}

impl<'a> RowLists<'a> {
    // What is from a place on in the list of that place.
    fn from(&self, place: usize) -> &[RegionId]
        ensures { (n : ℕ) → take n result.now ≡ row_in_lists self.now
            (record { shape = 0; first = place; count = n }) }
    {
        let body = self.body.len();
        if place < body {
            &self.body[place..]
        } else {
            let made = self.made.as_slice();
            &made[(place - body).min(made.len())..]
        }
    }

    /// The row of a type.
    pub(crate) fn row(&self, ty: TypeRow) -> &[RegionId]
        ensures { result.now ≡ row_in_lists self.now ty }
    {
        let list = self.from(ty.first);
        &list[..ty.count.min(list.len())]
    }

    /// The type of this shape whose row is this part of the row.
    pub(crate) fn slice(&self, ty: TypeRow, from: usize, end: usize, shape: usize) -> TypeRow
        ensures shape { result.shape ≡ shape }
        ensures row { from ≤ end → end ≤ length (row_in_lists self.now ty)
            → (row_in_lists self.now result
            ≡ take (end - from) (drop from (row_in_lists self.now ty)))
            × (result.count ≡ end - from) }
    {
        let count = self.row(ty).len();
        let end = end.min(count);
        let from = from.min(end);
        TypeRow {
            shape,
            first: ty.first.min(self.body.len() + self.made.len()) + from,
            count: end - from,
        }
    }

    /// The last region of the row, and the type of this shape whose row is what is before it.
    pub(crate) fn split_last(&self, ty: TypeRow, shape: usize) -> Option<(RegionId, TypeRow)>
        ensures { MatchOption result (row_in_lists self.now ty ≡ []) (λ r. (r.1.shape ≡ shape)
            × IsWholeRow (row_in_lists self.now r.1) r.1 × (row_in_lists self.now ty
            ≡ row_in_lists self.now r.1 ++ r.0 ∷ [])) }
    {
        let row = self.row(ty);
        let count = row.len();
        if count == 0 {
            return None;
        }
        let last = row[count - 1];
        Some((last, self.slice(ty, 0, count - 1, shape)))
    }

    /// Appends a row that was made: that of a type of this shape.
    pub(crate) fn add(&mut self, shape: usize, row: &[RegionId]) -> Result<TypeRow, Memory>
        ensures body { self.new.body.now ≡ self.old.body.now }
        ensures ok { OnOk result (self.new.made.items ≡ self.old.made.items ++ row.now) }
        ensures err { OnErr result (self.new.made.items ≡ self.old.made.items) }
        ensures shape { IfOk result (λ r. r.shape ≡ shape) }
        ensures row { IfOk result (λ r. (r.count ≡ length row.now)
            × (row_in_lists self.new r ≡ row.now)) }
    {
        let first = self.body.len() + self.made.len();
        self.made.extend_from_slice(row)?;
        Ok(TypeRow {
            shape,
            first,
            count: row.len(),
        })
    }
}
