//! The types of places, and the references on which a reborrow of a place rests.

ghost use Rattle.std.specs.Prelude.{◌≡◌, ◌↔◌, ◌<◌, ℕ, length, slice_get, Contains, IfOk, OnOk};
ghost use Rattle.nll_types.specs.Places.{behind, type_of};
ghost use Rattle.nll_types.specs.Types.{TypeTree};
ghost use Rattle.nll_body.specs.Flat.{path_in};
ghost use Rattle.nll_rules.specs.Knowing.{IsAtHand, IsTypeOfRow, Learns};
ghost use Rattle.nll_rules.specs.Reborrows.{RestsOn};
ghost use Rattle.nll_rules.specs.Walks.{past};

use crate::known::Known;
use crate::type_row::TypeRow;
use nll_problem::RegionId;
use nll_sets::Memory;
use nll_types::Projection;
use std::alloc::Global;

impl<'a> Known<'a> {
    // The type of a variable, where it is declared.
    fn variable(&mut self, alloc: Global, variable: u32) -> Result<Option<TypeRow>, Memory>
        ensures learns { Learns self.old self.new }
        ensures row { IfOk result (IsAtHand self.new (slice_get self.old.variables variable)) }
    {
        match self.body.variables.get(variable as usize).copied() {
            Some(ty) => {
                let row = self.written(alloc, ty)?;
                Ok(Some(row))
            }
            None => Ok(None),
        }
    }

    // Takes one projection from a type. A dereference goes through a reference: behind a shared one
    // nothing rests on what was before.
    fn step(
        &mut self,
        alloc: Global,
        row: TypeRow,
        projection: Projection,
        crossed: &mut Vec<RegionId>,
    ) -> Result<Option<TypeRow>, Memory>
        requires { row.shape < length self.old.table }
        ensures learns { Learns self.old self.new }
        ensures row { IfOk result (λ o. (t : TypeTree) → IsTypeOfRow self.old t row
            → IsAtHand self.new (behind self.old.structs projection t) o) }
        ensures past { OnOk result ((t : TypeTree) → IsTypeOfRow self.old t row
            → crossed.new.items ≡ past projection t crossed.old.items) }
    {
        match projection {
            Projection::Deref => match self.reference_at(row) {
                Some((region, mutable, target)) => {
                    if !mutable {
                        crossed.clear();
                    }
                    crossed.push(region)?;
                    Ok(Some(target))
                }
                None => Ok(None),
            },
            Projection::Field(place) => self.part(alloc, row, place as usize),
        }
    }

    /// The type of a place, where it has one. Leaves in the list the regions on which a reborrow of
    /// the place rests.
    ///
    /// # Source
    /// RFC 2094, "Reborrow constraints".
    pub(crate) fn walk(
        &mut self,
        alloc: Global,
        place: u32,
        crossed: &mut Vec<RegionId>,
    ) -> Result<Option<TypeRow>, Memory>
        ensures learns { Learns self.old self.new }
        ensures row { IfOk result (IsAtHand self.new
            (type_of self.old.structs self.old.variables (path_in self.old.lists place))) }
        ensures rests { OnOk result ((a : ℕ) → Contains crossed.new.items a
            ↔ RestsOn self.old.structs self.old.variables (path_in self.old.lists place) a) }
    {
        crossed.clear();
        let statements = self.statements();
        let Some(variable) = self.variable(alloc, statements.variable(place))? else {
            return Ok(None);
        };
        let mut row = variable;
        for projection in statements.projections(place) {
            match self.step(alloc, row, *projection, crossed)? {
                Some(next) => row = next,
                None => return Ok(None),
            }
        }
        Ok(Some(row))
    }
}
