//! The sets that an owner gives up at the end.

ghost use Rattle.std.specs.Prelude.{◌≡◌, ◌≢◌, ◌↔◌, ◌<◌, ℕ, Bool, List, [], Contains, length};
ghost use Rattle.nll_cut.specs.Partition.{owner_of};
ghost use Rattle.nll_owner.specs.Holding.{HasSet};

use crate::slots::Slots;
use nll_core::Values;
use nll_cut::Cut;
use nll_problem::RegionId;
use nll_sets::RunSet;
use std::alloc::Global;
use std::marker::Model;

/// The sets that an owner gives up at the end: the values of its own regions. It frees the sets of
/// the regions that it read, which no clause says.
pub struct Holding {
    slots: Slots,
    // By slot.
    values: Values,
}

// A derived drop would be proved anew in each crate that drops one.
impl Drop for Holding {
    fn drop(self) {
        let Holding {
            slots: _,
            values: _,
        } = self;
    }
}

impl Model for Holding {
    ghost use Rattle.std.specs.Prelude.{◌≡◌, length};
    ghost use Rattle.nll_owner.specs.Holding as spec;

    ghost Value = { spec.Holding };

    ghost view = { λ h. record { regions = h.slots; sets = h.values } };

    ghost invariant = { λ h. length h.values ≡ length h.slots };
}

impl Holding {
    /// The sets of no owner. Takes no memory.
    pub fn none(alloc: Global) -> Holding
        ensures { result ≡ record { regions = []; sets = [] } }
    {
        Holding {
            slots: Slots::none(alloc),
            values: Values::of_sets(Vec::new(alloc)),
        }
    }

    /// The values of the regions that an owner of a cut has, from the sets of all that it holds.
    pub(crate) fn of(alloc: Global, cut: &Cut, me: u16, slots: Slots, values: Values) -> Holding
        requires as_many { length values ≡ length slots }
        requires regions { (r : ℕ) → Contains slots r → r < length cut.now.list }
        ensures { (r : ℕ) (set : List Bool) → owner_of cut.now r ≡ me
            → HasSet result r set ↔ HasSet (record { regions = slots; sets = values }) r set }
    {
        let mut values = values;
        for slot in 0..slots.len() {
            if cut.owner_of(slots.region(slot)) != me {
                drop(values.take(alloc, RegionId(slot)));
            }
        }
        Holding { slots, values }
    }

    /// Takes the set of a region out. Takes no memory.
    ///
    /// # Cost
    /// Constant (not proved).
    pub fn take(&mut self, alloc: Global, region: RegionId) -> RunSet
        requires { (set : List Bool) × HasSet self.old region set }
        ensures set { HasSet self.old region result }
        ensures others { (r : ℕ) (set : List Bool) → r ≢ region
            → HasSet self.new r set ↔ HasSet self.old r set }
        ensures gone { HasSet self.new region [] }
    {
        let slot = self.slots.find(region).unwrap();
        self.values.take(alloc, slot)
    }
}
