//! The regions that an owner holds.

ghost use Rattle.std.specs.Prelude.{◌≡◌, ◌<◌, ◌≤◌, ℕ, Contains, AllPairs, length, [], IfOk, IfSome, IfNone};
ghost use Rattle.nll_problem.specs.Limits.{most_regions};
ghost use Rattle.nll_cut.specs.Readers.{is_read};
ghost use Rattle.nll_owner.specs.Keeping.{held_below, holds_region, IsSlotIn, TellsSlots};

use nll_cut::{Cut, Readers};
use nll_problem::RegionId;
use nll_sets::Memory;
use std::alloc::Global;
use std::marker::Model;

/// The slot of a region: its number among those that an owner holds.
pub type Slot = RegionId;

/// The regions that an owner holds: its own ones and those that it reads, ascending.
#[derive(Drop)]
pub struct Slots {
    regions: Vec<u16>,
    // The slot by region, and any number if it has none.
    table: Vec<u16>,
}

impl Model for Slots {
    ghost use Rattle.std.specs.Prelude.{◌<◌, ◌≤◌, ℕ, List, AllPairs, length};
    ghost use Rattle.nll_problem.specs.Limits.{most_regions};

    ghost Value = { List ℕ };

    ghost view = { λ slots. slots.regions.items };

    ghost use Rattle.nll_owner.specs.Keeping.{TellsSlots};

    ghost invariant = { λ slots. AllPairs {X = ℕ} (λ r s. r < s) slots.regions.items
        × (length slots.regions.items ≤ most_regions)
        × TellsSlots slots.regions.items slots.table.items };
}

impl Slots {
    /// The slots of an owner of a cut.
    ///
    /// # Cost
    /// A look at each region (not proved).
    pub fn of(
        alloc: Global,
        cut: &Cut,
        readers: &Readers,
        me: u16,
        regions: u32,
    ) -> Result<Slots, Memory>
        requires regions { length cut.now.list ≡ regions }
        requires few { regions ≤ most_regions }
        ensures { IfOk result (λ slots.
            slots ≡ held_below regions cut.now me (λ r. is_read readers.now me r)) }
    {
        let held = held_of(alloc, cut, readers, me, regions)?;
        let table = table_of(alloc, held.as_slice(), regions)?;
        Ok(Slots {
            regions: held,
            table,
        })
    }

    /// No regions. Takes no memory.
    pub fn none(alloc: Global) -> Slots
        ensures { result ≡ [] }
    {
        Slots {
            regions: Vec::new(alloc),
            table: Vec::new(alloc),
        }
    }

    /// How many there are.
    pub fn len(&self) -> u32
        ensures { result ≡ length self.now }
    {
        self.regions.len() as u32
    }

    /// The region that has a slot.
    pub fn region(&self, slot: u32) -> RegionId
        requires { slot < length self.now }
        ensures { IsSlotIn self.now slot result }
    {
        RegionId(self.regions[slot as usize] as u32)
    }

    /// The slot of a region, if it has one.
    ///
    /// # Cost
    /// Constant (not proved).
    pub fn find(&self, region: RegionId) -> Option<Slot>
        ensures some { IfSome result (λ slot. IsSlotIn self.now slot region) }
        ensures none { IfNone result (Contains self.now region → ⊥) }
    {
        let number = region.0 as usize;
        if number >= self.table.len() {
            return None;
        }
        let at = self.table[number] as usize;
        if at < self.regions.len() && self.regions[at] as u32 == region.0 {
            return Some(RegionId(at as u32));
        }
        None
    }
}

// The regions that an owner holds, of this many, ascending.
fn held_of(
    alloc: Global,
    cut: &Cut,
    readers: &Readers,
    me: u16,
    regions: u32,
) -> Result<Vec<u16>, Memory>
    requires regions { length cut.now.list ≡ regions }
    requires few { regions ≤ most_regions }
    ensures { IfOk result (λ held.
        held.items ≡ held_below regions cut.now me (λ r. is_read readers.now me r)) }
{
    let mut held = Vec::new(alloc);
    for number in 0..regions {
        if holds(cut, readers, me, RegionId(number)) {
            held.push(number as u16)?;
        }
    }
    Ok(held)
}

// The indices of regions in a list, by region.
fn table_of(alloc: Global, held: &[u16], regions: u32) -> Result<Vec<u16>, Memory>
    requires ascending { AllPairs {X = ℕ} (λ r s. r < s) held.now }
    requires within { (s r : ℕ) → IsSlotIn held.now s r → r < regions }
    requires few { length held.now ≤ most_regions }
    ensures { IfOk result (λ table. TellsSlots held.now table.items) }
{
    let mut table = vec![in alloc; 0u16; regions as usize]?;
    for slot in 0..held.len() {
        table[held[slot] as usize] = slot as u16;
    }
    Ok(table)
}

// Whether an owner holds a region.
fn holds(cut: &Cut, readers: &Readers, me: u16, region: RegionId) -> bool
    requires { region < length cut.now.list }
    ensures { result ≡ holds_region cut.now me (λ r. is_read readers.now me r) region }
{
    cut.owner_of(region) == me || readers.reads(me, region)
}
