//! What an owner knows: its values and copies, its log, and what it received.

ghost use Rattle.std.specs.Prelude.{◌≡◌, ◌⊎◌, ◌↔◌, ℕ, ◌+◌, ◌<◌, ◌≤◌, ◌^◌, true, false, []};
ghost use Rattle.std.specs.Prelude.{Some, Contains, length, slice_get, slice_set, IsTrue, map};
ghost use Rattle.std.specs.Prelude.{replicate, IfOk, OnOk, OnErr, min, ◌-◌, ◌++◌, vec_len};
ghost use Rattle.std.specs.Prelude.{vec_capacity};
ghost use Rattle.std.specs.List.{sum, sum_by};
ghost use Rattle.nll_sets.specs.Runs.{IsInRuns, IsWithin};
ghost use Rattle.nll_problem.specs.Graph.{element_count};
ghost use Rattle.nll_core.specs.Search.{IsIn};
ghost use Rattle.nll_cut.specs.Partition.{owner_of, reads};
ghost use Rattle.nll_mail.specs.declared.growth.Growth.{Growth};
ghost use Rattle.nll_owner.specs.Logs.{part, IsRunOfLog};
ghost use Rattle.nll_owner.specs.Holding.{AreValuesOf};
ghost use Rattle.nll_owner.specs.Owner.{IsSoundOwner, IsCalled, Has, HasBases, Passes, part_for};
ghost use Rattle.nll_owner.specs.Owner.{given_to, first_owner, with_growths};
ghost use Rattle.nll_owner.specs.Owner.{GotBeginning};
ghost use Rattle.nll_owner.specs.Keeping.{OwnerGrows, IsLatest, HasAllBeside, growths, IsSlot};
ghost use Rattle.nll_owner.specs.Keeping.{held_regions, holds_region, HasOwn, IsOfUniversal};
ghost use Rattle.nll_owner.specs.Outboxes.{AreQueued, AreAllQueued, TellsAs};
ghost use Rattle.nll_problem.specs.Problem.{IsBase};

use crate::holding::Holding;
use crate::outboxes::Outboxes;
use crate::region_runs::{RegionRun, run_from};
use crate::slots::{Slot, Slots};
use nll_core::Values;
use nll_cut::{Cut, Readers};
use nll_mail::Growth;
use nll_problem::{Problem, RegionId};
use nll_sets::{Element, Memory, Run, RunSet};
use std::alloc::Global;
use std::marker::Model;

// The ranks of the growths of a run are below it.
const END_OF_RANKS: u64 = 1 << 61;

/// The values and copies of an owner, its log, and what it received. Contracts see it as the owner.
///
/// # Shape
/// `received` and `given` have an entry for each owner: what it sent, and how much of its part of
/// the log was given to it.
#[derive(Drop)]
pub struct Knowledge<'q> {
    pub problem: &'q Problem,
    pub cut: &'q Cut,
    pub me: u16,
    pub slots: Slots,
    // By slot.
    pub values: Values,
    pub log: Vec<Growth>,
    pub received: Vec<Vec<Growth>>,
    pub given: Vec<u64>,
    pub clock: u64,
    pub loaded: bool,
    pub broken: bool,
}

impl<'q> Model for Knowledge<'q> {
    ghost use Rattle.std.specs.Prelude.{map};
    ghost use Rattle.nll_owner.specs.Owner as spec;
    ghost use Rattle.nll_owner.specs.Keeping.{AreValuesKept, owner_of_parts};

    ghost Value = { spec.Owner };

    ghost view = { λ o. owner_of_parts o.problem.now o.cut.now o.me o.log.items
        (map (λ list. list.items) o.received.items) o.given.items o.clock o.loaded o.broken };

    ghost invariant = { λ o. AreValuesKept
        (owner_of_parts o.problem.now o.cut.now o.me o.log.items
        (map (λ list. list.items) o.received.items) o.given.items o.clock o.loaded o.broken)
        o.slots o.values };
}

impl<'q> Knowledge<'q> {
    /// What an owner that has done nothing yet knows.
    pub fn new(
        alloc: Global,
        problem: &'q Problem,
        cut: &'q Cut,
        slots: Slots,
        me: u16,
    ) -> Result<Knowledge<'q>, Memory>
        requires cut { length cut.now.list ≡ problem.now.regions }
        requires slots { slots ≡ held_regions (first_owner problem.now cut.now me) }
        requires me { me < cut.now.owners }
        ensures owner { IfOk result (λ o. o ≡ first_owner problem.now cut.now me) }
        ensures sound { IfOk result IsSoundOwner }
    {
        let owners = cut.owners();
        let len = problem.points() + problem.universals();
        let values = Values::of(alloc, slots.len(), len)?;
        let received = empty_lists(alloc, owners)?;
        let given = vec![in alloc; 0u64; owners as usize]?;
        Ok(Knowledge {
            problem,
            cut,
            me,
            slots,
            values,
            log: Vec::new(alloc),
            received,
            given,
            clock: 0,
            loaded: false,
            broken: false,
        })
    }

    /// Grows an own region by the elements of runs, which are called for.
    pub fn grow_runs(&mut self, region: RegionId, found: &[Run]) -> Result<(), Memory>
        requires sound { IsSoundOwner self.old }
        requires own { owner_of self.old.cut region ≡ self.old.me }
        requires region { region < self.old.problem.regions }
        requires elements { let graph = self.old.problem.graph in
            (x : ℕ) → IsInRuns found.now x → x < element_count graph }
        requires called { (x : ℕ) → IsInRuns found.now x → IsCalled self.old region x }
        ensures grows { OwnerGrows self.old self.new }
        ensures covers { OnOk result ((x : ℕ) → IsInRuns found.now x → Has self.new region x) }
    {
        for run in found {
            self.grow_run(region, *run)?;
        }
        Ok(())
    }

    /// Grows an own region by the elements of a run, which are called for, where they are new.
    pub fn grow_run(&mut self, region: RegionId, run: Run) -> Result<(), Memory>
        requires sound { IsSoundOwner self.old }
        requires own { owner_of self.old.cut region ≡ self.old.me }
        requires region { region < self.old.problem.regions }
        requires elements { let graph = self.old.problem.graph in
            (x : ℕ) → IsWithin run x → x < element_count graph }
        requires called { (x : ℕ) → IsWithin run x → IsCalled self.old region x }
        ensures grows { OwnerGrows self.old self.new }
        ensures covers { OnOk result ((x : ℕ) → IsWithin run x → Has self.new region x) }
    {
        if run.last < run.first {
            return Ok(());
        }
        let slot = self.slot(region);
        let mut next = run.first;
        while let Some(gap) = self.values.set(slot).gap_from(next, run.last) {
            self.grow_gap(region, slot, gap)?;
            next = gap.last + 1;
        }
        Ok(())
    }

    // Grows an own region by the elements of a run, which are called for and new.
    fn grow_gap(&mut self, region: RegionId, slot: Slot, gap: Run) -> Result<(), Memory>
        requires own { owner_of self.old.cut region ≡ self.old.me }
        requires slot { IsSlot self.old slot region }
        requires proper { gap.first ≤ gap.last }
        requires elements { gap.last < element_count self.old.problem.graph }
        requires called { (x : ℕ) → IsWithin gap x → IsCalled self.old region x }
        requires lacks { (x : ℕ) → IsWithin gap x → Has self.old region x → ⊥ }
        ensures grows { OwnerGrows self.old self.new }
        ensures covers { OnOk result ((x : ℕ) → IsWithin gap x → Has self.new region x) }
    {
        let clock = self.clock;
        let count = gap.last - gap.first + 1;
        self.log.reserve(count as usize)?;
        self.values.insert_run(slot, gap)?;
        push_growths(&mut self.log, region, gap.first, count, clock);
        self.clock = clock + count as u64;
        Ok(())
    }

    // Inserts the growths of a run into the copy of their region, and appends them to what was
    // received.
    fn enter_run(&mut self, from: u16, growths: &[Growth], run: RegionRun) -> Result<(), Memory>
        requires passes { let o = self.old in (g : Growth) → Contains growths.now g
            → Passes o.problem o.cut o.me from g }
        requires run { IsRunOfLog growths.now 0 (length growths.now) run.region run.run }
        ensures ok { OnOk result (self.new ≡ record self.old {
          clock = self.new.clock;
          received = with_growths self.old.received from growths.now;
        }) }
        ensures has { OnOk result (HasAllBeside growths.now self.old self.new) }
        ensures err { OnErr result (self.new ≡ self.old) }
        ensures sound { OnOk result (IsSoundOwner self.new) }
    {
        let time = self.clock;
        let slot = self.slot(run.region);
        let list = &mut self.received[from as usize];
        make_room(list, growths.len())?;
        self.values.insert_run(slot, run.run)?;
        self.clock = push_all(list, growths, time);
        Ok(())
    }

    /// Inserts growths of one owner into the copies of their regions, run by run, and appends them
    /// to what was received.
    pub fn enter_all_received(&mut self, from: u16, growths: &[Growth]) -> Result<(), Memory>
        requires sound { IsSoundOwner self.old }
        requires passes { let o = self.old in (g : Growth) → Contains growths.now g
            → Passes o.problem o.cut o.me from g }
        ensures others { self.new
            ≡ record self.old { received = self.new.received; clock = self.new.clock } }
        ensures received { OnOk result
            (self.new.received ≡ with_growths self.old.received from growths.now) }
        ensures perhaps { GotBeginning self.old.received from growths.now self.new.received }
        ensures has { OnOk result (HasAllBeside growths.now self.old self.new) }
        ensures sound { IsSoundOwner self.new }
    {
        let mut place = 0;
        while place < growths.len() {
            let (run, end) = run_from(growths, place);
            self.enter_run(from, &growths[place..end], run)?;
            place = end;
        }
        Ok(())
    }

    /// Notes whether the owner is loaded, and whether a call of it was refused.
    pub fn mark(&mut self, loaded: bool, broken: bool)
        requires { loaded ≡ true → HasBases self.old }
        ensures marks { self.new ≡ record self.old { loaded = loaded; broken = broken } }
        ensures sound { IsSoundOwner self.new }
    {
        self.loaded = loaded;
        self.broken = broken;
    }

    /// Gives the growth at an index of the log to another owner, which lacks some of its part.
    pub fn give(&mut self, to: u16, place: usize) -> Growth
        requires to { to < self.old.cut.owners }
        requires place { place < length self.old.log }
        requires more { given_to self.old to < length (part_for self.old to) }
        ensures growth { slice_get self.old.log place ≡ Some result }
        ensures given { self.new ≡ record self.old {
          given = slice_set self.old.given to (given_to self.old to + 1);
        } }
        ensures sound { IsSoundOwner self.new }
    {
        self.given[to as usize] += 1;
        self.log[place]
    }

    /// Queues the growths of the log that aren't queued yet.
    pub fn queue(&self, readers: &Readers, outboxes: &mut Outboxes) -> Result<(), Memory>
        requires tells { TellsAs self.now readers.now }
        requires queued { AreQueued self.now outboxes.old }
        ensures { OnOk result (AreAllQueued self.now outboxes.new) }
    {
        outboxes.take_up(readers, &self.log)
    }

    /// Whether the owner may receive a growth from another one.
    pub fn passes(&self, from: u16, growth: &Growth) -> bool
        ensures { IsTrue result ↔ Passes self.now.problem self.now.cut self.now.me from growth.now }
    {
        let Growth {
            region,
            element,
            rank,
        } = *growth;
        if rank >= END_OF_RANKS {
            return false;
        }
        if element.0 >= self.problem.points() + self.problem.universals() {
            return false;
        }
        // Of the regions of others, the owner holds those that it reads.
        if from == self.me {
            return false;
        }
        match self.slots.find(region) {
            Some(_) => self.cut.owner_of(region) == from,
            None => false,
        }
    }

    /// Whether a value or a copy has an element.
    pub fn has(&self, region: RegionId, element: Element) -> bool
        ensures { IsTrue result ↔ Has self.now region element }
    {
        if element.0 >= self.problem.points() + self.problem.universals() {
            return false;
        }
        match self.slots.find(region) {
            Some(slot) => self.values.has(slot, element),
            None => false,
        }
    }

    /// The set of what the owner has in the region of a slot.
    pub fn set(&self, slot: Slot) -> &RunSet
        requires { slot < length (held_regions self.now) }
        ensures width { length result.now ≡ element_count self.now.problem.graph }
        ensures has { (r : ℕ) → IsSlot self.now slot r
            → (x : ℕ) → IsIn result.now x ↔ Has self.now r x }
    {
        self.values.set(slot)
    }

    /// The slot of a region that the owner holds.
    pub fn slot(&self, region: RegionId) -> Slot
        requires region { region < self.now.problem.regions }
        requires held { let o = self.now in
            holds_region o.cut o.me (reads o.problem o.cut o.me) region ≡ true }
        ensures { IsSlot self.now result region }
    {
        self.slots.find(region).unwrap()
    }

    /// All growths of the own regions so far.
    pub fn entries(&self) -> &[Growth]
        ensures log { result.now ≡ self.now.log }
        ensures short { length result.now < 2 ^ 37 }
    {
        &self.log
    }

    /// Returns the log, and the values of the own regions.
    pub fn into_parts(self, alloc: Global) -> (Vec<Growth>, Holding)
        ensures log { result.0.items ≡ self.entry.log }
        ensures values { let o = self.entry in AreValuesOf o.problem o.cut o.me o.log result.1 }
    {
        let Knowledge {
            cut,
            me,
            slots,
            values,
            log,
            ..
        } = self;
        (log, Holding::of(alloc, cut, me, slots, values))
    }

    /// How many growths were given to others.
    pub fn given_count(&self) -> u64
        ensures { result ≡ sum self.now.given }
    {
        let mut count = 0u64;
        for given in &self.given {
            count += *given;
        }
        count
    }

    /// How many growths were received; the largest number of the type if there were more.
    pub fn received_count(&self) -> u64
        ensures { result ≡ min (sum_by length self.now.received) (2 ^ 64 - 1) }
    {
        let mut count = 0u64;
        for list in &self.received {
            count = count.saturating_add(list.len() as u64);
        }
        count
    }
}

// Appends the growths of a region by this many elements to a log, which has room for them.
fn push_growths(log: &mut Vec<Growth>, region: RegionId, first: u32, count: u32, clock: u64)
    requires room { vec_len log.old + count ≤ vec_capacity log.old }
    requires elements { first + count ≤ 2 ^ 32 }
    requires ranks { clock + count < 2 ^ 64 }
    ensures { log.new.items ≡ log.old.items ++ growths region first clock count }
{
    for number in 0..count {
        log.push_reserved(Growth {
            region,
            element: Element(first + number),
            rank: clock + number as u64 + 1,
        });
    }
}

// Makes room for this many more growths in a list. There are many such lists and they only grow, so
// it makes room for a quarter of the list at once.
fn make_room(list: &mut Vec<Growth>, count: usize) -> Result<(), Memory>
    ensures items { list.new.items ≡ list.old.items }
    ensures room { OnOk result (vec_len list.new + count ≤ vec_capacity list.new) }
{
    if count <= list.capacity() - list.len() {
        return Ok(());
    }
    let quarter = list.len() / 4;
    list.reserve_exact(quarter.max(4).max(count))?;
    Ok(())
}

// Appends growths to a list, which has room for them. Returns the highest of their ranks and of a
// time.
fn push_all(list: &mut Vec<Growth>, growths: &[Growth], time: u64) -> u64
    requires { vec_len list.old + length growths.now ≤ vec_capacity list.old }
    ensures items { list.new.items ≡ list.old.items ++ growths.now }
    ensures latest { IsLatest time growths.now result }
{
    let mut clock = time;
    for growth in growths {
        list.push_reserved(*growth);
        clock = clock.max(growth.rank);
    }
    clock
}

// This many empty lists.
fn empty_lists(alloc: Global, count: u16) -> Result<Vec<Vec<Growth>>, Memory>
    ensures { IfOk result (λ lists. map (λ list. list.items) lists.items ≡ replicate count []) }
{
    let mut lists = Vec::new(alloc);
    for _ in 0..count {
        lists.push(Vec::new(alloc))?;
    }
    Ok(lists)
}

impl<'q> Knowledge<'q> {
    /// Enters the base elements of the own regions.
    pub fn enter_bases(&mut self) -> Result<(), Memory>
        requires sound { IsSoundOwner self.old }
        ensures grows { OwnerGrows self.old self.new }
        ensures covers { OnOk result (HasOwn (IsBase self.old.problem) self.old self.new) }
    {
        self.enter_universals()?;
        self.enter_facts()?;
        Ok(())
    }

    // Enters what the own universal regions hold from the start.
    fn enter_universals(&mut self) -> Result<(), Memory>
        requires sound { IsSoundOwner self.old }
        ensures grows { OwnerGrows self.old self.new }
        ensures covers { OnOk result (HasOwn (IsOfUniversal self.old.problem) self.old self.new) }
    {
        let problem = self.problem;
        let points = problem.points();
        for number in 0..problem.universals() {
            let region = RegionId(number);
            if self.cut.owner_of(region) != self.me {
                continue;
            }
            let all = Run {
                first: 0,
                last: points - 1,
            };
            self.grow_run(region, all)?;
            let end = Run {
                first: points + number,
                last: points + number,
            };
            self.grow_run(region, end)?;
        }
        Ok(())
    }

    // Enters the base facts of the own regions, a run of them at a time.
    fn enter_facts(&mut self) -> Result<(), Memory>
        requires sound { IsSoundOwner self.old }
        ensures grows { OwnerGrows self.old self.new }
        ensures covers { OnOk result
            (HasOwn (λ r e. Contains self.old.problem.bases (r, e)) self.old self.new) }
    {
        let problem = self.problem;
        let runs = problem.base_runs();
        for run in runs {
            if self.cut.owner_of(run.region) != self.me {
                continue;
            }
            self.grow_run(run.region, run.points())?;
        }
        Ok(())
    }
}
