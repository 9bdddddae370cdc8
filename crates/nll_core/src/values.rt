//! The values of regions: a set of elements for each.

ghost use Rattle.std.specs.Prelude.{◌≡◌, ℕ, ◌+◌, ◌-◌, ◌≤◌, ◌<◌, not, length, IfOk, OnOk};
ghost use Rattle.std.specs.Prelude.{OnErr, false, replicate, slice_set, []};
ghost use Rattle.nll_sets.specs.ElementSet.{elements};
ghost use Rattle.nll_sets.specs.Runs.{first_of, last_of, numbers_in, IsWithin};
ghost use Rattle.nll_core.specs.Growing.{Gains, Tells, missing_pairs};
ghost use Rattle.nll_core.specs.Values.{set_of, holds, with_element, empty_values, IsHeld};

use crate::region_elements::RegionElements;
use nll_problem::{Problem, RegionId};
use nll_sets::{Element, ElementSet, Memory, Run, RunSet};
use std::alloc::Global;
use std::marker::Model;
use std::mem;

/// A set of elements for each region. Contracts see it as one flag for each region and element.
#[derive(Drop)]
pub struct Values {
    sets: Vec<RunSet>,
}

impl Model for Values {
    ghost use Rattle.std.specs.Prelude.{List, Bool};

    ghost Value = { List (List Bool) };

    ghost view = { λ values. values.sets.items };
}

impl Values {
    /// The values of a problem's regions that hold nothing.
    pub fn empty(alloc: Global, problem: &Problem) -> Result<Values, Memory>
        ensures { IfOk result (λ values. values ≡ empty_values problem.now) }
    {
        let len = problem.points() + problem.universals();
        Values::of(alloc, problem.regions(), len)
    }

    /// This many sets of elements below a length that hold nothing.
    pub fn of(alloc: Global, count: u32, len: u32) -> Result<Values, Memory>
        ensures { IfOk result (λ values. values ≡ replicate count (replicate len false)) }
    {
        let mut sets = Vec::new(alloc);
        for _ in 0..count {
            sets.push(RunSet::empty(alloc, len)?)?;
        }
        Ok(Values { sets })
    }

    /// These sets, one for each region.
    pub fn of_sets(sets: Vec<RunSet>) -> Values
        ensures { result ≡ sets.items }
    {
        Values { sets }
    }

    /// Whether the value of a region has an element.
    pub fn has(&self, region: RegionId, element: Element) -> bool
        requires region { region < length self.now }
        requires element { element < length (set_of self.now region) }
        ensures { result ≡ holds self.now region element }
    {
        self.sets[region.0 as usize].has(element)
    }

    /// Inserts an element into the value of a region, and returns whether it is new.
    ///
    /// # Errors
    /// - `Memory`: the values are as before.
    pub fn insert(&mut self, region: RegionId, element: Element) -> Result<bool, Memory>
        requires region { region < length self.old }
        requires element { element < length (set_of self.old region) }
        ensures ok { OnOk result (self.new ≡ with_element self.old region element) }
        ensures new { IfOk result (λ new. new ≡ not (holds self.old region element)) }
        ensures err { OnErr result (self.new ≡ self.old) }
    {
        self.sets[region.0 as usize].insert(element)
    }

    /// Inserts the elements of a run into the value of a region, and returns whether one is new.
    ///
    /// # Errors
    /// - `Memory`: the values are as before.
    pub fn insert_run(&mut self, region: RegionId, run: Run) -> Result<bool, Memory>
        requires region { region < length self.old }
        requires proper { run.first ≤ run.last }
        requires below { run.last < length (set_of self.old region) }
        ensures gains { OnOk result
            (Gains (λ r e. (r ≡ region) × IsWithin run e) self.old self.new) }
        ensures err { OnErr result (self.new ≡ self.old) }
        ensures covers { OnOk result ((e : ℕ) → IsWithin run e → IsHeld self.new region e) }
        ensures tells { IfOk result (λ new. Tells new self.old self.new) }
        ensures fewer { OnOk result (((e : ℕ) → IsWithin run e → IsHeld self.old region e → ⊥)
            → missing_pairs self.new + (run.last + 1 - run.first) ≤ missing_pairs self.old) }
    {
        self.sets[region.0 as usize].insert_run(run)
    }

    /// Gives a region the value of another one.
    ///
    /// # Errors
    /// - `Memory`: the values are as before.
    pub(crate) fn copy(&mut self, from: RegionId, to: RegionId) -> Result<(), Memory>
        requires from { from < length self.old }
        requires to { to < length self.old }
        ensures ok { OnOk result (self.new ≡ slice_set self.old to (set_of self.old from)) }
        ensures err { OnErr result (self.new ≡ self.old) }
    {
        let set = self.sets[from.0 as usize].copy()?;
        self.sets[to.0 as usize] = set;
        Ok(())
    }

    /// The elements of the value of a region, ascending: its points, and then its ends.
    pub fn iter(&self, region: RegionId) -> RegionElements<'_>
        requires { region < length self.now }
        ensures { result ≡ elements (set_of self.now region) }
    {
        RegionElements::of(&self.sets[region.0 as usize])
    }

    /// The runs of elements of the value of a region, ascending.
    pub fn runs(&self, region: RegionId) -> &[Run]
        requires { region < length self.now }
        ensures listed { numbers_in result.now ≡ elements (set_of self.now region) }
        ensures fit { (k : ℕ) → k < length result.now
            → (first_of result.now k ≤ last_of result.now k)
            × (last_of result.now k < length (set_of self.now region)) }
        ensures room { (k : ℕ) → k < length result.now → last_of result.now k + 1 < 4294967296 }
    {
        self.sets[region.0 as usize].as_runs()
    }

    /// The set of a region.
    pub fn set(&self, region: RegionId) -> &RunSet
        requires { region < length self.now }
        ensures { result.now ≡ set_of self.now region }
    {
        &self.sets[region.0 as usize]
    }

    /// Takes the set of a region out, and leaves the empty set of no elements. Takes no memory.
    pub fn take(&mut self, alloc: Global, region: RegionId) -> RunSet
        requires { region < length self.old }
        ensures set { result ≡ set_of self.old region }
        ensures rest { self.new ≡ slice_set self.old region [] }
    {
        mem::replace(&mut self.sets[region.0 as usize], RunSet::new(alloc))
    }
}
