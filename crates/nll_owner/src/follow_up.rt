//! How an owner follows up what it has, until nothing is left to do.

ghost use Rattle.std.specs.Prelude.{◌≡◌, ◌<◌, ℕ, Contains, length, map, IfOk, OnOk, ◌≤◌, drop};
ghost use Rattle.std.specs.Prelude.{slice_index_or};
ghost use Rattle.nll_problem.specs.Problem.{SameSet};
ghost use Rattle.nll_mail.specs.declared.growth.Growth.{Growth};
ghost use Rattle.nll_owner.specs.Logs.{IsTold};
ghost use Rattle.nll_owner.specs.Owner.{IsSoundOwner, Has, first_owner};
ghost use Rattle.nll_owner.specs.Keeping.{OwnerGrows, IsClosedOwner, held_regions};
ghost use Rattle.nll_owner.specs.Following.{IsFollowing, HasFollowed, Nothing, following_of};
ghost use Rattle.nll_owner.specs.RegionRuns.{AreHeld, IsToldByRuns};
ghost use Rattle.nll_owner.specs.declared.region_runs.RegionRun as spec;

use crate::knowledge::Knowledge;
use crate::link::{Due, LinkRow};
use crate::link_table::links_of;
use crate::region_runs::{RegionRun, RegionRuns};
use crate::slots::Slots;
use nll_core::Steps;
use nll_cut::Cut;
use nll_mail::Growth;
use nll_problem::{ConstraintIndex, Problem, RegionId};
use nll_sets::{Memory, Run};
use std::alloc::Global;
use std::marker::Model;

/// What an owner has followed up. After a refused call nothing is known of it.
#[derive(Drop)]
pub struct Following {
    // By the slot of the region that they read.
    rows: Vec<LinkRow>,
    // How much of the log.
    place: usize,
    // What was followed up last, and what the last link has found. They are kept so that their
    // memory is allocated once.
    runs: RegionRuns,
    found: Vec<Run>,
}

impl Model for Following {
    ghost use Rattle.std.specs.Prelude.{map};
    ghost use Rattle.nll_owner.specs.Following as spec;
    ghost use Rattle.nll_owner.specs.Following.{following_of};

    ghost Value = { spec.Following };

    ghost view = { λ f.
        following_of (map (λ row. row.items) f.rows.items) f.place };
}

impl Following {
    /// What an owner that has done nothing yet has followed up.
    pub fn new(
        alloc: Global,
        problem: &Problem,
        cut: &Cut,
        index: &ConstraintIndex,
        slots: &Slots,
        me: u16,
    ) -> Result<Following, Memory>
        requires cut { length cut.now.list ≡ problem.now.regions }
        requires index { SameSet index.now problem.now.constraints }
        requires slots { slots.now ≡ held_regions (first_owner problem.now cut.now me) }
        ensures { IfOk result (λ f. IsFollowing Nothing (first_owner problem.now cut.now me) f) }
    {
        let rows = links_of(alloc, problem, cut, index, slots, me)?;
        Ok(Following {
            rows,
            place: 0,
            runs: RegionRuns::new(alloc),
            found: Vec::new(alloc),
        })
    }

    /// Follows up growths of other owners that the owner has received, all together, so that each
    /// link that reads a region of theirs is looked at once; then the log to its end.
    ///
    /// # Cost
    /// A sort of the runs that they say, and what each run newly reaches by each link; then that of
    /// `settle` (not proved).
    pub fn follow_all(
        &mut self,
        knowledge: &mut Knowledge,
        steps: &Steps,
        growths: &[Growth],
    ) -> Result<(), Memory>
        requires sound { IsSoundOwner knowledge.old }
        requires steps { steps.now ≡ knowledge.old.problem.graph }
        requires regions { (g : Growth) → Contains growths.now g
            → g.region < knowledge.old.problem.regions }
        requires has { (r e : ℕ) → IsTold growths.now r e → Has knowledge.old r e }
        requires following { IsFollowing (IsTold growths.now) knowledge.old self.old }
        ensures grows { OwnerGrows knowledge.old knowledge.new }
        ensures followed { OnOk result (HasFollowed knowledge.new self.new) }
        ensures closed { OnOk result (IsClosedOwner knowledge.new) }
    {
        self.runs.gather(growths)?;
        follow_runs(
            &mut self.rows,
            knowledge,
            steps,
            self.runs.as_slice(),
            self.place,
            &mut self.found,
        )?;
        self.settle(knowledge, steps)
    }

    /// Follows up the log to its end: all that it says from an index on together, then all that was
    /// added by that, and so on. Nothing is left to do then.
    ///
    /// # Cost
    /// Each time a sort of the runs that the log says, and what each run newly reaches by each link
    /// (not proved).
    pub fn settle(&mut self, knowledge: &mut Knowledge, steps: &Steps) -> Result<(), Memory>
        requires sound { IsSoundOwner knowledge.old }
        requires steps { steps.now ≡ knowledge.old.problem.graph }
        requires following { IsFollowing Nothing knowledge.old self.old }
        ensures grows { OwnerGrows knowledge.old knowledge.new }
        ensures followed { OnOk result (HasFollowed knowledge.new self.new) }
        ensures closed { OnOk result (IsClosedOwner knowledge.new) }
    {
        while self.place < knowledge.entries().len() {
            let end = knowledge.entries().len();
            self.runs.gather(&knowledge.entries()[self.place..])?;
            self.place = end;
            follow_runs(
                &mut self.rows,
                knowledge,
                steps,
                self.runs.as_slice(),
                end,
                &mut self.found,
            )?;
        }
        Ok(())
    }
}

/// Hands runs to the links that read their regions, and grows the own regions by what these newly
/// reach. The log was followed up to an index; only contracts need it.
pub fn follow_runs(
    rows: &mut Vec<LinkRow>,
    knowledge: &mut Knowledge,
    steps: &Steps,
    runs: &[RegionRun],
    place: usize,
    found: &mut Vec<Run>,
) -> Result<(), Memory>
    requires sound { IsSoundOwner knowledge.old }
    requires steps { steps.now ≡ knowledge.old.problem.graph }
    requires held { AreHeld knowledge.old runs.now }
    requires following { IsFollowing (IsToldByRuns runs.now) knowledge.old
        (following_of (map (λ row. row.items) rows.old.items) place) }
    ensures grows { OwnerGrows knowledge.old knowledge.new }
    ensures following { OnOk result (IsFollowing Nothing knowledge.new
        (following_of (map (λ row. row.items) rows.new.items) place)) }
{
    let mut next = 0;
    while next < runs.len() {
        let rest = &runs[next..];
        let region = rest[0].region;
        let slot = knowledge.slot(region);
        let count = count_of(region, rest);
        let due = Due {
            steps,
            region,
            slot,
            runs: rest,
            count,
            place,
        };
        let row = &mut rows[slot.0 as usize];
        row.advance(knowledge, &due, found)?;
        next += count;
    }
    Ok(())
}

// How many runs are of the region of the first one, before one of another region.
fn count_of(region: RegionId, runs: &[RegionRun]) -> usize
    requires some { 0 < length runs.now }
    requires first { (k : spec.RegionRun) → slice_index_or runs.now 0 k ≡ k → k.region ≡ region }
    ensures some { 0 < result }
    ensures bound { result ≤ length runs.now }
    ensures same { (n : ℕ) (k : spec.RegionRun)
        → n < result → slice_index_or runs.now n k ≡ k → k.region ≡ region }
{
    let mut count = 1;
    while count < runs.len() && runs[count].region == region {
        count += 1;
    }
    count
}
