//! What growths say, as few runs, region by region.

ghost use Rattle.std.specs.Prelude.{◌≡◌, ◌<◌, ◌^◌, ◌+◌, ◌↔◌, List, [], IsTrue, OnOk};
ghost use Rattle.std.specs.Prelude.{length};
ghost use Rattle.nll_mail.specs.declared.growth.Growth.{Growth};
ghost use Rattle.nll_owner.specs.Logs.{IsRunOfLog};
ghost use Rattle.nll_owner.specs.RegionRuns.{AreProper, TellTheSame};

use nll_mail::Growth;
use nll_problem::RegionId;
use nll_sets::{Memory, Run};
use std::alloc::Global;
use std::marker::Model;

/// A run of elements of a region.
#[derive(Clone, Copy)]
pub struct RegionRun {
    pub region: RegionId,
    pub run: Run,
}

/// What growths say, as runs by region and ascending; runs that touch are one. It is kept so that
/// its memory is allocated once.
#[derive(Drop)]
pub struct RegionRuns {
    // In the order of the growths.
    told: Vec<RegionRun>,
    list: Vec<RegionRun>,
}

impl Model for RegionRuns {
    ghost use Rattle.std.specs.Prelude.{List};
    ghost use Rattle.nll_owner.specs.declared.region_runs.RegionRun as spec;

    ghost Value = { List spec.RegionRun };

    ghost view = { λ runs. runs.list.items };
}

impl RegionRuns {
    /// No runs. Takes no memory.
    pub fn new(alloc: Global) -> RegionRuns
        ensures { result ≡ [] }
    {
        RegionRuns {
            told: Vec::new(alloc),
            list: Vec::new(alloc),
        }
    }

    /// Gathers what growths say, and replaces what was gathered before.
    ///
    /// # Cost
    /// A look at each growth, and a sort of their runs (not proved).
    pub fn gather(&mut self, growths: &[Growth]) -> Result<(), Memory>
        ensures { OnOk result (TellTheSame growths.now self.new) }
    {
        self.told.clear();
        list_runs(growths, &mut self.told)?;
        self.told.sort_unstable_by_key(|told| told.region.0 as u64 * (1 << 32)
            + told.run.first as u64);
        self.list.clear();
        merge(&self.told, &mut self.list)
    }

    /// The runs.
    pub fn as_slice(&self) -> &[RegionRun]
        ensures { result.now ≡ self.now }
    {
        &self.list
    }
}

// Fills an empty list with the runs of growths, in the order of the growths.
fn list_runs(growths: &[Growth], list: &mut Vec<RegionRun>) -> Result<(), Memory>
    requires none { list.old.items ≡ [] }
    ensures { OnOk result (TellTheSame growths.now list.new.items) }
{
    let mut place = 0;
    while place < growths.len() {
        let (run, end) = run_from(growths, place);
        list.push(run)?;
        place = end;
    }
    Ok(())
}

/// The run that the growths from a place on begin with, and where the next one begins.
pub fn run_from(growths: &[Growth], place: usize) -> (RegionRun, usize)
    requires { place < length growths.now }
    ensures { IsRunOfLog growths.now place result.1 result.0.region result.0.run }
{
    let region = growths[place].region;
    let element = growths[place].element;
    let first = element.0;
    let mut last = first;
    let mut end = place + 1;
    while end < growths.len() && is_next(&growths[end], region, last) {
        last += 1;
        end += 1;
    }
    let run = Run { first, last };
    (RegionRun { region, run }, end)
}

// Whether a growth gives a region the element after a given one.
fn is_next(growth: &Growth, region: RegionId, last: u32) -> bool
    ensures tells { IsTrue result
        ↔ ((growth.now.region ≡ region) × (growth.now.element ≡ last + 1)) }
    ensures fits { IsTrue result → last + 1 < 2 ^ 32 }
{
    growth.region == region && growth.element.0.checked_sub(1) == Some(last)
}

// Fills an empty list with runs; one that goes on from the run before extends that.
fn merge(told: &[RegionRun], list: &mut Vec<RegionRun>) -> Result<(), Memory>
    requires none { list.old.items ≡ [] }
    requires proper { AreProper told.now }
    ensures { OnOk result ((growths : List Growth) → TellTheSame growths told.now
        → TellTheSame growths list.new.items) }
{
    for run in told {
        let count = list.len();
        if count > 0
            && list[count - 1].region == run.region
            && run.run.first as u64 == list[count - 1].run.last as u64 + 1
        {
            list[count - 1].run.last = run.run.last;
        } else {
            list.push(*run)?;
        }
    }
    Ok(())
}
