//! The values that an owner has of its own regions, and what it gives out: each set once.
ghost use Rattle.std.specs.Prelude.{◌≡◌, ◌<◌, ℕ, List, Bool, false, length};
ghost use Rattle.nll_cut.specs.Partition.{owner_of};
ghost use Rattle.nll_owner.specs.Holding.{HasSet};

use super::dealt::{Asked, told};
use super::failure::Failure;
use super::turns::compare;
use nll_core::{Element, Problem, RegionId, RunSet};
use nll_cut::Cut;
use nll_mail::Growth;
use nll_owner::{Holding, Owner, OwnerError};
use nll_worked::{BY_TURNS, FILLED_HOLE, REACHED, Written};
use std::alloc::{AllocError, Global};

// An owner of a problem: how many owners there are, its number, another owner, and the growths that
// this one sends it, as regions and elements. Then its own regions with what `set` reports, with
// the sets that are taken out, and with those that are taken out after that.
type Row = (Written, u16, u16, u16, &'static [(u32, u32)], &'static str);

const ROWS: &[Row] = &[
    (
        REACHED,
        1,
        0,
        0,
        &[],
        "0: 0 1 2 3|1: 1 2|2: 1 2| 0: 0 1 2 3|1: 1 2|2: 1 2| 0:|1:|2:| ",
    ),
    (REACHED, 5, 4, 0, &[], "   "),
    (
        BY_TURNS,
        2,
        0,
        1,
        &[],
        "0: 0 1 2|2: 1| 0: 0 1 2|2: 1| 0:|2:| ",
    ),
    (
        BY_TURNS,
        2,
        0,
        1,
        &[(1, 0)],
        "0: 0 1 2|2: 0 1| 0: 0 1 2|2: 0 1| 0:|2:| ",
    ),
    (
        FILLED_HOLE,
        2,
        0,
        1,
        &[(1, 0), (1, 2)],
        "0: 0 1 2 3|2: 0| 0: 0 1 2 3|2: 0| 0:|2:| ",
    ),
    (
        FILLED_HOLE,
        2,
        0,
        1,
        &[(1, 0), (1, 2), (1, 1)],
        "0: 0 1 2 3|2: 0 1 2| 0: 0 1 2 3|2: 0 1 2| 0:|2:| ",
    ),
    (
        FILLED_HOLE,
        2,
        1,
        0,
        &[],
        "1: 0 1 2|3: 1| 1: 0 1 2|3: 1| 1:|3:| ",
    ),
    (FILLED_HOLE, 3, 1, 0, &[(3, 1)], "1: 0 1 2| 1: 0 1 2| 1:| "),
];

// Growths of rank 1.
fn growths_of(alloc: Global, told: &[(u32, u32)]) -> Result<Vec<Growth>, AllocError> {
    let mut growths = Vec::new(alloc);
    for (region, element) in told {
        growths.push(Growth {
            region: RegionId(*region),
            element: Element(*element),
            rank: 1,
        })?;
    }
    Ok(growths)
}

// Writes the elements of the set of a region.
fn write_set(out: &mut String, region: RegionId, set: &RunSet) -> Result<(), AllocError> {
    write!(out, "{}:", region.0)?;
    for element in set.iter() {
        write!(out, " {}", element.0)?;
    }
    out.push('|')
}

// Writes the values that an owner has of its own regions.
fn write_own(out: &mut String, owner: &Owner, cut: &Cut, me: u16) -> Result<(), AllocError>
    requires cut { owner.now.cut ≡ cut.now }
    requires me { owner.now.me ≡ me }
    requires regions { length cut.now.list ≡ owner.now.problem.regions }
{
    for number in 0..owner.problem().regions() {
        let region = RegionId(number);
        if cut.owner_of(region) == me {
            write_set(out, region, owner.set(region))?;
        }
    }
    out.push(' ')
}

// Takes the set of a region out, and writes it.
fn write_taken(
    alloc: Global,
    out: &mut String,
    holding: &mut Holding,
    region: RegionId,
) -> Result<(), AllocError>
    requires { (set : List Bool) × HasSet holding.old region set }
    ensures { (r : ℕ) (set : List Bool) → HasSet holding.old r set
        → (left : List Bool) × HasSet holding.new r left }
{
    let set = holding.take(alloc, region);
    write_set(out, region, &set)
}

// Takes the sets of an owner's own regions out, and writes them.
fn write_all_taken(
    alloc: Global,
    out: &mut String,
    holding: &mut Holding,
    cut: &Cut,
    me: u16,
    regions: u32,
) -> Result<(), AllocError>
    requires regions { length cut.now.list ≡ regions }
    requires sets { (r : ℕ) → r < regions → owner_of cut.now r ≡ me
        → (set : List Bool) × HasSet holding.old r set }
    ensures { (r : ℕ) (set : List Bool) → HasSet holding.old r set
        → (left : List Bool) × HasSet holding.new r left }
{
    for number in 0..regions {
        let region = RegionId(number);
        if cut.owner_of(region) == me {
            write_taken(alloc, out, holding, region)?;
        }
    }
    out.push(' ')
}

// Takes the sets of an owner's own regions out twice, and writes them.
fn write_twice(
    alloc: Global,
    out: &mut String,
    holding: &mut Holding,
    cut: &Cut,
    me: u16,
    regions: u32,
) -> Result<(), AllocError>
    requires regions { length cut.now.list ≡ regions }
    requires sets { (r : ℕ) → r < regions → owner_of cut.now r ≡ me
        → (set : List Bool) × HasSet holding.old r set }
{
    write_all_taken(alloc, out, holding, cut, me, regions)?;
    write_all_taken(alloc, out, holding, cut, me, regions)
}

// Loads an owner, and sends it growths of another one. One that can't take them counts as broken.
fn prepare(owner: &mut Owner<'_>, from: u16, growths: &[Growth]) -> Result<(), OwnerError>
    requires { owner.old.broken ≡ false → owner.old.loaded ≡ false }
    ensures cut { owner.new.cut ≡ owner.old.cut }
    ensures me { owner.new.me ≡ owner.old.me }
    ensures problem { owner.new.problem ≡ owner.old.problem }
{
    owner.load()?;
    if growths.is_empty() {
        return Ok(());
    }
    if owner.passes_all(from, growths) {
        owner.receive_all(from, growths)
    } else {
        Err(OwnerError::Broken)
    }
}

/// What an owner of a cut reports and gives out, once it got growths.
pub fn handed_over(
    alloc: Global,
    problem: &Problem,
    cut: &Cut,
    me: u16,
    from: u16,
    growths: &[Growth],
) -> Result<String, Failure>
    requires cut { length cut.now.list ≡ problem.now.regions }
    requires me { me < cut.now.owners }
{
    let mut out = String::new(alloc);
    let mut owner = Owner::new(alloc, problem, cut, me)?;
    let prepared = prepare(&mut owner, from, growths);
    let own = write_own(&mut out, &owner, cut, me);
    let (log, mut holding) = owner.into_parts(alloc);
    let taken = write_twice(alloc, &mut out, &mut holding, cut, me, problem.regions());
    drop(log);
    drop(holding);
    prepared?;
    own?;
    taken?;
    Ok(out)
}

// Like `handed_over`, for a written problem whose regions are assigned round-robin.
fn handed(
    alloc: Global,
    written: Written,
    owners: u16,
    me: u16,
    from: u16,
    growths: &[(u32, u32)],
) -> Result<String, Failure> {
    let growths = growths_of(alloc, growths)?;
    let asked = Asked::Handed(me, from, growths.as_slice());
    told(alloc, written, owners, asked)
}

#[test]
fn an_owner_hands_out_the_values_of_its_own_regions_once(rt: HostRuntime) {
    for (written, owners, me, from, told, want) in ROWS {
        let handed = handed(rt.alloc(), *written, *owners, *me, *from, told);
        compare(&rt, handed, want);
    }
}
