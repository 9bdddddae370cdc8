//! What owners have and answer, written.
ghost use Rattle.std.specs.Prelude.{◌≡◌, length};

use super::driver::{Network, Turn};
use super::failure::Failure;
use nll_core::{Element, Problem, RegionId};
use nll_cut::Cut;
use nll_mail::Growth;
use nll_owner::Owner;
use std::alloc::{AllocError, Global};

// Writes what an owner has in a region.
fn write_region(out: &mut String, owner: &Owner, region: RegionId) -> Result<(), AllocError> {
    let problem = owner.problem();
    if region.0 >= problem.regions() {
        return Ok(());
    }
    write!(out, "{}:", region.0)?;
    for number in 0..problem.points() + problem.universals() {
        if owner.has(region, Element(number)) {
            write!(out, " {number}")?;
        }
    }
    out.push('|')
}

/// Writes the value of each region, as its owner has it.
pub fn write_values(
    out: &mut String,
    owners: &[Owner],
    cut: &Cut,
    regions: u32,
) -> Result<(), Failure>
    requires { length cut.now.list ≡ regions }
{
    for number in 0..regions {
        let region = RegionId(number);
        match owners.get(cut.owner_of(region) as usize) {
            Some(owner) => write_region(out, owner, region)?,
            None => return Err(Failure::Length),
        }
    }
    Ok(())
}

/// Writes how many growths each owner has grown, given and received.
pub fn write_counts(out: &mut String, owners: &[Owner]) -> Result<(), AllocError> {
    for owner in owners {
        let counts = owner.counts();
        write!(
            out,
            "{} {} {}|",
            counts.grown, counts.given, counts.received
        )?;
    }
    Ok(())
}

/// What the owners of a cut have once they are driven: the value of each region, and
/// how many growths each owner has grown, given and received.
pub fn driven_over(
    alloc: Global,
    problem: &Problem,
    cut: &Cut,
    turns: &[Turn],
) -> Result<String, Failure>
    requires { length cut.now.list ≡ problem.now.regions }
{
    let mut out = String::new(alloc);
    let mut network = Network::new(alloc, problem, cut)?;
    let driven = network.drive(alloc, turns);
    let values = write_values(&mut out, network.owners(), cut, problem.regions());
    let counts = write_counts(&mut out, network.owners());
    drop(network);
    driven?;
    values?;
    counts?;
    Ok(out)
}

// Numbers of regions and of elements: those of a small problem, and larger ones.
const NUMBERS: &[u32] = &[0, 1, 2, 3, 4, 5, 65_536, 4_294_967_295];

// Writes which of these elements an owner says that it has in a region.
fn write_row(out: &mut String, owner: &Owner, region: u32) -> Result<(), AllocError> {
    for element in NUMBERS {
        if owner.has(RegionId(region), Element(*element)) {
            write!(out, " {region}.{element}")?;
        }
    }
    Ok(())
}

// Writes which of these elements an owner says that it has, in each of these regions.
fn write_known(out: &mut String, owner: &Owner) -> Result<(), AllocError> {
    for region in NUMBERS {
        write_row(out, owner, *region)?;
    }
    out.push('|')
}

/// What each owner of a cut says that it has, once they are driven: a region and an element each.
pub fn known_over(
    alloc: Global,
    problem: &Problem,
    cut: &Cut,
    turns: &[Turn],
) -> Result<String, Failure>
    requires { length cut.now.list ≡ problem.now.regions }
{
    let mut out = String::new(alloc);
    let mut network = Network::new(alloc, problem, cut)?;
    let driven = network.drive(alloc, turns);
    let written = write_all_known(&mut out, network.owners());
    drop(network);
    driven?;
    written?;
    Ok(out)
}

// Writes the same of each owner.
fn write_all_known(out: &mut String, owners: &[Owner]) -> Result<(), AllocError> {
    for owner in owners {
        write_known(out, owner)?;
    }
    Ok(())
}

// Writes the logs of owners: the region and the element of each growth.
fn write_logs(out: &mut String, owners: &[Owner]) -> Result<(), AllocError> {
    for owner in owners {
        for growth in owner.log() {
            write!(out, "{} {}|", growth.region.0, growth.element.0)?;
        }
        out.push(' ')?;
    }
    Ok(())
}

/// The logs of the owners of a cut once they are driven: the region and the element of each growth.
pub fn logs_over(
    alloc: Global,
    problem: &Problem,
    cut: &Cut,
    turns: &[Turn],
) -> Result<String, Failure>
    requires { length cut.now.list ≡ problem.now.regions }
{
    let mut out = String::new(alloc);
    let mut network = Network::new(alloc, problem, cut)?;
    let driven = network.drive(alloc, turns);
    let written = write_logs(&mut out, network.owners());
    drop(network);
    driven?;
    written?;
    Ok(out)
}

// Writes what each turn answers, and how many growths each owner has grown, given and received
// then.
fn write_turns(
    out: &mut String,
    network: &mut Network<'_>,
    turns: &[Turn],
) -> Result<(), AllocError> {
    for turn in turns {
        let told = network.take(*turn);
        write!(out, "{told:?} ")?;
        write_counts(out, network.owners())?;
        out.push(' ')?;
    }
    Ok(())
}

/// What each turn answers of the owners of a cut, and how many growths each owner has grown, given
/// and received then.
pub fn answers_over(
    alloc: Global,
    problem: &Problem,
    cut: &Cut,
    turns: &[Turn],
) -> Result<String, Failure>
    requires { length cut.now.list ≡ problem.now.regions }
{
    let mut out = String::new(alloc);
    let mut network = Network::new(alloc, problem, cut)?;
    let written = write_turns(&mut out, &mut network, turns);
    drop(network);
    written?;
    Ok(out)
}

// Hands a growth to an owner that is ready for it, and writes what it answers.
fn write_answer(out: &mut String, owner: &mut Owner, growth: Growth) -> Result<(), AllocError> {
    if !owner.is_broken() && !owner.is_loaded() {
        return out.push_str("not ready|");
    }
    if !owner.passes(1, &growth) {
        return out.push_str("wrong|");
    }
    let told = owner.receive(1, growth);
    write!(out, "{told:?}|")
}

// Hands growths of the region 1 to an owner: one of a rank that no growth of a run has, one of the
// highest rank, and one of the lowest.
fn write_last_answers(out: &mut String, owner: &mut Owner) -> Result<(), AllocError> {
    for (element, rank) in [(1, 1 << 61), (1, (1 << 61) - 1), (0, 1)] {
        let growth = Growth {
            region: RegionId(1),
            element: Element(element),
            rank,
        };
        write_answer(out, owner, growth)?;
    }
    if let Some(last) = owner.log().last() {
        let rank = last.rank;
        write!(out, "{rank}|")?;
    }
    let unsent = owner.unsent(1);
    write!(out, "{unsent}|")
}

/// What the first of two owners answers, once it is loaded, to a growth of rank 2^61, to one of the
/// rank before, and to one of rank 1 that asks it to grow; and what it has for the other then.
pub fn last_answers_over(alloc: Global, problem: &Problem, cut: &Cut) -> Result<String, Failure>
    requires { length cut.now.list ≡ problem.now.regions }
{
    let mut out = String::new(alloc);
    let _owners = cut.owners();
    let mut owner = Owner::new(alloc, problem, cut, 0)?;
    let loaded = owner.load();
    let written = write_last_answers(&mut out, &mut owner);
    let (log, _) = owner.into_parts(alloc);
    let entries = log.len();
    drop(log);
    loaded?;
    written?;
    write!(out, "{entries}")?;
    Ok(out)
}
