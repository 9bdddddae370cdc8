//! Owners on lent tables, which get growths together, reach what owners with tables of their own
//! reach, which get one growth at a time.
ghost use Rattle.std.specs.Prelude.{◌≡◌, length};
ghost use Rattle.nll_owner.specs.Tables.{AreTables};

use super::dealt::{Asked, told};
use super::failure::Failure;
use super::owner_text::{write_counts, write_values};
use super::turns::{ROWS, compare};
use nll_core::Problem;
use nll_cut::Cut;
use nll_mail::Growth;
use nll_owner::{Owner, OwnerError, Tables};
use std::alloc::Global;

// The owners of a cut, on lent tables.
fn owners_on<'q>(
    alloc: Global,
    problem: &'q Problem,
    cut: &'q Cut,
    tables: &'q Tables,
) -> Result<Vec<Owner<'q>>, Failure>
    requires cut { length cut.now.list ≡ problem.now.regions }
    requires tables { AreTables problem.now cut.now tables.now }
{
    let mut owners = Vec::new(alloc);
    for me in 0..cut.owners() {
        owners.push(Owner::on(alloc, problem, cut, tables, me)?)?;
    }
    Ok(owners)
}

// Loads the owner of a number.
fn load(owners: &mut Vec<Owner<'_>>, number: u16) -> Result<(), OwnerError> {
    match owners.get_mut(number as usize) {
        Some(owner) if !owner.is_loaded() => owner.load(),
        _ => Err(OwnerError::Broken),
    }
}

// Hands growths to the owner of a number. One that can't take them counts as broken.
fn give(
    owners: &mut Vec<Owner<'_>>,
    from: u16,
    to: u16,
    growths: &[Growth],
) -> Result<(), OwnerError> {
    match owners.get_mut(to as usize) {
        Some(owner) if owner.is_loaded() && owner.passes_all(from, growths) => {
            owner.receive_all(from, growths)
        }
        _ => Err(OwnerError::Broken),
    }
}

// What an owner has to send to another one, which it gives out.
fn told_to(alloc: Global, owner: &mut Owner<'_>, to: u16) -> Result<Vec<Growth>, OwnerError> {
    let mut growths = Vec::new(alloc);
    for _ in 0..owner.unsent(to) {
        if let Some(growth) = owner.outgoing(to) {
            growths.push(growth)?;
        }
    }
    Ok(growths)
}

// Passes what an owner has to send to another one to it, all together. Answers whether there was
// anything.
fn hand(
    alloc: Global,
    owners: &mut Vec<Owner<'_>>,
    from: u16,
    to: u16,
) -> Result<bool, OwnerError> {
    let Some(owner) = owners.get_mut(from as usize) else {
        return Err(OwnerError::Broken);
    };
    let growths = told_to(alloc, owner, to)?;
    if growths.is_empty() {
        return Ok(false);
    }
    give(owners, from, to, growths.as_slice())?;
    Ok(true)
}

// Passes on what an owner has to send to each other one. Answers whether there was anything.
fn hand_each(
    alloc: Global,
    owners: &mut Vec<Owner<'_>>,
    from: u16,
    count: u16,
) -> Result<bool, OwnerError> {
    let mut moved = false;
    for to in 0..count {
        let came = hand(alloc, owners, from, to)?;
        moved |= came;
    }
    Ok(moved)
}

// Passes on what each owner has to send to each other one. Answers whether there was anything.
fn round(alloc: Global, owners: &mut Vec<Owner<'_>>, count: u16) -> Result<bool, OwnerError> {
    let mut moved = false;
    for from in 0..count {
        let came = hand_each(alloc, owners, from, count)?;
        moved |= came;
    }
    Ok(moved)
}

// Loads the owners.
fn load_all(owners: &mut Vec<Owner<'_>>, count: u16) -> Result<(), OwnerError> {
    for number in 0..count {
        load(owners, number)?;
    }
    Ok(())
}

// Loads the owners, and passes on growths until none is left.
fn exchange(alloc: Global, owners: &mut Vec<Owner<'_>>, count: u16) -> Result<(), OwnerError> {
    load_all(owners, count)?;
    for _ in 0..100 {
        if !round(alloc, owners, count)? {
            return Ok(());
        }
    }
    Ok(())
}

// What owners on lent tables have once no growth is left, and how many growths there were.
fn told_on(alloc: Global, problem: &Problem, cut: &Cut, tables: &Tables) -> Result<String, Failure>
    requires cut { length cut.now.list ≡ problem.now.regions }
    requires tables { AreTables problem.now cut.now tables.now }
{
    let mut out = String::new(alloc);
    let mut owners = owners_on(alloc, problem, cut, tables)?;
    let ended = exchange(alloc, &mut owners, cut.owners());
    let values = write_values(&mut out, &owners, cut, problem.regions());
    let counts = write_counts(&mut out, &owners);
    drop(owners);
    ended?;
    values?;
    counts?;
    Ok(out)
}

/// What owners have on lent tables, which are made once, when no growth is left, and how many
/// growths there were.
pub fn lent_over(alloc: Global, problem: &Problem, cut: &Cut) -> Result<String, Failure>
    requires { length cut.now.list ≡ problem.now.regions }
{
    let tables = Tables::of(alloc, problem, cut)?;
    let told = told_on(alloc, problem, cut, &tables);
    drop(tables);
    told
}

#[test]
fn owners_on_lent_tables_come_to_the_least_values(rt: HostRuntime) {
    for (written, owners, want, _) in ROWS {
        compare(&rt, told(rt.alloc(), *written, *owners, Asked::Lent), want);
    }
}
