//! Owners of random problems and random cuts, driven in a random order, come to the values that
//! `solve` gives.
ghost use Rattle.std.specs.Prelude.{◌≡◌, ◌<◌, length};

use super::driver::Turn::{self, Load, Post, Take};
use super::failure::Failure;
use super::owner_text::driven_over;
use super::world_text::write_values;
use nll_core::{At, BuildError, Constraint, Problem, ProblemBuilder, RegionId, solve};
use nll_cut::Cut;
use std::alloc::{AllocError, Global};

// A number that looks random.
fn mixed(seed: u32, place: u32) -> u32 {
    let sum = seed.wrapping_mul(2_654_435_761) ^ place.wrapping_mul(2_246_822_519);
    let once = (sum ^ (sum >> 15)).wrapping_mul(3_266_489_917);
    (once ^ (once >> 13)).wrapping_mul(668_265_263) >> 4
}

// Adds a random fact of nine points and nine regions to a builder.
fn enter_one(builder: &mut ProblemBuilder, number: u32) -> Result<(), BuildError> {
    let (first, second, third) = (number / 8 % 9, number / 72 % 9, number / 648 % 9);
    match number % 8 {
        0 => builder.next(first, second),
        1 | 2 => builder.next(first, (first + 1) % 9),
        3 | 4 => builder.base(RegionId(first), second),
        5 if third < 3 => builder.ret(first),
        7 if third < 3 => builder.constraint(Constraint {
            sup: RegionId(first),
            sub: RegionId(second),
            at: At::All,
        }),
        _ => builder.constraint(Constraint {
            sup: RegionId(first),
            sub: RegionId(second),
            at: At::Point(third),
        }),
    }
}

// Adds random facts to a builder of two universal regions, and seven regions before them.
fn enter_all(builder: &mut ProblemBuilder, seed: u32) -> Result<(), BuildError> {
    for _ in 0..7 {
        builder.region()?;
    }
    for place in 0..20 + seed % 60 {
        enter_one(builder, mixed(seed, place))?;
    }
    Ok(())
}

// A random problem.
fn problem_of(alloc: Global, seed: u32) -> Result<Problem, BuildError> {
    let mut builder = ProblemBuilder::new(alloc, 9, 2)?;
    let entered = enter_all(&mut builder, seed);
    entered.and(builder.finish())
}

// A random owner for each region.
fn list_of(alloc: Global, regions: u32, owners: u16, seed: u32) -> Result<Vec<u16>, AllocError>
    requires { 0 < owners }
{
    let mut list = Vec::new(alloc);
    for region in 0..regions {
        list.push((mixed(seed, region.saturating_add(1000)) % owners as u32) as u16)?;
    }
    Ok(list)
}

// A random turn of one or of two owners.
fn turn_of(number: u32, from: u16, to: u16) -> Turn {
    if from == to || number % 8 == 0 {
        Load(to)
    } else if number % 2 == 0 {
        Take(from, to)
    } else {
        Post(from, to)
    }
}

// Random turns.
fn turns_of(alloc: Global, owners: u16, seed: u32) -> Result<Vec<Turn>, AllocError>
    requires { 0 < owners }
{
    let mut turns = Vec::new(alloc);
    for place in 0..40 {
        let number = mixed(seed, 2000 + place);
        let from = (number / 8 % owners as u32) as u16;
        let to = (number / 512 % owners as u32) as u16;
        turns.push(turn_of(number, from, to))?;
    }
    Ok(turns)
}

// The least values, as `solve` gives them.
fn solved(alloc: Global, problem: &Problem) -> Result<String, Failure> {
    let mut out = String::new(alloc);
    let values = solve(alloc, problem)?;
    let written = write_values(&mut out, problem, &values);
    drop(values);
    written?;
    Ok(out)
}

// Whether driven owners come to what `solve` gives.
fn agree_over(alloc: Global, problem: &Problem, cut: &Cut, turns: &[Turn]) -> Result<bool, Failure>
    requires { length cut.now.list ≡ problem.now.regions }
{
    let told = driven_over(alloc, problem, cut, turns)?;
    let want = solved(alloc, problem)?;
    Ok(told.as_str().starts_with(want.as_str()))
}

// Like `agree_over`, for a random cut and random turns.
fn agree_on(alloc: Global, problem: &Problem, seed: u32) -> Result<bool, Failure> {
    let owners = (1 + seed % 4) as u16;
    let list = list_of(alloc, problem.regions(), owners, seed)?;
    let turns = turns_of(alloc, owners, seed)?;
    if list.len() != problem.regions() as usize {
        return Err(Failure::Length);
    }
    let cut = Cut::from_list(alloc, problem.regions(), owners, &list)?;
    let told = agree_over(alloc, problem, &cut, &turns);
    drop(cut);
    told
}

// Like `agree_on`, for a random problem.
fn agree(alloc: Global, seed: u32) -> Result<bool, Failure> {
    let problem = problem_of(alloc, seed)?;
    let told = agree_on(alloc, &problem, seed);
    drop(problem);
    told
}

#[test]
fn driven_owners_agree_with_one_solver(rt: HostRuntime) {
    for seed in 0..300 {
        let told = agree(rt.alloc(), seed);
        assert!(rt; told == Ok(true), "{seed}: {told:?}");
    }
}
