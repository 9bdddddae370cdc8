//! Owners of a cut that one thread drives, turn by turn, with plain lists in place of mailboxes.
ghost use Rattle.std.specs.Prelude.{◌≡◌, length};

use super::failure::Failure;
use nll_core::Problem;
use nll_cut::Cut;
use nll_mail::Growth;
use nll_owner::{Owner, OwnerError};
use std::alloc::{AllocError, Global};
use std::collections::VecDeque;

/// What the thread does.
#[derive(Clone, Copy, Debug, PartialEq, Eq)]
pub enum Turn {
    /// The owner is loaded, if it isn't.
    Load(u16),
    /// All growths that the first owner has for the second are posted.
    Post(u16, u16),
    /// The second owner takes one growth of the first, if it is loaded and there is one.
    Take(u16, u16),
}

// What is under way from one owner to another.
#[derive(Drop)]
struct Lane {
    from: u16,
    to: u16,
    growths: VecDeque<Growth>,
}

/// The owners of a cut, and a lane from each to each other.
#[derive(Drop)]
pub struct Network<'q> {
    owners: Vec<Owner<'q>>,
    lanes: Vec<Lane>,
}

// The owners of a cut.
fn owners_of<'q>(
    alloc: Global,
    problem: &'q Problem,
    cut: &'q Cut,
) -> Result<Vec<Owner<'q>>, Failure>
    requires { length cut.now.list ≡ problem.now.regions }
{
    let mut owners = Vec::new(alloc);
    for me in 0..cut.owners() {
        owners.push(Owner::new(alloc, problem, cut, me)?)?;
    }
    Ok(owners)
}

// Adds a lane from an owner to each other.
fn add_lanes(
    alloc: Global,
    lanes: &mut Vec<Lane>,
    from: u16,
    owners: u16,
) -> Result<(), AllocError> {
    for to in 0..owners {
        if to != from {
            let growths = VecDeque::new(alloc);
            lanes.push(Lane { from, to, growths })?;
        }
    }
    Ok(())
}

// A lane from each owner to each other.
fn lanes_of(alloc: Global, owners: u16) -> Result<Vec<Lane>, AllocError> {
    let mut lanes = Vec::new(alloc);
    for from in 0..owners {
        add_lanes(alloc, &mut lanes, from, owners)?;
    }
    Ok(lanes)
}

// Loads an owner, if it isn't. Answers whether it did.
fn load(owner: &mut Owner<'_>) -> Result<bool, Failure> {
    if owner.is_loaded() {
        return Ok(false);
    }
    owner.load()?;
    Ok(true)
}

// Posts all that an owner has for another one. Answers whether there was anything.
fn post(owner: &mut Owner<'_>, lane: &mut Lane) -> Result<bool, Failure> {
    let count = owner.unsent(lane.to);
    for _ in 0..count {
        if let Some(growth) = owner.outgoing(lane.to) {
            lane.growths.push_back(growth)?;
        }
    }
    Ok(count > 0)
}

// Hands an owner one growth of another one, if it is loaded and there is one. Answers whether it
// did.
fn take(owner: &mut Owner<'_>, lane: &mut Lane) -> Result<bool, Failure> {
    if !owner.is_loaded() {
        return Ok(false);
    }
    let Some(growth) = lane.growths.pop_front() else {
        return Ok(false);
    };
    if !owner.passes(lane.from, &growth) {
        return Err(Failure::Owner(OwnerError::Broken));
    }
    owner.receive(lane.from, growth)?;
    Ok(true)
}

// Turns through each lane: first all are posted, then each owner takes one growth of each other.
fn whole_round(alloc: Global, lanes: &[Lane]) -> Result<Vec<Turn>, AllocError> {
    let mut turns = Vec::new(alloc);
    for lane in lanes {
        turns.push(Turn::Post(lane.from, lane.to))?;
    }
    for lane in lanes {
        turns.push(Turn::Take(lane.from, lane.to))?;
    }
    Ok(turns)
}

impl<'q> Network<'q> {
    /// Owners that have done nothing yet.
    pub fn new(alloc: Global, problem: &'q Problem, cut: &'q Cut) -> Result<Network<'q>, Failure>
        requires { length cut.now.list ≡ problem.now.regions }
    {
        let lanes = lanes_of(alloc, cut.owners())?;
        let owners = owners_of(alloc, problem, cut)?;
        Ok(Network { owners, lanes })
    }

    /// The owners, in the order of their numbers.
    pub fn owners(&self) -> &[Owner<'q>] {
        &self.owners
    }

    /// Takes a turn. Answers whether something was done, or `Wrong` where the turn names no owner,
    /// or one owner twice.
    pub fn take(&mut self, turn: Turn) -> Result<bool, Failure> {
        match turn {
            Turn::Load(number) => match self.owners.get_mut(number as usize) {
                Some(owner) => load(owner),
                None => Err(Failure::Wrong),
            },
            Turn::Post(from, to) => self.post_at(self.place_of(from, to), from),
            Turn::Take(from, to) => self.take_at(self.place_of(from, to), to),
        }
    }

    /// Takes the turns in their order, then loads, posts and takes until nothing is left to do.
    pub fn drive(&mut self, alloc: Global, turns: &[Turn]) -> Result<(), Failure> {
        self.take_all(turns)?;
        for owner in &mut self.owners {
            load(owner)?;
        }
        let round = whole_round(alloc, &self.lanes)?;
        for _ in 0..1000 {
            if !self.take_all(&round)? {
                return Ok(());
            }
        }
        Err(Failure::Unsettled)
    }

    // The place of the lane from one owner to another, or one past all lanes.
    fn place_of(&self, from: u16, to: u16) -> usize {
        for (place, lane) in self.lanes.iter().enumerate() {
            if lane.from == from && lane.to == to {
                return place;
            }
        }
        self.lanes.len()
    }

    // Posts through a lane, for the owner of that number.
    fn post_at(&mut self, place: usize, number: u16) -> Result<bool, Failure> {
        match (
            self.owners.get_mut(number as usize),
            self.lanes.get_mut(place),
        ) {
            (Some(owner), Some(lane)) => post(owner, lane),
            _ => Err(Failure::Wrong),
        }
    }

    // Takes one growth out of a lane, for the owner of that number.
    fn take_at(&mut self, place: usize, number: u16) -> Result<bool, Failure> {
        match (
            self.owners.get_mut(number as usize),
            self.lanes.get_mut(place),
        ) {
            (Some(owner), Some(lane)) => take(owner, lane),
            _ => Err(Failure::Wrong),
        }
    }

    // Takes the turns in their order. Answers whether one did something.
    fn take_all(&mut self, turns: &[Turn]) -> Result<bool, Failure> {
        let mut moved = false;
        for turn in turns {
            let did = self.take(*turn)?;
            moved |= did;
        }
        Ok(moved)
    }
}
