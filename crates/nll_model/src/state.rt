//! The state of a world, and what each event does to it.

ghost use Rattle.std.specs.Prelude.{◌≡◌, ◌≢◌, ◌↔◌, ℕ, ◌<◌, length, Err, OnOk, OnErr, IfOk, IsTrue};
ghost use Rattle.nll_problem.specs.Problem.{Problem};
ghost use Rattle.nll_core.specs.Values.{IsHeld, IsShaped};
ghost use Rattle.nll_cut.specs.Partition.{Cut};
ghost use Rattle.nll_owner.specs.Logs.{IsCutOf};
ghost use Rattle.fixpoint.specs.declared.error.PartError.TheVariants.{Broken};
ghost use Rattle.nll_model.specs.State.{Seat, IsAt};
ghost use Rattle.nll_model.specs.Events.{Does, IsPossible};
ghost use Rattle.nll_model.specs.Soundness.{IsSoundState, IsOrderly, LogSays};
ghost use Rattle.nll_model.specs.declared.event.Event.TheVariants as events;
ghost use Rattle.nll_model.specs.declared.outcome.Step.TheVariants.{Done};

use crate::event::Event;
use crate::outcome::Step;
use crate::seat::{Item, Seat};
use nll_core::Values;
use nll_cut::Cut;
use nll_owner::OwnerError;
use nll_problem::{Problem, RegionId};
use nll_sets::Memory;
use std::alloc::Global;
use std::marker::Model;

/// The seats of all owners, and the balance.
#[derive(Drop)]
pub struct State<'q> {
    pub seats: Vec<Seat<'q>>,
    pub balance: u64,
}

impl<'q> Model for State<'q> {
    ghost use Rattle.nll_model.specs.State as spec;

    ghost Value = { spec.WorldState };

    ghost view = { λ w. record { seats = w.seats.items; balance = w.balance } };
}

impl<'q> State<'q> {
    /// The values that the logs say: of each region a copy of its owner's set.
    ///
    /// # Errors
    /// - `Memory`.
    pub fn values(&self, alloc: Global, problem: &Problem, cut: &Cut) -> Result<Values, Memory>
        requires cut { IsCutOf problem.now cut.now }
        requires sound { IsSoundState problem.now cut.now self.now }
        ensures shaped { IfOk result (λ values. IsShaped problem.now values) }
        ensures held { IfOk result (λ values. (r e : ℕ)
            → IsHeld values r e ↔ LogSays cut.now self.now r e) }
    {
        let mut sets = Vec::new(alloc);
        for number in 0..problem.regions() {
            let region = RegionId(number);
            let owner = self.seats[cut.owner_of(region) as usize].owner();
            sets.push(owner.set(region).copy()?)?;
        }
        Ok(Values::of_sets(sets))
    }

    /// Whether an event is possible.
    pub fn is_possible(&self, event: Event) -> bool
        requires { (q : Problem) × (c : Cut) × IsSoundState q c self.now }
        ensures { IsTrue result ↔ IsPossible self.now event }
    {
        match event {
            Event::Load(i) => self.can_load(i),
            Event::Take(i, j) => self.can_take(i, j),
            Event::Owe(i) => self.has_item(i, Item::Fresh),
            Event::Clear(i) => self.has_item(i, Item::Owed),
            Event::Push(i, j) => self.can_push(i, j),
            Event::Leave(i) => self.can_leave(i),
        }
    }

    /// Does what an event does.
    pub fn apply(&mut self, event: Event) -> Result<Step, OwnerError>
        requires sound { (q : Problem) × (c : Cut) × IsSoundState q c self.old }
        requires possible { IsPossible self.old event }
        ensures does { IfOk result (λ answer. Does self.old event answer self.new) }
        ensures whole { result ≡ Err Broken → ⊥ }
        ensures orderly { OnErr result ((q : Problem) (c : Cut)
            → IsOrderly q c self.old → IsOrderly q c self.new) }
    {
        match event {
            Event::Load(i) => self.load(i)?,
            Event::Take(i, j) => self.take(i, j)?,
            Event::Owe(i) => self.owe(i)?,
            Event::Clear(i) => self.clear(i),
            Event::Push(i, j) => self.push(i, j)?,
            Event::Leave(i) => return Ok(self.leave(i)),
        }
        Ok(Step::Done)
    }

    // ---- whether an event is possible

    // Whether an owner isn't loaded.
    fn can_load(&self, i: u16) -> bool
        ensures { IsTrue result ↔ IsPossible self.now (events.Load i) }
    {
        if i as usize >= self.seats.len() {
            return false;
        }
        !self.seats[i as usize].owner().is_loaded()
    }

    // Whether an owner can receive a growth of the box from another.
    fn can_take(&self, i: u16, j: u16) -> bool
        requires { (q : Problem) × (c : Cut) × IsSoundState q c self.now }
        ensures { IsTrue result ↔ IsPossible self.now (events.Take i j) }
    {
        if !self.are_two(i, j) || !self.seats[i as usize].is_free() {
            return false;
        }
        let lane = &self.seats[j as usize].lanes()[i as usize];
        !lane.boxed().is_empty()
    }

    // Whether an owner works on an item of this kind.
    fn has_item(&self, i: u16, item: Item) -> bool
        ensures { IsTrue result ↔ ((s : Seat) × IsAt self.now i s × (s.item ≡ item)) }
    {
        if i as usize >= self.seats.len() {
            return false;
        }
        self.seats[i as usize].item() == item
    }

    // Whether an owner has something to send to another.
    fn can_push(&self, i: u16, j: u16) -> bool
        requires { (q : Problem) × (c : Cut) × IsSoundState q c self.now }
        ensures { IsTrue result ↔ IsPossible self.now (events.Push i j) }
    {
        if !self.are_two(i, j) {
            return false;
        }
        let lane = &self.seats[i as usize].lanes()[j as usize];
        !lane.out().is_empty()
    }

    // Whether an owner may look at the balance.
    fn can_leave(&self, i: u16) -> bool
        ensures { IsTrue result ↔ IsPossible self.now (events.Leave i) }
    {
        if i as usize >= self.seats.len() {
            return false;
        }
        let seat = &self.seats[i as usize];
        if !seat.is_free() {
            return false;
        }
        seat.has_sent()
    }

    // Whether two numbers are those of two owners.
    fn are_two(&self, i: u16, j: u16) -> bool
        ensures { IsTrue result
            ↔ ((i ≢ j) × (i < length self.now.seats) × (j < length self.now.seats)) }
    {
        i != j && (i as usize) < self.seats.len() && (j as usize) < self.seats.len()
    }

    // ---- what an event does

    // Loads an owner.
    fn load(&mut self, i: u16) -> Result<(), OwnerError>
        requires sound { (q : Problem) × (c : Cut) × IsSoundState q c self.old }
        requires possible { IsPossible self.old (events.Load i) }
        ensures does { OnOk result (Does self.old (events.Load i) Done self.new) }
        ensures whole { result ≡ Err Broken → ⊥ }
        ensures orderly { OnErr result ((q : Problem) (c : Cut)
            → IsOrderly q c self.old → IsOrderly q c self.new) }
    {
        let owners = self.seats.len() as u16;
        self.seats[i as usize].load(owners)?;
        Ok(())
    }

    // Lets an owner receive the first growth of the box from another.
    fn take(&mut self, i: u16, j: u16) -> Result<(), OwnerError>
        requires sound { (q : Problem) × (c : Cut) × IsSoundState q c self.old }
        requires possible { IsPossible self.old (events.Take i j) }
        ensures does { OnOk result (Does self.old (events.Take i j) Done self.new) }
        ensures whole { result ≡ Err Broken → ⊥ }
        ensures orderly { OnErr result ((q : Problem) (c : Cut)
            → IsOrderly q c self.old → IsOrderly q c self.new) }
    {
        let owners = self.seats.len() as u16;
        match self.seats[j as usize].take(i) {
            Some(growth) => self.seats[i as usize].receive(owners, j, growth)?,
            None => unreachable!(),
        }
        Ok(())
    }

    // Adds what is fresh of an owner to the balance.
    fn owe(&mut self, i: u16) -> Result<(), Memory>
        requires sound { (q : Problem) × (c : Cut) × IsSoundState q c self.old }
        requires possible { IsPossible self.old (events.Owe i) }
        ensures does { OnOk result (Does self.old (events.Owe i) Done self.new) }
        ensures orderly { OnErr result ((q : Problem) (c : Cut)
            → IsOrderly q c self.old → IsOrderly q c self.new) }
    {
        let count = self.seats[i as usize].owe()?;
        self.balance += count;
        Ok(())
    }

    // Takes the item of an owner off the balance.
    fn clear(&mut self, i: u16)
        requires sound { (q : Problem) × (c : Cut) × IsSoundState q c self.old }
        requires possible { IsPossible self.old (events.Clear i) }
        ensures { Does self.old (events.Clear i) Done self.new }
    {
        self.seats[i as usize].clear();
        self.balance -= 1;
    }

    // Moves the next growth from one owner to another into the box.
    fn push(&mut self, i: u16, j: u16) -> Result<(), Memory>
        requires sound { (q : Problem) × (c : Cut) × IsSoundState q c self.old }
        requires possible { IsPossible self.old (events.Push i j) }
        ensures does { OnOk result (Does self.old (events.Push i j) Done self.new) }
        ensures orderly { OnErr result ((q : Problem) (c : Cut)
            → IsOrderly q c self.old → IsOrderly q c self.new) }
    {
        self.seats[i as usize].push(j)?;
        Ok(())
    }

    // Lets an owner look at the balance, and leave if it is 0.
    fn leave(&mut self, i: u16) -> Step
        requires possible { IsPossible self.old (events.Leave i) }
        ensures { Does self.old (events.Leave i) result self.new }
    {
        if self.balance == 0 {
            self.seats[i as usize].leave();
            Step::Quiet
        } else {
            Step::Open
        }
    }
}
