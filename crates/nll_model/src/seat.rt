//! The seat of an owner: the owner, what it works on, and its lanes.

ghost use Rattle.std.specs.Prelude.{◌≡◌, ◌↔◌, ℕ, ◌^◌, ◌<◌, true, false, length, replicate, []};
ghost use Rattle.std.specs.Prelude.{Err, OnOk, IfOk, IsTrue};
ghost use Rattle.nll_mail.specs.declared.growth.Growth.{Growth};
ghost use Rattle.nll_owner.specs.Owner.{IsSoundOwner, Passes, first_owner, with_growth};
ghost use Rattle.fixpoint.specs.declared.error.PartError.TheVariants.{Broken};
ghost use Rattle.nll_model.specs.State.{lane_to, with_lane, first_seat, empty_lane};
ghost use Rattle.nll_model.specs.Events.{TakesTurn, IsFreeOwner, HasSent, owed_seat, fresh_count};
ghost use Rattle.nll_model.specs.Working.{FillsLanes, PushesTo, TakesFrom};
ghost use Rattle.nll_model.specs.Working.{OwnerGoesOn, NoGrowth, IsGrowthFrom};
ghost use Rattle.nll_model.specs.declared.seat.Item.TheVariants.{Nothing};

use crate::lane::Lane;
use nll_mail::Growth;
use nll_owner::{Owner, OwnerError};
use nll_sets::Memory;
use std::alloc::Global;
use std::marker::Model;

/// What an owner works on.
#[derive(Clone, Copy, Debug, PartialEq, Eq)]
pub enum Item {
    /// Nothing.
    Nothing,
    /// Its load, or a growth that it received, for which it doesn't owe yet.
    Fresh,
    /// That item, once what it made the owner grow is owed for.
    Owed,
}

/// The seat of an owner: the owner, what it works on, whether it has left, and its lane to each
/// owner.
#[derive(Drop)]
pub struct Seat<'q> {
    owner: Owner<'q>,
    item: Item,
    left: bool,
    lanes: Vec<Lane>,
}

impl<'q> Model for Seat<'q> {
    ghost use Rattle.nll_model.specs.State as spec;

    ghost Value = { spec.Seat };

    ghost view = { λ s. record {
      owner = s.owner;
      item = s.item;
      left = s.left;
      lanes = s.lanes.items;
    } };
}

impl<'q> Seat<'q> {
    // The seat of an owner that has done nothing yet.
    pub(crate) fn of(alloc: Global, owner: Owner<'q>, owners: u16) -> Result<Seat<'q>, Memory>
        ensures { IfOk result (λ s. s ≡ record {
          owner = owner.entry;
          item = Nothing;
          left = false;
          lanes = replicate owners empty_lane;
        }) }
    {
        match empty_lanes(alloc, owners) {
            Ok(lanes) => Ok(Seat {
                owner,
                item: Item::Nothing,
                left: false,
                lanes,
            }),
            Err(error) => Err(error),
        }
    }

    /// The owner.
    pub fn owner(&self) -> &Owner<'q>
        ensures { result.now ≡ self.now.owner }
    {
        &self.owner
    }

    /// What the owner works on.
    pub fn item(&self) -> Item
        ensures { result ≡ self.now.item }
    {
        self.item
    }

    /// Whether the owner has left.
    pub fn has_left(&self) -> bool
        ensures { result ≡ self.now.left }
    {
        self.left
    }

    /// The lanes to the owners, in the order of their numbers. The lane to the owner itself is
    /// empty.
    pub fn lanes(&self) -> &[Lane]
        ensures { result.now ≡ self.now.lanes }
    {
        &self.lanes
    }

    // Whether the owner is loaded, works on nothing and hasn't left.
    pub(crate) fn is_free(&self) -> bool
        ensures { IsTrue result ↔ IsFreeOwner self.now }
    {
        if !self.owner.is_loaded() || self.left {
            return false;
        }
        self.item == Item::Nothing
    }

    // Whether nothing that is owed for waits to be sent.
    pub(crate) fn has_sent(&self) -> bool
        ensures { IsTrue result ↔ HasSent self.now }
    {
        for lane in &self.lanes {
            if !lane.out().is_empty() {
                return false;
            }
        }
        true
    }

    // ---- what events do

    // Loads the owner, and makes fresh all that it has for others.
    pub(crate) fn load(&mut self, owners: u16) -> Result<(), OwnerError>
        requires sound { IsSoundOwner self.old.owner }
        requires whole { self.old.owner.broken ≡ false }
        requires unloaded { self.old.owner.loaded ≡ false }
        requires owners { owners ≡ self.old.owner.cut.owners }
        requires lanes { length self.old.lanes ≡ owners }
        requires none_fresh { (j : ℕ) → (lane_to self.old j).fresh ≡ [] }
        ensures turns { OnOk result (TakesTurn self.old self.new) }
        ensures received { OnOk result (self.new.owner.received ≡ self.old.owner.received) }
        ensures whole { result ≡ Err Broken → ⊥ }
        ensures goes_on { OwnerGoesOn NoGrowth self.old.owner self.new.owner }
    {
        self.owner.load()?;
        self.fill(owners)?;
        self.item = Item::Fresh;
        Ok(())
    }

    // Lets the owner receive a growth, and makes fresh all that it has for others.
    pub(crate) fn receive(
        &mut self,
        owners: u16,
        from: u16,
        growth: Growth,
    ) -> Result<(), OwnerError>
        requires sound { IsSoundOwner self.old.owner }
        requires whole { self.old.owner.broken ≡ false }
        requires loaded { self.old.owner.loaded ≡ true }
        requires passes { Passes
            self.old.owner.problem self.old.owner.cut self.old.owner.me from growth }
        requires owners { owners ≡ self.old.owner.cut.owners }
        requires lanes { length self.old.lanes ≡ owners }
        requires none_fresh { (j : ℕ) → (lane_to self.old j).fresh ≡ [] }
        ensures turns { OnOk result (TakesTurn self.old self.new) }
        ensures received { OnOk result
            (self.new.owner.received ≡ with_growth self.old.owner.received from growth) }
        ensures whole { result ≡ Err Broken → ⊥ }
        ensures goes_on { OwnerGoesOn (IsGrowthFrom from growth) self.old.owner self.new.owner }
    {
        self.owner.receive(from, growth)?;
        self.fill(owners)?;
        self.item = Item::Fresh;
        Ok(())
    }

    // Makes fresh all that the owner has for others.
    fn fill(&mut self, owners: u16) -> Result<(), Memory>
        requires sound { IsSoundOwner self.old.owner }
        requires whole { self.old.owner.broken ≡ false }
        requires owners { owners ≡ self.old.owner.cut.owners }
        requires lanes { length self.old.lanes ≡ owners }
        ensures fills { OnOk result (FillsLanes self.old self.new owners) }
        ensures owner { self.new.owner ≡ record self.old.owner { given = self.new.owner.given } }
        ensures sound { IsSoundOwner self.new.owner }
    {
        for to in 0..owners {
            self.lanes[to as usize].collect(&mut self.owner, to)?;
        }
        Ok(())
    }

    // Takes the first growth out of the box for another owner.
    pub(crate) fn take(&mut self, to: u16) -> Option<Growth>
        requires { to < length self.old.lanes }
        ensures { TakesFrom (lane_to self.old to) result
            (λ lane. self.new ≡ with_lane self.old to lane) }
    {
        self.lanes[to as usize].take()
    }

    // Makes what is fresh owed for. Returns how many growths that is.
    pub(crate) fn owe(&mut self) -> Result<u64, Memory>
        requires { fresh_count self.old < 2 ^ 64 }
        ensures seat { OnOk result (self.new ≡ owed_seat self.old) }
        ensures count { IfOk result (λ n. n ≡ fresh_count self.old) }
        ensures owner { self.new.owner ≡ self.old.owner }
    {
        let mut count = 0u64;
        for to in 0..self.lanes.len() {
            count += self.lanes[to].owe()?;
        }
        self.item = Item::Owed;
        Ok(count)
    }

    // Ends the owner's item.
    pub(crate) fn clear(&mut self)
        ensures { self.new ≡ record self.old { item = Nothing } }
    {
        self.item = Item::Nothing;
    }

    // Moves the first growth that is owed for into the box for another owner. Returns whether there
    // is one.
    pub(crate) fn push(&mut self, to: u16) -> Result<bool, Memory>
        requires { to < length self.old.lanes }
        ensures pushes { IfOk result (λ moved. PushesTo moved to self.old self.new) }
        ensures owner { self.new.owner ≡ self.old.owner }
    {
        self.lanes[to as usize].push()
    }

    // The owner leaves.
    pub(crate) fn leave(&mut self)
        ensures { self.new ≡ record self.old { left = true } }
    {
        self.left = true;
    }
}

// This many empty lanes.
fn empty_lanes(alloc: Global, count: u16) -> Result<Vec<Lane>, Memory>
    ensures { IfOk result (λ lanes. lanes.items ≡ replicate count empty_lane) }
{
    let mut lanes = Vec::new(alloc);
    for _ in 0..count {
        lanes.push(Lane::new(alloc))?;
    }
    Ok(lanes)
}
