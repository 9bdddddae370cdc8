//! The lane from one owner to another.

ghost use Rattle.std.specs.Prelude.{◌≡◌, ◌≢◌, ℕ, ◌<◌, ◌++◌, false, length, drop, List, []};
ghost use Rattle.std.specs.Prelude.{◌∷◌, OnOk, IfOk, IfSome, IfNone};
ghost use Rattle.nll_mail.specs.declared.growth.Growth.{Growth};
ghost use Rattle.nll_owner.specs.Owner.{IsSoundOwner, part_for, given_to};
ghost use Rattle.nll_model.specs.State.{empty_lane};
ghost use Rattle.nll_model.specs.Events.{owed_lane};
ghost use Rattle.nll_model.specs.Working.{PushesOwed};

use nll_mail::Growth;
use nll_owner::Owner;
use nll_sets::Memory;
use std::alloc::Global;
use std::collections::VecDeque;
use std::marker::Model;

/// The lane from one owner to another: the growths on their way, the oldest first.
#[derive(Drop)]
pub struct Lane {
    fresh: VecDeque<Growth>,
    out: VecDeque<Growth>,
    boxed: VecDeque<Growth>,
}

impl Model for Lane {
    ghost use Rattle.nll_model.specs.State as spec;

    ghost Value = { spec.Lane };

    ghost view = { λ l. record {
      fresh = l.fresh.items;
      out = l.out.items;
      box = l.boxed.items;
    } };
}

impl Lane {
    // An empty lane.
    pub(crate) fn new(alloc: Global) -> Lane
        ensures { result ≡ empty_lane }
    {
        Lane {
            fresh: VecDeque::new(alloc),
            out: VecDeque::new(alloc),
            boxed: VecDeque::new(alloc),
        }
    }

    /// The growths that aren't owed for yet.
    pub fn fresh(&self) -> &VecDeque<Growth>
        ensures { result.now.items ≡ self.now.fresh }
    {
        &self.fresh
    }

    /// The growths that are owed for and not yet in the box.
    pub fn out(&self) -> &VecDeque<Growth>
        ensures { result.now.items ≡ self.now.out }
    {
        &self.out
    }

    /// The growths in the box.
    pub fn boxed(&self) -> &VecDeque<Growth>
        ensures { result.now.items ≡ self.now.box }
    {
        &self.boxed
    }

    // Appends the part of the log that another owner reads and that wasn't given to it yet.
    pub(crate) fn collect(&mut self, owner: &mut Owner<'_>, to: u16) -> Result<(), Memory>
        requires sound { IsSoundOwner owner.old }
        requires whole { owner.old.broken ≡ false }
        requires to { to < owner.old.cut.owners }
        ensures fresh { OnOk result (self.new ≡ record self.old {
          fresh = self.old.fresh ++ drop (given_to owner.old to) (part_for owner.old to);
        }) }
        ensures given { OnOk result (given_to owner.new to ≡ length (part_for owner.old to)) }
        ensures others { owner.new ≡ record owner.old { given = owner.new.given } }
        ensures other_given { (j : ℕ) → j ≢ to → given_to owner.new j ≡ given_to owner.old j }
        ensures sound { IsSoundOwner owner.new }
    {
        while let Some(growth) = owner.outgoing(to) {
            self.fresh.push_back(growth)?;
        }
        Ok(())
    }

    // Makes what is fresh owed for. Returns how many growths that is.
    pub(crate) fn owe(&mut self) -> Result<u64, Memory>
        ensures lane { OnOk result (self.new ≡ owed_lane self.old) }
        ensures count { IfOk result (λ n. n ≡ length self.old.fresh) }
    {
        let count = self.fresh.len() as u64;
        self.out.append(&mut self.fresh)?;
        Ok(count)
    }

    // Moves the first growth that is owed for into the box. Returns whether there is one.
    pub(crate) fn push(&mut self) -> Result<bool, Memory>
        ensures { IfOk result (λ moved. PushesOwed moved self.old self.new) }
    {
        match self.out.pop_front() {
            Some(growth) => {
                self.boxed.push_back(growth)?;
                Ok(true)
            }
            None => Ok(false),
        }
    }

    // Takes the first growth out of the box.
    pub(crate) fn take(&mut self) -> Option<Growth>
        ensures some { IfSome result (λ g. (rest : List Growth)
            × (self.old.box ≡ g ∷ rest) × (self.new ≡ record self.old { box = rest })) }
        ensures none { IfNone result ((self.old.box ≡ []) × (self.new ≡ self.old)) }
    {
        self.boxed.pop_front()
    }
}
