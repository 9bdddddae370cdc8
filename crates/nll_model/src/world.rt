//! A world: the owners of a cut, what is under way between them, and the balance.

ghost use Rattle.std.specs.Prelude.{◌≡◌, ◌≢◌, ◌↔◌, ℕ, true, false, length, IfOk, IfErr, Err};
ghost use Rattle.std.specs.Prelude.{Some, IfSome};
ghost use Rattle.nll_core.specs.Values.{IsHeld, IsShaped};
ghost use Rattle.nll_owner.specs.Tables.{AreTables};
ghost use Rattle.fixpoint.specs.declared.error.PartError.TheVariants.{Memory as memory, Broken};
ghost use Rattle.nll_model.specs.State.{World, IsNewWorld};
ghost use Rattle.nll_model.specs.Events.{IsAnswerOf, IsPossible};
ghost use Rattle.nll_model.specs.Soundness.{IsLawful, IsOrderly, LogSays};
ghost use Rattle.nll_model.specs.declared.error.ModelError.TheVariants.{NotNow, Owner};

use crate::error::ModelError;
use crate::event::Event;
use crate::outcome::Step;
use crate::seat::Seat;
use crate::state::State;
use nll_core::Values;
use nll_cut::Cut;
use nll_owner::{OwnerError, Tables};
use nll_problem::Problem;
use nll_sets::Memory;
use std::alloc::Global;
use std::marker::Model;

/// The owners of a cut, what is under way between them, and the balance: how much is under way.
/// Events change it one by one, each as a single step.
///
/// # Cost
/// The memory of the owners, and of three short lists for each pair of them. An event costs what it
/// changes: a load and a take what the owner does; these, an owe and a leave also a look at each of
/// its lanes (not proved).
#[derive(Drop)]
pub struct World<'q> {
    problem: &'q Problem,
    cut: &'q Cut,
    state: State<'q>,
    // Whether memory was refused. Nothing is known of the state then.
    broken: bool,
}

impl<'q> Model for World<'q> {
    ghost use Rattle.std.specs.Prelude.{◌≡◌, false};
    ghost use Rattle.nll_model.specs.State as spec;
    ghost use Rattle.nll_model.specs.Soundness.{IsLawful, IsOrderly};

    ghost Value = { spec.World };

    ghost view = { λ w. record {
      problem = w.problem.now;
      cut = w.cut.now;
      state = w.state;
      broken = w.broken;
    } };

    ghost invariant = { λ w. IsOrderly w.problem.now w.cut.now w.state
        × (w.broken ≡ false → IsLawful w.problem.now w.cut.now w.state) };
}

impl<'q> World<'q> {
    /// A world in which no owner has done anything yet; each owner has tables of its own.
    ///
    /// # Errors
    /// - `Memory`.
    pub fn new(alloc: Global, problem: &'q Problem, cut: &'q Cut) -> Result<World<'q>, Memory>
        requires { length cut.now.list ≡ problem.now.regions }
        ensures new { IfOk result (IsNewWorld problem.now cut.now) }
        ensures lawful { IfOk result (λ w. IsLawful problem.now cut.now w.state) }
    {
        World::of_tables(alloc, problem, cut, None)
    }

    /// A world in which no owner has done anything yet, on tables that it borrows.
    ///
    /// # Errors
    /// - `Memory`.
    pub fn on(
        alloc: Global,
        problem: &'q Problem,
        cut: &'q Cut,
        tables: &'q Tables,
    ) -> Result<World<'q>, Memory>
        requires cut { length cut.now.list ≡ problem.now.regions }
        requires tables { AreTables problem.now cut.now tables.now }
        ensures new { IfOk result (IsNewWorld problem.now cut.now) }
        ensures lawful { IfOk result (λ w. IsLawful problem.now cut.now w.state) }
    {
        World::of_tables(alloc, problem, cut, Some(tables))
    }

    // A world in which no owner has done anything yet, on these tables. If there are none, each
    // owner has tables of its own.
    fn of_tables(
        alloc: Global,
        problem: &'q Problem,
        cut: &'q Cut,
        tables: Option<&'q Tables>,
    ) -> Result<World<'q>, Memory>
        requires cut { length cut.now.list ≡ problem.now.regions }
        requires tables { IfSome tables (λ t. AreTables problem.now cut.now t.now) }
        ensures new { IfOk result (IsNewWorld problem.now cut.now) }
        ensures lawful { IfOk result (λ w. IsLawful problem.now cut.now w.state) }
    {
        let owners = cut.owners();
        // Clause call: the problem is sound.
        let _regions = problem.regions();
        let mut seats = Vec::new(alloc);
        for me in 0..owners {
            let owner = match tables {
                Some(lent) => nll_owner::Owner::on(alloc, problem, cut, lent, me)?,
                None => nll_owner::Owner::new(alloc, problem, cut, me)?,
            };
            let seat = Seat::of(alloc, owner, owners)?;
            seats.push(seat)?;
        }
        Ok(World {
            problem,
            cut,
            state: State {
                seats,
                balance: owners as u64,
            },
            broken: false,
        })
    }

    /// Does what an event does, where it is possible.
    ///
    /// # Errors
    /// - `NotNow`: the event isn't possible; nothing has changed.
    /// - `Owner(Memory)`: the world takes no more steps.
    /// - `Owner(Broken)`: an earlier step was refused; nothing has changed.
    pub fn step(&mut self, event: Event) -> Result<Step, ModelError>
        ensures others { self.new ≡ record self.old {
          state = self.new.state;
          broken = self.new.broken;
        } }
        ensures done { IfOk result (λ answer. (self.old.broken ≡ false)
            × IsAnswerOf self.old.state event (Some answer) self.new.state
            × (self.new.broken ≡ false)) }
        ensures not_now { (result ≡ Err NotNow)
            ↔ ((self.old.broken ≡ false) × (IsPossible self.old.state event → ⊥)) }
        ensures broken { (result ≡ Err (Owner Broken)) ↔ (self.old.broken ≡ true) }
        ensures refused { result ≡ Err (Owner memory) → self.new.broken ≡ true }
        ensures unchanged { IfErr result (λ error. error ≢ Owner memory → self.new ≡ self.old) }
        ensures lawful { self.new.broken ≡ false
            → IsLawful self.new.problem self.new.cut self.new.state }
        ensures orderly { IsOrderly self.new.problem self.new.cut self.new.state }
    {
        if self.broken {
            return Err(ModelError::Owner(OwnerError::Broken));
        }
        if !self.state.is_possible(event) {
            return Err(ModelError::NotNow);
        }
        let result = self.state.apply(event);
        self.broken = result.is_err();
        match result {
            Ok(answer) => Ok(answer),
            Err(error) => Err(ModelError::Owner(error)),
        }
    }

    /// The seats of the owners, in the order of their numbers.
    pub fn seats(&self) -> &[Seat<'q>]
        ensures seats { result.now ≡ self.now.state.seats }
        ensures lawful { self.now.broken ≡ false
            → IsLawful self.now.problem self.now.cut self.now.state }
        ensures orderly { IsOrderly self.now.problem self.now.cut self.now.state }
    {
        &self.state.seats
    }

    /// The balance: how much is under way.
    pub fn balance(&self) -> u64
        ensures balance { result ≡ self.now.state.balance }
        ensures lawful { self.now.broken ≡ false
            → IsLawful self.now.problem self.now.cut self.now.state }
    {
        self.state.balance
    }

    /// Whether a step was refused memory. The world takes no more steps then.
    pub fn is_broken(&self) -> bool
        ensures { result ≡ self.now.broken }
    {
        self.broken
    }

    /// The values that the owners' logs say.
    ///
    /// # Errors
    /// - `Memory`.
    pub fn values(&self, alloc: Global) -> Result<Values, Memory>
        requires { self.now.broken ≡ false }
        ensures shaped { IfOk result (λ values. IsShaped self.now.problem values) }
        ensures held { IfOk result (λ values. (r e : ℕ)
            → IsHeld values r e ↔ LogSays self.now.cut self.now.state r e) }
    {
        let values = self.state.values(alloc, self.problem, self.cut)?;
        Ok(values)
    }
}
