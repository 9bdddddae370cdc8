//! An owner of regions.

ghost use Rattle.std.specs.Prelude.{◌≡◌, ◌⊎◌, ◌↔◌, ◌+◌, ◌<◌, ◌≤◌, ◌^◌, true, false, max, Some, Err};
ghost use Rattle.std.specs.Prelude.{length, slice_get, slice_set, Contains, IsTrue, IfOk, OnOk, OnErr};
ghost use Rattle.std.specs.Prelude.{IfSome, IfNone, ℕ, min, ◌-◌};
ghost use Rattle.std.specs.List.{sum, sum_by};
ghost use Rattle.nll_problem.specs.Graph.{element_count};
ghost use Rattle.nll_problem.specs.Limits.{most_rank};
ghost use Rattle.nll_core.specs.Search.{IsIn};
ghost use Rattle.nll_cut.specs.Partition.{owner_of};
ghost use Rattle.nll_mail.specs.declared.growth.Growth.{Growth};
ghost use Rattle.nll_owner.specs.Holding.{AreValuesOf};
ghost use Rattle.nll_owner.specs.Logs.{IsPrefix, IsTold};
ghost use Rattle.nll_owner.specs.Owner.{IsSoundOwner, IsDone, IsReadyOwner, Has, Passes, part_for};
ghost use Rattle.nll_owner.specs.Owner.{given_to};
ghost use Rattle.nll_owner.specs.Owner.{received_from, with_growth, with_growths, GotBeginning};
ghost use Rattle.nll_owner.specs.Owner.{first_owner};
ghost use Rattle.nll_owner.specs.Held.{held};
ghost use Rattle.nll_owner.specs.Tables.{AreTables};
ghost use Rattle.nll_owner.specs.Following.{IsFollowing, Nothing};
ghost use Rattle.nll_owner.specs.Outboxes.{AreAllQueued};
ghost use Rattle.fixpoint.specs.declared.error.PartError.TheVariants.{Broken};

use crate::calls::{load_all, parts_of, receive_and_queue};
use crate::follow_up::Following;
use crate::holding::Holding;
use crate::knowledge::Knowledge;
use crate::outboxes::Outboxes;
use crate::tables::{HeldTables, Tables};
use fixpoint::PartError;
use nll_cut::Cut;
use nll_mail::Growth;
use nll_problem::{Problem, RegionId};
use nll_sets::{Element, Memory, RunSet};
use std::alloc::Global;
use std::marker::Model;

/// How many growths an owner has grown, given and received. A number that is too large for its type
/// is the largest of the type.
#[derive(Clone, Copy, Debug, PartialEq, Eq)]
pub struct Counts {
    pub grown: u64,
    pub given: u64,
    pub received: u64,
}

/// An owner of some regions of a problem. It keeps their values, and copies of the regions that it
/// reads; it writes down each growth of its own regions, and gives each other owner the growths of
/// the regions that this one reads.
///
/// # Cost
/// Besides borrowed tables: what the regions that it owns or reads hold, in runs, some 75 bytes for
/// each of these regions, two for each region of the problem, 16 bytes for each growth of its log
/// and of what it received, and a link for each pair of an own region and another one that it
/// reads: 24 bytes if more than one reads the same region, and some 100 more once the link has
/// reached something (not proved).
///
/// # Source
/// RFC 2094, "Solving constraints"; that the regions are assigned to owners is project's choice.
#[derive(Drop)]
pub struct Owner<'q> {
    tables: HeldTables<'q>,
    knowledge: Knowledge<'q>,
    // Nothing is known of these two once a call was refused.
    following: Following,
    outboxes: Outboxes,
}

impl<'q> Model for Owner<'q> {
    ghost use Rattle.std.specs.Prelude.{◌≡◌, false};
    ghost use Rattle.nll_owner.specs.Owner as spec;
    ghost use Rattle.nll_owner.specs.Tables.{AreTables};
    ghost use Rattle.nll_owner.specs.Held.{held};
    ghost use Rattle.nll_owner.specs.Following.{IsFollowing, Nothing};
    ghost use Rattle.nll_owner.specs.Outboxes.{AreAllQueued};

    ghost Value = { spec.Owner };

    ghost view = { λ o. o.knowledge };

    ghost invariant = { λ o. spec.IsSoundOwner o.knowledge
        × AreTables o.knowledge.problem o.knowledge.cut (held o.tables)
        × (o.knowledge.broken ≡ false → IsFollowing Nothing o.knowledge o.following
        × AreAllQueued o.knowledge o.outboxes) };
}

impl<'q> Owner<'q> {
    /// An owner that has done nothing yet, with tables of its own.
    ///
    /// # Errors
    /// - `Memory`.
    ///
    /// # Cost
    /// The cost of the tables, and that of an owner on borrowed ones (not proved).
    pub fn new(
        alloc: Global,
        problem: &'q Problem,
        cut: &'q Cut,
        me: u16,
    ) -> Result<Owner<'q>, Memory>
        requires cut { length cut.now.list ≡ problem.now.regions }
        requires me { me < cut.now.owners }
        ensures { IfOk result (λ o. o ≡ first_owner problem.now cut.now me) }
    {
        match Tables::of(alloc, problem, cut) {
            Ok(tables) => Owner::of_tables(alloc, problem, cut, HeldTables::Own(tables), me),
            Err(error) => Err(error),
        }
    }

    /// An owner that has done nothing yet, on tables that it borrows.
    ///
    /// # Errors
    /// - `Memory`.
    pub fn on(
        alloc: Global,
        problem: &'q Problem,
        cut: &'q Cut,
        tables: &'q Tables,
        me: u16,
    ) -> Result<Owner<'q>, Memory>
        requires cut { length cut.now.list ≡ problem.now.regions }
        requires tables { AreTables problem.now cut.now tables.now }
        requires me { me < cut.now.owners }
        ensures { IfOk result (λ o. o ≡ first_owner problem.now cut.now me) }
    {
        Owner::of_tables(alloc, problem, cut, HeldTables::Lent(tables), me)
    }

    // An owner that has done nothing yet, on these tables.
    fn of_tables(
        alloc: Global,
        problem: &'q Problem,
        cut: &'q Cut,
        tables: HeldTables<'q>,
        me: u16,
    ) -> Result<Owner<'q>, Memory>
        requires cut { length cut.now.list ≡ problem.now.regions }
        requires tables { AreTables problem.now cut.now (held tables) }
        requires me { me < cut.now.owners }
        ensures { IfOk result (λ o. o ≡ first_owner problem.now cut.now me) }
    {
        match parts_of(alloc, problem, cut, tables.get(), me) {
            Ok((knowledge, following, outboxes)) => Ok(Owner {
                tables,
                knowledge,
                following,
                outboxes,
            }),
            Err(error) => Err(error),
        }
    }

    /// Enters the base elements, and grows until nothing is left to do.
    ///
    /// # Errors
    /// - `Broken`: an earlier call was refused; nothing has changed.
    /// - `Memory`: the log may have grown.
    pub fn load(&mut self) -> Result<(), PartError>
        requires { self.old.broken ≡ false → self.old.loaded ≡ false }
        ensures begins { IsPrefix self.old.log self.new.log }
        ensures others { self.new ≡ record self.old {
          log = self.new.log;
          clock = self.new.clock;
          loaded = self.new.loaded;
          broken = self.new.broken;
        } }
        ensures done { OnOk result (IsDone self.new) }
        ensures ok { OnOk result
            ((self.old.broken ≡ false) × (self.new.loaded ≡ true) × (self.new.broken ≡ false)) }
        ensures err { OnErr result (self.new.broken ≡ true) }
        ensures broken { (result ≡ Err Broken) ↔ (self.old.broken ≡ true) }
        ensures unchanged { self.old.broken ≡ true → self.new ≡ self.old }
        ensures sound { IsSoundOwner self.new }
    {
        if self.knowledge.broken {
            return Err(PartError::Broken);
        }
        let result = load_all(
            &mut self.knowledge,
            &mut self.following,
            &mut self.outboxes,
            self.tables.get(),
        );
        self.knowledge.mark(result.is_ok(), result.is_err());
        result
    }

    /// Enters a growth of another owner into the copy of its region, and grows until nothing is
    /// left to do. The owner is loaded, or a call of it was refused.
    ///
    /// # Errors
    /// - `Broken`: an earlier call was refused; nothing has changed.
    /// - `Memory`: the growth may have been received, and the log may have grown.
    pub fn receive(&mut self, from: u16, growth: Growth) -> Result<(), PartError>
        requires ready { IsReadyOwner self.old }
        requires passes { Passes self.old.problem self.old.cut self.old.me from growth }
        ensures begins { IsPrefix self.old.log self.new.log }
        ensures others { self.new ≡ record self.old {
          log = self.new.log;
          received = self.new.received;
          clock = self.new.clock;
          broken = self.new.broken;
        } }
        ensures received { OnOk result
            (self.new.received ≡ with_growth self.old.received from growth) }
        ensures perhaps { (self.new.received ≡ self.old.received)
            ⊎ (self.new.received ≡ with_growth self.old.received from growth) }
        ensures done { OnOk result (IsDone self.new) }
        ensures ok { OnOk result ((self.old.broken ≡ false) × (self.new.broken ≡ false)) }
        ensures err { OnErr result (self.new.broken ≡ true) }
        ensures broken { (result ≡ Err Broken) ↔ (self.old.broken ≡ true) }
        ensures unchanged { self.old.broken ≡ true → self.new ≡ self.old }
        ensures sound { IsSoundOwner self.new }
    {
        self.receive_all(from, &[growth])
    }

    /// Receives growths of another owner, in the order in which it sent them, and follows up all of
    /// them together. Nothing is left to do then. The owner is loaded, or a call of it was refused.
    ///
    /// # Errors
    /// - `Broken`: an earlier call was refused; nothing has changed.
    /// - `Memory`: a prefix of the growths may have been received, and the log may have grown.
    ///
    /// # Cost
    /// A sort of the runs that the growths say; for each region of theirs a look at each link, and
    /// for each run what it newly reaches; the same for what the own regions gain, again and again
    /// (not proved).
    pub fn receive_all(&mut self, from: u16, growths: &[Growth]) -> Result<(), PartError>
        requires ready { IsReadyOwner self.old }
        requires passes { let o = self.old in (g : Growth) → Contains growths.now g
            → Passes o.problem o.cut o.me from g }
        ensures begins { IsPrefix self.old.log self.new.log }
        ensures others { self.new ≡ record self.old {
          log = self.new.log;
          received = self.new.received;
          clock = self.new.clock;
          broken = self.new.broken;
        } }
        ensures received { OnOk result
            (self.new.received ≡ with_growths self.old.received from growths.now) }
        ensures perhaps { GotBeginning self.old.received from growths.now self.new.received }
        ensures done { OnOk result (IsDone self.new) }
        ensures ok { OnOk result ((self.old.broken ≡ false) × (self.new.broken ≡ false)) }
        ensures err { OnErr result (self.new.broken ≡ true) }
        ensures broken { (result ≡ Err Broken) ↔ (self.old.broken ≡ true) }
        ensures unchanged { self.old.broken ≡ true → self.new ≡ self.old }
        ensures sound { IsSoundOwner self.new }
    {
        if self.knowledge.broken {
            return Err(PartError::Broken);
        }
        let loaded = self.knowledge.loaded;
        let result = receive_and_queue(
            &mut self.knowledge,
            &mut self.following,
            &mut self.outboxes,
            self.tables.get(),
            from,
            growths,
        );
        self.knowledge.mark(loaded, result.is_err());
        result
    }

    /// Whether the owner may receive a growth from another one: whether it is of a region of that
    /// owner which this one reads, and of an element of the problem.
    pub fn passes(&self, from: u16, growth: &Growth) -> bool
        ensures { IsTrue result ↔ Passes self.now.problem self.now.cut self.now.me from growth.now }
    {
        self.knowledge.passes(from, growth)
    }

    /// Whether the owner may receive all of these growths from another one.
    pub fn passes_all(&self, from: u16, growths: &[Growth]) -> bool
        ensures { let o = self.now in IsTrue result
            ↔ ((g : Growth) → Contains growths.now g → Passes o.problem o.cut o.me from g) }
    {
        for growth in growths {
            if !self.passes(from, growth) {
                return false;
            }
        }
        true
    }

    /// The problem whose regions are assigned to owners.
    pub fn problem(&self) -> &'q Problem
        ensures { result.now ≡ self.now.problem }
    {
        self.knowledge.problem
    }

    /// How many owners there are.
    pub fn owners(&self) -> u16
        ensures value { result ≡ self.now.cut.owners }
        ensures sound { IsSoundOwner self.now }
    {
        self.knowledge.cut.owners()
    }

    /// The number of this owner.
    pub fn me(&self) -> u16
        ensures value { result ≡ self.now.me }
        ensures sound { IsSoundOwner self.now }
    {
        self.knowledge.me
    }

    /// Whether the owner was loaded.
    pub fn is_loaded(&self) -> bool
        ensures { result ≡ self.now.loaded }
    {
        self.knowledge.loaded
    }

    /// Whether a call of the owner was refused.
    pub fn is_broken(&self) -> bool
        ensures { result ≡ self.now.broken }
    {
        self.knowledge.broken
    }

    /// The next growth of the part of the log that another owner reads; this call gives it. None if
    /// all of it was given, if `to` is no other owner, and after an error.
    pub fn outgoing(&mut self, to: u16) -> Option<Growth>
        ensures some { IfSome result (λ growth. (self.old.broken ≡ false)
            × (slice_get (part_for self.old to) (given_to self.old to) ≡ Some growth)
            × (self.new ≡ record self.old {
              given = slice_set self.old.given to (given_to self.old to + 1);
            })) }
        ensures none { IfNone result ((self.new ≡ self.old)
            × (self.old.broken ≡ false → to < self.old.cut.owners
            → given_to self.old to ≡ length (part_for self.old to))) }
        ensures sound { IsSoundOwner self.new }
    {
        if self.knowledge.broken {
            return None;
        }
        let place = self.outboxes.take(to)?;
        Some(self.knowledge.give(to, place))
    }

    /// The growth that `outgoing` gives next. None if that gives none.
    pub fn next_for(&self, to: u16) -> Option<Growth>
        ensures some { IfSome result (λ growth. (self.now.broken ≡ false)
            × (slice_get (part_for self.now to) (given_to self.now to) ≡ Some growth)) }
        ensures none { IfNone result (self.now.broken ≡ false → to < self.now.cut.owners
            → given_to self.now to ≡ length (part_for self.now to)) }
        ensures sound { IsSoundOwner self.now }
    {
        if self.knowledge.broken {
            return None;
        }
        let place = self.outboxes.first(to)?;
        Some(self.knowledge.entries()[place])
    }

    /// How many growths of the part of the log that another owner reads weren't given; 0 if `to` is
    /// no other owner, and after an error.
    pub fn unsent(&self, to: u16) -> u64
        ensures count { self.now.broken ≡ false → to < self.now.cut.owners
            → given_to self.now to + result ≡ length (part_for self.now to) }
        ensures past { self.now.cut.owners ≤ to → result ≡ 0 }
        ensures broken { self.now.broken ≡ true → result ≡ 0 }
        ensures sound { IsSoundOwner self.now }
    {
        if self.knowledge.broken {
            return 0;
        }
        self.outboxes.len(to)
    }

    /// Whether the value of an own region, or the copy of a region that is read, has an element. It
    /// is false for any other region, and for numbers that the problem doesn't have.
    ///
    /// # Cost
    /// A search among the runs of the region's set (not proved).
    pub fn has(&self, region: RegionId, element: Element) -> bool
        ensures { IsTrue result ↔ Has self.now region element }
    {
        self.knowledge.has(region, element)
    }

    /// How many growths there were.
    pub fn counts(&self) -> Counts
        ensures grown { result.grown ≡ length self.now.log }
        ensures given { result.given ≡ sum self.now.given }
        ensures received { result.received ≡ min (sum_by length self.now.received) (2 ^ 64 - 1) }
    {
        Counts {
            grown: self.knowledge.entries().len() as u64,
            given: self.knowledge.given_count(),
            received: self.knowledge.received_count(),
        }
    }

    /// All growths of the own regions so far, in the order of their ranks.
    pub fn log(&self) -> &[Growth]
        ensures log { result.now ≡ self.now.log }
        ensures short { length result.now < 2 ^ 37 }
        ensures ranks { (g : Growth) → Contains result.now g → g.rank ≤ most_rank }
        ensures sound { IsSoundOwner self.now }
    {
        self.knowledge.entries()
    }

    /// The value of an own region.
    pub fn set(&self, region: RegionId) -> &RunSet
        requires region { region < self.now.problem.regions }
        requires own { owner_of self.now.cut region ≡ self.now.me }
        ensures width { length result.now ≡ element_count self.now.problem.graph }
        ensures told { (x : ℕ) → IsIn result.now x ↔ IsTold self.now.log region x }
    {
        self.knowledge.set(self.knowledge.slot(region))
    }

    /// Returns the log, and the values of the own regions. Takes no memory.
    ///
    /// # Cost
    /// A look at each region that the owner holds (not proved).
    pub fn into_parts(self, alloc: Global) -> (Vec<Growth>, Holding)
        ensures log { result.0.items ≡ self.entry.log }
        ensures values { let o = self.entry in AreValuesOf o.problem o.cut o.me o.log result.1 }
    {
        let Owner { knowledge, .. } = self;
        knowledge.into_parts(alloc)
    }

    /// What was received from an owner, in the order of receipt; nothing if it is no other owner.
    pub fn received(&self, from: u16) -> &[Growth]
        ensures received { result.now ≡ received_from self.now from }
        ensures sound { IsSoundOwner self.now }
    {
        let knowledge = &self.knowledge;
        if from as usize >= knowledge.received.len() {
            return &knowledge.log[..0];
        }
        &knowledge.received[from as usize]
    }
}
