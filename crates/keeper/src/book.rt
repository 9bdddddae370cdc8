//! What a part writes down: its log, and what it received and gave.

ghost use Rattle.std.specs.Prelude.{◌≡◌, ◌+◌, ◌<◌, ◌≤◌, false, IsTrue, length};
ghost use Rattle.std.specs.Prelude.{[], map, replicate};
ghost use Rattle.std.specs.declared.vec.Vec.{Vec};
ghost use Rattle.std.specs.Prelude.{OnOk, OnErr, IfOk, slice_set};
ghost use Rattle.fixpoint.specs.State.{IsSoundPart, Passes, first_state, part_for, given_to};
ghost use Rattle.fixpoint.specs.Limits.{most_growths};
ghost use Rattle.keeper.specs.Engine.{MayEnter, with_fact};
ghost use Rattle.keeper.specs.Keeping.{GrowsBy, has, with_heard};

use crate::engine::Engine;
use nll_sets::Memory;
use std::alloc::Global;
use std::marker::Model;

/// The log of a part, and what it received and gave. Contracts see it as the part.
///
/// # Shape
/// `received` and `given` have an entry for each owner: what it sent, and how much of its part of
/// the log was given to it.
#[derive(Drop)]
pub struct Book<'q, E: Engine> {
    pub system: &'q E,
    pub me: u16,
    pub log: Vec<E::Growth>,
    pub received: Vec<Vec<E::Growth>>,
    pub given: Vec<u64>,
    // The highest rank so far.
    pub clock: u64,
    pub loaded: bool,
    pub broken: bool,
}

impl<'q, E: Engine> Model for Book<'q, E> {
    ghost use Rattle.std.specs.Prelude.{map};
    ghost use Rattle.fixpoint.specs.State.{State};
    ghost use Rattle.keeper.specs.Keeping.{IsKept, kept_state};

    ghost Value = { State E E.Growth };

    ghost view = { λ o. kept_state o.system.now o.me o.log.items
        (map (λ list. list.items) o.received.items) o.given.items o.loaded o.broken };

    ghost invariant = { λ o. IsKept E.rules (kept_state o.system.now o.me o.log.items
        (map (λ list. list.items) o.received.items) o.given.items o.loaded o.broken) o.clock };
}

impl<'q, E: Engine> Book<'q, E> {
    /// The book of a part that has done nothing yet.
    pub fn new(alloc: Global, system: &'q E, me: u16) -> Result<Book<'q, E>, Memory>
        requires { me < E.rules.parts system.now }
        ensures { IfOk result (λ book. book ≡ first_state E.rules system.now me) }
    {
        let owners = system.parts();
        let received = empty_lists(alloc, owners)?;
        let given = vec![in alloc; 0u64; owners as usize]?;
        Ok(Book {
            system,
            me,
            log: Vec::new(alloc),
            received,
            given,
            clock: 0,
            loaded: false,
            broken: false,
        })
    }

    /// Appends a growth of an own fact that follows and isn't known.
    pub fn grow(&mut self, fact: E::Fact) -> Result<(), Memory>
        requires found { MayEnter E.rules self.old.system self.old.me (has E.rules self.old) fact }
        requires lacks { IsTrue (has E.rules self.old fact) → ⊥ }
        ensures ok { OnOk result (GrowsBy E.rules fact self.old self.new) }
        ensures has { OnOk result ((f : E.Fact)
            → has E.rules self.new f ≡ with_fact E.rules fact (has E.rules self.old) f) }
        ensures err { OnErr result (self.new ≡ self.old) }
        ensures sound { IsSoundPart E.rules self.new }
    {
        let rank = self.clock + 1;
        self.log.push(E::growth(fact, rank))?;
        self.clock = rank;
        Ok(())
    }

    /// Appends a growth to what was received from another owner.
    pub fn receive(&mut self, from: u16, growth: E::Growth) -> Result<(), Memory>
        requires { Passes E.rules self.old.system self.old.me from growth }
        ensures ok { OnOk result (self.new ≡ record self.old {
          received = with_heard self.old.received from growth;
        }) }
        ensures has { OnOk result ((f : E.Fact) → has E.rules self.new f
            ≡ with_fact E.rules (E.rules.fact growth) (has E.rules self.old) f) }
        ensures err { OnErr result (self.new ≡ self.old) }
        ensures sound { IsSoundPart E.rules self.new }
    {
        let clock = self.clock.max(E::rank(&growth));
        let list = &mut self.received[from as usize];
        list.push(growth)?;
        self.clock = clock;
        Ok(())
    }

    /// Notes whether the part is loaded, and whether a call of it was refused.
    pub fn mark(&mut self, loaded: bool, broken: bool)
        ensures marks { self.new ≡ record self.old { loaded = loaded; broken = broken } }
        ensures sound { IsSoundPart E.rules self.new }
    {
        self.loaded = loaded;
        self.broken = broken;
    }

    /// Notes that one more growth was given to another owner, which lacks some of its part.
    pub fn give(&mut self, to: u16)
        requires to { to < E.rules.parts self.old.system }
        requires more { given_to self.old to < length (part_for E.rules self.old to) }
        ensures given { self.new ≡ record self.old {
          given = slice_set self.old.given to (given_to self.old to + 1);
        } }
        ensures sound { IsSoundPart E.rules self.new }
    {
        self.given[to as usize] += 1;
    }

    /// How many growths were given to another owner.
    pub fn given_to(&self, to: u16) -> u64
        requires { to < E.rules.parts self.now.system }
        ensures value { result ≡ given_to self.now to }
        ensures most { result ≤ length (part_for E.rules self.now to) }
        ensures sound { IsSoundPart E.rules self.now }
    {
        self.given[to as usize]
    }

    /// What is analysed.
    pub fn system(&self) -> &'q E
        ensures { result.now ≡ self.now.system }
    {
        self.system
    }

    /// The number of the owner.
    pub fn me(&self) -> u16
        ensures value { result ≡ self.now.me }
        ensures sound { IsSoundPart E.rules self.now }
    {
        self.me
    }

    /// How many owners there are.
    pub fn owners(&self) -> u16
        ensures value { result ≡ E.rules.parts self.now.system }
        ensures sound { IsSoundPart E.rules self.now }
    {
        self.system.parts()
    }

    /// Whether the part was loaded.
    pub fn is_loaded(&self) -> bool
        ensures { result ≡ self.now.loaded }
    {
        self.loaded
    }

    /// Whether a call of the part was refused.
    pub fn is_broken(&self) -> bool
        ensures { result ≡ self.now.broken }
    {
        self.broken
    }

    /// Returns the log.
    pub fn into_log(self) -> Vec<E::Growth>
        ensures { result.items ≡ self.entry.log }
    {
        let Book { log, .. } = self;
        log
    }

    /// All growths of own facts so far.
    pub fn entries(&self) -> &[E::Growth]
        ensures log { result.now ≡ self.now.log }
        ensures short { length result.now < most_growths }
        ensures sound { IsSoundPart E.rules self.now }
    {
        &self.log
    }
}

/// This many empty lists.
pub fn empty_lists<G: Drop>(alloc: Global, count: u16) -> Result<Vec<Vec<G>>, Memory>
    ensures { IfOk result (λ lists. map (λ (list : Vec G Global). list.items) lists.items
        ≡ replicate count []) }
{
    let mut lists = Vec::new(alloc);
    for _ in 0..count {
        lists.push(Vec::new(alloc))?;
    }
    Ok(lists)
}
