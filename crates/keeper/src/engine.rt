//! Engines: they find what follows.

ghost use Rattle.std.specs.Prelude.{◌≡◌, ◌↔◌, ◌<◌, Bool, false, IfOk, OnOk, IsTrue};
ghost use Rattle.fixpoint.specs.Rules.{Sees};
ghost use Rattle.keeper.specs.Engine.{Finds, nothing, with_fact};

use fixpoint::Rules;
use nll_sets::Memory;
use std::alloc::Global;

/// What says whose a fact is.
pub trait Owners: Rules {
    /// The owner of a fact.
    fn owner(&self, fact: &Self::Fact) -> u16
        requires { Self.rules.proper self.now fact.now }
        ensures { result ≡ Self.rules.owner self.now fact.now };
}

/// What says of a new fact which facts of an owner follow. It keeps the known facts of that owner
/// in a store, in whatever form it looks them up.
pub trait Engine: Owners {
    /// The facts that are known.
    type Store: Drop;

    /// Whether a store has a fact.
    ghost has: { Self.Store → Self.Fact → Bool };

    /// The growth of a fact at a rank.
    fn growth(fact: Self::Fact, rank: u64) -> Self::Growth
        ensures fact { Self.rules.fact result ≡ fact }
        ensures rank { Self.rules.rank result ≡ rank };

    /// The fact of a growth.
    fn fact(growth: &Self::Growth) -> Self::Fact
        ensures { result ≡ Self.rules.fact growth.now };

    /// The rank of a growth.
    fn rank(growth: &Self::Growth) -> u64
        ensures { result ≡ Self.rules.rank growth.now };

    /// A store without a fact, for an owner.
    ///
    /// # Errors
    /// - `Memory`.
    fn store(&self, alloc: Global, me: u16) -> Result<Self::Store, Memory>
        requires { me < Self.rules.parts self.now }
        ensures { IfOk result (λ store. (f : Self.Fact) → has store f ≡ false) };

    /// Whether a fact may come to hold.
    fn is_proper(&self, fact: &Self::Fact) -> bool
        ensures { IsTrue result ↔ Self.rules.proper self.now fact.now };

    /// Whether an owner reads a fact of another.
    fn reads(&self, reader: u16, fact: &Self::Fact) -> bool
        ensures { result ≡ Self.rules.reads self.now reader fact.now };

    /// Whether a store has a fact.
    fn knows(&self, store: &Self::Store, fact: &Self::Fact) -> bool
        ensures { result ≡ has store.now fact.now };

    /// Appends the facts of an owner that follow from nothing.
    ///
    /// # Errors
    /// - `Memory`.
    fn begin(&self, me: u16, found: &mut Vec<Self::Fact>) -> Result<(), Memory>
        requires { me < Self.rules.parts self.now }
        ensures { OnOk result (Finds Self.rules self.now me (nothing Self.rules) (λ _. ⊥)
            found.old.items found.new.items) };

    /// Puts a fact that an owner sees into the owner's store, and appends the facts of the owner
    /// that follow from what the store has then and didn't follow before.
    ///
    /// # Errors
    /// - `Memory`.
    fn enter(
        &self,
        me: u16,
        store: &mut Self::Store,
        fact: Self::Fact,
        found: &mut Vec<Self::Fact>,
    ) -> Result<(), Memory>
        requires me { me < Self.rules.parts self.now }
        requires proper { Self.rules.proper self.now fact }
        requires sees { Sees Self.rules self.now me fact }
        ensures store { OnOk result ((f : Self.Fact)
            → has store.new f ≡ with_fact Self.rules fact (has store.old) f) }
        ensures found { OnOk result (Finds Self.rules self.now me (has store.new)
            (λ f. Self.rules.derives self.now (has store.old) f)
            found.old.items found.new.items) };
}

/// An engine whose analysis threads share.
pub trait ThreadEngine: Engine<Store: Send> + Rules<Fact: Send, Growth: Send> + Sync {}

impl<E: Engine<Store: Send> + Rules<Fact: Send, Growth: Send> + Sync> ThreadEngine for E {}
