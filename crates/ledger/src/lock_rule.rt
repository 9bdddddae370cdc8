//! The rule of a ledger's lock.
//!
//! The lock is a queue of one place that has the state of a book: its balance and its stop flag. A
//! hold of the lock begins with a pop of the state and ends with a push of it. Each pass of the
//! queue knows the figures of its shares; the state is at all times what the figures of all passes
//! say (`specs/Lock.antt`).

ghost use Rattle.ledger.specs.declared.figures.Figures.{Figures};
ghost use Rattle.ledger.specs.declared.lock_rule.State.{State};

use crate::figures::Figures;
use crossbeam_queue::protocol::{Join, Lesson, Outcome, Protocol, Split};
use crossbeam_queue::{Pass, RuledArrayQueue};
use std::marker::PhantomData;

/// The state of a book: its balance, kept 2^62 higher, and whether the stop flag is set.
#[derive(Clone, Copy)]
pub struct State {
    pub balance: u64,
    pub flag: bool,
}

/// What a pass knows: the figures of its shares, whether it holds the lock, and the state that it
/// found when it last took the lock. No value of it is made.
pub struct Known {
    pub figures: Figures,
    pub holds: bool,
    pub held: State,
}

/// The rule of a lock.
pub struct HeldByOne;

impl Protocol<State, Known> for HeldByOne {
    ghost use Rattle.ledger.specs.Lock.{IsHeldByOne, first};

    ghost holds = { IsHeldByOne };

    ghost first = { first };
}

/// A lock.
pub type Lock = RuledArrayQueue<State, Known, HeldByOne>;

/// A pass of a lock.
pub type LockPass = Pass<State, Known>;

/// A pop: a hold begins. The balance is far from the ends of its type. Who knows that the flag is
/// set finds it set.
pub struct Grabs;

impl Outcome<State, Known> for Grabs {
    ghost use Rattle.std.specs.Prelude.{◌≡◌, ◌<◌, ◌^◌, true};
    ghost use Rattle.ledger.specs.Lock.{holding};

    ghost then = { λ old found new. (new ≡ holding old found)
        × (2 ^ 61 < found.balance) × (found.balance < 2 ^ 63)
        × (0 < old.figures.finds → found.flag ≡ true) };
}

/// What a share does in a hold: its figures afterwards, given those before, the state that it found
/// and the state that it puts.
pub trait Deed {
    ghost done: { Figures → State → State → Figures };
}

/// A push: a hold ends in which a share did this.
pub struct Releases<D> {
    of: PhantomData<D>,
}

impl<D: Deed> Outcome<State, Known> for Releases<D> {
    ghost use Rattle.std.specs.Prelude.{◌≡◌};
    ghost use Rattle.ledger.specs.Lock.{released};

    ghost then = { λ old put new. new ≡ released old (D.done old.figures old.held put) };
}

/// The first of all: what is owed is as much as the balance, and no share has made a step.
pub struct Begins;

impl Deed for Begins {
    ghost use Rattle.std.specs.Prelude.{◌-◌, []};
    ghost use Rattle.ledger.specs.Figures.{noting, owing};

    ghost done = { λ old held put. noting (owing old (put.balance - held.balance)) [] };
}

/// What the share owes grew by as much as the balance.
pub struct Raises;

impl Deed for Raises {
    ghost use Rattle.std.specs.Prelude.{◌-◌};
    ghost use Rattle.ledger.specs.Figures.{owing};

    ghost done = { λ old held put. owing old (put.balance - held.balance) };
}

/// What the share cleared grew by as much as the balance fell.
pub struct Lowers;

impl Deed for Lowers {
    ghost use Rattle.std.specs.Prelude.{◌-◌};
    ghost use Rattle.ledger.specs.Figures.{clearing};

    ghost done = { λ old held put. clearing old (held.balance - put.balance) };
}

/// The share set the flag.
pub struct Sets;

impl Deed for Sets {
    ghost use Rattle.ledger.specs.Figures.{setting};

    ghost done = { λ old held put. setting old };
}

/// The share found the flag set.
pub struct Finds;

impl Deed for Finds {
    ghost use Rattle.ledger.specs.Figures.{finding};

    ghost done = { λ old held put. finding old };
}

/// The share found that the flag isn't set.
pub struct Misses;

impl Deed for Misses {
    ghost use Rattle.ledger.specs.Figures.{finding_none};

    ghost done = { λ old held put. finding_none old };
}

/// The share found that the flag isn't set, and left on quiet.
pub struct Quiets;

impl Deed for Quiets {
    ghost use Rattle.ledger.specs.Figures.{finding_none, quieting};

    ghost done = { λ old held put. quieting (finding_none old) };
}

/// The share found that the flag isn't set, nor the balance 0.
pub struct Stays;

impl Deed for Stays {
    ghost use Rattle.ledger.specs.Figures.{finding_none, staying};

    ghost done = { λ old held put. staying (finding_none old) };
}

/// A share is cut off, and shares are put together.
pub struct Parts;

impl Split<Known> for Parts {
    ghost use Rattle.std.specs.Prelude.{false};
    ghost use Rattle.ledger.specs.Figures.{fewer, fresh};
    ghost use Rattle.ledger.specs.Lock.{knowing};

    ghost left = { λ old. knowing (fewer old.figures) old.holds old.held };

    ghost right = { λ old. knowing fresh false old.held };
}

impl Join<Known> for Parts {
    ghost use Rattle.std.specs.Prelude.{false};
    ghost use Rattle.ledger.specs.Figures.{together};
    ghost use Rattle.ledger.specs.Lock.{knowing, spent};

    ghost both = { λ one other. knowing (together one.figures other.figures) false one.held };

    ghost spent = { spent };
}

/// A look by a pass that has all parts. Where all of them left on quiet, as much was cleared as was
/// owed; where a share knows that the flag is set, a share set it.
pub struct Whole;

impl Lesson<State, Known> for Whole {
    ghost use Rattle.std.specs.Prelude.{◌≡◌, ◌<◌};

    ghost fact = { λ all items.
        (all.figures.quiets ≡ all.figures.parts → all.figures.owed ≡ all.figures.cleared)
        × (0 < all.figures.finds → 0 < all.figures.calls) };
}
