//! The analysis of an engine: each owner has a keeper.

ghost use Rattle.std.specs.Prelude.{◌≡◌, Err, is_ok};
ghost use Rattle.fixpoint.specs.declared.error.PartError.TheVariants.{Broken};

use crate::book::Book;
use crate::engine::Engine;
use crate::outboxes::Outboxes;
use crate::pursue::{load_all, take_in};
use fixpoint::{Analysis, PartError, Rules};
use nll_sets::Memory;
use std::alloc::Global;
use std::marker::Model;

// The ranks of the growths of a run are below it.
const END_OF_RANKS: u64 = 1 << 61;

/// A part of the analysis of an engine: its book, what the engine keeps of what is known, and what
/// other owners receive. `Keepers` has its calls.
///
/// # Cost
/// Besides what the engine keeps: a growth for each that is in the log, for each that was received,
/// and for each owner that reads one (not proved).
#[derive(Drop)]
pub struct Keeper<'q, E: Engine> {
    book: Book<'q, E>,
    // Nothing is known of these once a call was refused.
    store: E::Store,
    due: Vec<E::Fact>,
    boxes: Outboxes<E::Growth>,
}

impl<'q, E: Engine> Model for Keeper<'q, E> {
    ghost use Rattle.std.specs.Prelude.{◌≡◌, false, map};
    ghost use Rattle.fixpoint.specs.State.{State, IsSoundPart};
    ghost use Rattle.keeper.specs.Keeping.{IsWholePart};

    ghost Value = { State E E.Growth };

    ghost view = { λ k. k.book };

    ghost invariant = { λ k. IsSoundPart E.rules k.book
        × (k.book.broken ≡ false → IsWholePart E.rules k.book (λ f. E.has k.store f)
        k.due.items k.boxes.place (map (λ list. list.items) k.boxes.lists.items)) };
}

/// The analysis of an engine, whose parts are keepers. Contracts see it as the engine.
#[derive(Drop)]
pub struct Keepers<'q, E: Engine> {
    engine: &'q E,
}

impl<'q, E: Engine> Model for Keepers<'q, E> {
    ghost Value = { E };

    ghost view = { λ k. k.engine.now };
}

impl<'q, E: Engine> Keepers<'q, E> {
    /// The keepers of an engine.
    pub fn new(engine: &'q E) -> Keepers<'q, E>
        ensures { result ≡ engine.now }
    {
        Keepers { engine }
    }
}

impl<'q, E: Engine> Rules for Keepers<'q, E> {
    type Fact = E::Fact;

    type Growth = E::Growth;

    ghost rules = { E.rules };

    ghost lawful = { E.lawful };

    fn parts(&self) -> u16 {
        self.engine.parts()
    }
}

impl<'q, E: Engine> Analysis for Keepers<'q, E> {
    type Part = Keeper<'q, E>;

    type Yield = ();

    ghost state = { λ part. part };

    ghost yields = { λ _ _ _ _. Unit {0} };

    fn part(&self, alloc: Global, me: u16) -> Result<Keeper<'q, E>, Memory> {
        let boxes = Outboxes::new(alloc, self.engine.parts())?;
        let store = self.engine.store(alloc, me)?;
        let book = Book::new(alloc, self.engine, me)?;
        Ok(Keeper {
            book,
            store,
            due: Vec::new(alloc),
            boxes,
        })
    }

    fn me(part: &Keeper<'q, E>) -> u16 {
        part.book.me()
    }

    fn owners(part: &Keeper<'q, E>) -> u16 {
        part.book.owners()
    }

    fn load(part: &mut Keeper<'q, E>) -> Result<(), PartError> {
        if part.book.is_broken() {
            return Err(PartError::Broken);
        }
        let told = load_all::<E>(
            &mut part.book,
            &mut part.store,
            &mut part.due,
            &mut part.boxes,
        );
        part.book.mark(told.is_ok(), told.is_err());
        answer(told)
    }

    fn receive_all(
        part: &mut Keeper<'q, E>,
        from: u16,
        growths: &[E::Growth],
    ) -> Result<(), PartError> {
        if part.book.is_broken() {
            return Err(PartError::Broken);
        }
        let loaded = part.book.is_loaded();
        let told = take_in::<E>(
            &mut part.book,
            &mut part.store,
            &mut part.due,
            &mut part.boxes,
            from,
            growths,
        );
        part.book.mark(loaded, told.is_err());
        answer(told)
    }

    fn passes(part: &Keeper<'q, E>, from: u16, growth: &E::Growth) -> bool {
        let engine = part.book.system();
        let fact = E::fact(growth);
        if E::rank(growth) >= END_OF_RANKS || !engine.is_proper(&fact) {
            return false;
        }
        engine.owner(&fact) == from && engine.reads(part.book.me(), &fact)
    }

    fn next_for(part: &Keeper<'q, E>, to: u16) -> Option<E::Growth> {
        if Self::unsent(part, to) == 0 {
            return None;
        }
        let list = &part.boxes.lists[to as usize];
        Some(list[part.book.given_to(to) as usize])
    }

    fn outgoing(part: &mut Keeper<'q, E>, to: u16) -> Option<E::Growth> {
        if Self::unsent(part, to) == 0 {
            return None;
        }
        let growth = part.boxes.lists[to as usize][part.book.given_to(to) as usize];
        part.book.give(to);
        Some(growth)
    }

    fn unsent(part: &Keeper<'q, E>, to: u16) -> u64 {
        if part.book.is_broken() || to >= part.book.owners() {
            return 0;
        }
        part.boxes.lists[to as usize].len() as u64 - part.book.given_to(to)
    }

    fn grown(part: &Keeper<'q, E>) -> u64 {
        part.book.entries().len() as u64
    }

    fn into_parts(part: Keeper<'q, E>, _alloc: Global) -> (Vec<E::Growth>, ()) {
        let Keeper { book, .. } = part;
        (book.into_log(), ())
    }

    fn none(_alloc: Global) {}
}

// What a call of a part answers.
fn answer(told: Result<(), Memory>) -> Result<(), PartError>
    ensures ok { is_ok result ≡ is_ok told }
    ensures err { result ≡ Err Broken → ⊥ }
{
    match told {
        Ok(()) => Ok(()),
        Err(_) => Err(PartError::Memory),
    }
}
