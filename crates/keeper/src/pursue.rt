//! What a keeper does in a call.

ghost use Rattle.std.specs.Prelude.{◌≡◌, false, OnOk, Contains, map};
ghost use Rattle.fixpoint.specs.State.{IsSoundPart, IsDone, Passes, with_growths, GotBeginning};
ghost use Rattle.nll_sets.specs.Prefix.{IsPrefix};
ghost use Rattle.keeper.specs.Keeping.{LogGrows, IsQuiet, has};

use crate::book::Book;
use crate::engine::Engine;
use crate::hear::hear_all;
use crate::outboxes::{Outboxes, take_up};
use crate::settle::settle;
use nll_sets::Memory;

/// Enters the facts that follow from nothing, and those that follow from them.
pub fn load_all<E: Engine>(
    book: &mut Book<'_, E>,
    store: &mut E::Store,
    due: &mut Vec<E::Fact>,
    boxes: &mut Outboxes<E::Growth>,
) -> Result<(), Memory>
    requires sound { IsSoundPart E.rules book.old }
    requires quiet { IsQuiet E.rules book.old (λ f. E.has store.old f) due.old.items
        boxes.old.place (map (λ list. list.items) boxes.old.lists.items) }
    requires fresh { (f : E.Fact) → has E.rules book.old f ≡ false }
    ensures grows { LogGrows book.old book.new }
    ensures quiet { OnOk result (IsQuiet E.rules book.new (λ f. E.has store.new f)
        due.new.items boxes.new.place (map (λ list. list.items) boxes.new.lists.items)) }
    ensures done { OnOk result (IsDone E.rules book.new) }
    ensures sound { IsSoundPart E.rules book.new }
{
    let engine = book.system();
    engine.begin(book.me(), due)?;
    settle::<E>(book, store, due)?;
    take_up::<E>(book.system(), boxes, book.entries())
}

/// Enters growths of another owner, and what follows from them.
pub fn take_in<E: Engine>(
    book: &mut Book<'_, E>,
    store: &mut E::Store,
    due: &mut Vec<E::Fact>,
    boxes: &mut Outboxes<E::Growth>,
    from: u16,
    growths: &[E::Growth],
) -> Result<(), Memory>
    requires sound { IsSoundPart E.rules book.old }
    requires quiet { IsQuiet E.rules book.old (λ f. E.has store.old f) due.old.items
        boxes.old.place (map (λ list. list.items) boxes.old.lists.items) }
    requires done { IsDone E.rules book.old }
    requires passes { (g : E.Growth) → Contains growths.now g
        → Passes E.rules book.old.system book.old.me from g }
    ensures begins { IsPrefix book.old.log book.new.log }
    ensures others { book.new
        ≡ record book.old { log = book.new.log; received = book.new.received } }
    ensures received { OnOk result
        (book.new.received ≡ with_growths book.old.received from growths.now) }
    ensures perhaps { GotBeginning book.old.received from growths.now book.new.received }
    ensures quiet { OnOk result (IsQuiet E.rules book.new (λ f. E.has store.new f)
        due.new.items boxes.new.place (map (λ list. list.items) boxes.new.lists.items)) }
    ensures done { OnOk result (IsDone E.rules book.new) }
    ensures sound { IsSoundPart E.rules book.new }
{
    hear_all::<E>(book, store, due, from, growths)?;
    settle::<E>(book, store, due)?;
    take_up::<E>(book.system(), boxes, book.entries())
}
