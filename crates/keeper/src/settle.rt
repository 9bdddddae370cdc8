//! Facts that are due.

ghost use Rattle.std.specs.Prelude.{◌≡◌, [], OnOk};
ghost use Rattle.fixpoint.specs.State.{IsSoundPart, IsDone};
ghost use Rattle.keeper.specs.Keeping.{LogGrows, ListsDue, has};

use crate::book::Book;
use crate::engine::Engine;
use nll_sets::Memory;

/// Enters facts that are due, and those that follow from them, until none is left.
pub fn settle<E: Engine>(
    book: &mut Book<'_, E>,
    store: &mut E::Store,
    due: &mut Vec<E::Fact>,
) -> Result<(), Memory>
    requires sound { IsSoundPart E.rules book.old }
    requires store { (f : E.Fact) → E.has store.old f ≡ has E.rules book.old f }
    requires due { ListsDue E.rules book.old.system book.old.me
        (has E.rules book.old) due.old.items }
    ensures grows { LogGrows book.old book.new }
    ensures store { OnOk result ((f : E.Fact)
        → E.has store.new f ≡ has E.rules book.new f) }
    ensures none { OnOk result (due.new.items ≡ []) }
    ensures done { OnOk result (IsDone E.rules book.new) }
    ensures sound { IsSoundPart E.rules book.new }
{
    while let Some(fact) = due.pop() {
        if !book.system().knows(store, &fact) {
            book.grow(fact)?;
            let engine = book.system();
            engine.enter(book.me(), store, fact, due)?;
        }
    }
    Ok(())
}
