//! Growths of other owners.

ghost use Rattle.std.specs.Prelude.{◌≡◌, OnOk, Contains};
ghost use Rattle.fixpoint.specs.State.{IsSoundPart, Passes, with_growths, GotBeginning};
ghost use Rattle.keeper.specs.Keeping.{ListsDue, has};

use crate::book::Book;
use crate::engine::Engine;
use nll_sets::Memory;

/// Enters growths of another owner, and finds what is due because of them.
pub fn hear_all<E: Engine>(
    book: &mut Book<'_, E>,
    store: &mut E::Store,
    due: &mut Vec<E::Fact>,
    from: u16,
    growths: &[E::Growth],
) -> Result<(), Memory>
    requires sound { IsSoundPart E.rules book.old }
    requires store { (f : E.Fact) → E.has store.old f ≡ has E.rules book.old f }
    requires due { ListsDue E.rules book.old.system book.old.me
        (has E.rules book.old) due.old.items }
    requires passes { (g : E.Growth) → Contains growths.now g
        → Passes E.rules book.old.system book.old.me from g }
    ensures others { book.new ≡ record book.old { received = book.new.received } }
    ensures received { OnOk result
        (book.new.received ≡ with_growths book.old.received from growths.now) }
    ensures perhaps { GotBeginning book.old.received from growths.now book.new.received }
    ensures store { OnOk result ((f : E.Fact)
        → E.has store.new f ≡ has E.rules book.new f) }
    ensures due { OnOk result (ListsDue E.rules book.new.system book.new.me
        (has E.rules book.new) due.new.items) }
    ensures sound { IsSoundPart E.rules book.new }
{
    for growth in growths {
        let fact = E::fact(growth);
        let known = book.system().knows(store, &fact);
        book.receive(from, *growth)?;
        if !known {
            let engine = book.system();
            engine.enter(book.me(), store, fact, due)?;
        }
    }
    Ok(())
}
