//! What a worker owes and has cleared.

ghost use Rattle.std.specs.Prelude.{◌≡◌, ◌+◌, ◌^◌, ◌<◌, ◌≤◌, false};
ghost use Rattle.fixpoint.specs.State.{State, IsSoundPart};
ghost use Rattle.worker.specs.Finishing.{IsOpenStill};
ghost use Rattle.worker.specs.Tallies.{HasGrown, IsTallied, due_of};

use crate::tally::{Tally, count_new};
use fixpoint::Analysis;
use ledger::Ledger;

/// The ledger's book, a worker's share of it, and what the worker counts.
#[derive(Drop)]
pub struct Account<'x, L: Ledger> {
    pub book: &'x L::Book,
    pub share: L::Share,
    pub tally: Tally,
}

/// Owes for what was added to the log in this turn, and then clears the turn's items, this many.
pub fn keep_book<A: Analysis, L: Ledger>(account: &mut Account<'_, L>, part: &A::Part, items: u64)
    requires sound { IsSoundPart A.rules (A.state part.now) }
    requires whole { (A.state part.now).broken ≡ false }
    requires book { L.belongs account.old.book.now account.old.share }
    requires grew { (before : State A A.Growth) × HasGrown before (A.state part.now)
        × IsTallied A.rules before account.old.tally
        × (L.owed account.old.share ≡ 1 + due_of A.rules before) }
    requires cleared { account.old.tally.cleared ≡ L.cleared account.old.share }
    requires turns { account.old.tally.turns ≤ L.cleared account.old.share }
    requires small { (L.cleared account.old.share < 2 ^ 52) × (items ≤ 2 ^ 37) }
    ensures still { IsOpenStill L.Ledger account.old.book.now account.old.share
        account.new.book.now account.new.share }
    ensures owes { L.owed account.new.share ≡ 1 + due_of A.rules (A.state part.now) }
    ensures clears { L.cleared account.new.share ≡ L.cleared account.old.share + items }
    ensures counted { IsTallied A.rules (A.state part.now) account.new.tally }
    ensures cleared { account.new.tally.cleared ≡ L.cleared account.new.share }
    ensures turns { account.new.tally.turns ≡ account.old.tally.turns + 1 }
{
    let count = count_new::<A>(part, &mut account.tally);
    L::owe(account.book, &mut account.share, count);
    L::clear(account.book, &mut account.share, items);
    account.tally.turns += 1;
    account.tally.cleared += items;
}
