//! Calls of two owners, in one thread.

ghost use Rattle.std.specs.Prelude.{◌≡◌, ◌+◌, ◌<◌, IfOk, IfSome};
ghost use Rattle.ledger.specs.Amounts.{total_bound};

use nll_ledger::{Leave, ThreadLedger, Totals};
use nll_sets::Memory;
use std::alloc::Global;

/// How a share left, or that it may not leave yet.
#[derive(Clone, Copy, Debug, PartialEq, Eq)]
pub enum Way {
    /// On quiet.
    Quiet,
    /// Since all are to stop.
    Stopped,
    /// The share came back.
    Open,
}

/// A new book of two owners, and their shares.
pub fn open_two<L: ThreadLedger>(
    alloc: Global,
    ledger: &L,
) -> Result<(L::Book, L::Share, L::Share), Memory>
    ensures count { IfOk result (λ opened. L.owner_count opened.0 ≡ 2) }
    ensures first { IfOk result (λ opened. L.belongs opened.0 opened.1
        × (L.number opened.1 ≡ 0) × (L.owed opened.1 ≡ 1) × (L.cleared opened.1 ≡ 0)) }
    ensures second { IfOk result (λ opened. L.belongs opened.0 opened.2
        × (L.number opened.2 ≡ 1) × (L.owed opened.2 ≡ 1) × (L.cleared opened.2 ≡ 0)) }
{
    let (book, mut shares) = ledger.open(alloc, 2)?;
    let Some(second) = shares.pop() else {
        unreachable!()
    };
    let Some(first) = shares.pop() else {
        unreachable!()
    };
    Ok((book, first, second))
}

/// Leaves, if it may. Answers how, what is left of the share, and the share that came back.
pub fn try_to_leave<L: ThreadLedger>(
    book: &L::Book,
    share: L::Share,
) -> (Way, Option<L::Left>, Option<L::Share>)
    requires { L.belongs book.now share }
    ensures left { IfSome result.1 (λ left. L.left_belongs book.now left
        × (L.left_number left ≡ L.number share)) }
    ensures back { IfSome result.2 (λ back. L.belongs book.now back
        × (L.number back ≡ L.number share) × (L.owed back ≡ L.owed share)
        × (L.cleared back ≡ L.cleared share)) }
{
    match L::leave(book, share) {
        Leave::Quiet(left) => (Way::Quiet, Some(left), None),
        Leave::Stopped(left) => (Way::Stopped, Some(left), None),
        Leave::Open(back) => (Way::Open, None, Some(back)),
    }
}

/// What the book tells where both have left.
pub fn gather_two<L: ThreadLedger>(
    alloc: Global,
    book: L::Book,
    first: L::Left,
    second: L::Left,
) -> Result<Totals, Memory>
    requires count { L.owner_count book ≡ 2 }
    requires first { L.left_belongs book first × (L.left_number first ≡ 0) }
    requires second { L.left_belongs book second × (L.left_number second ≡ 1) }
{
    let mut lefts = Vec::with_capacity(alloc, 2)?;
    lefts.push_reserved(first);
    lefts.push_reserved(second);
    Ok(L::gather(book, lefts))
}

/// The first owner owes 3 and clears its load; the second clears its load, and would leave. Answers
/// how it left, and the share that came back.
pub fn owe_and_stay<L: ThreadLedger>(
    book: &L::Book,
    first: &mut L::Share,
    second: L::Share,
) -> (Way, Option<L::Share>)
    requires first { L.belongs book.now first.old
        × (L.owed first.old ≡ 1) × (L.cleared first.old ≡ 0) }
    requires second { L.belongs book.now second × (L.cleared second ≡ 0) }
    ensures first { L.belongs book.now first.new × (L.number first.new ≡ L.number first.old) }
    ensures back { IfSome result.1 (λ back. L.belongs book.now back
        × (L.number back ≡ L.number second) × (L.cleared back ≡ 1)) }
{
    let mut second = second;
    L::owe(book, first, 3);
    L::clear(book, first, 1);
    L::clear(book, &mut second, 1);
    let (way, _, back) = try_to_leave::<L>(book, second);
    (way, back)
}

/// Both leave, the second first. Answers how each of them left, and what the book tells where both
/// did.
pub fn leave_both<L: ThreadLedger>(
    alloc: Global,
    book: L::Book,
    first: L::Share,
    second: L::Share,
) -> Result<(Way, Way, Option<Totals>), Memory>
    requires count { L.owner_count book ≡ 2 }
    requires first { L.belongs book first × (L.number first ≡ 0) }
    requires second { L.belongs book second × (L.number second ≡ 1) }
{
    let (second_way, second, _) = try_to_leave::<L>(&book, second);
    let (first_way, first, _) = try_to_leave::<L>(&book, first);
    let totals = match (first, second) {
        (Some(first), Some(second)) => Some(gather_two::<L>(alloc, book, first, second)?),
        _ => None,
    };
    Ok((first_way, second_way, totals))
}

/// The second looks, the first stops all, and the second looks again. Answers what it found before
/// and then.
pub fn stop_and_look<L: ThreadLedger>(
    book: &L::Book,
    first: &mut L::Share,
    second: &mut L::Share,
) -> (bool, bool)
    requires first { L.belongs book.now first.old }
    requires second { L.belongs book.now second.old × (L.cleared second.old + 3 < total_bound) }
    ensures first { L.belongs book.now first.new × (L.number first.new ≡ L.number first.old) }
    ensures second { L.belongs book.now second.new × (L.number second.new ≡ L.number second.old) }
{
    let before = L::stopped(book, second);
    L::stop(book, first);
    L::clear(book, second, 3);
    let then = L::stopped(book, second);
    (before, then)
}
