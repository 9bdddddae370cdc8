//! Calls of as many owners as there may be, in one thread.

ghost use Rattle.std.specs.Prelude.{◌≡◌, ◌<◌, ◌≤◌, ℕ, IfOk, IfSome, Some, slice_get, vec_len};
ghost use Rattle.nll_problem.specs.Limits.{most_owners};

use super::two_owners::try_to_leave;
use nll_ledger::{ThreadLedger, Totals};
use nll_sets::Memory;
use std::alloc::Global;
use std::collections::VecDeque;

// Each owner clears its load.
fn clear_loads<L: ThreadLedger>(book: &L::Book, shares: &mut Vec<L::Share>)
    requires few { vec_len shares.old ≤ most_owners }
    requires shares { (place : ℕ) (share : L.Share) → slice_get shares.old.items place ≡ Some share
        → L.belongs book.now share × (L.number share ≡ place) × (L.cleared share ≡ 0) }
    ensures count { vec_len shares.new ≡ vec_len shares.old }
    ensures shares { (place : ℕ) (share : L.Share) → slice_get shares.new.items place ≡ Some share
        → L.belongs book.now share × (L.number share ≡ place) }
{
    for place in 0..shares.len() {
        L::clear(book, &mut shares[place], 1);
    }
}

// All leave, in their order; none where one may not.
fn leave_all<L: ThreadLedger>(
    alloc: Global,
    book: &L::Book,
    shares: Vec<L::Share>,
) -> Result<Option<Vec<L::Left>>, Memory>
    requires { (place : ℕ) (share : L.Share) → slice_get shares.items place ≡ Some share
        → L.belongs book.now share × (L.number share ≡ place) }
    ensures count { IfOk result (λ all. IfSome all (λ lefts. vec_len lefts ≡ vec_len shares)) }
    ensures lefts { IfOk result (λ all. IfSome all (λ lefts. (place : ℕ) (left : L.Left)
        → slice_get lefts.items place ≡ Some left
        → L.left_belongs book.now left × (L.left_number left ≡ place))) }
{
    let mut coming = VecDeque::from(shares);
    let mut lefts = Vec::new(alloc);
    while let Some(share) = coming.pop_front() {
        let (_, left, _) = try_to_leave::<L>(book, share);
        let Some(left) = left else {
            return Ok(None);
        };
        lefts.push(left)?;
    }
    Ok(Some(lefts))
}

/// So many owners clear their loads and leave. Answers what the book tells where all did.
pub fn all_leave<L: ThreadLedger>(
    alloc: Global,
    ledger: &L,
    owners: u16,
) -> Result<Option<Totals>, Memory>
    requires { (0 < owners) × (owners ≤ most_owners) }
{
    let (book, mut shares) = ledger.open(alloc, owners)?;
    clear_loads::<L>(&book, &mut shares);
    let Some(lefts) = leave_all::<L>(alloc, &book, shares)? else {
        return Ok(None);
    };
    Ok(Some(L::gather(book, lefts)))
}
