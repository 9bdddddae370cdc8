//! Two owners, each in a thread of its own.

ghost use Rattle.std.specs.Prelude.{◌≡◌, ◌<◌, ◌≤◌, IfOk, IfSome};

use super::two_owners::{Way, gather_two, open_two, try_to_leave};
use nll_ledger::{ThreadLedger, Totals};
use nll_sets::Memory;
use std::alloc::Global;
use std::sync::Wait;
use std::thread;
use std::thread::Threads;

// Leaves as soon as it may.
fn leave_late<L: ThreadLedger, R: Wait>(
    rt: &R,
    book: &L::Book,
    share: L::Share,
) -> (Way, Option<L::Left>)
    requires { L.belongs book.now share }
    ensures { IfSome result.1 (λ left. L.left_belongs book.now left
        × (L.left_number left ≡ L.number share)) }
{
    let mut coming = Some(share);
    for _ in rt.forever() {
        let Some(share) = coming else {
            return (Way::Open, None);
        };
        let (way, left, back) = try_to_leave::<L>(book, share);
        if left.is_some() {
            return (way, left);
        }
        coming = back;
        thread::yield_now();
    }
    unreachable!()
}

// Owes so often 1 and clears it, clears its load, and leaves.
fn owe_often<L: ThreadLedger, R: Wait>(
    rt: &R,
    book: &L::Book,
    share: L::Share,
    times: u32,
) -> (Way, Option<L::Left>)
    requires book { L.belongs book.now share }
    requires new { (L.owed share ≡ 1) × (L.cleared share ≡ 0) }
    ensures { IfSome result.1 (λ left. L.left_belongs book.now left
        × (L.left_number left ≡ L.number share)) }
{
    let mut share = share;
    for _ in 0..times {
        L::owe(book, &mut share, 1);
        L::clear(book, &mut share, 1);
    }
    L::clear(book, &mut share, 1);
    leave_late::<L, R>(rt, book, share)
}

// Looks until all are to stop, and leaves.
fn wait_for_stop<L: ThreadLedger, R: Wait>(
    rt: &R,
    book: &L::Book,
    share: L::Share,
) -> (Way, Option<L::Left>)
    requires { L.belongs book.now share }
    ensures { IfSome result.1 (λ left. L.left_belongs book.now left
        × (L.left_number left ≡ L.number share)) }
{
    let mut share = share;
    for _ in rt.forever() {
        if L::stopped(book, &mut share) {
            break;
        }
        thread::yield_now();
    }
    leave_late::<L, R>(rt, book, share)
}

// Stops all, and leaves.
fn stop_all<L: ThreadLedger, R: Wait>(
    rt: &R,
    book: &L::Book,
    share: L::Share,
) -> (Way, Option<L::Left>)
    requires { L.belongs book.now share }
    ensures { IfSome result.1 (λ left. L.left_belongs book.now left
        × (L.left_number left ≡ L.number share)) }
{
    let mut share = share;
    L::stop(book, &mut share);
    leave_late::<L, R>(rt, book, share)
}

// How both left, and what the book tells where both did.
fn told_of<L: ThreadLedger>(
    alloc: Global,
    book: L::Book,
    first: (Way, Option<L::Left>),
    second: (Way, Option<L::Left>),
) -> Result<(Way, Way, Option<Totals>), Memory>
    requires count { L.owner_count book ≡ 2 }
    requires first { IfSome first.1
        (λ left. L.left_belongs book left × (L.left_number left ≡ 0)) }
    requires second { IfSome second.1
        (λ left. L.left_belongs book left × (L.left_number left ≡ 1)) }
{
    let (first_way, first_left) = first;
    let (second_way, second_left) = second;
    let totals = match (first_left, second_left) {
        (Some(first), Some(second)) => Some(gather_two::<L>(alloc, book, first, second)?),
        _ => None,
    };
    Ok((first_way, second_way, totals))
}

/// Two owners, each in a thread, owe so often 1 and clear it, and leave. Answers how each of them
/// left, and what the book tells where both did.
pub fn owe_in_two_threads<L: ThreadLedger, R: Threads + Wait + Sync>(
    rt: &R,
    alloc: Global,
    ledger: &L,
    times: u32,
) -> Result<(Way, Way, Option<Totals>), Memory> {
    let (book, first, second) = open_two(alloc, ledger)?;
    let shared = &book;
    let (first, second) = thread::join(
        rt,
        move || -> (Way, Option<L::Left>)
            requires { L.belongs shared.now first × (L.owed first ≡ 1) × (L.cleared first ≡ 0) }
            ensures { IfSome result.1 (λ left. L.left_belongs shared.entry.now left
                × (L.left_number left ≡ L.number first)) }
        { owe_often::<L, R>(rt, shared, first, times) },
        move || -> (Way, Option<L::Left>)
            requires { L.belongs shared.now second × (L.owed second ≡ 1) × (L.cleared second ≡ 0) }
            ensures { IfSome result.1 (λ left. L.left_belongs shared.entry.now left
                × (L.left_number left ≡ L.number second)) }
        { owe_often::<L, R>(rt, shared, second, times) },
    );
    told_of::<L>(alloc, book, first, second)
}

/// Of two owners, each in a thread, the first stops all and the second waits for that. Answers how
/// each of them left, and what the book tells where both did.
pub fn stop_in_two_threads<L: ThreadLedger, R: Threads + Wait + Sync>(
    rt: &R,
    alloc: Global,
    ledger: &L,
) -> Result<(Way, Way, Option<Totals>), Memory> {
    let (book, first, second) = open_two(alloc, ledger)?;
    let shared = &book;
    let (first, second) = thread::join(
        rt,
        move || -> (Way, Option<L::Left>)
            requires { L.belongs shared.now first }
            ensures { IfSome result.1 (λ left. L.left_belongs shared.entry.now left
                × (L.left_number left ≡ L.number first)) }
        { stop_all::<L, R>(rt, shared, first) },
        move || -> (Way, Option<L::Left>)
            requires { L.belongs shared.now second }
            ensures { IfSome result.1 (λ left. L.left_belongs shared.entry.now left
                × (L.left_number left ≡ L.number second)) }
        { wait_for_stop::<L, R>(rt, shared, second) },
    );
    told_of::<L>(alloc, book, first, second)
}
