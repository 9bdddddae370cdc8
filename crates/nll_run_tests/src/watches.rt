//! A mailbox and a ledger, of any kind, that are watched: each step of an owner is noted, or held
//! up, before it is done. Each is made by one `impl`.
ghost use Rattle.std.specs.Prelude.{◌≡◌, ◌++◌, ◌<◌, map, vec_len, IfOk};

use nll_ledger::{Leave, Ledger, ThreadLedger, Totals};
use nll_mail::{Growth, Mail, PostError, ThreadMail};
use nll_sets::Memory;
use std::alloc::{AllocError, Global};
use std::collections::VecDeque;

/// A step of an owner.
#[derive(Clone, Copy, Debug, PartialEq, Eq)]
pub enum Step {
    Post,
    Close,
    Owe(u64),
    Clear(u64),
}

/// What is called before each step of an owner.
pub trait Watch: Sync {
    /// The owner of this number is about to take a step.
    fn before(&self, owner: u16, step: Step);
}

/// Mailboxes or ledgers of any kind, of which some steps are watched.
#[derive(Drop)]
pub struct Watched<'x, I, W> {
    pub inner: &'x I,
    pub watch: &'x W,
}

/// The end that posts of a watched mailbox.
pub struct WatchedSender<'x, M: ThreadMail<Growth>, W> {
    inner: M::S,
    from: u16,
    watch: &'x W,
}

impl<'x, M: ThreadMail<Growth>, W: Watch> Mail<Growth> for Watched<'x, M, W> {
    type S = WatchedSender<'x, M, W>;

    type R = M::R;

    type Closed = M::Closed;

    type Post = M::Post;

    ghost is_bounded = { M.is_bounded };

    ghost sent = { λ sender. M.sent sender.inner };

    ghost received = { M.received };

    ghost ends = { M.ends };

    ghost pairs = { λ sender receiver. M.pairs sender.inner receiver };

    ghost all_sent = { M.all_sent };

    ghost closes = { M.closes };

    ghost post_ends = { M.post_ends };

    ghost post_sent = { M.post_sent };

    ghost post_received = { M.post_received };

    ghost post_rest = { M.post_rest };

    fn pair(
        &self,
        alloc: Global,
        from: u16,
        to: u16,
    ) -> Result<(WatchedSender<'x, M, W>, M::R), Memory> {
        let (inner, receiver) = self.inner.pair(alloc, from, to)?;
        let sender = WatchedSender {
            inner,
            from,
            watch: self.watch,
        };
        Ok((sender, receiver))
    }

    fn post(sender: &mut WatchedSender<'x, M, W>, growth: Growth) -> Result<(), PostError<Growth>> {
        sender.watch.before(sender.from, Step::Post);
        M::post(&mut sender.inner, growth)
    }

    fn take(receiver: &mut M::R) -> Option<Growth> {
        M::take(receiver)
    }

    fn close(sender: WatchedSender<'x, M, W>) -> M::Closed {
        let WatchedSender { inner, from, watch } = sender;
        watch.before(from, Step::Close);
        M::close(inner)
    }

    fn settle(closed: M::Closed, receiver: M::R) -> M::Post {
        M::settle(closed, receiver)
    }

    fn count(post: &M::Post) -> u64 {
        M::count(post)
    }
}

/// The book of a watched ledger.
#[derive(Drop)]
pub struct WatchedBook<'x, L: ThreadLedger, W> {
    inner: L::Book,
    watch: &'x W,
}

/// A share of it.
#[derive(Drop)]
pub struct WatchedShare<S> {
    inner: S,
    owner: u16,
}

// The shares, each with the number of its owner.
fn numbered<S: Drop>(alloc: Global, shares: Vec<S>) -> Result<Vec<WatchedShare<S>>, AllocError>
    ensures { IfOk result (λ numbered. map (λ s. s.inner) numbered.items ≡ shares.items) }
{
    let mut shares = VecDeque::from(shares);
    let mut numbered = Vec::new(alloc);
    let mut owner = 0u16;
    while let Some(inner) = shares.pop_front() {
        numbered.push(WatchedShare { inner, owner })?;
        owner = owner.saturating_add(1);
    }
    Ok(numbered)
}

impl<'x, L: ThreadLedger, W: Watch> Ledger for Watched<'x, L, W> {
    ghost use Rattle.std.specs.Prelude.{◌≡◌, ℕ, Some, false, slice_get, true, vec_len};
    ghost use Rattle.std.specs.List.{sum_by};

    type Book = WatchedBook<'x, L, W>;

    type Share = WatchedShare<L::Share>;

    type Left = L::Left;

    ghost owner_count = { λ book. L.owner_count book.inner };

    ghost belongs = { λ book share. L.belongs book.inner share.inner };

    ghost number = { λ share. L.number share.inner };

    ghost owed = { λ share. L.owed share.inner };

    ghost cleared = { λ share. L.cleared share.inner };

    ghost called = { λ share. L.called share.inner };

    ghost marked = { λ share. L.marked share.inner };

    ghost steps = { λ share. L.steps share.inner };

    ghost left_belongs = { λ book left. L.left_belongs book.inner left };

    ghost left_number = { L.left_number };

    ghost left_owed = { L.left_owed };

    ghost left_cleared = { L.left_cleared };

    ghost left_called = { L.left_called };

    ghost left_quiet = { L.left_quiet };

    ghost left_steps = { L.left_steps };

    fn open(
        &self,
        alloc: Global,
        owners: u16,
    ) -> Result<(WatchedBook<'x, L, W>, Vec<WatchedShare<L::Share>>), Memory> {
        let (inner, shares) = self.inner.open(alloc, owners)?;
        let shares = numbered(alloc, shares)?;
        let book = WatchedBook {
            inner,
            watch: self.watch,
        };
        Ok((book, shares))
    }

    fn owe(book: &WatchedBook<'x, L, W>, share: &mut WatchedShare<L::Share>, amount: u64) {
        book.watch.before(share.owner, Step::Owe(amount));
        L::owe(&book.inner, &mut share.inner, amount);
    }

    fn clear(book: &WatchedBook<'x, L, W>, share: &mut WatchedShare<L::Share>, amount: u64) {
        book.watch.before(share.owner, Step::Clear(amount));
        L::clear(&book.inner, &mut share.inner, amount);
    }

    fn stop(book: &WatchedBook<'x, L, W>, share: &mut WatchedShare<L::Share>) {
        L::stop(&book.inner, &mut share.inner);
    }

    fn stopped(book: &WatchedBook<'x, L, W>, share: &mut WatchedShare<L::Share>) -> bool {
        L::stopped(&book.inner, &mut share.inner)
    }

    fn leave(
        book: &WatchedBook<'x, L, W>,
        share: WatchedShare<L::Share>,
    ) -> Leave<L::Left, WatchedShare<L::Share>> {
        let WatchedShare { inner, owner } = share;
        match L::leave(&book.inner, inner) {
            Leave::Quiet(left) => Leave::Quiet(left),
            Leave::Stopped(left) => Leave::Stopped(left),
            Leave::Open(inner) => Leave::Open(WatchedShare { inner, owner }),
        }
    }

    fn gather(book: WatchedBook<'x, L, W>, lefts: Vec<L::Left>) -> Totals
        requires count { vec_len lefts ≡ L.owner_count book.inner }
        requires each { (place : ℕ) (left : L.Left) → slice_get lefts.items place ≡ Some left
            → L.left_belongs book.inner left × (L.left_number left ≡ place) }
        ensures owed { result.owed ≡ sum_by L.left_owed lefts.items }
        ensures cleared { result.cleared ≡ sum_by L.left_cleared lefts.items }
        ensures quiet { ((place : ℕ) (left : L.Left)
            → slice_get lefts.items place ≡ Some left → L.left_quiet left ≡ true)
            → result.owed ≡ result.cleared }
        ensures stopped { (place : ℕ) (left : L.Left)
            → slice_get lefts.items place ≡ Some left → L.left_quiet left ≡ false
            → (other : ℕ) × (caller : L.Left)
            × (slice_get lefts.items other ≡ Some caller) × (L.left_called caller ≡ true) }
    {
        let WatchedBook { inner, watch: _ } = book;
        L::gather(inner, lefts)
    }
}
