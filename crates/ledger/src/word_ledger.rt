//! Ledgers of two words.
//!
//! Each call of a share is one atomic step on one of the words, `leave` two at most, and changes
//! the share's account by the same. What the rule of the words knows of the share is its account;
//! so where all shares have left, and their seats are put together, the account of all is what the
//! rule knows of the whole.

ghost use Rattle.std.specs.Prelude.{◌≡◌, ◌+◌, ◌-◌, ◌<◌, ◌≤◌, ℕ, [], ◌∷◌, cond, false, true};
ghost use Rattle.std.specs.Prelude.{Some, slice_get, vec_capacity, vec_len};
ghost use Rattle.std.specs.List.{sum_by};
ghost use Rattle.ledger.specs.Figures.{figures, quieting, staying};
ghost use Rattle.ledger.specs.WordShares.{IsNewShare, IsWordLeft, IsWordShare};
ghost use Rattle.ledger.specs.declared.word_book.WordLeft.{WordLeft};
ghost use Rattle.ledger.specs.declared.word_book.WordShare.{WordShare};
ghost use Rattle.ledger.specs.declared.step.LedgerStep.TheVariants.{FlagSeen};

use crate::figures::{Account, NOTHING_OWED};
use crate::ledger::{Leave, Ledger, Totals};
use crate::word_book::{WordBook, WordLeft, WordShare};
use crate::word_rule::{
    BALANCE, Clears, Concludes, Deals, FLAG, Gathers, Leaves, Looks, Owes, Stops, WordSeat, Words,
};
use nll_sets::Memory;
use std::alloc::Global;

/// Ledgers of two atomic words, the balance and the stop flag. No call waits.
///
/// # Cost
/// A call of a share takes one atomic step, `leave` two at most; `open` and `gather` take a step
/// for each owner (neither is proved). `open` alone asks for memory.
#[derive(Clone, Copy, Debug, PartialEq, Eq)]
pub struct WordLedger;

impl WordLedger {
    /// Ledgers of two words. Each book is made by `open`.
    pub fn new() -> WordLedger
        ensures { result ≡ record {} }
    {
        WordLedger
    }
}

// A share of this number, which has done nothing yet.
fn share_of(number: u16, seat: WordSeat) -> WordShare
    requires some { 0 < seat.me.0.parts }
    requires knows { seat.me ≡ (figures seat.me.0.parts 1 0 0 0 0 seat.me.0.steps, []) }
    ensures account { (result.account.number ≡ number)
        × (result.account.owed ≡ 1) × (result.account.cleared ≡ 0)
        × (result.account.called ≡ false) × (result.marked ≡ false) }
    ensures seat { result.seat ≡ seat }
{
    let account = Account {
        number,
        owed: 1,
        cleared: 0,
        called: false,
    };
    WordShare {
        account,
        marked: false,
        seat,
    }
}

// Deals a share to each owner. The last one keeps the first seat.
fn deal(book: &WordBook, seat: WordSeat, shares: &mut Vec<WordShare>)
    requires seat { seat.table_id ≡ book.now.table.shared.table_id }
    requires rest { seat.me ≡ (figures 64 book.now.owners 0 0 0 0 [], []) }
    requires room { (shares.old.items ≡ []) × (book.now.owners ≤ vec_capacity shares.old) }
    ensures count { vec_len shares.new ≡ book.now.owners }
    ensures shares { (place : ℕ) (share : WordShare)
        → slice_get shares.new.items place ≡ Some share → IsNewShare book.now place share }
{
    let mut seat = seat;
    let last = book.owners - 1;
    for number in 0..last {
        let other = book.table.shared.split_seat::<Deals>(&mut seat);
        shares.push_reserved(share_of(number, other));
    }
    shares.push_reserved(share_of(last, seat));
}

// Looks at the flag. Answers whether it is set.
fn look(book: &WordBook, share: &mut WordShare) -> bool
    requires share { IsWordShare book.now share.old }
    ensures share { IsWordShare book.now share.new }
    ensures account { share.new.account ≡ share.old.account }
    ensures marks { share.new.marked ≡ result }
    ensures told { share.old.marked ≡ true → result ≡ true }
    ensures step { share.new.seat.me.0.steps ≡ FlagSeen result ∷ share.old.seat.me.0.steps }
{
    let found = book.table.shared.load::<Looks>(&mut share.seat, FLAG);
    share.marked = found != 0;
    found != 0
}

// Looks at the balance. Answers whether it is 0.
fn weigh(book: &WordBook, seat: &mut WordSeat) -> bool
    requires { seat.old.table_id ≡ book.now.table.shared.table_id }
    ensures book { seat.new.table_id ≡ seat.old.table_id }
    ensures then { seat.new.me
        ≡ (cond result (quieting seat.old.me.0) (staying seat.old.me.0), seat.old.me.1) }
{
    book.table.shared.load::<Leaves>(seat, BALANCE) == NOTHING_OWED
}

impl Ledger for WordLedger {
    ghost use Rattle.std.specs.Prelude.{◌≡◌, ℕ, Some, false, slice_get, true, vec_len};
    ghost use Rattle.std.specs.List.{sum_by};
    ghost use Rattle.ledger.specs.WordShares.{IsWordLeft, IsWordShare};
    ghost use Rattle.ledger.specs.declared.word_book.WordLeft.{WordLeft};

    type Book = WordBook;

    type Share = WordShare;

    type Left = WordLeft;

    ghost owner_count = { λ book. book.owners };

    ghost belongs = { IsWordShare };

    ghost number = { λ share. share.account.number };

    ghost owed = { λ share. share.account.owed };

    ghost cleared = { λ share. share.account.cleared };

    ghost called = { λ share. share.account.called };

    ghost marked = { λ share. share.marked };

    ghost steps = { λ share. share.seat.me.0.steps };

    ghost left_belongs = { IsWordLeft };

    ghost left_number = { λ left. left.account.number };

    ghost left_owed = { λ left. left.account.owed };

    ghost left_cleared = { λ left. left.account.cleared };

    ghost left_called = { λ left. left.account.called };

    ghost left_quiet = { λ left. left.quiet };

    ghost left_steps = { λ left. left.seat.me.0.steps };

    fn open(&self, alloc: Global, owners: u16) -> Result<(WordBook, Vec<WordShare>), Memory> {
        let mut shares = Vec::with_capacity(alloc, owners as usize)?;
        let owed = owners as u64;
        let (table, seat) = Words::of_words(alloc, &[NOTHING_OWED + owed, 0], &owed)?;
        let book = WordBook { table, owners };
        deal(&book, seat, &mut shares);
        Ok((book, shares))
    }

    fn owe(book: &WordBook, share: &mut WordShare, amount: u64) {
        book.table
            .shared
            .fetch_add::<Owes>(&mut share.seat, BALANCE, amount);
        share.account.owed += amount;
    }

    fn clear(book: &WordBook, share: &mut WordShare, amount: u64) {
        book.table
            .shared
            .fetch_sub::<Clears>(&mut share.seat, BALANCE, amount);
        share.account.cleared += amount;
    }

    fn stop(book: &WordBook, share: &mut WordShare) {
        book.table
            .shared
            .fetch_or::<Stops>(&mut share.seat, FLAG, 1);
        share.account.called = true;
        share.marked = true;
    }

    fn stopped(book: &WordBook, share: &mut WordShare) -> bool {
        look(book, share)
    }

    fn leave(book: &WordBook, share: WordShare) -> Leave<WordLeft, WordShare> {
        let mut share = share;
        if look(book, &mut share) {
            let WordShare { account, seat, .. } = share;
            return Leave::Stopped(WordLeft {
                account,
                quiet: false,
                seat,
            });
        }
        let WordShare {
            account,
            marked,
            mut seat,
        } = share;
        if weigh(book, &mut seat) {
            Leave::Quiet(WordLeft {
                account,
                quiet: true,
                seat,
            })
        } else {
            Leave::Open(WordShare {
                account,
                marked,
                seat,
            })
        }
    }

    fn gather(book: WordBook, lefts: Vec<WordLeft>) -> Totals
        requires count { vec_len lefts ≡ book.owners }
        requires each { (place : ℕ) (left : WordLeft) → slice_get lefts.items place ≡ Some left
            → IsWordLeft book left × (left.account.number ≡ place) }
        ensures owed { result.owed ≡ sum_by (λ (left : WordLeft). left.account.owed) lefts.items }
        ensures cleared { result.cleared
            ≡ sum_by (λ (left : WordLeft). left.account.cleared) lefts.items }
        ensures quiet { ((place : ℕ) (left : WordLeft)
            → slice_get lefts.items place ≡ Some left → left.quiet ≡ true)
            → result.owed ≡ result.cleared }
        ensures stopped { (place : ℕ) (left : WordLeft)
            → slice_get lefts.items place ≡ Some left → left.quiet ≡ false
            → (other : ℕ) × (caller : WordLeft)
            × (slice_get lefts.items other ≡ Some caller) × (caller.account.called ≡ true) }
    {
        let mut lefts = lefts;
        let Some(last) = lefts.pop() else {
            unreachable!()
        };
        let WordLeft {
            account,
            mut seat,
            ..
        } = last;
        let mut owed = account.owed;
        let mut cleared = account.cleared;
        while let Some(left) = lefts.pop() {
            owed += left.account.owed;
            cleared += left.account.cleared;
            book.table.shared.join_seat::<Gathers>(&mut seat, left.seat);
        }
        book.table.shared.load::<Concludes>(&mut seat, BALANCE);
        Totals { owed, cleared }
    }
}
