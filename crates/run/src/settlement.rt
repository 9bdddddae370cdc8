//! Settling the mailboxes of a run.

ghost use Rattle.std.specs.Prelude.{◌≡◌, ◌+◌, ◌<◌, ℕ, [], map, vec_len, OnOk, AllPairs};
ghost use Rattle.std.specs.VecDeque.{deque_len};
ghost use Rattle.fixpoint.specs.Logs.{log_of};
ghost use Rattle.run.specs.Delivery.{IsPairBefore};
ghost use Rattle.worker.specs.Mailboxes.{through};
ghost use Rattle.run.specs.Table.{AreEnds, IsEndTable, list_at};
ghost use Rattle.run.specs.Settling.{ArePostsOf, AddsPosts, ComeBefore, InRows};
ghost use Rattle.run.specs.Settling.{AreNext, InRow, LosesFirsts, sent_at, got_by};

use mail::Mail;
use nll_sets::Memory;
use std::collections::VecDeque;

/// Settles all mailboxes, by sender and then by receiver.
///
/// # Errors
/// - `Memory`.
pub fn settle_all<T, M: Mail<T>>(
    rows: VecDeque<VecDeque<Option<M::Closed>>>,
    columns: &mut Vec<VecDeque<Option<M::R>>>,
    owners: u16,
    posts: &mut Vec<M::Post>,
) -> Result<(), Memory>
    requires table { IsEndTable (AreEnds M.closes M.ends) owners owners
        (map (λ c. c.items) rows.items) (map (λ c. c.items) columns.old.items) }
    requires none { posts.old.items ≡ [] }
    ensures posts { OnOk result (ArePostsOf M.Mail
        (sent_at M.all_sent (map (λ c. c.items) rows.items))
        (got_by M.received (map (λ c. c.items) columns.old.items))
        (InRows owners owners) posts.new.items) }
    ensures order { OnOk result (AllPairs IsPairBefore (map M.post_ends posts.new.items)) }
{
    let mut rows = rows;
    for from in 0..owners {
        let Some(row) = rows.pop_front() else {
            unreachable!()
        };
        settle_row::<T, M>(row, columns, from, owners, posts)?;
    }
    Ok(())
}

// Settles the mailboxes of one sender with the first entries of the columns.
fn settle_row<T, M: Mail<T>>(
    row: VecDeque<Option<M::Closed>>,
    columns: &mut Vec<VecDeque<Option<M::R>>>,
    from: u16,
    owners: u16,
    posts: &mut Vec<M::Post>,
) -> Result<(), Memory>
    requires row { deque_len row ≡ owners }
    requires columns { vec_len columns.old ≡ owners }
    requires heads { (j : ℕ) → j < owners → AreNext (AreEnds M.closes M.ends) from j row.items
        (list_at (map (λ c. c.items) columns.old.items) j) }
    requires order { ComeBefore M.post_ends posts.old.items (from, 0) }
    ensures columns { OnOk result (LosesFirsts owners (map (λ c. c.items) columns.old.items)
        (map (λ c. c.items) columns.new.items)) }
    ensures posts { OnOk result (AddsPosts M.Mail
        (λ _ j. log_of (map (through M.all_sent) row.items) j)
        (λ _ j. log_of (map (through M.received)
        (list_at (map (λ c. c.items) columns.old.items) j)) 0)
        (InRow from owners) posts.old.items posts.new.items) }
    ensures order { OnOk result (ComeBefore M.post_ends posts.new.items (from + 1, 0)) }
{
    let mut row = row;
    for to in 0..owners {
        let Some(closed) = row.pop_front() else {
            unreachable!()
        };
        let Some(receiver) = columns[to as usize].pop_front() else {
            unreachable!()
        };
        // From an owner to itself there is no mailbox.
        if let Some(sender) = closed {
            let Some(taker) = receiver else {
                unreachable!()
            };
            posts.push(M::settle(sender, taker))?;
        }
    }
    Ok(())
}
