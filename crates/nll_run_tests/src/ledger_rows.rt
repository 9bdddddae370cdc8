//! Rows of calls on ledgers of both kinds, through the bound of all ledgers.

ghost use Rattle.std.specs.Prelude.{◌≡◌, ◌<◌};
ghost use Rattle.ledger.specs.Amounts.{amount_bound};

use super::many_owners::all_leave;
use super::two_owners::{Way, leave_both, open_two, owe_and_stay, stop_and_look, try_to_leave};
use nll_ledger::{LockLedger, ThreadLedger, Totals, WordLedger};
use nll_sets::Memory;
use std::alloc::Global;
use std::test::Fail;

// The outcome if the second owner would leave too early, then clears what the first one owed,
// and both leave.
fn told_on_quiet<L: ThreadLedger>(
    alloc: Global,
    ledger: &L,
) -> Result<(Way, Option<(Way, Way, Option<Totals>)>), Memory> {
    let (book, mut first, second) = open_two(alloc, ledger)?;
    let (early, back) = owe_and_stay::<L>(&book, &mut first, second);
    let Some(mut second) = back else {
        return Ok((early, None));
    };
    L::clear(&book, &mut second, 3);
    let told = leave_both::<L>(alloc, book, first, second)?;
    Ok((early, Some(told)))
}

// A share may not leave while something is owed. Where all is cleared both leave on quiet, and what
// was owed is what was cleared: 1, 1 and 3.
#[test]
fn both_leave_on_quiet(rt: HostRuntime) -> Result<(), Fail> {
    let by_lock = told_on_quiet(rt.alloc(), &LockLedger::new(rt))?;
    let by_words = told_on_quiet(rt.alloc(), &WordLedger::new())?;
    let totals = Totals {
        owed: 5,
        cleared: 5,
    };
    let want = (Way::Open, Some((Way::Quiet, Way::Quiet, Some(totals))));
    assert_eq!(rt; by_lock, want);
    assert_eq!(rt; by_words, want);
    Ok(())
}

// The outcome if the first owner stops all before the second has cleared what is owed.
fn told_on_stop<L: ThreadLedger>(
    alloc: Global,
    ledger: &L,
) -> Result<(Way, Option<(bool, bool, Way, Way)>), Memory> {
    let (book, mut first, second) = open_two(alloc, ledger)?;
    let (early, back) = owe_and_stay::<L>(&book, &mut first, second);
    let Some(mut second) = back else {
        return Ok((early, None));
    };
    let (before, then) = stop_and_look::<L>(&book, &mut first, &mut second);
    let (first_way, second_way, _) = leave_both::<L>(alloc, book, first, second)?;
    Ok((early, Some((before, then, first_way, second_way))))
}

// A share finds the flag only where it was set, and then all leave as stopped, at a balance of 0
// too.
#[test]
fn all_stop(rt: HostRuntime) -> Result<(), Fail> {
    let by_lock = told_on_stop(rt.alloc(), &LockLedger::new(rt))?;
    let by_words = told_on_stop(rt.alloc(), &WordLedger)?;
    let want = (Way::Open, Some((false, true, Way::Stopped, Way::Stopped)));
    assert_eq!(rt; by_lock, want);
    assert_eq!(rt; by_words, want);
    Ok(())
}

// The outcome if the first owner stops all at a balance of 0, and the second leaves without a
// look before.
fn told_on_late_stop<L: ThreadLedger>(
    alloc: Global,
    ledger: &L,
) -> Result<(Way, Way, Option<Totals>), Memory> {
    let (book, mut first, mut second) = open_two(alloc, ledger)?;
    L::clear(&book, &mut first, 1);
    L::clear(&book, &mut second, 1);
    L::stop(&book, &mut first);
    leave_both::<L>(alloc, book, first, second)
}

// The flag is looked at before the balance.
#[test]
fn flag_goes_before_the_balance(rt: HostRuntime) -> Result<(), Fail> {
    let by_lock = told_on_late_stop(rt.alloc(), &LockLedger::new(rt))?;
    let by_words = told_on_late_stop(rt.alloc(), &WordLedger)?;
    let totals = Totals {
        owed: 2,
        cleared: 2,
    };
    let want = (Way::Stopped, Way::Stopped, Some(totals));
    assert_eq!(rt; by_lock, want);
    assert_eq!(rt; by_words, want);
    Ok(())
}

// What the second owner is told, which has owed and cleared nothing, after the first one cleared so
// much and stopped all: by `stopped`, if it looks, and as it leaves. If it is early, it would have
// left before. `None` if it could.
fn told_when_fresh<L: ThreadLedger>(
    alloc: Global,
    ledger: &L,
    cleared: u64,
    early: bool,
    looks: bool,
) -> Result<Option<(bool, Way)>, Memory>
    requires { cleared < amount_bound }
{
    let (book, mut first, second) = open_two(alloc, ledger)?;
    let back = if early {
        try_to_leave::<L>(&book, second).2
    } else {
        Some(second)
    };
    let Some(mut second) = back else {
        return Ok(None);
    };
    L::clear(&book, &mut first, cleared);
    L::stop(&book, &mut first);
    let told = looks && L::stopped(&book, &mut second);
    let (way, _, _) = try_to_leave::<L>(&book, second);
    Ok(Some((told, way)))
}

// A share that has owed and cleared nothing finds a stop by `stopped` and by `leave`, at a balance
// of 2 and of 0, also after it would have left.
#[test]
fn a_fresh_share_finds_a_stop(rt: HostRuntime) -> Result<(), Fail> {
    let rows = [
        (0, false, false),
        (0, false, true),
        (0, true, false),
        (0, true, true),
        (2, false, false),
        (2, false, true),
        (2, true, false),
        (2, true, true),
    ];
    for (cleared, early, looks) in rows {
        let lock = LockLedger::new(rt);
        let by_lock = told_when_fresh(rt.alloc(), &lock, cleared, early, looks)?;
        let by_words = told_when_fresh(rt.alloc(), &WordLedger, cleared, early, looks)?;
        let want = Some((looks, Way::Stopped));
        assert_eq!(rt; by_lock, want, "at {cleared} {early} {looks}");
        assert_eq!(rt; by_words, want, "at {cleared} {early} {looks}");
    }
    Ok(())
}

// As many owners as there may be clear their loads and leave on quiet.
#[test]
fn sixty_four_owners_leave(rt: HostRuntime) -> Result<(), Fail> {
    let by_lock = all_leave(rt.alloc(), &LockLedger::new(rt), 64)?;
    let by_words = all_leave(rt.alloc(), &WordLedger, 64)?;
    let totals = Totals {
        owed: 64,
        cleared: 64,
    };
    assert_eq!(rt; by_lock, Some(totals));
    assert_eq!(rt; by_words, Some(totals));
    Ok(())
}

// So does a single one.
#[test]
fn one_owner_leaves(rt: HostRuntime) -> Result<(), Fail> {
    let by_lock = all_leave(rt.alloc(), &LockLedger::new(rt), 1)?;
    let by_words = all_leave(rt.alloc(), &WordLedger, 1)?;
    let totals = Totals {
        owed: 1,
        cleared: 1,
    };
    assert_eq!(rt; by_lock, Some(totals));
    assert_eq!(rt; by_words, Some(totals));
    Ok(())
}
