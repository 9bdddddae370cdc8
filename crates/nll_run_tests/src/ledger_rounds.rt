//! Two owners in two threads, many times.

use super::two_owners::Way;
use super::two_threads::{owe_in_two_threads, stop_in_two_threads};
use nll_ledger::{LockLedger, Totals, WordLedger};
use std::test::Fail;

// Two owners in two threads owe and clear 1,000 times 1 each, and their loads, and leave on quiet,
// each of a hundred times.
#[test]
fn a_hundred_rounds_of_two_owners(rt: HostRuntime) -> Result<(), Fail> {
    let totals = Totals {
        owed: 2002,
        cleared: 2002,
    };
    for round in 0..100 {
        let by_lock = owe_in_two_threads(&rt, rt.alloc(), &LockLedger::new(rt), 1000)?;
        let by_words = owe_in_two_threads(&rt, rt.alloc(), &WordLedger, 1000)?;
        let want = (Way::Quiet, Way::Quiet, Some(totals));
        assert_eq!(rt; by_lock, want, "in round {round}");
        assert_eq!(rt; by_words, want, "in round {round}");
    }
    Ok(())
}

// An owner that stops all stops one in another thread, each of a hundred times.
#[test]
fn a_hundred_stops(rt: HostRuntime) -> Result<(), Fail> {
    let totals = Totals {
        owed: 2,
        cleared: 0,
    };
    for round in 0..100 {
        let by_lock = stop_in_two_threads(&rt, rt.alloc(), &LockLedger::new(rt))?;
        let by_words = stop_in_two_threads(&rt, rt.alloc(), &WordLedger)?;
        let want = (Way::Stopped, Way::Stopped, Some(totals));
        assert_eq!(rt; by_lock, want, "in round {round}");
        assert_eq!(rt; by_words, want, "in round {round}");
    }
    Ok(())
}
