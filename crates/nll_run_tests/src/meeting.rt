//! Two owners that meet.
use super::watches::{Step, Watch};
use nll_run::Gate;
use std::sync::atomic::{AtomicBool, AtomicU64, Ordering};
use std::thread;

/// A place where the owners 0 and 1 meet, again and again. Whoever comes there waits for the other,
/// but not for ever.
///
/// As a gate it makes them meet in as many turns as it is made for; as a watch of mailboxes, at as
/// many posts.
#[derive(Drop)]
pub struct Meeting {
    times: u64,
    first: AtomicU64,
    second: AtomicU64,
    missed: AtomicBool,
}

impl Meeting {
    /// A place for this many meetings, to which none has come.
    pub fn new(times: u64) -> Meeting {
        Meeting {
            times,
            first: AtomicU64::new(0),
            second: AtomicU64::new(0),
            missed: AtomicBool::new(false),
        }
    }

    /// Whether the two met each time, and none of them waited in vain.
    pub fn met(&self) -> bool {
        !self.missed.load(Ordering::SeqCst)
            && self.first.load(Ordering::SeqCst) == self.times
            && self.second.load(Ordering::SeqCst) == self.times
    }

    // Makes an owner come to its next meeting, and wait for the other.
    fn come(&self, owner: usize) {
        match owner {
            0 => self.wait(&self.first, &self.second),
            1 => self.wait(&self.second, &self.first),
            _ => {}
        }
    }

    // Notes that an owner has come, and waits for the other, unless all meetings are over.
    fn wait(&self, mine: &AtomicU64, other: &AtomicU64) {
        let number = mine.load(Ordering::SeqCst).saturating_add(1);
        if number > self.times {
            return;
        }
        mine.store(number, Ordering::SeqCst);
        for _ in 0..10_000_000u32 {
            if other.load(Ordering::SeqCst) >= number || self.missed.load(Ordering::SeqCst) {
                return;
            }
            thread::yield_now();
        }
        self.missed.store(true, Ordering::SeqCst);
    }
}

impl Gate for Meeting {
    fn enter(&self, owner: usize, _: u64) {
        self.come(owner);
    }
}

impl Watch for Meeting {
    fn before(&self, owner: u16, step: Step) {
        if step == Step::Post {
            self.come(owner as usize);
        }
    }
}
