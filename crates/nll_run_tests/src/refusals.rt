//! A permit that refuses starts, and counts what a run then does.
use super::watches::{Step, Watch};
use nll_run::{Permit, RunError};
use std::alloc::AllocError;
use std::sync::atomic::{AtomicU64, Ordering};
use std::thread;

/// A permit that refuses the starts of some consecutive owners, and counts, as a watch of
/// mailboxes, what a run does.
#[derive(Drop)]
pub struct Refusals {
    // The first owner that is refused, and the last.
    first: usize,
    last: usize,
    // How many posts a refusal waits for, for at most 10,000,000 yields.
    awaited: u64,
    asked: AtomicU64,
    closed: AtomicU64,
    posts: AtomicU64,
    // How often it was asked out of turn, or waited in vain.
    wrong: AtomicU64,
}

impl Refusals {
    /// A permit that wasn't asked yet.
    pub fn new(first: usize, last: usize, awaited: u64) -> Refusals {
        Refusals {
            first,
            last,
            awaited,
            asked: AtomicU64::new(0),
            closed: AtomicU64::new(0),
            posts: AtomicU64::new(0),
            wrong: AtomicU64::new(0),
        }
    }

    /// Writes the answer of a run, how many owners were asked for, how many senders were closed,
    /// and how often an owner was asked for out of turn or a refusal waited in vain.
    pub fn write(&self, out: &mut String, refused: Option<RunError>) -> Result<(), AllocError> {
        let asked = self.asked.load(Ordering::SeqCst);
        let closed = self.closed.load(Ordering::SeqCst);
        let wrong = self.wrong.load(Ordering::SeqCst);
        match refused {
            Some(error) => write!(out, "{error:?} {asked} {closed} {wrong}|"),
            None => write!(out, "ok {asked} {closed} {wrong}|"),
        }
    }

    // Waits until this many posts were begun.
    fn wait(&self) {
        for _ in 0..10_000_000u32 {
            if self.posts.load(Ordering::SeqCst) >= self.awaited {
                return;
            }
            thread::yield_now();
        }
        self.wrong.fetch_add(1, Ordering::SeqCst);
    }
}

impl Permit for Refusals {
    fn may_start(&self, owner: usize) -> bool {
        let before = self.asked.fetch_add(1, Ordering::SeqCst);
        if before != owner as u64 {
            self.wrong.fetch_add(1, Ordering::SeqCst);
        }
        if owner < self.first || self.last < owner {
            return true;
        }
        self.wait();
        false
    }
}

impl Watch for Refusals {
    fn before(&self, _: u16, step: Step) {
        match step {
            Step::Post => {
                self.posts.fetch_add(1, Ordering::SeqCst);
            }
            Step::Close => {
                self.closed.fetch_add(1, Ordering::SeqCst);
            }
            Step::Owe(_) => {}
            Step::Clear(_) => {}
        }
    }
}
