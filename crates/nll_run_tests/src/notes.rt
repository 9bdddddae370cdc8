//! Notes of what two owners do in their turns.
use super::watches::{Step, Watch};
use nll_run::Gate;
use std::alloc::{AllocError, Global};
use std::sync::atomic::{AtomicBool, AtomicU64, Ordering};

/// What one owner did.
#[derive(Drop)]
struct Page {
    // How many growths a turn may receive.
    most: u64,
    turns: AtomicU64,
    owed: AtomicU64,
    posts: AtomicU64,
    cleared: AtomicU64,
    // How often it cleared.
    clears: AtomicU64,
    // Whether it owed, and whether it posted or cleared, in the turn that it's in.
    has_owed: AtomicBool,
    has_acted: AtomicBool,
    // How often a turn began with another number than the next, or after one in which it hadn't
    // cleared once or, where a turn may receive one growth alone, before all was posted that it had
    // owed for; it posted or cleared in a turn in which it hadn't owed; it owed after it had owed,
    // posted or cleared; or it cleared nothing, or more than a turn may receive.
    wrong: AtomicU64,
}

impl Page {
    // An empty page.
    fn new(most: u64) -> Page {
        Page {
            most,
            turns: AtomicU64::new(0),
            owed: AtomicU64::new(0),
            posts: AtomicU64::new(0),
            cleared: AtomicU64::new(0),
            clears: AtomicU64::new(0),
            has_owed: AtomicBool::new(false),
            has_acted: AtomicBool::new(false),
            wrong: AtomicU64::new(0),
        }
    }

    // Notes that a turn of this number begins.
    fn begin(&self, turn: u64) {
        let before = self.turns.fetch_add(1, Ordering::SeqCst);
        self.judge(turn == before.wrapping_add(1));
        self.judge(self.clears.load(Ordering::SeqCst) == before);
        let posts = self.posts.load(Ordering::SeqCst);
        self.judge(self.most > 1 || self.owed.load(Ordering::SeqCst) == posts);
        self.has_owed.store(false, Ordering::SeqCst);
        self.has_acted.store(false, Ordering::SeqCst);
    }

    // Counts what isn't right.
    fn judge(&self, is_right: bool) {
        if !is_right {
            self.wrong.fetch_add(1, Ordering::SeqCst);
        }
    }

    // Notes a step.
    fn step(&self, step: Step) {
        match step {
            Step::Owe(amount) => {
                self.owed.fetch_add(amount, Ordering::SeqCst);
                self.judge(!self.has_owed.load(Ordering::SeqCst));
                self.has_owed.store(true, Ordering::SeqCst);
                self.judge(!self.has_acted.load(Ordering::SeqCst));
            }
            Step::Post => {
                self.posts.fetch_add(1, Ordering::SeqCst);
                self.has_acted.store(true, Ordering::SeqCst);
                self.judge(self.has_owed.load(Ordering::SeqCst));
            }
            Step::Close => {}
            Step::Clear(amount) => {
                self.cleared.fetch_add(amount, Ordering::SeqCst);
                self.clears.fetch_add(1, Ordering::SeqCst);
                self.has_acted.store(true, Ordering::SeqCst);
                self.judge(self.has_owed.load(Ordering::SeqCst));
                self.judge(amount > 0 && amount <= self.most);
            }
        }
    }

    // Writes what was noted, once the last turn has ended.
    fn write(&self, out: &mut String) -> Result<(), AllocError> {
        let turns = self.turns.load(Ordering::SeqCst);
        self.judge(self.clears.load(Ordering::SeqCst) == turns);
        let owed = self.owed.load(Ordering::SeqCst);
        let posts = self.posts.load(Ordering::SeqCst);
        let cleared = self.cleared.load(Ordering::SeqCst);
        let wrong = self.wrong.load(Ordering::SeqCst);
        write!(out, "{owed} {posts} {cleared} {wrong}|")
    }
}

/// Notes of what the owners 0 and 1 did, as a gate and as a watch of mailboxes and ledgers. What
/// another owner does is wrong.
#[derive(Drop)]
pub struct Notes {
    first: Page,
    second: Page,
}

impl Notes {
    /// Empty notes, where a turn may receive this many growths.
    pub fn new(most: u64) -> Notes {
        Notes {
            first: Page::new(most),
            second: Page::new(most),
        }
    }

    /// For each of the two, whose last turn has ended: what it owed besides its load, its posts,
    /// what it cleared, and how often it was wrong: began a turn by a number that wasn't the next,
    /// or, where a turn may receive one growth alone, before it had posted all that it had owed
    /// for; didn't clear once in a turn, or cleared more than a turn may receive; posted or cleared
    /// in a turn in which it hadn't owed; or owed after it had owed, posted or cleared.
    pub fn written(&self, alloc: Global) -> Result<String, AllocError> {
        let mut out = String::new(alloc);
        let first = self.first.write(&mut out);
        let second = self.second.write(&mut out);
        first.and(second).and(Ok(out))
    }
}

impl Gate for Notes {
    fn enter(&self, owner: usize, turn: u64) {
        match owner {
            0 => self.first.begin(turn),
            1 => self.second.begin(turn),
            _ => self.first.judge(false),
        }
    }
}

impl Watch for Notes {
    fn before(&self, owner: u16, step: Step) {
        match owner {
            0 => self.first.step(step),
            1 => self.second.step(step),
            _ => self.first.judge(false),
        }
    }
}
