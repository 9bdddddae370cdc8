//! What an owner keeps for the other owners.

ghost use Rattle.std.specs.Prelude.{◌≡◌, ◌≢◌, ◌+◌, ◌-◌, ◌<◌, ◌≤◌, ℕ, true, [], length, replicate};
ghost use Rattle.std.specs.Prelude.{IfOk, OnOk, IfSome, IfNone, Some, drop, slice_get, slice_set};
ghost use Rattle.std.specs.Prelude.{◌^◌, ◌++◌, OnErr};
ghost use Rattle.std.specs.List.{range_with_len};
ghost use Rattle.nll_problem.specs.Limits.{most_owners};
ghost use Rattle.nll_cut.specs.Readers.{is_read};
ghost use Rattle.nll_mail.specs.declared.growth.Growth.{Growth};
ghost use Rattle.nll_owner.specs.Owner.{Owner};
ghost use Rattle.nll_owner.specs.Outboxes.{AreQueued, AreAllQueued, GotPlaces, TellsAs};
ghost use Rattle.nll_owner.specs.Outboxes.{outboxes_of, queue_of};

use nll_cut::Readers;
use nll_mail::Growth;
use nll_problem::RegionId;
use nll_sets::Memory;
use std::alloc::Global;
use std::marker::Model;

/// Consecutive indices of a log: from the first one to before the end.
#[derive(Clone, Copy)]
pub struct Places {
    pub first: usize,
    pub end: usize,
}

/// A queue of indices of a log. Contracts see it as the list of them.
///
/// # Cost
/// 16 bytes for indices that are appended at once; they are used again when nothing is left. A call
/// takes the same time, however many indices there are (neither is proved).
#[derive(Drop)]
pub struct Outbox {
    ranges: Vec<Places>,
    // The first range of which an index is left.
    at: usize,
    len: u64,
}

impl Model for Outbox {
    ghost use Rattle.std.specs.Prelude.{ℕ, List};
    ghost use Rattle.nll_owner.specs.Outboxes.{IsQueue, queued};

    ghost Value = { List ℕ };

    ghost view = { λ outbox. queued outbox.ranges.items outbox.at };

    ghost invariant = { λ outbox. IsQueue outbox.ranges.items outbox.at outbox.len };
}

impl Outbox {
    /// No index.
    pub fn empty(alloc: Global) -> Outbox
        ensures { result ≡ [] }
    {
        Outbox {
            ranges: Vec::new(alloc),
            at: 0,
            len: 0,
        }
    }

    /// Appends indices.
    pub fn push(&mut self, places: Places) -> Result<(), Memory>
        requires proper { places.first < places.end }
        requires room { length self.old + (places.end - places.first) < 2 ^ 64 }
        ensures ok { OnOk result (self.new
            ≡ self.old ++ range_with_len places.first (places.end - places.first)) }
        ensures err { OnErr result (self.new ≡ self.old) }
    {
        self.reset();
        self.ranges.push(places)?;
        self.len += (places.end - places.first) as u64;
        Ok(())
    }

    // Frees the ranges, if no index is left.
    fn reset(&mut self)
        ensures { self.new ≡ self.old }
    {
        if self.at >= self.ranges.len() {
            self.ranges.clear();
            self.at = 0;
        }
    }

    /// The first index.
    pub fn first(&self) -> Option<usize>
        ensures { result ≡ slice_get self.now 0 }
    {
        if self.at >= self.ranges.len() {
            return None;
        }
        Some(self.ranges[self.at].first)
    }

    /// Removes the first index.
    pub fn pop(&mut self)
        requires { 0 < length self.old }
        ensures { self.new ≡ drop 1 self.old }
    {
        let Places { first, end } = self.ranges[self.at];
        if first + 1 < end {
            self.ranges[self.at] = Places {
                first: first + 1,
                end,
            };
        } else {
            self.at += 1;
        }
        self.len -= 1;
    }

    /// How many indices there are.
    pub fn len(&self) -> u64
        ensures { result ≡ length self.now }
    {
        self.len
    }
}

/// For each owner the indices in a log of what is still to be sent to it.
#[derive(Drop)]
pub struct Outboxes {
    queues: Vec<Outbox>,
    // How much of the log was looked through.
    place: usize,
}

impl Model for Outboxes {
    ghost use Rattle.nll_owner.specs.Outboxes as spec;
    ghost use Rattle.nll_owner.specs.Outboxes.{AreQueues, outboxes_of};

    ghost Value = { spec.Outboxes };

    ghost view = { λ outboxes. outboxes_of outboxes.queues.items outboxes.place };

    ghost invariant = { λ outboxes.
        AreQueues (outboxes_of outboxes.queues.items outboxes.place) };
}

impl Outboxes {
    /// An empty queue for each of this many owners.
    pub fn new(alloc: Global, owners: u16) -> Result<Outboxes, Memory>
        requires { owners ≤ most_owners }
        ensures { IfOk result (λ outboxes. outboxes ≡ outboxes_of (replicate owners []) 0) }
    {
        let mut queues = Vec::new(alloc);
        for _ in 0..owners {
            queues.push(Outbox::empty(alloc))?;
        }
        Ok(Outboxes { queues, place: 0 })
    }

    /// Looks through the rest of a log, and appends the index of each growth to the queues of those
    /// that read its region.
    ///
    /// # Cost
    /// A look at each growth, and one step for consecutive growths of one region and each reader of
    /// that region (not proved).
    pub fn take_up(&mut self, readers: &Readers, log: &[Growth]) -> Result<(), Memory>
        requires within { self.old.place ≤ length log.now }
        requires owners { (j r : ℕ) → is_read readers.now j r ≡ true → j < length self.old.queues }
        ensures { OnOk result ((o : Owner) → o.log ≡ log.now → TellsAs o readers.now
            → AreQueued o self.old → AreAllQueued o self.new) }
    {
        while self.place < log.len() {
            let region = log[self.place].region;
            let end = region_end(log, region, self.place);
            self.queue(readers, region, end)?;
        }
        Ok(())
    }

    // Appends the indices up to the end to the queues of those that read a region.
    fn queue(&mut self, readers: &Readers, region: RegionId, end: usize) -> Result<(), Memory>
        requires place { self.old.place < end }
        requires owners { (j r : ℕ) → is_read readers.now j r ≡ true → j < length self.old.queues }
        ensures count { length self.new.queues ≡ length self.old.queues }
        ensures place { self.new.place ≡ end }
        ensures got { OnOk result (GotPlaces (λ j. is_read readers.now j region)
            (range_with_len self.old.place (end - self.old.place))
            (length self.old.queues) self.old self.new) }
    {
        let places = Places {
            first: self.place,
            end,
        };
        self.place = end;
        let mut from = 0;
        while let Some(reader) = readers.next_reader(region, from) {
            self.queues[reader as usize].push(places)?;
            from = reader + 1;
        }
        Ok(())
    }

    /// The index of the next growth for an owner.
    pub fn first(&self, to: u16) -> Option<usize>
        ensures { result ≡ slice_get (queue_of self.now to) 0 }
    {
        if to as usize >= self.queues.len() {
            return None;
        }
        self.queues[to as usize].first()
    }

    /// The index of the next growth for an owner, which is removed.
    pub fn take(&mut self, to: u16) -> Option<usize>
        ensures first { result ≡ slice_get (queue_of self.old to) 0 }
        ensures some { IfSome result (λ _. self.new ≡ record self.old {
          queues = slice_set self.old.queues to (drop 1 (queue_of self.old to));
        }) }
        ensures none { IfNone result (self.new ≡ self.old) }
    {
        let place = self.first(to)?;
        self.queues[to as usize].pop();
        Some(place)
    }

    /// How many indices there are for an owner.
    pub fn len(&self, to: u16) -> u64
        ensures { result ≡ length (queue_of self.now to) }
    {
        if to as usize >= self.queues.len() {
            return 0;
        }
        self.queues[to as usize].len()
    }
}

// The end of the growths of a region that are in a log from an index on.
fn region_end(log: &[Growth], region: RegionId, place: usize) -> usize
    requires within { place < length log.now }
    requires here { (g : Growth) → slice_get log.now place ≡ Some g → g.region ≡ region }
    ensures above { place < result }
    ensures within { result ≤ length log.now }
    ensures same { (k : ℕ) (g : Growth) → place ≤ k → k < result
        → slice_get log.now k ≡ Some g → g.region ≡ region }
{
    for end in place + 1..log.len() {
        if log[end].region != region {
            return end;
        }
    }
    log.len()
}
