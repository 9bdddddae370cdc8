//! What a keeper has for the other owners.

ghost use Rattle.std.specs.Prelude.{◌≡◌, ◌≤◌, [], length, take, map, replicate, IfOk, OnOk};
ghost use Rattle.fixpoint.specs.Limits.{most_parts};
ghost use Rattle.keeper.specs.Keeping.{AreDealt, AreParts};

use crate::book::empty_lists;
use crate::engine::Engine;
use nll_sets::Memory;
use std::alloc::Global;

/// For each owner what it receives of a log, up to a place.
#[derive(Drop)]
pub struct Outboxes<G: Copy> {
    pub lists: Vec<Vec<G>>,
    pub place: usize,
}

impl<G: Copy> Outboxes<G> {
    /// An empty list for each of this many owners.
    pub fn new(alloc: Global, owners: u16) -> Result<Outboxes<G>, Memory>
        ensures lists { IfOk result (λ boxes. map (λ list. list.items) boxes.lists.items
            ≡ replicate owners []) }
        ensures place { IfOk result (λ boxes. boxes.place ≡ 0) }
    {
        let lists = empty_lists(alloc, owners)?;
        Ok(Outboxes { lists, place: 0 })
    }
}

/// Looks through the rest of a log, and appends each growth to the lists of those that read it.
pub fn take_up<E: Engine>(
    engine: &E,
    boxes: &mut Outboxes<E::Growth>,
    log: &[E::Growth],
) -> Result<(), Memory>
    requires within { boxes.old.place ≤ length log.now }
    requires few { length boxes.old.lists.items ≤ most_parts }
    requires parts { AreParts E.rules engine.now (take boxes.old.place log.now)
        (map (λ list. list.items) boxes.old.lists.items) }
    ensures place { OnOk result (boxes.new.place ≡ length log.now) }
    ensures parts { OnOk result (AreParts E.rules engine.now log.now
        (map (λ list. list.items) boxes.new.lists.items)) }
{
    while boxes.place < log.len() {
        deal::<E>(engine, &mut boxes.lists, log[boxes.place])?;
        boxes.place += 1;
    }
    Ok(())
}

// Appends a growth to the lists of those that read it.
fn deal<E: Engine>(
    engine: &E,
    lists: &mut Vec<Vec<E::Growth>>,
    growth: E::Growth,
) -> Result<(), Memory>
    requires few { length lists.old.items ≤ most_parts }
    ensures { OnOk result (AreDealt E.rules engine.now growth (length lists.old.items)
        (map (λ list. list.items) lists.old.items) (map (λ list. list.items) lists.new.items)) }
{
    let fact = E::fact(&growth);
    for reader in 0..lists.len() {
        if engine.reads(reader as u16, &fact) {
            let list = &mut lists[reader];
            list.push(growth)?;
        }
    }
    Ok(())
}
