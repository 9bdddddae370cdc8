//! Where the workers of a run work.

use crate::gate::Gate;
use fixpoint::Analysis;
use ledger::Ledger;
use std::alloc::Global;

/// What all workers of a run share: what they analyse, the gate that they enter, and the ledger's
/// book.
#[derive(Drop)]
pub struct Site<'x, A: Analysis, L: Ledger, G: Gate> {
    pub alloc: Global,
    pub analysis: &'x A,
    pub gate: &'x G,
    pub book: &'x L::Book,
}
