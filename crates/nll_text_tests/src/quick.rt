//! What the readers of the program say of texts, as text.
use super::slow::{write_counts, write_fault};
use nll_facts::read_facts;
use nll_lists::{read_cut, read_schedule};
use nll_mir_text::read_mir;
use std::alloc::Global;

/// Writes how much a facts text has, or its fault.
pub fn write_facts(alloc: Global, out: &mut String, text: &[u8]) {
    match read_facts(alloc, text) {
        Ok(facts) => {
            let universals = facts.problem.universals() as usize;
            let regions = (facts.problem.regions() as usize, universals);
            write_counts(out, u64::from(facts.problem.points()), regions, 0);
        }
        Err(error) => write_fault(out, error.line, error.kind),
    }
}

/// Writes how much a MIR text has, or its fault.
pub fn write_mir(alloc: Global, out: &mut String, text: &[u8]) {
    match read_mir(alloc, text) {
        Ok(body) => {
            let regions = (body.regions(), body.universals() as usize);
            write_counts(out, u64::from(body.points()), regions, body.variables());
        }
        Err(error) => write_fault(out, error.line, error.kind),
    }
}

/// Writes the owners that a cut file names, or its fault.
pub fn write_cut(alloc: Global, out: &mut String, text: &[u8]) {
    match read_cut(alloc, text) {
        Ok(owners) => {
            for owner in owners.as_slice() {
                let _ = write!(out, "{owner}|");
            }
        }
        Err(error) => write_fault(out, error.line, error.kind),
    }
}

/// Writes the events that a schedule of this many owners lists, or its fault.
pub fn write_schedule(alloc: Global, out: &mut String, text: &[u8], owners: u16) {
    match read_schedule(alloc, text, owners) {
        Ok(events) => {
            for event in events.as_slice() {
                let _ = write!(out, "{event:?}|");
            }
        }
        Err(error) => write_fault(out, error.line, error.kind),
    }
}
