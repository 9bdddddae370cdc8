//! Cut files and schedules: texts that list something, one a line.
use super::line::Line;
use super::slow::Said;
use super::tokens::is;
use nll_format::TextKind::{Range, Syntax};
use std::alloc::Global;

/// The owners that the lines of a cut file name.
#[derive(Drop)]
pub struct Cut {
    owners: String,
}

impl Cut {
    /// No line says anything.
    pub fn new(alloc: Global) -> Cut {
        Cut {
            owners: String::new(alloc),
        }
    }
}

impl<'a> Said<'a> for Cut {
    fn begin(&mut self, version: &str) -> bool {
        version == "1"
    }

    fn read(&mut self, line: &mut Line<'a>) {
        let owner = line.number("");
        line.wrong_if(owner > 65_535, Range);
        let _ = write!(self.owners, "{owner}|");
    }

    fn may_stop(&self) -> bool {
        true
    }

    fn write(&self, out: &mut String) {
        let _ = out.push_str(self.owners.as_str());
    }
}

/// The events that the lines of a schedule of this many owners list.
#[derive(Drop)]
pub struct Schedule {
    owners: u16,
    events: String,
}

impl Schedule {
    /// No line says anything.
    pub fn new(alloc: Global, owners: u16) -> Schedule {
        Schedule {
            owners,
            events: String::new(alloc),
        }
    }

    // The number of an owner.
    fn owner(&self, line: &mut Line<'_>) -> u64 {
        let owner = line.number("");
        line.wrong_if(owner >= u64::from(self.owners), Range);
        owner
    }
}

// Events, how each is shown, and whether it has two owners.
const EVENTS: &[(&str, &str, bool)] = &[
    ("load", "Load", false),
    ("take", "Take", true),
    ("owe", "Owe", false),
    ("clear", "Clear", false),
    ("push", "Push", true),
    ("leave", "Leave", false),
];

// The event of a word: how it is shown, and whether it has two owners.
fn event_of(word: &[u8]) -> Option<(&'static str, bool)> {
    for (known, shown, is_pair) in EVENTS {
        if is(word, known) {
            return Some((shown, *is_pair));
        }
    }
    None
}

impl<'a> Said<'a> for Schedule {
    fn begin(&mut self, version: &str) -> bool {
        version == "1"
    }

    fn read(&mut self, line: &mut Line<'a>) {
        let event = event_of(line.take());
        line.wrong_if(event.is_none(), Syntax);
        let (shown, is_pair) = event.unwrap_or(("none", false));
        let first = self.owner(line);
        let _ = write!(self.events, "{shown}({first}");
        if is_pair {
            let second = self.owner(line);
            let _ = write!(self.events, ", {second}");
        }
        let _ = self.events.push_str(")|");
    }

    fn may_stop(&self) -> bool {
        true
    }

    fn write(&self, out: &mut String) {
        let _ = out.push_str(self.events.as_str());
    }
}
