//! Reading a whole schedule.

ghost use Rattle.std.specs.Prelude.{◌≡◌, IfOk, IfErr, MatchResult, None, Some, true, false, nat_lt};
ghost use Rattle.nll_format.specs.Text.{IsFaultOfText, IsRefusal};
ghost use Rattle.nll_lists.specs.ScheduleLines.{first_part, event_view};
ghost use Rattle.nll_lists.specs.ScheduleText.{event_fault, events, schedule, MeansSchedule};

use crate::event_line::{Line, line_of};
use crate::list::read_list;
use crate::list_format::ListFormat;
use nll_format::{TextError, TextKind};
use nll_model::Event;
use std::alloc::Global;

/// Reads a schedule of this many owners, version 1: its events, in order.
///
/// # Errors
/// The text's one fault: its first faulty line, and of that line the first kind in the order of
/// `TextKind`; or `Memory` at line 0, where an allocation failed.
///
/// # Cost
/// Time linear in the text, and memory for what it lists; the text isn't copied (not proved).
pub fn read_schedule(alloc: Global, text: &[u8], owners: u16) -> Result<Vec<Event>, TextError>
    ensures ok { IfOk result (λ list. MeansSchedule owners text.now list.items) }
    ensures fault { IfErr result (IsRefusal (IsFaultOfText (schedule owners) text.now)) }
{
    read_list(alloc, &Schedule { owners }, text)
}

// Schedules of this many owners, version 1.
#[derive(Clone, Copy)]
struct Schedule {
    owners: u16,
}

impl ListFormat for Schedule {
    type Item = Event;

    ghost listing = { λ format. events format.owners };

    ghost entry = { λ _ event. event };

    ghost some_part = { λ _. first_part };

    fn kind(&self) -> &'static [u8] {
        b"nll-schedule"
    }

    fn version(&self) -> &'static [u8] {
        b"1"
    }

    fn item(&self, line: &[u8]) -> Result<Option<Event>, TextKind> {
        match line_of(line) {
            Some(line) => Ok(Some(event_of(line, self.owners)?)),
            None => Ok(None),
        }
    }
}

// The event of a line.
fn event_of(line: Line, owners: u16) -> Result<Event, TextKind>
    ensures { MatchResult result
        (λ event. (event ≡ event_view line) × (event_fault owners (event_view line) ≡ None))
        (λ kind. event_fault owners (event_view line) ≡ Some kind) }
{
    match line {
        Line::Load(owner) => Ok(Event::Load(owner_of(owner, owners)?)),
        Line::Take(owner, from) => {
            let owner = owner_of(owner, owners)?;
            Ok(Event::Take(owner, owner_of(from, owners)?))
        }
        Line::Owe(owner) => Ok(Event::Owe(owner_of(owner, owners)?)),
        Line::Clear(owner) => Ok(Event::Clear(owner_of(owner, owners)?)),
        Line::Push(owner, to) => {
            let owner = owner_of(owner, owners)?;
            Ok(Event::Push(owner, owner_of(to, owners)?))
        }
        Line::Leave(owner) => Ok(Event::Leave(owner_of(owner, owners)?)),
    }
}

// The owner of a number.
fn owner_of(number: u32, owners: u16) -> Result<u16, TextKind>
    ensures { MatchResult result (λ owner. (owner ≡ number) × (nat_lt number owners ≡ true))
        (λ kind. (kind ≡ TextKind.Range) × (nat_lt number owners ≡ false)) }
{
    if number >= u32::from(owners) {
        return Err(TextKind::Range);
    }
    Ok(number as u16)
}
