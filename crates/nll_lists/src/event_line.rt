//! The lines of a schedule.

ghost use Rattle.nll_format.specs.Parts.{ReadsParts};
ghost use Rattle.nll_lists.specs.ScheduleLines.{event_view};
ghost use Rattle.nll_lists.specs.ScheduleText.{event_parts};

use nll_format::{number, two_numbers};
use nll_text::after_word;

/// A line, with its numbers as they are written.
#[derive(Clone, Copy)]
pub(crate) enum Line {
    Load(u32),
    Take(u32, u32),
    Owe(u32),
    Clear(u32),
    Push(u32, u32),
    Leave(u32),
}

/// Reads a line as one of the forms.
pub(crate) fn line_of(line: &[u8]) -> Option<Line>
    ensures { ReadsParts event_parts event_view line.now result }
{
    if let Some(rest) = after_word(line, b"take") {
        let (owner, from) = two_numbers(rest)?;
        return Some(Line::Take(owner, from));
    }
    if let Some(rest) = after_word(line, b"push") {
        let (owner, to) = two_numbers(rest)?;
        return Some(Line::Push(owner, to));
    }
    if let Some(rest) = after_word(line, b"owe") {
        return Some(Line::Owe(number(rest)?));
    }
    if let Some(rest) = after_word(line, b"clear") {
        return Some(Line::Clear(number(rest)?));
    }
    if let Some(rest) = after_word(line, b"load") {
        return Some(Line::Load(number(rest)?));
    }
    if let Some(rest) = after_word(line, b"leave") {
        return Some(Line::Leave(number(rest)?));
    }
    None
}
