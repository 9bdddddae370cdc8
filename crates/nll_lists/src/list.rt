//! Reading a whole text that lists items.

ghost use Rattle.std.specs.Prelude.{◌≡◌, map, IfOk, IfErr};
ghost use Rattle.nll_format.specs.Listing.{format_of};
ghost use Rattle.nll_format.specs.Text.{IsFaultOfText, IsRefusal, IsText};

use crate::list_format::ListFormat;
use nll_format::{LineReader, TextError, TextKind, open_text, pass_over, read_lines};
use std::alloc::Global;

/// Reads a text of a format: its items, in the order of their lines.
///
/// # Errors
/// The text's one fault: its first faulty line, and of that line the first kind in the order of
/// `TextKind`; or `Memory` at line 0, where an allocation failed.
///
/// # Cost
/// Time linear in the text, and memory for what it lists; the text isn't copied (not proved).
pub fn read_list<F: ListFormat>(
    alloc: Global,
    format: &F,
    text: &[u8],
) -> Result<Vec<F::Item>, TextError>
    ensures ok { IfOk result (λ list. IsText (format_of (F.listing format.now)) text.now
        (map (F.entry format.now) list.items)) }
    ensures fault { IfErr result
        (IsRefusal (IsFaultOfText (format_of (F.listing format.now)) text.now)) }
{
    let body = open_text(text, format.kind(), format.version())?;
    let mut items = Items::<F> {
        list: Vec::new(alloc),
    };
    if let Err(error) = read_lines(&mut items, format, body) {
        drop(items);
        return Err(error);
    }
    Ok(items.list)
}

// The items of the lines that were read.
#[derive(Drop)]
struct Items<F: ListFormat> {
    list: Vec<F::Item>,
}

impl<'a, F: ListFormat> LineReader<'a, F> for Items<F> {
    ghost format_of = { λ format. format_of (F.listing format) };

    ghost holds = { λ format entries items. entries ≡ map (F.entry format) items.list.items };

    ghost ready = { λ _. Unit {0} };

    fn read_line(&mut self, format: &F, line: &'a [u8]) -> Result<(), TextKind> {
        match format.item(line)? {
            Some(item) => Ok(self.list.push(item)?),
            None => pass_over(line),
        }
    }

    fn has_ended(&self, _format: &F) -> bool {
        true
    }
}
