//! Reading a whole cut file.

ghost use Rattle.std.specs.Prelude.{IfOk, IfErr, [], codes, refl};
ghost use Rattle.nll_format.specs.Parts.{number as number_part};
ghost use Rattle.nll_format.specs.Text.{IsFaultOfText, IsRefusal};
ghost use Rattle.nll_lists.specs.CutText.{cut, owners, MeansCut};

use crate::list::read_list;
use crate::list_format::ListFormat;
use nll_format::{TextError, TextKind, number};
use std::alloc::Global;

/// Reads a cut file, version 1: the owner of each region, in region order.
///
/// # Errors
/// The text's one fault: its first faulty line, and of that line the first kind in the order of
/// `TextKind`; or `Memory` at line 0, where an allocation failed.
///
/// # Cost
/// Time linear in the text, and memory for what it lists; the text isn't copied (not proved).
pub fn read_cut(alloc: Global, text: &[u8]) -> Result<Vec<u16>, TextError>
    ensures ok { IfOk result (λ list. MeansCut text.now list.items) }
    ensures fault { IfErr result (IsRefusal (IsFaultOfText cut text.now)) }
{
    read_list(alloc, &CutFile, text)
}

// Cut files, version 1.
#[derive(Clone, Copy)]
struct CutFile;

impl ListFormat for CutFile {
    type Item = u16;

    ghost listing = { λ _. owners };

    ghost entry = { λ _ n. n };

    ghost some_part = { λ _ n. (number_part n, [], refl) };

    fn kind(&self) -> &'static [u8] {
        b"nll-cut"
    }

    fn version(&self) -> &'static [u8] {
        b"1"
    }

    fn item(&self, line: &[u8]) -> Result<Option<u16>, TextKind> {
        match number(line) {
            None => Ok(None),
            Some(owner) if owner > 65_535 => Err(TextKind::Range),
            Some(owner) => Ok(Some(owner as u16)),
        }
    }
}
