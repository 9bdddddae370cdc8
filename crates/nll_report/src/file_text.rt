//! What follows from the text of a file, and from a file that can't be read.
ghost use Rattle.std.specs.Prelude.{◌≡◌, IfErr, IfOk, length, string_bytes};
ghost use Rattle.nll_report.specs.Owners.{IsFileMeaning};
ghost use Rattle.nll_report.specs.Run.{IsFileRefused};

use crate::error::Unread;
use crate::messages::Refusal;
use crate::program::Texts;
use nll_answer::read_meaning;
use nll_facts::Facts;
use std::alloc::Global;

/// The problem that the text of a file means, with its labels.
pub(crate) fn facts_of<T: Texts>(alloc: Global, file: String, texts: &T) -> Result<Facts, Refusal>
    ensures ok { IfOk result (λ facts. IsFileMeaning (T.holds texts.now) (string_bytes file)
        facts.problem facts.labels) }
    ensures named { IfOk result (λ facts. length facts.labels.names ≡ facts.problem.regions) }
    ensures err { IfErr result
        (IsFileRefused (T.holds texts.now) (T.lacks texts.now) (string_bytes file)) }
{
    match texts.get(file.as_str()) {
        Ok(text) => Ok(read_meaning(alloc, text)?),
        Err(unread) => Err(without_text(unread, file)),
    }
}

/// The refusal of a file of which no text is given.
pub(crate) fn without_text(unread: Unread, file: String) -> Refusal
    ensures cannot { unread ≡ Unread.Cannot → result ≡ Refusal.CannotRead file }
    ensures memory { unread ≡ Unread.Memory → result ≡ Refusal.Memory }
{
    match unread {
        Unread::Cannot => Refusal::CannotRead(file),
        Unread::Memory => Refusal::Memory,
    }
}
