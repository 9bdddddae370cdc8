//! Reading a whole facts text.

ghost use Rattle.std.specs.Prelude.{IfOk, IfErr, MatchOption};
ghost use Rattle.nll_format.specs.Text.{IsFormatHeader, IsRefusal};
ghost use Rattle.nll_facts.specs.FactsText.{facts, IsFactsFault, MeansFacts};
ghost use Rattle.nll_facts.specs.declared.version.Version.{Version as versions};

use crate::reader::Reader;
use crate::version::Version;
use nll_format::{Labels, TextError, TextKind, first_line, read_lines};
use nll_problem::Problem;
use nll_text::is_header;
use std::alloc::Global;

/// A problem and the names that its text gives to regions and points.
#[derive(Drop)]
pub struct Facts {
    pub problem: Problem,
    pub labels: Labels,
}

// The version of facts texts of which a line is the header.
fn header_version(line: &[u8]) -> Option<Version>
    ensures { MatchOption result ((version : versions) → IsFormatHeader (facts version) line.now
        → ⊥) (λ version. IsFormatHeader (facts version) line.now) }
{
    if is_header(line, b"nll-facts", b"1") {
        return Some(Version::First);
    }
    if is_header(line, b"nll-facts", b"2") {
        return Some(Version::Second);
    }
    None
}

/// Reads a facts text, of version 1 or 2 by its header.
///
/// # Errors
/// The text's one fault: its first faulty line, and of that line the first kind in the order of
/// `TextKind`; or `Memory` at line 0, where an allocation failed.
///
/// # Cost
/// Time linear in the text, and memory for what it says; the text isn't copied (not proved).
pub fn read_facts(alloc: Global, text: &[u8]) -> Result<Facts, TextError>
    ensures ok { IfOk result (λ q. MeansFacts text.now q.problem q.labels) }
    ensures fault { IfErr result (IsRefusal (IsFactsFault text.now)) }
{
    let (header, body) = first_line(text)?;
    let Some(version) = header_version(header) else {
        let kind = TextKind::Header;
        return Err(TextError { line: 1, kind });
    };
    let mut reader = match Reader::new(alloc) {
        Ok(reader) => reader,
        Err(kind) => return Err(TextError { line: 0, kind }),
    };
    if let Err(error) = read_lines(&mut reader, &version, body) {
        drop(reader);
        return Err(error);
    }
    let (problem, names) = reader.finish();
    Ok(Facts {
        problem,
        labels: Labels::new(names),
    })
}
