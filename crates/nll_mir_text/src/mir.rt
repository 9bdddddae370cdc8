//! The body that a MIR text means.

ghost use Rattle.std.specs.Prelude.{◌≡◌, IfOk, IfErr};
ghost use Rattle.nll_format.specs.Text.{IsRefusal};
ghost use Rattle.nll_mir_text.specs.MirReading.{said_by, IsReady, Holds};
ghost use Rattle.nll_mir_text.specs.MirText.{Means, IsMirFault};

use crate::header::header_version;
use crate::reader::Reader;
use nll_body::Body;
use nll_format::{TextError, TextKind, first_line, read_lines};
use nll_sets::Memory;
use std::alloc::Global;

// The pairs of regions that a reader's lines say: the known ones, and the asserted ones.
fn pairs(alloc: Global, reader: &Reader) -> Result<(Vec<(u32, u32)>, Vec<(u32, u32)>), Memory>
    ensures outlives { IfOk result (λ p. p.0.items ≡ (said_by reader.now).outlives) }
    ensures asserts { IfOk result (λ p. p.1.items ≡ (said_by reader.now).asserts) }
{
    let outlives = Vec::from_slice(alloc, reader.regions.outlives.as_slice())?;
    let asserts = Vec::from_slice(alloc, reader.regions.asserts.as_slice())?;
    Ok((outlives, asserts))
}

// Reads what the lines of a MIR text say.
fn read_text(alloc: Global, text: &[u8]) -> Result<Reader, TextError>
    ensures ok { IfOk result (Holds text.now) }
    ensures ready { IfOk result IsReady }
    ensures fault { IfErr result (IsRefusal (IsMirFault text.now)) }
{
    let (header, body) = first_line(text)?;
    let Some(version) = header_version(header) else {
        return Err(TextError {
            line: 1,
            kind: TextKind::Header,
        });
    };
    let mut reader = match Reader::new(alloc) {
        Ok(reader) => reader,
        Err(kind) => return Err(TextError { line: 0, kind }),
    };
    if let Err(error) = read_lines(&mut reader, &version, body) {
        drop(reader);
        return Err(error);
    }
    Ok(reader)
}

/// Reads a MIR text, of version 1 or 2 by its header.
///
/// # Errors
/// The text's one fault: its first faulty line, and of that line the first kind in the order of
/// `TextKind`; or `Memory` at line 0, where an allocation failed.
///
/// # Cost
/// Time linear in the text, save for hashing, and memory for what it says; the text isn't copied
/// (not proved).
pub fn read_mir(alloc: Global, text: &[u8]) -> Result<Body, TextError>
    ensures ok { IfOk result (Means text.now) }
    ensures fault { IfErr result (IsRefusal (IsMirFault text.now)) }
{
    let reader = read_text(alloc, text)?;
    match pairs(alloc, &reader) {
        Ok((outlives, asserts)) => match Body::new(alloc, reader.finish(outlives, asserts)) {
            Ok(body) => Ok(body),
            Err(_error) => Err(TextError {
                line: 0,
                kind: TextKind::Memory,
            }),
        },
        Err(_memory) => {
            drop(reader);
            Err(TextError {
                line: 0,
                kind: TextKind::Memory,
            })
        }
    }
}
