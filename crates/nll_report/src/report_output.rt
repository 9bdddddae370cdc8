//! Writing all of a report, and saying how much of it was written if that fails.
ghost use Rattle.std.specs.Prelude.{◌<◌, ◌≤◌, IfErr, IfSome, IsNone, OnOk, length, take};
ghost use Rattle.std.specs.Io.KnownBytes.{Appends, Keeps};

use crate::error::Unwritten;
use std::io::{ErrorKind, Write};

/// Writes the bytes, in pieces as large as the writer takes, and does not flush.
///
/// # Errors
/// `Unwritten` if a `write` fails or takes no byte. A write that a signal interrupts is tried
/// again, at most 2^64 - 1 times.
pub fn put<W: Write>(out: &mut W, bytes: &[u8]) -> Result<(), Unwritten>
    ensures all { OnOk result (Appends (W.contents out.old) (W.contents out.new) bytes.now) }
    ensures short { IfErr result (λ e. e.written < length bytes.now) }
    ensures first { IfErr result (λ e.
        Appends (W.contents out.old) (W.contents out.new) (take e.written bytes.now)) }
{
    let mut written = 0;
    while written < bytes.len() {
        match put_some(out, &bytes[written..]) {
            Some(count) => written += count,
            None => return Err(Unwritten { written }),
        }
    }
    Ok(())
}

// Writes some of the bytes and returns how many, or none if the writer takes none.
fn put_some<W: Write>(out: &mut W, bytes: &[u8]) -> Option<usize>
    ensures some { IfSome result (λ n. (0 < n) × (n ≤ length bytes.now)) }
    ensures taken { IfSome result (λ n.
        Appends (W.contents out.old) (W.contents out.new) (take n bytes.now)) }
    ensures kept { IsNone result → Keeps (W.contents out.old) (W.contents out.new) }
{
    for _ in 0..u64::MAX {
        match out.write(bytes) {
            Ok(0) => return None,
            Ok(count) => return Some(count),
            Err(error) if error.kind() == ErrorKind::Interrupted => {}
            Err(_) => return None,
        }
    }
    None
}
