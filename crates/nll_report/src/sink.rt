//! The streams that the program writes to.
ghost use Rattle.std.specs.Prelude.{◌≤◌, ℕ, List, None, Option, IfErr, OnErr, OnOk, length, take};
ghost use Rattle.std.specs.Io.KnownBytes.{Appends};
ghost use Rattle.std.specs.List.{flat_map};
ghost use Rattle.nll_report.specs.Sink.{IsCutShort, LeavesRoom, MayRefuse};

use crate::error::Unwritten;
use crate::report_output::put;
use std::io::Write;

/// Where the program writes bytes. Each `std::io::Write` is a sink.
pub trait Sink {
    // The bytes that the sink holds, where they are known.
    ghost contents: { Self → Option (List ℕ) };

    // How many more bytes the sink certainly takes, where that is known.
    ghost room: { Self → Option ℕ };

    /// Appends the bytes to those that the sink holds, and flushes it.
    ///
    /// # Errors
    /// `Unwritten` if the sink takes only some of the bytes, or fails to flush.
    fn put(&mut self, bytes: &[u8]) -> Result<(), Unwritten>
        ensures all { OnOk result (Appends (contents self.old) (contents self.new) bytes.now) }
        ensures left { OnOk result (LeavesRoom (room self.old) (room self.new) (length bytes.now)) }
        ensures within { IfErr result (λ e. e.written ≤ length bytes.now) }
        ensures first { IfErr result (λ e.
            Appends (contents self.old) (contents self.new) (take e.written bytes.now)) }
        ensures refused { OnErr result (MayRefuse (room self.old) (length bytes.now)) };
}

// No contract knows when a writer fails, so none of its room is known.
impl<W: Write> Sink for W {
    ghost contents = { W.contents };

    ghost room = { λ _. None };

    fn put(&mut self, bytes: &[u8]) -> Result<(), Unwritten> {
        put(self, bytes)?;
        if self.flush().is_err() {
            let written = bytes.len();
            return Err(Unwritten { written });
        }
        Ok(())
    }
}

/// Puts the pieces, one after another.
///
/// # Errors
/// `Unwritten` if the sink takes only some of a piece; the count is of that piece.
pub(crate) fn put_pieces<S: Sink>(to: &mut S, pieces: &[&str]) -> Result<(), Unwritten>
    ensures all { OnOk result (Appends (S.contents to.old) (S.contents to.new)
        (flat_map (λ piece. piece.now) pieces.now)) }
    ensures cut { OnErr result (IsCutShort (S.room to.old) (S.contents to.old) (S.contents to.new)
        (flat_map (λ piece. piece.now) pieces.now)) }
{
    for piece in pieces {
        to.put(piece.as_bytes())?;
    }
    Ok(())
}
