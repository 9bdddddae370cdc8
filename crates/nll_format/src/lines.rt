//! Reading the lines of a text after its header, one after another.

ghost use Rattle.std.specs.Prelude.{◌<◌, ◌^◌, [], List, length, OnOk, IfErr};
ghost use Rattle.nll_text.specs.Lines.{lines_left};
ghost use Rattle.nll_format.specs.Text.{Says};
ghost use Rattle.nll_format.specs.Lines.{AreShort, RefusesBody};

use crate::error::{TextError, TextKind};
use crate::line_reader::LineReader;
use nll_text::next_line;

/// Takes in the lines after the header, to the end.
///
/// # Errors
/// The first faulty line, and of that line the first kind in the order of `TextKind`; or `End` at
/// the last line; or `Memory` at line 0.
pub fn read_lines<'a, F, R: LineReader<'a, F>>(
    reader: &mut R,
    format: &F,
    body: Option<&'a [u8]>,
) -> Result<(), TextError>
    requires ready { R.ready reader.old }
    requires nothing { R.holds format.now [] reader.old }
    requires long { length (lines_left body) < 2 ^ 32 }
    requires short { AreShort (lines_left body) }
    ensures ready { OnOk result (R.ready reader.new) }
    ensures read { OnOk result ((forms : List (R.format_of format.now).Form)
        × Says (R.format_of format.now) [] (lines_left body.entry) forms
        × (R.format_of format.now).HasEnded forms × R.holds format.now forms reader.new) }
    ensures fault { IfErr result (RefusesBody (R.format_of format.now) (lines_left body.entry)) }
{
    let mut number = 1;
    let mut rest = body;
    while let Some(text) = rest {
        let (line, after) = next_line(text);
        number += 1;
        match reader.read_line(format, line) {
            Ok(()) => rest = after,
            Err(kind) => return Err(TextError::at(number, kind)),
        }
    }
    if !reader.has_ended(format) {
        return Err(TextError {
            line: number,
            kind: TextKind::End,
        });
    }
    Ok(())
}
