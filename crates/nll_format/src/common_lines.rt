//! What readers of all formats do with lines of none of the forms.

ghost use Rattle.std.specs.Prelude.{OnOk, IfErr};
ghost use Rattle.nll_format.specs.Text.{IsPassedOver, IsFormless};

use crate::error::TextKind;
use nll_text::is_skipped_line;

/// Passes over a line that has none of the forms, where it is skipped.
///
/// # Errors
/// - `NotUtf8`: the line's bytes aren't UTF-8.
/// - `Syntax`: the line isn't skipped.
pub fn pass_over(line: &[u8]) -> Result<(), TextKind>
    ensures ok { OnOk result (IsPassedOver line.now) }
    ensures fault { IfErr result (IsFormless line.now) }
{
    match is_skipped_line(line) {
        Ok(true) => Ok(()),
        Ok(false) => Err(TextKind::Syntax),
        Err(_) => Err(TextKind::NotUtf8),
    }
}
