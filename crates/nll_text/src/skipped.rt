//! Lines that are skipped.

ghost use Rattle.std.specs.Prelude.{◌≡◌, IfOk, IfErr};
ghost use Rattle.std.specs.Str.{IsUtf8};
ghost use Rattle.nll_text.specs.Lines as lines;

use crate::bytes::behind_gap;
use crate::error::NotUtf8;
use std::str;

/// Whether a line is skipped: blanks alone, or a remark.
///
/// # Errors
/// `NotUtf8`: the line's bytes aren't UTF-8.
///
/// # Cost
/// The length of the line (not proved).
pub fn is_skipped_line(line: &[u8]) -> Result<bool, NotUtf8>
    ensures ok { IfOk result (λ s. IsUtf8 line.now × (s ≡ lines.is_skipped line.now)) }
    ensures err { IfErr result (λ _. ¬ IsUtf8 line.now) }
{
    let Ok(_) = str::from_utf8(line) else {
        return Err(NotUtf8);
    };
    match behind_gap(line) {
        [first, ..] => Ok(*first == b'#'),
        _ => Ok(true),
    }
}
