//! Texts whose lines are written with `|` at their ends.

ghost use Rattle.std.specs.Prelude.{◌≡◌, map, IfOk};
ghost use Rattle.nll_worked.specs.Lines.{with_line_feed};

use std::alloc::{AllocError, Global};

/// The text of lines that end with `|`: a line feed stands in place of each.
///
/// # Errors
/// `AllocError`, where memory is refused.
pub fn text_of(alloc: Global, lines: &str) -> Result<Vec<u8>, AllocError>
    ensures { IfOk result (λ text. text.items ≡ map with_line_feed lines.now) }
{
    let mut text = Vec::new(alloc);
    for byte in lines.as_bytes() {
        text.push(if *byte == b'|' { b'\n' } else { *byte })?;
    }
    Ok(text)
}
