//! A text, line by line.

ghost use Rattle.std.specs.Prelude.{◌≡◌, ◌∷◌};
ghost use Rattle.nll_text.specs.Lines.{lines_of, lines_left};

use memchr::memchr_iter;

/// Cuts off the first line of a text: the line, and the text of the lines after it, if any.
///
/// An empty text is one empty line, and a line feed at the end of the text begins no line.
///
/// # Cost
/// The length of the line (not proved).
pub fn next_line(text: &[u8]) -> (&[u8], Option<&[u8]>)
    ensures { lines_of text.now ≡ result.0.now ∷ lines_left result.1 }
{
    let Some(end) = memchr_iter(b'\n', text).next() else {
        return (text, None);
    };
    let line = &text[..end];
    let rest = &text[end + 1..];
    if rest.is_empty() {
        return (line, None);
    }
    (line, Some(rest))
}
