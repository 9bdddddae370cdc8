//! The header line of a text.

ghost use Rattle.std.specs.Prelude.{◌≡◌, ◌↔◌, ◌∷◌, [], IsTrue, MatchOption};
ghost use Rattle.nll_text.specs.Header.{IsHeader, runs};

use crate::bytes::{behind_gap, is_blank};

// The first run of a line, and what follows it.
fn next_run(line: &[u8]) -> Option<(&[u8], &[u8])>
    ensures { MatchOption result (runs line.now ≡ [])
        (λ p. runs line.now ≡ p.0.now ∷ runs p.1.now) }
{
    let core = behind_gap(line);
    if core.is_empty() {
        return None;
    }
    let len = core.iter().take_while(|byte| !is_blank(**byte)).count();
    Some(core.split_at(len))
}

/// Says whether a line is the header of this kind and version: these two runs, compared byte by
/// byte, with blanks between them and any number of blanks around them.
///
/// # Cost
/// The length of the line (not proved).
pub fn is_header(line: &[u8], kind: &[u8], version: &[u8]) -> bool
    ensures { IsTrue result ↔ IsHeader kind.now version.now line.now }
{
    let Some((first, after)) = next_run(line) else {
        return false;
    };
    let Some((second, rest)) = next_run(after) else {
        return false;
    };
    first == kind && second == version && next_run(rest).is_none()
}
