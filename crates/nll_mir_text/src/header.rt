//! The header of a MIR text.

ghost use Rattle.std.specs.Prelude.{◌↔◌, IsTrue, MatchOption};
ghost use Rattle.nll_format.specs.Text.{IsFormatHeader};
ghost use Rattle.nll_mir_grammar.specs.declared.version.Version.{Version as versions};
ghost use Rattle.nll_mir_text.specs.MirText.{mir, IsMirHeader};

use nll_mir_grammar::Version;
use nll_text::is_header;

/// The version of MIR texts of which a line is the header.
pub(crate) fn header_version(line: &[u8]) -> Option<Version>
    ensures { MatchOption result ((version : versions) → IsFormatHeader (mir version) line.now → ⊥)
        (λ version. IsFormatHeader (mir version) line.now) }
{
    if is_header(line, b"nll-mir", b"1") {
        return Some(Version::First);
    }
    if is_header(line, b"nll-mir", b"2") {
        return Some(Version::Second);
    }
    None
}

/// Whether a line is the header of a MIR text of some version.
pub fn is_mir_header(line: &[u8]) -> bool
    ensures { IsTrue result ↔ IsMirHeader line.now }
{
    match header_version(line) {
        Some(_version) => true,
        None => false,
    }
}
