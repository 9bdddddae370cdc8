//! Opening a text: its first line is cut off, and must be the header.

ghost use Rattle.std.specs.Prelude.{◌<◌, ◌^◌, IfOk, IfErr, length};
ghost use Rattle.std.specs.Str.{IsUtf8};
ghost use Rattle.nll_text.specs.Lines.{lines_left};
ghost use Rattle.nll_format.specs.Text.{HasHeader, IsCut, IsUncut, IsUnopened};

use crate::error::{TextError, TextKind};
use crate::limits::MAX_TEXT;
use nll_problem::Kind;
use nll_text::{is_header, next_line};
use std::str;

/// Cuts the first line off a text, and leaves the text of the lines after it, if any.
///
/// # Errors
/// - `Limit(Text)` at line 1: the text is too long.
/// - `NotUtf8` at line 1: the first line isn't UTF-8.
///
/// # Cost
/// The length of the first line (not proved).
pub fn first_line<'a>(text: &'a [u8]) -> Result<(&'a [u8], Option<&'a [u8]>), TextError>
    ensures cut { IfOk result (λ r. IsCut text.now r.0.now (lines_left r.1)) }
    ensures utf8 { IfOk result (λ r. IsUtf8 r.0.now) }
    ensures few { IfOk result (λ r. length (lines_left r.1) < 2 ^ 32) }
    ensures fault { IfErr result (IsUncut text.now) }
{
    if text.len() > MAX_TEXT {
        return Err(TextError {
            line: 1,
            kind: TextKind::Limit(Kind::Text),
        });
    }
    let (line, rest) = next_line(text);
    match str::from_utf8(line) {
        Ok(_) => Ok((line, rest)),
        Err(_) => Err(TextError {
            line: 1,
            kind: TextKind::NotUtf8,
        }),
    }
}

/// Cuts the header off a text: what is left is the text of the lines after it, if any.
///
/// # Errors
/// - `Limit(Text)` at line 1: the text is too long.
/// - `NotUtf8` at line 1: the first line isn't UTF-8.
/// - `Header` at line 1: the first line isn't these two runs, the kind and the version.
///
/// # Cost
/// The length of the first line (not proved).
pub fn open_text<'a>(
    text: &'a [u8],
    kind: &[u8],
    version: &[u8],
) -> Result<Option<&'a [u8]>, TextError>
    ensures ok { IfOk result (λ body. HasHeader kind.now version.now text.now (lines_left body)) }
    ensures few { IfOk result (λ body. length (lines_left body) < 2 ^ 32) }
    ensures fault { IfErr result (IsUnopened kind.now version.now text.now) }
{
    let (header, body) = first_line(text)?;
    if !is_header(header, kind, version) {
        return Err(TextError {
            line: 1,
            kind: TextKind::Header,
        });
    }
    Ok(body)
}
