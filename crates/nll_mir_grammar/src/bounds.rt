//! Bounds: of which regions one must outlive another.

ghost use Rattle.std.specs.Prelude.{ℕ, List, IfOk, MatchOption, map};
ghost use Rattle.nll_text.specs.LineTokens.{tokens_in};
ghost use Rattle.nll_text.specs.Grammars.{Begins, HasNone};
ghost use Rattle.nll_mir_grammar.specs.Parts as parts;

use crate::lists::{Listed, list};
use crate::pairs::Read;
use nll_text::{after_sign, after_word, region_at};
use std::alloc::Global;

/// Of each pair the first region must outlive the second.
pub type Bounds<'a> = Vec<(&'a [u8], &'a [u8])>;

/// The bound at the front.
pub fn bound_at<'a>(line: &'a [u8]) -> Option<((&'a [u8], &'a [u8]), &'a [u8])>
    ensures { MatchOption result (HasNone parts.bounds (tokens_in line.now))
        (λ p. Begins parts.bounds (tokens_in line.now) (p.0.0.now, p.0.1.now) (tokens_in p.1.now)) }
{
    let (longer, behind) = region_at(line)?;
    let behind = after_sign(behind, b':')?;
    let (shorter, rest) = region_at(behind)?;
    Some(((longer, shorter), rest))
}

impl<'a> Listed<'a> for (&'a [u8], &'a [u8]) {
    ghost Meant = { List ℕ × List ℕ };

    ghost meant = { λ w. (w.0.now, w.1.now) };

    ghost grammar = { parts.bounds };

    fn read_at(_alloc: Global, line: &'a [u8]) -> Read<'a, (&'a [u8], &'a [u8])> {
        Ok(bound_at(line))
    }
}

/// The bounds after `where`, or none.
pub fn bounds_in<'a>(alloc: Global, line: &'a [u8]) -> Read<'a, Bounds<'a>>
    ensures { IfOk result (λ o. MatchOption o (HasNone parts.bound_lists (tokens_in line.now))
        (λ p. Begins parts.bound_lists (tokens_in line.now)
        (map (λ w. (w.0.now, w.1.now)) p.0.items) (tokens_in p.1.now))) }
{
    match after_word(line, b"where") {
        Some(behind) => list(alloc, behind),
        None => Ok(Some((Vec::new(alloc), line))),
    }
}
