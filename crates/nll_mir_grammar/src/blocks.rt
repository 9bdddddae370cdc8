//! Blocks: where a terminator goes on.

ghost use Rattle.std.specs.Prelude.{IfOk, MatchOption};
ghost use Rattle.nll_text.specs.LineTokens.{tokens_in};
ghost use Rattle.nll_text.specs.Grammars.{Begins, HasNone};
ghost use Rattle.nll_mir_grammar.specs.Parts as parts;

use crate::pairs::Read;
use crate::words::block_at;
use nll_text::{after_arrow, after_word};
use std::alloc::Global;

/// The blocks at the front, at least one and as many as there are.
pub fn blocks_at<'a>(alloc: Global, line: &'a [u8]) -> Read<'a, Vec<u32>>
    ensures { IfOk result (λ o. MatchOption o (HasNone parts.block_lists (tokens_in line.now))
        (λ p. Begins parts.block_lists (tokens_in line.now) p.0.items (tokens_in p.1.now))) }
{
    let mut targets = Vec::new(alloc);
    let mut rest = line;
    while let Some((block, behind)) = block_at(rest) {
        targets.push(block)?;
        rest = behind;
    }
    if targets.is_empty() {
        return Ok(None);
    }
    Ok(Some((targets, rest)))
}

/// Where a terminator goes on: a block, and possibly another where it unwinds.
pub type Exits = (u32, Option<u32>);

/// Where a drop or call at the front goes on.
pub fn exits_at<'a>(line: &'a [u8]) -> Option<(Exits, &'a [u8])>
    ensures { MatchOption result (HasNone parts.exits (tokens_in line.now))
        (λ p. Begins parts.exits (tokens_in line.now) p.0 (tokens_in p.1.now)) }
{
    let behind = after_arrow(line)?;
    let (target, behind) = block_at(behind)?;
    match after_word(behind, b"unwind") {
        Some(rest) => {
            let (unwind, rest) = block_at(rest)?;
            Some(((target, Some(unwind)), rest))
        }
        None => Some(((target, None), behind)),
    }
}
