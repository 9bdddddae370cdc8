//! Statements and terminators that begin with a word of their own, after that word.

ghost use Rattle.std.specs.Prelude.{IfOk, MatchOption};
ghost use Rattle.nll_text.specs.LineTokens.{tokens_in};
ghost use Rattle.nll_text.specs.Grammars.{HasNone};
ghost use Rattle.nll_mir_grammar.specs.Kinds.{IsBehind, tails};
ghost use Rattle.nll_mir_grammar.specs.Lines.{form_of};
ghost use Rattle.nll_mir_grammar.specs.declared.keyword.Keyword.TheVariants as keyword;

use crate::blocks::{blocks_at, exits_at};
use crate::line::Line;
use crate::pairs::Read;
use crate::place::{operand_at, place_at};
use crate::statement::Statement;
use crate::words::variable_at;
use std::alloc::Global;

/// After `drop`.
pub fn drop_line<'a>(line: &'a [u8]) -> Option<(Line<'a>, &'a [u8])>
    ensures { MatchOption result (HasNone (tails keyword.Drop) (tokens_in line.now))
        (λ p. IsBehind keyword.Drop (tokens_in line.now) (form_of p.0) (tokens_in p.1.now)) }
{
    let (variable, behind) = variable_at(line)?;
    let ((target, unwind), rest) = exits_at(behind)?;
    Some((Line::At(Statement::Drop(variable, target, unwind)), rest))
}

/// After `read`.
pub fn read_line<'a>(alloc: Global, line: &'a [u8]) -> Read<'a, Line<'a>>
    ensures { IfOk result (λ o. MatchOption o (HasNone (tails keyword.Read) (tokens_in line.now))
        (λ p. IsBehind keyword.Read (tokens_in line.now) (form_of p.0) (tokens_in p.1.now))) }
{
    let Some((place, rest)) = place_at(alloc, line)? else {
        return Ok(None);
    };
    Ok(Some((Line::At(Statement::Read(place)), rest)))
}

/// After `switch`.
pub fn switch_line<'a>(alloc: Global, line: &'a [u8]) -> Read<'a, Line<'a>>
    ensures { IfOk result (λ o. MatchOption o (HasNone (tails keyword.Switch) (tokens_in line.now))
        (λ p. IsBehind keyword.Switch (tokens_in line.now) (form_of p.0) (tokens_in p.1.now))) }
{
    let Some((operand, behind)) = operand_at(alloc, line)? else {
        return Ok(None);
    };
    let Some((blocks, rest)) = blocks_at(alloc, behind)? else {
        return Ok(None);
    };
    Ok(Some((Line::At(Statement::Switch(operand, blocks)), rest)))
}
