//! The right sides of assignments, by their first tokens.

ghost use Rattle.std.specs.Prelude.{IfOk, MatchOption, map};
ghost use Rattle.nll_text.specs.Tokens as lex;
ghost use Rattle.nll_types.specs.Operands.{Operand as spec, operand_of};
ghost use Rattle.nll_mir_grammar.specs.TypeTexts.{written};
ghost use Rattle.nll_mir_grammar.specs.WrittenTypes.{WrittenType};
ghost use Rattle.nll_text.specs.LineTokens.{tokens_in};
ghost use Rattle.nll_text.specs.Grammars.{Begins, HasNone};
ghost use Rattle.nll_mir_grammar.specs.Grammars.{behind_token, pair};
ghost use Rattle.nll_mir_grammar.specs.Kinds.{makes, results, signatures};
ghost use Rattle.nll_mir_grammar.specs.Lines.{argument_of, result_of};
ghost use Rattle.nll_mir_grammar.specs.Parts.{arguments, bound_lists, exits};

use crate::blocks::{Exits, exits_at};
use crate::bounds::{Bounds, bounds_in};
use crate::lists::{Listed, values_in};
use crate::pairs::{Read, with};
use crate::place::operand_at;
use crate::type_front::{type_behind, type_front};
use crate::type_text::TypeText;
use nll_text::after_sign;
use nll_types::Operand;
use std::alloc::Global;

/// What follows `make`: a type, and operands.
pub fn make_at<'a>(alloc: Global, line: &'a [u8]) -> Read<'a, (TypeText<'a>, Vec<Operand>)>
    ensures { IfOk result (λ o. MatchOption o (HasNone makes (tokens_in line.now))
        (λ p. Begins makes (tokens_in line.now) (written p.0.0, map operand_of p.0.1.items)
        (tokens_in p.1.now))) }
{
    let Some((ty, behind)) = type_front(alloc, line)? else {
        return Ok(None);
    };
    with(ty, values_in(alloc, behind))
}

/// An argument of a call.
pub type Argument<'a> = (Operand, TypeText<'a>);

impl<'a> Listed<'a> for Argument<'a> {
    ghost Meant = { spec × WrittenType };

    ghost meant = { argument_of };

    ghost grammar = { arguments };

    fn read_at(alloc: Global, line: &'a [u8]) -> Read<'a, Argument<'a>> {
        let Some((operand, behind)) = operand_at(alloc, line)? else {
            return Ok(None);
        };
        with(operand, type_behind(alloc, behind))
    }
}

/// What a call has after its arguments: the type of its result, bounds, and where it goes on.
pub type CallResult<'a> = (TypeText<'a>, (Bounds<'a>, Exits));

// The bounds of a call, and where it goes on.
fn call_end_at<'a>(alloc: Global, line: &'a [u8]) -> Read<'a, (Bounds<'a>, Exits)>
    ensures { IfOk result
        (λ o. MatchOption o (HasNone (pair bound_lists exits) (tokens_in line.now))
        (λ p. Begins (pair bound_lists exits) (tokens_in line.now)
        (map (λ w. (w.0.now, w.1.now)) p.0.0.items, p.0.1) (tokens_in p.1.now))) }
{
    let Some((bounds, behind)) = bounds_in(alloc, line)? else {
        return Ok(None);
    };
    with(bounds, Ok(exits_at(behind)))
}

// The `:` of a call, and what follows it.
fn result_behind<'a>(alloc: Global, line: &'a [u8]) -> Read<'a, CallResult<'a>>
    ensures { IfOk result
        (λ o. MatchOption o (HasNone (behind_token (lex.sign 58) results) (tokens_in line.now))
        (λ p. Begins (behind_token (lex.sign 58) results) (tokens_in line.now) (result_of p.0)
        (tokens_in p.1.now))) }
{
    let Some(behind) = after_sign(line, b':') else {
        return Ok(None);
    };
    let Some((ty, behind)) = type_front(alloc, behind)? else {
        return Ok(None);
    };
    with(ty, call_end_at(alloc, behind))
}

/// What follows the name of a function that is called: arguments, and the rest of the call.
pub fn signature_at<'a>(
    alloc: Global,
    line: &'a [u8],
) -> Read<'a, (Vec<Argument<'a>>, CallResult<'a>)>
    ensures { IfOk result (λ o. MatchOption o (HasNone signatures (tokens_in line.now))
        (λ p. Begins signatures (tokens_in line.now) (map argument_of p.0.0.items, result_of p.0.1)
        (tokens_in p.1.now))) }
{
    let Some((arguments, behind)) = values_in(alloc, line)? else {
        return Ok(None);
    };
    with(arguments, result_behind(alloc, behind))
}
