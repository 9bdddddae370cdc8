//! Types at the front of tokens.

ghost use Rattle.std.specs.Prelude.{IfOk, MatchOption};
ghost use Rattle.nll_text.specs.Tokens as lex;
ghost use Rattle.nll_mir_grammar.specs.TypeTexts.{written};
ghost use Rattle.nll_text.specs.LineTokens.{tokens_in};
ghost use Rattle.nll_text.specs.Grammars.{Begins, HasNone};
ghost use Rattle.nll_mir_grammar.specs.Grammars.{behind_token};
ghost use Rattle.nll_mir_grammar.specs.Parts as parts;
ghost use Rattle.nll_mir_grammar.specs.Tuples.{parts as parts_of_tuple};

use crate::line::TupleText;
use crate::pairs::Read;
use crate::type_reader::type_at;
use crate::type_text::TypeText;
use nll_text::after_sign;
use std::alloc::Global;

/// The type at the front.
pub fn type_front<'a>(alloc: Global, line: &'a [u8]) -> Read<'a, TypeText<'a>>
    ensures { IfOk result (λ o. MatchOption o (HasNone parts.types (tokens_in line.now))
        (λ p. Begins parts.types (tokens_in line.now) (written p.0) (tokens_in p.1.now))) }
{
    type_at(alloc, line)
}

/// The type after a `:`.
pub fn type_behind<'a>(alloc: Global, line: &'a [u8]) -> Read<'a, TypeText<'a>>
    ensures { IfOk result
        (λ o. MatchOption o (HasNone (behind_token (lex.sign 58) parts.types) (tokens_in line.now))
        (λ p. Begins (behind_token (lex.sign 58) parts.types) (tokens_in line.now) (written p.0)
        (tokens_in p.1.now))) }
{
    match after_sign(line, b':') {
        Some(behind) => type_front(alloc, behind),
        None => Ok(None),
    }
}

/// The tuple type at the front.
pub fn tuple_front<'a>(alloc: Global, line: &'a [u8]) -> Read<'a, TupleText<'a>>
    ensures { IfOk result (λ o. MatchOption o (HasNone parts.tuples (tokens_in line.now))
        (λ p. Begins parts.tuples (tokens_in line.now) (parts_of_tuple (written p.0))
        (tokens_in p.1.now))) }
{
    if after_sign(line, b'(').is_none() {
        return Ok(None);
    }
    match type_front(alloc, line)? {
        Some((ty, rest)) => Ok(Some((TupleText::of(ty), rest))),
        None => Ok(None),
    }
}
