//! Lines that begin with a word of their own, after that word.

ghost use Rattle.std.specs.Prelude.{IfOk, MatchOption, map};
ghost use Rattle.nll_mir_grammar.specs.TypeTexts.{written};
ghost use Rattle.nll_text.specs.LineTokens.{tokens_in};
ghost use Rattle.nll_text.specs.Grammars.{Begins, HasNone};
ghost use Rattle.nll_mir_grammar.specs.Grammars.{pair};
ghost use Rattle.nll_mir_grammar.specs.Kinds.{IsBehind, tails};
ghost use Rattle.nll_mir_grammar.specs.Lines.{form_of, parameter_of};
ghost use Rattle.nll_mir_grammar.specs.Parts.{drop_marks, parameter_lists, tuples};
ghost use Rattle.nll_mir_grammar.specs.Tuples.{parts};
ghost use Rattle.nll_mir_grammar.specs.declared.keyword.Keyword.TheVariants as keyword;

use crate::bounds::bound_at;
use crate::line::{Line, ParameterText, StructText, TupleText};
use crate::pairs::{Read, with};
use crate::parameters::parameters_in;
use crate::type_front::{tuple_front, type_behind};
use crate::words::{drop_mark_at, name_at, variable_at};
use nll_text::{number_at, region_at};
use std::alloc::Global;

/// After `universal`.
pub fn universal_line<'a>(line: &'a [u8]) -> Option<(Line<'a>, &'a [u8])>
    ensures { MatchOption result (HasNone (tails keyword.Universal) (tokens_in line.now))
        (λ p. IsBehind keyword.Universal (tokens_in line.now) (form_of p.0) (tokens_in p.1.now)) }
{
    let (name, rest) = region_at(line)?;
    Some((Line::Universal(name), rest))
}

/// After `outlives`.
pub fn outlives_line<'a>(line: &'a [u8]) -> Option<(Line<'a>, &'a [u8])>
    ensures { MatchOption result (HasNone (tails keyword.Outlives) (tokens_in line.now))
        (λ p. IsBehind keyword.Outlives (tokens_in line.now) (form_of p.0) (tokens_in p.1.now)) }
{
    let (longer, behind) = region_at(line)?;
    let (shorter, rest) = region_at(behind)?;
    Some((Line::Outlives(longer, shorter), rest))
}

/// After `region`.
pub fn region_line<'a>(line: &'a [u8]) -> Option<(Line<'a>, &'a [u8])>
    ensures { MatchOption result (HasNone (tails keyword.Region) (tokens_in line.now))
        (λ p. IsBehind keyword.Region (tokens_in line.now) (form_of p.0) (tokens_in p.1.now)) }
{
    let (name, rest) = region_at(line)?;
    Some((Line::Region(name), rest))
}

/// After `assert`.
pub fn assert_line<'a>(line: &'a [u8]) -> Option<(Line<'a>, &'a [u8])>
    ensures { MatchOption result (HasNone (tails keyword.Assert) (tokens_in line.now))
        (λ p. IsBehind keyword.Assert (tokens_in line.now) (form_of p.0) (tokens_in p.1.now)) }
{
    let ((longer, shorter), rest) = bound_at(line)?;
    Some((Line::Assert(longer, shorter), rest))
}

/// After `blocks`.
pub fn blocks_line<'a>(line: &'a [u8]) -> Option<(Line<'a>, &'a [u8])>
    ensures { MatchOption result (HasNone (tails keyword.Blocks) (tokens_in line.now))
        (λ p. IsBehind keyword.Blocks (tokens_in line.now) (form_of p.0) (tokens_in p.1.now)) }
{
    let (number, rest) = number_at(line)?;
    Some((Line::Blocks(number), rest))
}

/// After `let`.
pub fn let_line<'a>(alloc: Global, line: &'a [u8]) -> Read<'a, Line<'a>>
    ensures { IfOk result (λ o. MatchOption o (HasNone (tails keyword.Let) (tokens_in line.now))
        (λ p. IsBehind keyword.Let (tokens_in line.now) (form_of p.0) (tokens_in p.1.now))) }
{
    let Some((variable, behind)) = variable_at(line) else {
        return Ok(None);
    };
    let Some((ty, rest)) = type_behind(alloc, behind)? else {
        return Ok(None);
    };
    Ok(Some((Line::Let(variable, ty), rest)))
}

// What follows the name of a struct: its parameters, whether it has a drop of its own, and its
// fields.
fn struct_behind<'a>(
    alloc: Global,
    line: &'a [u8],
) -> Read<'a, (Vec<ParameterText<'a>>, (bool, TupleText<'a>))>
    ensures { IfOk result (λ o. MatchOption o
        (HasNone (pair parameter_lists (pair drop_marks tuples)) (tokens_in line.now))
        (λ p. Begins (pair parameter_lists (pair drop_marks tuples)) (tokens_in line.now)
        (map parameter_of p.0.0.items, (p.0.1.0, parts (written p.0.1.1))) (tokens_in p.1.now))) }
{
    let Some((parameters, behind)) = parameters_in(alloc, line)? else {
        return Ok(None);
    };
    let (has_drop, behind) = drop_mark_at(behind);
    let fields = with(has_drop, tuple_front(alloc, behind));
    with(parameters, fields)
}

/// After `struct`.
pub fn struct_line<'a>(alloc: Global, line: &'a [u8]) -> Read<'a, Line<'a>>
    ensures { IfOk result (λ o. MatchOption o (HasNone (tails keyword.Struct) (tokens_in line.now))
        (λ p. IsBehind keyword.Struct (tokens_in line.now) (form_of p.0) (tokens_in p.1.now))) }
{
    let Some((name, behind)) = name_at(line) else {
        return Ok(None);
    };
    let Some(((parameters, (has_drop, fields)), rest)) = struct_behind(alloc, behind)? else {
        return Ok(None);
    };
    let text = StructText {
        name,
        parameters,
        has_drop,
        fields,
    };
    Ok(Some((Line::Struct(Box::new(alloc, text)?), rest)))
}
