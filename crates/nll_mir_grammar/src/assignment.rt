//! Assignments: a place, `=`, and what goes to the place.

ghost use Rattle.std.specs.Prelude.{◌≡◌, ◌∷◌, IfOk, List, MatchOption, None, codes};
ghost use Rattle.nll_text.specs.Tokens as lex;
ghost use Rattle.nll_types.specs.Places.{path_of};
ghost use Rattle.nll_text.specs.LineTokens.{tokens_in};
ghost use Rattle.nll_text.specs.Grammars.{HasNone};
ghost use Rattle.nll_mir_grammar.specs.Kinds.{IsLine, IsRightSide, line_grammars, rights};
ghost use Rattle.nll_mir_grammar.specs.Lines.{form_of};

use crate::line::Line;
use crate::pairs::Read;
use crate::place::{operand_at, place_at};
use crate::right::{make_at, signature_at};
use crate::statement::{Call, Make, Statement};
use crate::words::mutability_at;
use nll_text::{after_sign, after_word, region_at, word_at};
use nll_types::Place;
use std::alloc::Global;

// The borrow that goes to the place, after `&`: its region, whether it is `mut`, and the place
// that is borrowed.
fn borrowed<'a>(alloc: Global, place: Place, line: &'a [u8]) -> Read<'a, Line<'a>>
    ensures { IfOk result (λ o. (ts : List lex.Token) → ts ≡ lex.sign 38 ∷ tokens_in line.now
        → MatchOption o (HasNone rights ts)
        (λ p. IsRightSide ts (path_of place) (form_of p.0) (tokens_in p.1.now))) }
{
    let Some((region, behind)) = region_at(line) else {
        return Ok(None);
    };
    let (mutable, behind) = mutability_at(behind);
    let Some((source, rest)) = place_at(alloc, behind)? else {
        return Ok(None);
    };
    let borrow = Statement::Borrow(place, region, mutable, source);
    Ok(Some((Line::At(borrow), rest)))
}

// The value of a tuple or struct that goes to the place, after `make`.
fn made<'a>(alloc: Global, place: Place, line: &'a [u8]) -> Read<'a, Line<'a>>
    ensures { IfOk result
        (λ o. (ts : List lex.Token) → ts ≡ lex.word (codes "make") ∷ tokens_in line.now
        → MatchOption o (HasNone rights ts)
        (λ p. IsRightSide ts (path_of place) (form_of p.0) (tokens_in p.1.now))) }
{
    let Some((made, rest)) = make_at(alloc, line)? else {
        return Ok(None);
    };
    let (ty, operands) = made;
    let make = Make {
        place,
        ty,
        operands,
    };
    let make = Statement::Make(Box::new(alloc, make)?);
    Ok(Some((Line::At(make), rest)))
}

// The call whose result goes to the place, after `call`.
fn called<'a>(alloc: Global, place: Place, line: &'a [u8]) -> Read<'a, Line<'a>>
    ensures { IfOk result
        (λ o. (ts : List lex.Token) → ts ≡ lex.word (codes "call") ∷ tokens_in line.now
        → MatchOption o (HasNone rights ts)
        (λ p. IsRightSide ts (path_of place) (form_of p.0) (tokens_in p.1.now))) }
{
    let Some((_, behind)) = word_at(line) else {
        return Ok(None);
    };
    let Some((signature, rest)) = signature_at(alloc, behind)? else {
        return Ok(None);
    };
    let (arguments, answer) = signature;
    let (result, end) = answer;
    let (wheres, (target, unwind)) = end;
    let call = Call {
        place,
        arguments,
        result,
        wheres,
        target,
        unwind,
    };
    let call = Statement::Call(Box::new(alloc, call)?);
    Ok(Some((Line::At(call), rest)))
}

/// The assignment at the front.
pub fn assignment_at<'a>(alloc: Global, line: &'a [u8]) -> Read<'a, Line<'a>>
    ensures { IfOk result (λ o. MatchOption o (HasNone (line_grammars None) (tokens_in line.now))
        (λ p. IsLine (tokens_in line.now) (form_of p.0) (tokens_in p.1.now))) }
{
    let Some((place, behind)) = place_at(alloc, line)? else {
        return Ok(None);
    };
    let Some(right) = after_sign(behind, b'=') else {
        return Ok(None);
    };
    if let Some(behind) = after_sign(right, b'&') {
        return borrowed(alloc, place, behind);
    }
    if let Some(behind) = after_word(right, b"make") {
        return made(alloc, place, behind);
    }
    if let Some(behind) = after_word(right, b"call") {
        return called(alloc, place, behind);
    }
    let Some((operand, rest)) = operand_at(alloc, right)? else {
        return Ok(None);
    };
    Ok(Some((Line::At(Statement::Assign(place, operand)), rest)))
}
