//! Places and operands.

ghost use Rattle.std.specs.Prelude.{◌≡◌, IfOk, MatchOption};
ghost use Rattle.nll_types.specs.Places.{path_of};
ghost use Rattle.nll_types.specs.Operands.{Operand as spec, operand_of};
ghost use Rattle.nll_text.specs.LineTokens.{tokens_in};
ghost use Rattle.nll_text.specs.Grammars.{Begins, HasNone};
ghost use Rattle.nll_mir_grammar.specs.Grammars.{many};
ghost use Rattle.nll_mir_grammar.specs.Parts as parts;

use crate::lists::Listed;
use crate::pairs::Read;
use crate::words::variable_at;
use nll_sets::Memory;
use nll_text::{after_sign, after_word, number_at};
use nll_types::{Operand, Place, Projection};
use smallvec::SmallVec;
use std::alloc::Global;

// The projection at the front.
fn projection_at<'a>(line: &'a [u8]) -> Option<(Projection, &'a [u8])>
    ensures { MatchOption result (HasNone parts.projections (tokens_in line.now))
        (λ p. Begins parts.projections (tokens_in line.now) p.0 (tokens_in p.1.now)) }
{
    let behind = after_sign(line, b'.')?;
    match after_sign(behind, b'*') {
        Some(rest) => Some((Projection::Deref, rest)),
        None => {
            let (number, rest) = number_at(behind)?;
            Some((Projection::Field(number), rest))
        }
    }
}

// The place of a variable that projections follow. One projection needs no list.
#[inline(never)]
fn part_at<'a>(alloc: Global, variable: u32, behind: &'a [u8]) -> Result<(Place, &'a [u8]), Memory>
    ensures variable { IfOk result (λ p. (path_of p.0).variable ≡ variable) }
    ensures projections { IfOk result (λ p. Begins (many parts.projections) (tokens_in behind.now)
        (path_of p.0).projections (tokens_in p.1.now)) }
{
    let Some((projection, rest)) = projection_at(behind) else {
        return Ok((Place::Whole(variable), behind));
    };
    let Some((second, mut end)) = projection_at(rest) else {
        return Ok((Place::Part(variable, projection), rest));
    };
    // Up to three allocate nothing. The last of these only keeps room for another.
    let first = [projection, second, Projection::Deref];
    let mut projections = SmallVec::from_buf_and_len(alloc, first, 2);
    while let Some((another, behind)) = projection_at(end) {
        projections.push(another)?;
        end = behind;
    }
    Ok((Place::new(alloc, variable, projections)?, end))
}

/// The place at the front. Most are whole variables.
#[inline(always)]
pub fn place_at<'a>(alloc: Global, line: &'a [u8]) -> Read<'a, Place>
    ensures { IfOk result (λ o. MatchOption o (HasNone parts.places (tokens_in line.now))
        (λ p. Begins parts.places (tokens_in line.now) (path_of p.0) (tokens_in p.1.now))) }
{
    let Some((variable, behind)) = variable_at(line) else {
        return Ok(None);
    };
    if after_sign(behind, b'.').is_none() {
        return Ok(Some((Place::Whole(variable), behind)));
    }
    let (place, rest) = part_at(alloc, variable, behind)?;
    Ok(Some((place, rest)))
}

/// The operand at the front.
pub fn operand_at<'a>(alloc: Global, line: &'a [u8]) -> Read<'a, Operand>
    ensures { IfOk result (λ o. MatchOption o (HasNone parts.operands (tokens_in line.now))
        (λ p. Begins parts.operands (tokens_in line.now) (operand_of p.0) (tokens_in p.1.now))) }
{
    if let Some(behind) = after_word(line, b"copy") {
        let Some((place, rest)) = place_at(alloc, behind)? else {
            return Ok(None);
        };
        return Ok(Some((Operand::Copy(place), rest)));
    }
    if let Some(rest) = after_word(line, b"const") {
        return Ok(Some((Operand::Const, rest)));
    }
    let Some(behind) = after_word(line, b"move") else {
        return Ok(None);
    };
    let Some((place, rest)) = place_at(alloc, behind)? else {
        return Ok(None);
    };
    Ok(Some((Operand::Move(place), rest)))
}

impl<'a> Listed<'a> for Operand {
    ghost Meant = { spec };

    ghost meant = { operand_of };

    ghost grammar = { parts.operands };

    fn read_at(alloc: Global, line: &'a [u8]) -> Read<'a, Operand> {
        operand_at(alloc, line)
    }
}
