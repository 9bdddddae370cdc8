//! The type at the front of the rest of a line.

ghost use Rattle.std.specs.Prelude.{◌≡◌, [], MatchOption, IfOk, IfSome};
ghost use Rattle.nll_text.specs.LineTokens.{tokens_in};
ghost use Rattle.nll_mir_grammar.specs.TypeTexts.{written, IsType};
ghost use Rattle.nll_mir_grammar.specs.Reading.{HasNoType, IsTypeIn};

use crate::opens::{Opened, State, step};
use crate::type_text::{TypePiece, TypeText};
use nll_sets::Memory;
use nll_text::after_sign;
use smallvec::SmallVec;
use std::alloc::Global;

// Reads the pieces of the type at the front, with a list of what is open.
fn read_pieces<'a>(
    line: &'a [u8],
    pieces: &mut Vec<TypePiece<'a>>,
    opened: &mut Opened<'a>,
) -> Result<Option<&'a [u8]>, Memory>
    requires pieces { pieces.old.items ≡ [] }
    requires opened { opened.old.items ≡ [] }
    ensures pieces { IfOk result (λ o. IfSome o (λ _. IsType pieces.new.items)) }
    ensures reads { IfOk result (λ o. MatchOption o (HasNoType (tokens_in line.now))
        (λ rest. IsTypeIn (tokens_in line.now) (written pieces.new.items) (tokens_in rest.now))) }
{
    let mut state = State::Want;
    let mut rest = line;
    while state != State::Have || !opened.is_empty() {
        let Some((next, behind)) = step(rest, state, pieces, opened)? else {
            return Ok(None);
        };
        state = next;
        rest = behind;
    }
    if after_sign(rest, b'<').is_some() {
        return Ok(None);
    }
    Ok(Some(rest))
}

/// The type at the front that no `<` follows, and what follows it.
pub fn type_at<'a>(
    alloc: Global,
    line: &'a [u8],
) -> Result<Option<(TypeText<'a>, &'a [u8])>, Memory>
    ensures reads { IfOk result (λ o. MatchOption o (HasNoType (tokens_in line.now))
        (λ p. IsTypeIn (tokens_in line.now) (written p.0) (tokens_in p.1.now))) }
{
    let mut pieces = Vec::with_capacity(alloc, 8)?;
    let mut opened = SmallVec::new(alloc);
    let read = read_pieces(line, &mut pieces, &mut opened);
    // Early drop.
    drop(opened);
    match read {
        Ok(Some(rest)) => Ok(Some((TypeText::of(pieces), rest))),
        Ok(None) => Ok(None),
        Err(memory) => Err(memory),
    }
}
