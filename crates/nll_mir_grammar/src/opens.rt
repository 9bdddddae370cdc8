//! What of a type is begun and not complete, and one step through a type.

ghost use Rattle.std.specs.Prelude.{◌≡◌, ◌∷◌, [], ◌++◌, ◌<◌, ◌-◌, ℕ, List, length, take, true};
ghost use Rattle.std.specs.Prelude.{IfOk, IfSome, MatchOption};
ghost use Rattle.nll_text.specs.Tokens as lex;
ghost use Rattle.nll_text.specs.LineTokens.{tokens_in};
ghost use Rattle.nll_mir_grammar.specs.OpenTypes.{AreRead, EndsWith, Frame, GoesFurther, IsBegun};
ghost use Rattle.nll_mir_grammar.specs.OpenTypes.{IsInnermostClosed, IsCompleted, IsStuck};
ghost use Rattle.nll_mir_grammar.specs.OpenTypes.{takes_region};
ghost use Rattle.nll_mir_grammar.specs.WrittenTypes.{WrittenType};
ghost use Rattle.nll_mir_grammar.specs.declared.opens.State.{State as stage};
ghost use Rattle.nll_mir_grammar.specs.declared.type_text.TypePiece.{TypePiece as piece};

use crate::fronts::{Front, front_at};
use crate::type_text::TypePiece;
use nll_sets::Memory;
use nll_text::{after_arrow, after_sign, region_at};
use smallvec::SmallVec;
use std::mem::size_of;

/// What is begun and not complete. A reference isn't kept: it is complete as soon as the type that
/// it points to is.
#[derive(Clone, Copy)]
pub enum Open<'a> {
    /// A tuple, whose row is begun.
    Tuple,
    /// A name, the row of whose arguments is begun.
    Arguments(&'a [u8]),
    /// A function, the row of whose arguments is begun.
    Inputs,
    /// A function whose arguments are all in the row, and whose result comes next.
    Output,
}

const _: () = prove!(size_of::<Open<'_>>() == 24);

/// What may come next in a type.
#[derive(Clone, Copy, PartialEq, Eq)]
pub enum State {
    /// A type.
    Want,
    /// A type or a region.
    WantArgument,
    /// A type is complete.
    Have,
    /// What follows a part or an argument of the innermost thing that is open.
    Inside,
    /// The `->` in front of a function's result.
    WantArrow,
}

impl<'a> Default for Open<'a> {
    fn default() -> Open<'a> {
        Open::Tuple
    }
}

/// What is open, the innermost last. Few types are so deep that this allocates.
pub type Opened<'a> = SmallVec<Open<'a>, 3>;

// Appends a piece, after which this may come next.
#[inline(always)]
fn put<'a>(
    pieces: &mut Vec<TypePiece<'a>>,
    piece: TypePiece<'a>,
    state: State,
) -> Result<State, Memory>
    ensures { IfOk result
        (λ s. (s ≡ state) × (pieces.new.items ≡ pieces.old.items ++ piece.entry ∷ [])) }
{
    pieces.reserve(1)?;
    pieces.push_reserved(piece);
    Ok(state)
}

// Appends a row without arguments, and what is made of it: a type is complete.
fn put_empty<'a>(pieces: &mut Vec<TypePiece<'a>>, piece: TypePiece<'a>) -> Result<State, Memory>
    ensures { IfOk result (λ s. (s ≡ State.Have)
        × (pieces.new.items ≡ pieces.old.items ++ TypePiece.Row ∷ piece.entry ∷ [])) }
{
    put(pieces, TypePiece::Row, State::Have)?;
    put(pieces, piece, State::Have)
}

// Opens something whose row begins, in which this may come next.
#[inline(always)]
fn open_row<'a>(
    pieces: &mut Vec<TypePiece<'a>>,
    opened: &mut Opened<'a>,
    inner: Open<'a>,
    state: State,
) -> Result<State, Memory>
    ensures { IfOk result (λ s. (s ≡ state)
        × (pieces.new.items ≡ pieces.old.items ++ TypePiece.Row ∷ [])
        × (opened.new.items ≡ opened.old.items ++ inner.entry ∷ [])) }
{
    opened.reserve(1)?;
    opened.push_reserved(inner);
    put(pieces, TypePiece::Row, state)
}

/// Goes on after the beginning of a type.
pub fn begin<'a>(
    front: Front<'a>,
    pieces: &mut Vec<TypePiece<'a>>,
    opened: &mut Opened<'a>,
) -> Result<State, Memory>
    ensures { IfOk result (λ s. (frames : List Frame) (t : WrittenType)
        → AreRead State.Want frames t pieces.old.items opened.old.items
        → IsBegun front.entry frames t opened.old.items s pieces.new.items opened.new.items) }
{
    match front {
        Front::Int => put(pieces, TypePiece::Int, State::Have),
        Front::Unit => put_empty(pieces, TypePiece::Tuple),
        Front::Tuple => open_row(pieces, opened, Open::Tuple, State::Want),
        Front::Reference(region, is_mut) => {
            put(pieces, TypePiece::Reference(is_mut, region), State::Want)
        }
        Front::Generic(name) => open_row(
            pieces,
            opened,
            Open::Arguments(name),
            State::WantArgument,
        ),
        Front::Name(name) => put_empty(pieces, TypePiece::Named(name)),
        Front::Thunk => open_row(pieces, opened, Open::Output, State::WantArrow),
        Front::Function => open_row(pieces, opened, Open::Inputs, State::Want),
    }
}

// Whether the arguments of a name are the innermost thing that is open.
fn has_name(opened: &Opened<'_>) -> bool
    ensures { (frames : List Frame) (t : WrittenType) (ps : List piece)
        → AreRead State.WantArgument frames t ps opened.now.items → result ≡ takes_region frames }
{
    match opened.as_slice().last() {
        Some(Open::Arguments(_)) => true,
        _ => false,
    }
}

// One step where a type or a region comes next.
fn want_argument<'a>(
    line: &'a [u8],
    pieces: &mut Vec<TypePiece<'a>>,
    opened: &Opened<'a>,
) -> Result<Option<(State, &'a [u8])>, Memory>
    ensures { (frames : List Frame) (t : WrittenType)
        → AreRead State.WantArgument frames t pieces.old.items opened.now.items
        → IfOk result (λ o. MatchOption o (IsStuck State.WantArgument frames t (tokens_in line.now))
        (λ p. GoesFurther State.WantArgument frames t opened.now.items (tokens_in line.now)
        p.0 pieces.new.items opened.now.items (tokens_in p.1.now))) }
{
    let Some((region, rest)) = region_at(line) else {
        return Ok(Some((State::Want, line)));
    };
    if !has_name(opened) {
        return Ok(None);
    }
    let state = put(pieces, TypePiece::Region(region), State::Inside)?;
    Ok(Some((state, rest)))
}

// Ends the innermost thing that is open: its type is made and complete.
fn end<'a>(
    pieces: &mut Vec<TypePiece<'a>>,
    opened: &mut Opened<'a>,
    piece: TypePiece<'a>,
) -> Result<State, Memory>
    requires { 0 < length opened.old.items }
    ensures { IfOk result (λ s. (s ≡ State.Have)
        × (pieces.new.items ≡ pieces.old.items ++ piece.entry ∷ [])
        × (opened.new.items ≡ take (length opened.old.items - 1) opened.old.items)) }
{
    opened.truncate(opened.len() - 1);
    put(pieces, piece, State::Have)
}

// One step after a complete type, which becomes a part of the innermost thing that is open, or
// completes it.
fn complete<'a>(pieces: &mut Vec<TypePiece<'a>>, opened: &mut Opened<'a>) -> Result<State, Memory>
    requires { 0 < length opened.old.items }
    ensures { IfOk result (λ s. (frames : List Frame) (t : WrittenType)
        → AreRead State.Have frames t pieces.old.items opened.old.items
        → IsCompleted frames t opened.old.items s pieces.new.items opened.new.items) }
{
    match opened.as_slice()[opened.len() - 1] {
        Open::Output => end(pieces, opened, TypePiece::Function),
        Open::Tuple | Open::Arguments(_) | Open::Inputs => {
            put(pieces, TypePiece::Part, State::Inside)
        }
    }
}

// How the innermost thing that is open ends, where it has parts: the sign that closes it, and what
// may come after a comma.
fn ends_at(opened: &Opened<'_>) -> Option<(u8, State)>
    ensures some { IfSome result (λ _. 0 < length opened.now.items) }
    ensures sign { IfSome result (λ p. lex.is_sign p.0 ≡ true) }
    ensures ends { (frames : List Frame) (t : WrittenType) (ps : List piece)
        → AreRead State.Inside frames t ps opened.now.items → MatchOption result
        ((u : WrittenType) (ts : List lex.Token) → IsStuck State.Inside frames u ts)
        (λ p. EndsWith frames p.0 p.1) }
{
    match opened.as_slice().last() {
        Some(Open::Tuple) => Some((b')', State::Want)),
        Some(Open::Arguments(_)) => Some((b'>', State::WantArgument)),
        Some(Open::Inputs) => Some((b')', State::Want)),
        _ => None,
    }
}

// Ends the row of the innermost thing that is open.
fn close<'a>(pieces: &mut Vec<TypePiece<'a>>, opened: &mut Opened<'a>) -> Result<State, Memory>
    requires { 0 < length opened.old.items }
    ensures { IfOk result (λ s. (frames : List Frame) (t : WrittenType) (c : ℕ) (next : stage)
        → AreRead State.Inside frames t pieces.old.items opened.old.items → EndsWith frames c next
        → IsInnermostClosed frames t c opened.old.items s pieces.new.items opened.new.items) }
{
    match opened.as_slice()[opened.len() - 1] {
        Open::Tuple => end(pieces, opened, TypePiece::Tuple),
        Open::Arguments(name) => end(pieces, opened, TypePiece::Named(name)),
        Open::Inputs | Open::Output => {
            opened.truncate(opened.len() - 1);
            opened.push(Open::Output)?;
            Ok(State::WantArrow)
        }
    }
}

// One step after a part or an argument of the innermost thing that is open.
fn inside<'a>(
    line: &'a [u8],
    pieces: &mut Vec<TypePiece<'a>>,
    opened: &mut Opened<'a>,
) -> Result<Option<(State, &'a [u8])>, Memory>
    ensures { (frames : List Frame) (t : WrittenType)
        → AreRead State.Inside frames t pieces.old.items opened.old.items
        → IfOk result (λ o. MatchOption o (IsStuck State.Inside frames t (tokens_in line.now))
        (λ p. GoesFurther State.Inside frames t opened.old.items (tokens_in line.now)
        p.0 pieces.new.items opened.new.items (tokens_in p.1.now))) }
{
    let Some((closing, next)) = ends_at(opened) else {
        return Ok(None);
    };
    if let Some(rest) = after_sign(line, b',') {
        return Ok(Some((next, rest)));
    }
    let Some(rest) = after_sign(line, closing) else {
        return Ok(None);
    };
    let state = close(pieces, opened)?;
    Ok(Some((state, rest)))
}

/// One step: what may come then, and what follows the tokens that it takes.
pub fn step<'a>(
    line: &'a [u8],
    state: State,
    pieces: &mut Vec<TypePiece<'a>>,
    opened: &mut Opened<'a>,
) -> Result<Option<(State, &'a [u8])>, Memory>
    requires { state ≡ State.Have → 0 < length opened.old.items }
    ensures { (frames : List Frame) (t : WrittenType)
        → AreRead state frames t pieces.old.items opened.old.items
        → IfOk result (λ o. MatchOption o (IsStuck state frames t (tokens_in line.now))
        (λ p. GoesFurther state frames t opened.old.items (tokens_in line.now)
        p.0 pieces.new.items opened.new.items (tokens_in p.1.now))) }
{
    match state {
        State::Want => {
            let Some((front, rest)) = front_at(line) else {
                return Ok(None);
            };
            let next = begin(front, pieces, opened)?;
            Ok(Some((next, rest)))
        }
        State::WantArgument => want_argument(line, pieces, opened),
        State::Have => {
            let next = complete(pieces, opened)?;
            Ok(Some((next, line)))
        }
        State::Inside => inside(line, pieces, opened),
        State::WantArrow => match after_arrow(line) {
            Some(rest) => Ok(Some((State::Want, rest))),
            None => Ok(None),
        },
    }
}
