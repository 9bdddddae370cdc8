//! Values separated by commas.

ghost use Rattle.std.specs.Prelude.{◌≡◌, [], ◌∷◌, ◌++◌, IfOk, MatchOption, OnOk, map};
ghost use Rattle.nll_text.specs.Tokens as lex;
ghost use Rattle.nll_text.specs.LineTokens.{tokens_in};
ghost use Rattle.nll_text.specs.Grammars.{Begins, Grammar, HasNone};
ghost use Rattle.nll_mir_grammar.specs.Grammars.{IsBefore, IsListable, Puts, commas, parentheses};

use crate::pairs::Read;
use nll_sets::Memory;
use nll_text::after_sign;
use std::alloc::Global;

/// A value of which lines have lists.
pub trait Listed<'a>: Drop {
    /// What it stands for, and how that is spelled.
    ghost Meant: { Type 0 };

    ghost meant: { Self → Meant };

    ghost grammar: { Grammar Meant };

    /// The value at the front.
    fn read_at(alloc: Global, line: &'a [u8]) -> Read<'a, Self>
        ensures { IfOk result (λ o. MatchOption o (HasNone grammar (tokens_in line.now))
            (λ p. Begins grammar (tokens_in line.now) (meant p.0) (tokens_in p.1.now))) };
}

// Appends a value. The first one reserves room, by what follows it.
fn put<T: Drop>(values: &mut Vec<T>, value: T, line: &[u8]) -> Result<(), Memory>
    ensures { OnOk result (values.new.items ≡ values.old.items ++ value ∷ []) }
{
    if values.is_empty() {
        let room = if after_sign(line, b',').is_some() {
            2
        } else {
            1
        };
        values.reserve_exact(room)?;
    }
    values.push(value)?;
    Ok(())
}

// Appends the value at the front.
fn push<'a, T: Listed<'a>>(
    alloc: Global,
    line: &'a [u8],
    values: &mut Vec<T>,
) -> Result<Option<&'a [u8]>, Memory>
    ensures { IfOk result (λ o. Puts T.grammar T.meant (λ r. tokens_in r.now) (tokens_in line.now)
        values.old.items values.new.items o) }
{
    match T::read_at(alloc, line)? {
        Some((value, rest)) => {
            put(values, value, rest)?;
            Ok(Some(rest))
        }
        None => Ok(None),
    }
}

// Adds values separated by commas to the list, as many as there are.
fn push_all<'a, T: Listed<'a>>(
    alloc: Global,
    line: &'a [u8],
    values: &mut Vec<T>,
) -> Result<Option<&'a [u8]>, Memory>
    requires empty { values.old.items ≡ [] }
    requires comma { IsBefore (lex.sign 44) T.grammar }
    ensures { IfOk result (λ o. MatchOption o (HasNone (commas T.grammar) (tokens_in line.now))
        (λ rest. Begins (commas T.grammar) (tokens_in line.now)
        (map T.meant values.new.items) (tokens_in rest.now))) }
{
    let Some(first) = push(alloc, line, values)? else {
        return Ok(None);
    };
    let mut rest = first;
    while let Some(behind) = after_sign(rest, b',') {
        let Some(following) = push(alloc, behind, values)? else {
            return Ok(Some(rest));
        };
        rest = following;
    }
    Ok(Some(rest))
}

/// Values separated by commas, as many as there are.
pub fn list<'a, T: Listed<'a>>(alloc: Global, line: &'a [u8]) -> Read<'a, Vec<T>>
    requires { IsBefore (lex.sign 44) T.grammar }
    ensures { IfOk result (λ o. MatchOption o (HasNone (commas T.grammar) (tokens_in line.now))
        (λ p. Begins (commas T.grammar) (tokens_in line.now) (map T.meant p.0.items)
        (tokens_in p.1.now))) }
{
    let mut values = Vec::new(alloc);
    match push_all(alloc, line, &mut values) {
        Ok(Some(rest)) => Ok(Some((values, rest))),
        Ok(None) => Ok(None),
        Err(memory) => Err(memory),
    }
}

/// The values between `(` and `)`.
pub fn values_in<'a, T: Listed<'a>>(alloc: Global, line: &'a [u8]) -> Read<'a, Vec<T>>
    requires { IsListable T.grammar (lex.sign 41) }
    ensures { IfOk result (λ o. MatchOption o (HasNone (parentheses T.grammar) (tokens_in line.now))
        (λ p. Begins (parentheses T.grammar) (tokens_in line.now) (map T.meant p.0.items)
        (tokens_in p.1.now))) }
{
    let Some(inner) = after_sign(line, b'(') else {
        return Ok(None);
    };
    if let Some(rest) = after_sign(inner, b')') {
        return Ok(Some((Vec::new(alloc), rest)));
    }
    let Some((values, behind)) = list(alloc, inner)? else {
        return Ok(None);
    };
    match after_sign(behind, b')') {
        Some(rest) => Ok(Some((values, rest))),
        None => Ok(None),
    }
}
