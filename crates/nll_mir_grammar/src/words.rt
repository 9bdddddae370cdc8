//! Names and numbers at the front of the rest of a line, and words that may be missing there.

ghost use Rattle.std.specs.Prelude.{◌≡◌, MatchOption};
ghost use Rattle.nll_text.specs.LineTokens.{tokens_in};
ghost use Rattle.nll_text.specs.Grammars.{Begins, HasNone};
ghost use Rattle.nll_mir_grammar.specs.Parts as parts;
ghost use Rattle.nll_mir_grammar.specs.WrittenTypes as types;

use nll_text::{after_word, behind_gap, number_in_front, word_at};

/// Whether the word begins with a capital letter, as the names of structs and of type parameters
/// do.
pub fn is_capital(word: &[u8]) -> bool
    ensures { result ≡ types.is_capital word.now }
{
    match word {
        [first, ..] => *first >= b'A' && *first <= b'Z',
        _ => false,
    }
}

/// The name of a type at the front.
pub fn name_at<'a>(line: &'a [u8]) -> Option<(&'a [u8], &'a [u8])>
    ensures { MatchOption result (HasNone parts.names (tokens_in line.now))
        (λ p. Begins parts.names (tokens_in line.now) p.0.now (tokens_in p.1.now)) }
{
    match word_at(line) {
        Some((word, rest)) if is_capital(word) => Some((word, rest)),
        _ => None,
    }
}

/// The variable at the front, by its number.
pub fn variable_at<'a>(line: &'a [u8]) -> Option<(u32, &'a [u8])>
    ensures { MatchOption result (HasNone parts.variables (tokens_in line.now))
        (λ p. Begins parts.variables (tokens_in line.now) p.0 (tokens_in p.1.now)) }
{
    match behind_gap(line) {
        [b'_', digits @ ..] => number_in_front(digits),
        _ => None,
    }
}

/// The block at the front, by its number.
pub fn block_at<'a>(line: &'a [u8]) -> Option<(u32, &'a [u8])>
    ensures { MatchOption result (HasNone parts.block_names (tokens_in line.now))
        (λ p. Begins parts.block_names (tokens_in line.now) p.0 (tokens_in p.1.now)) }
{
    match behind_gap(line) {
        [b'b', b'b', digits @ ..] => number_in_front(digits),
        _ => None,
    }
}

/// Whether `mut` comes next, and what follows it, or the line itself.
pub fn mutability_at<'a>(line: &'a [u8]) -> (bool, &'a [u8])
    ensures { Begins parts.mutabilities (tokens_in line.now) result.0 (tokens_in result.1.now) }
{
    match after_word(line, b"mut") {
        Some(rest) => (true, rest),
        None => (false, line),
    }
}

/// Whether `drop` comes next, and what follows it, or the line itself.
pub fn drop_mark_at<'a>(line: &'a [u8]) -> (bool, &'a [u8])
    ensures { Begins parts.drop_marks (tokens_in line.now) result.0 (tokens_in result.1.now) }
{
    match after_word(line, b"drop") {
        Some(rest) => (true, rest),
        None => (false, line),
    }
}
