//! How types begin.

ghost use Rattle.std.specs.Prelude.{◌≡◌, ◌∷◌, codes, MatchOption};
ghost use Rattle.nll_text.specs.Tokens as lex;
ghost use Rattle.nll_text.specs.LineTokens.{tokens_in};
ghost use Rattle.nll_mir_grammar.specs.OpenTypes.{BeginsType, IsNoFront};

use crate::words::{is_capital, mutability_at};
use nll_text::{after_sign, after_word, region_at, word_at};

/// How a type begins.
#[derive(Clone, Copy)]
pub enum Front<'a> {
    /// `int`
    Int,
    /// `()`
    Unit,
    /// The `(` of a tuple that has parts.
    Tuple,
    /// `&`, a region and, where it is `mut`, that.
    Reference(&'a [u8], bool),
    /// A name and `<`.
    Generic(&'a [u8]),
    /// A name that no `<` follows.
    Name(&'a [u8]),
    /// The `fn ()` of a function without arguments.
    Thunk,
    /// The `fn (` of a function that has arguments.
    Function,
}

// How a type begins whose first token is the word in front of these bytes, which isn't `int`.
fn word_front<'a>(word: &'a [u8], behind: &'a [u8]) -> Option<(Front<'a>, &'a [u8])>
    requires { word.now ≡ codes "int" → ⊥ }
    ensures { MatchOption result (IsNoFront (lex.word word.now ∷ tokens_in behind.now))
        (λ p. BeginsType p.0 (lex.word word.now ∷ tokens_in behind.now) (tokens_in p.1.now)) }
{
    if is_capital(word) {
        return match after_sign(behind, b'<') {
            Some(rest) => Some((Front::Generic(word), rest)),
            None => Some((Front::Name(word), behind)),
        };
    }
    match word {
        b"fn" => {
            let inner = after_sign(behind, b'(')?;
            match after_sign(inner, b')') {
                Some(rest) => Some((Front::Thunk, rest)),
                None => Some((Front::Function, inner)),
            }
        }
        _ => None,
    }
}

/// How a type begins here, and what follows. Many types are `int`, so that is told first.
pub fn front_at(line: &[u8]) -> Option<(Front<'_>, &[u8])>
    ensures { MatchOption result (IsNoFront (tokens_in line.now))
        (λ p. BeginsType p.0 (tokens_in line.now) (tokens_in p.1.now)) }
{
    if let Some(behind) = after_word(line, b"int") {
        return Some((Front::Int, behind));
    }
    if let Some(behind) = after_sign(line, b'&') {
        let (region, behind) = region_at(behind)?;
        let (is_mut, rest) = mutability_at(behind);
        return Some((Front::Reference(region, is_mut), rest));
    }
    if let Some(behind) = after_sign(line, b'(') {
        return match after_sign(behind, b')') {
            Some(rest) => Some((Front::Unit, rest)),
            None => Some((Front::Tuple, behind)),
        };
    }
    let (word, behind) = word_at(line)?;
    word_front(word, behind)
}
