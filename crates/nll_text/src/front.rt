//! The first token of a line, where it is what is looked for: a reader of lines takes one token
//! after another, and needs no list of them.

ghost use Rattle.std.specs.Prelude.{◌≡◌, ◌↔◌, ◌∷◌, ◌<◌, length, true, IfSome, IsTrue, MatchOption};
ghost use Rattle.nll_text.specs.Tokens as tokens;
ghost use Rattle.nll_text.specs.Tokens.{IsGap, IsWord};
ghost use Rattle.nll_text.specs.LineTokens.{tokens_in};
ghost use Rattle.nll_text.specs.Grammars.{Begins, HasNone, IsNotNext, any_words, numbers, regions};

use crate::bytes::{behind_gap, goes_on, is_arrow, split_word};
use crate::number::number_in_front;

/// What follows the sign, where it comes next.
pub fn after_sign<'a>(line: &'a [u8], sign: u8) -> Option<&'a [u8]>
    requires { tokens.is_sign sign ≡ true }
    ensures { MatchOption result (IsNotNext (tokens.sign sign) (tokens_in line.now))
        (λ rest. tokens_in line.now ≡ tokens.sign sign ∷ tokens_in rest.now) }
{
    match behind_gap(line) {
        [first, rest @ ..] if *first == sign && !is_arrow(sign, rest) => Some(rest),
        _ => None,
    }
}

/// What follows the arrow, where it comes next.
pub fn after_arrow<'a>(line: &'a [u8]) -> Option<&'a [u8]>
    ensures { MatchOption result (IsNotNext tokens.arrow (tokens_in line.now))
        (λ rest. tokens_in line.now ≡ tokens.arrow ∷ tokens_in rest.now) }
{
    match behind_gap(line) {
        [b'-', b'>', rest @ ..] => Some(rest),
        _ => None,
    }
}

/// What follows this word, where it comes next.
pub fn after_word<'a>(line: &'a [u8], word: &[u8]) -> Option<&'a [u8]>
    requires { IsWord word.now }
    ensures begins { MatchOption result (IsNotNext (tokens.word word.now) (tokens_in line.now))
        (λ rest. tokens_in line.now ≡ tokens.word word.now ∷ tokens_in rest.now) }
    ensures shorter { IfSome result (λ rest. length rest.now < length line.now) }
{
    let core = behind_gap(line);
    let (front, rest) = core.split_at_checked(word.len())?;
    // Words are short: their bytes are compared one after another.
    for place in 0..word.len() {
        if front[place] != word[place] {
            return None;
        }
    }
    if goes_on(rest) {
        return None;
    }
    Some(rest)
}

/// The word at the front, and what follows it.
pub fn word_at<'a>(line: &'a [u8]) -> Option<(&'a [u8], &'a [u8])>
    ensures { MatchOption result (HasNone any_words (tokens_in line.now))
        (λ p. Begins any_words (tokens_in line.now) p.0.now (tokens_in p.1.now)) }
{
    let (word, rest) = split_word(behind_gap(line));
    if word.is_empty() {
        return None;
    }
    Some((word, rest))
}

/// The name of the region at the front, and what follows it.
pub fn region_at<'a>(line: &'a [u8]) -> Option<(&'a [u8], &'a [u8])>
    ensures begins { MatchOption result (HasNone regions (tokens_in line.now))
        (λ p. Begins regions (tokens_in line.now) p.0.now (tokens_in p.1.now)) }
    ensures shorter { IfSome result (λ p. length p.1.now < length line.now) }
{
    let [b'\'', behind @ ..] = behind_gap(line) else {
        return None;
    };
    let (name, rest) = split_word(behind);
    if name.is_empty() {
        return None;
    }
    Some((name, rest))
}

/// The number at the front, and what follows it.
pub fn number_at<'a>(line: &'a [u8]) -> Option<(u32, &'a [u8])>
    ensures begins { MatchOption result (HasNone numbers (tokens_in line.now))
        (λ p. Begins numbers (tokens_in line.now) p.0 (tokens_in p.1.now)) }
    ensures shorter { IfSome result (λ p. length p.1.now < length line.now) }
{
    number_in_front(behind_gap(line))
}

/// Whether a line has no token: it is blanks alone, or nothing at all.
pub fn is_gap(line: &[u8]) -> bool
    ensures { IsTrue result ↔ IsGap line.now }
{
    behind_gap(line).is_empty()
}
