//! Numbers at the front of bytes.

ghost use Rattle.std.specs.Prelude.{◌≡◌, ◌≤◌, ℕ, List, length, MatchOption};
ghost use Rattle.nll_text.specs.Number.{IsDigitFront, IsNumber};
ghost use Rattle.nll_text.specs.Tokens.{is_word_byte};
ghost use Rattle.nll_text.specs.Lexing.{SplitsWhile};

use crate::bytes::goes_on;

// The value of the digits at the front, and how many they are.
fn digits_at(bytes: &[u8]) -> (u32, usize)
    requires { length bytes.now ≤ 9 }
    ensures { IsDigitFront bytes.now result.0 result.1 }
{
    let mut number = 0;
    let mut count = 0;
    for byte in bytes {
        if !byte.is_ascii_digit() {
            return (number, count);
        }
        number = number * 10 + u32::from(*byte - b'0');
        count += 1;
    }
    (number, count)
}

/// The number that the word bytes at the front spell, and what follows them: `0`, or one to nine
/// digits without a leading zero.
pub fn number_in_front(bytes: &[u8]) -> Option<(u32, &[u8])>
    ensures { MatchOption result
        ((word rest : List ℕ) (n : ℕ) → SplitsWhile is_word_byte bytes.now word rest
        → ¬ IsNumber word n)
        (λ p. (word : List ℕ) × SplitsWhile is_word_byte bytes.now word p.1.now
        × IsNumber word p.0) }
{
    let (number, count) = digits_at(&bytes[..bytes.len().min(9)]);
    let (digits, rest) = bytes.split_at(count);
    let first = digits.first()?;
    if *first == b'0' && count > 1 {
        return None;
    }
    if goes_on(rest) {
        return None;
    }
    Some((number, rest))
}
