//! The classes of bytes, and what of them is in front.

ghost use Rattle.std.specs.Prelude.{◌≡◌, false};
ghost use Rattle.nll_text.specs.Lines as lines;
ghost use Rattle.nll_text.specs.Tokens as tokens;
ghost use Rattle.nll_text.specs.Tokens.{first_passes};
ghost use Rattle.nll_text.specs.LineTokens.{tokens_in};
ghost use Rattle.nll_text.specs.Lexing.{SplitsWhile};

// Each byte that words are made of is at the index of its own value, and a dot at every other
// index.
static WORD_BYTES: [u8; 256] = *b"\
    ................................\
    ................0123456789......\
    .ABCDEFGHIJKLMNOPQRSTUVWXYZ...._\
    .abcdefghijklmnopqrstuvwxyz.....\
    ................................\
    ................................\
    ................................\
    ................................";

// One of the bytes that words are made of.
fn is_word_byte(byte: u8) -> bool
    ensures { result ≡ tokens.is_word_byte byte }
{
    WORD_BYTES[byte as usize] != b'.'
}

// A space, a tab or a carriage return.
pub(crate) fn is_blank(byte: u8) -> bool
    ensures { result ≡ lines.is_blank byte }
{
    matches!(byte, b' ' | b'\t' | b'\r')
}

// Whether the bytes begin with one that words are made of.
pub(crate) fn goes_on(bytes: &[u8]) -> bool
    ensures { result ≡ first_passes tokens.is_word_byte bytes.now }
{
    match bytes {
        [first, ..] => is_word_byte(*first),
        _ => false,
    }
}

// Whether a byte is `-`, and these after it begin with `>`.
pub(crate) fn is_arrow(byte: u8, behind: &[u8]) -> bool
    ensures { result ≡ first_passes (tokens.is_arrow byte) behind.now }
{
    match behind {
        [second, ..] => byte == b'-' && *second == b'>',
        _ => false,
    }
}

/// What follows the blanks at the front.
pub fn behind_gap(line: &[u8]) -> &[u8]
    ensures cut { result.now ≡ lines.without_front_blanks line.now }
    ensures tokens { tokens_in result.now ≡ tokens_in line.now }
    ensures solid { first_passes lines.is_blank result.now ≡ false }
{
    let mut rest = line;
    while let [first, behind @ ..] = rest {
        if !is_blank(*first) {
            return rest;
        }
        rest = behind;
    }
    rest
}

// The word bytes at the front, possibly none, and the rest.
pub(crate) fn split_word(bytes: &[u8]) -> (&[u8], &[u8])
    ensures { SplitsWhile tokens.is_word_byte bytes.now result.0.now result.1.now }
{
    let len = bytes.iter().take_while(|byte| is_word_byte(**byte)).count();
    bytes.split_at(len)
}
