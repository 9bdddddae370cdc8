//! Lines, tokens and numbers. A token is the bytes that it is written with.
use std::str;

/// Some bytes of a text: a line, or a token.
pub type Bytes<'a> = &'a [u8];

/// Appends the lines of a text.
pub fn put_lines<'a>(lines: &mut Vec<Bytes<'a>>, text: Bytes<'a>) {
    let text = text.strip_suffix(b"\n").unwrap_or(text);
    let mut begin = 0usize;
    for at in 0..text.len() {
        if text[at] == b'\n' {
            let _ = lines.push(text.get(begin..at).unwrap_or(b""));
            begin = at + 1;
        }
    }
    let _ = lines.push(text.get(begin..).unwrap_or(b""));
}

/// Whether the bytes are a text.
pub fn is_utf8(line: &[u8]) -> bool {
    str::from_utf8(line).is_ok()
}

// Classes of bytes.
#[derive(Clone, Copy)]
enum Class {
    Blank,
    Sign,
    Capital,
    Digit,
    Word,
}

// Whether a byte is of a class.
fn is_of(byte: u8, class: Class) -> bool {
    match class {
        Class::Blank => matches!(byte, b' ' | b'\t' | b'\r'),
        Class::Sign => matches!(
            byte,
            b'=' | b'&' | b'(' | b')' | b'<' | b'>' | b',' | b':' | b'.' | b'*' | b'+' | b'-' | b'?'
        ),
        Class::Capital => byte.is_ascii_uppercase(),
        Class::Digit => byte.is_ascii_digit(),
        Class::Word => byte.is_ascii_alphanumeric() || byte == b'_',
    }
}

// How many bytes at the front are of a class.
fn count_of(line: &[u8], class: Class) -> usize {
    for at in 0..line.len() {
        if !is_of(line[at], class) {
            return at;
        }
    }
    line.len()
}

// The bytes from a place on.
fn rest_from(line: &[u8], at: usize) -> &[u8] {
    line.get(at..).unwrap_or(b"")
}

// How many bytes the token at the front has: none where there is no token.
fn token_length(line: &[u8]) -> usize {
    if line.starts_with(b"'") {
        let name = count_of(rest_from(line, 1), Class::Word);
        return if name > 0 { name.saturating_add(1) } else { 0 };
    }
    if line.starts_with(b"->") {
        return 2;
    }
    count_of(line, Class::Word).max(count_of(line, Class::Sign).min(1))
}

/// Appends the tokens of a line, unless it isn't made of tokens.
pub fn put_tokens<'a>(tokens: &mut Vec<Bytes<'a>>, line: Bytes<'a>) -> bool {
    let mut rest = line;
    for _ in 0..=line.len() {
        rest = rest_from(rest, count_of(rest, Class::Blank));
        let length = token_length(rest);
        if length == 0 {
            return rest.is_empty();
        }
        let _ = tokens.push(rest.get(..length).unwrap_or(b""));
        rest = rest_from(rest, length);
    }
    false
}

/// Whether a line after the header says nothing.
pub fn is_skipped(line: &[u8]) -> bool {
    let core = rest_from(line, count_of(line, Class::Blank));
    core.is_empty() || core.starts_with(b"#")
}

// What follows a run of bytes and the blanks on both sides of it.
fn behind_run<'a>(line: Bytes<'a>, run: &str) -> Option<Bytes<'a>> {
    let core = rest_from(line, count_of(line, Class::Blank));
    let rest = core.strip_prefix(run.as_bytes())?;
    let blanks = count_of(rest, Class::Blank);
    if blanks == 0 && !rest.is_empty() {
        return None;
    }
    Some(rest_from(rest, blanks))
}

/// Whether a line is the header of this kind and version of texts.
pub fn is_header(line: &[u8], kind: &str, version: &str) -> bool {
    let behind = behind_run(line, kind).unwrap_or(b"no run");
    behind_run(behind, version).unwrap_or(b"no run").is_empty()
}

/// Whether a token is this one.
pub fn is(token: &[u8], spelled: &str) -> bool {
    token == spelled.as_bytes()
}

/// Whether a token is a word.
pub fn is_word(token: &[u8]) -> bool {
    count_of(token, Class::Word) > 0
}

/// Whether a token is the name of a region.
pub fn is_region(token: &[u8]) -> bool {
    token.starts_with(b"'")
}

/// Whether a token is a word that begins with a capital letter.
pub fn is_capital(token: &[u8]) -> bool {
    count_of(token, Class::Capital) > 0
}

/// The number that some bytes are, where they are one.
pub fn number_of(word: &[u8]) -> Option<u64> {
    let is_long = word.len() > 9 || (word.len() > 1 && word.starts_with(b"0"));
    if word.is_empty() || is_long || count_of(word, Class::Digit) < word.len() {
        return None;
    }
    let mut number = 0u64;
    for digit in word {
        let value = u64::from(digit.saturating_sub(b'0'));
        number = number.saturating_mul(10).saturating_add(value);
    }
    Some(number)
}

/// Whether a name is among these.
pub fn is_among(names: &[Bytes<'_>], name: &[u8]) -> bool {
    for known in names {
        if *known == name {
            return true;
        }
    }
    false
}
