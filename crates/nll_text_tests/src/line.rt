//! A line that is read from its first token to its last, and the kind of fault that is reported for
//! it.
use super::tokens::{Bytes, is, is_capital, is_region, is_word, number_of, put_tokens};
use nll_format::TextKind;
use nll_format::TextKind::{
    Duplicate, End, Header, Limit, NotUtf8, Range, Shape, Syntax, TypeSize, Unknown,
};
use nll_problem::Kind;
use std::alloc::Global;

// The kinds of fault that a line of a short text can have, in the order of reporting.
const KINDS: &[TextKind] = &[
    NotUtf8,
    Header,
    Syntax,
    Unknown,
    Duplicate,
    Range,
    Shape,
    TypeSize,
    Limit(Kind::Points),
    End,
];

// The position of a kind among them.
fn place_of(kind: TextKind) -> usize {
    for at in 0..KINDS.len() {
        if KINDS[at] == kind {
            return at;
        }
    }
    KINDS.len()
}

/// The tokens of a line, how many of them are taken, and the kind of fault that is reported so far.
#[derive(Drop)]
pub struct Line<'a> {
    tokens: Vec<Bytes<'a>>,
    taken: usize,
    fault: Option<TextKind>,
}

impl<'a> Line<'a> {
    /// A line of which no token is taken.
    pub fn new(alloc: Global, line: Bytes<'a>) -> Line<'a> {
        let mut tokens = Vec::new(alloc);
        let is_made = put_tokens(&mut tokens, line);
        Line {
            tokens,
            taken: 0,
            fault: if is_made { None } else { Some(Syntax) },
        }
    }

    /// Notes a fault, where something is wrong.
    pub fn wrong_if(&mut self, is_wrong: bool, kind: TextKind) {
        let told = self.fault.map_or(KINDS.len(), place_of);
        if is_wrong && place_of(kind) < told {
            self.fault = Some(kind);
        }
    }

    /// The kind of fault that is reported about the line once it is read.
    pub fn fault(&mut self) -> Option<TextKind> {
        let is_left = self.left() > 0;
        self.wrong_if(is_left, Syntax);
        self.fault
    }

    /// How many tokens aren't taken.
    pub fn left(&self) -> usize {
        self.tokens.len().saturating_sub(self.taken)
    }

    /// The next token; nothing where there is none.
    pub fn front(&self) -> Bytes<'a> {
        self.tokens.get(self.taken).copied().unwrap_or(b"")
    }

    /// Takes the next token.
    pub fn take(&mut self) -> Bytes<'a> {
        let token = self.front();
        self.taken = self.taken.saturating_add(1);
        token
    }

    /// Takes the next token where it is this one.
    pub fn has(&mut self, spelled: &str) -> bool {
        let found = is(self.front(), spelled);
        if found {
            self.taken = self.taken.saturating_add(1);
        }
        found
    }

    /// Takes the next token, which has to be this one.
    pub fn want(&mut self, spelled: &str) {
        let found = self.has(spelled);
        self.wrong_if(!found, Syntax);
    }

    /// Takes the name of a region.
    pub fn region(&mut self) -> Bytes<'a> {
        let token = self.take();
        self.wrong_if(!is_region(token), Syntax);
        token
    }

    /// Takes a word.
    pub fn word(&mut self) -> Bytes<'a> {
        let token = self.take();
        self.wrong_if(!is_word(token), Syntax);
        token
    }

    /// Takes the name of a struct or of a type parameter.
    pub fn name(&mut self) -> Bytes<'a> {
        let token = self.take();
        self.wrong_if(!is_capital(token), Syntax);
        token
    }

    /// The number of a token that is this front and a number.
    pub fn number_in(&mut self, token: &[u8], front: &str) -> u64 {
        let digits = token.strip_prefix(front.as_bytes());
        let number = number_of(digits.unwrap_or(b""));
        self.wrong_if(number.is_none(), Syntax);
        number.unwrap_or(0)
    }

    /// Takes a word that is this front and a number.
    pub fn number(&mut self, front: &str) -> u64 {
        let token = self.take();
        self.number_in(token, front)
    }
}
