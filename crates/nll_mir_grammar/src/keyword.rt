//! The first words of lines.

ghost use Rattle.std.specs.Prelude.{◌≡◌, ◌∷◌, false};
ghost use Rattle.std.specs.ControlFlow.{MatchControlFlow};
ghost use Rattle.nll_text.specs.Lines.{is_blank};
ghost use Rattle.nll_text.specs.Tokens.{Token, first_passes, word as word_token};
ghost use Rattle.nll_text.specs.LineTokens.{tokens_in};
ghost use Rattle.nll_text.specs.Grammars.{IsNotNext};
ghost use Rattle.nll_mir_grammar.specs.Kinds.{HasNoKeyword, keyword_name};

use nll_text::after_word;
use std::ops::ControlFlow;

/// The first word of a line that begins with no place.
#[derive(Clone, Copy)]
pub enum Keyword {
    Universal,
    Outlives,
    Region,
    Assert,
    Struct,
    Let,
    Blocks,
    Block,
    Read,
    Live,
    Dead,
    Nop,
    Goto,
    Switch,
    Drop,
    Return,
    Stop,
    End,
}

// Ends a search with this keyword and what follows it, where it comes next.
#[inline(always)]
fn seek<'a>(line: &'a [u8], keyword: Keyword, word: &[u8]) -> ControlFlow<(Keyword, &'a [u8])>
    requires solid { first_passes is_blank line.now ≡ false }
    requires word { word.now ≡ keyword_name keyword }
    ensures { MatchControlFlow result
        (λ _. IsNotNext (word_token (keyword_name keyword)) (tokens_in line.now))
        (λ p. tokens_in line.now ≡ word_token (keyword_name p.0) ∷ tokens_in p.1.now) }
{
    if line.is_empty() || line[0] != word[0] {
        return ControlFlow::Continue(());
    }
    match after_word(line, word) {
        Some(rest) => ControlFlow::Break((keyword, rest)),
        None => ControlFlow::Continue(()),
    }
}

/// Searches for the keyword at the front of a line that begins with no blank, frequent ones first.
pub fn seek_keyword<'a>(line: &'a [u8]) -> ControlFlow<(Keyword, &'a [u8])>
    requires { first_passes is_blank line.now ≡ false }
    ensures { MatchControlFlow result (λ _. HasNoKeyword (tokens_in line.now))
        (λ p. tokens_in line.now ≡ word_token (keyword_name p.0) ∷ tokens_in p.1.now) }
{
    seek(line, Keyword::Read, b"read")?;
    seek(line, Keyword::Goto, b"goto")?;
    seek(line, Keyword::Switch, b"switch")?;
    seek(line, Keyword::Drop, b"drop")?;
    seek(line, Keyword::Let, b"let")?;
    seek(line, Keyword::Region, b"region")?;
    seek(line, Keyword::Return, b"return")?;
    seek(line, Keyword::Stop, b"stop")?;
    seek(line, Keyword::Dead, b"dead")?;
    seek(line, Keyword::Live, b"live")?;
    seek(line, Keyword::Nop, b"nop")?;
    seek(line, Keyword::Block, b"block")?;
    seek(line, Keyword::Struct, b"struct")?;
    seek(line, Keyword::Outlives, b"outlives")?;
    seek(line, Keyword::Universal, b"universal")?;
    seek(line, Keyword::Assert, b"assert")?;
    seek(line, Keyword::Blocks, b"blocks")?;
    seek(line, Keyword::End, b"end")
}
