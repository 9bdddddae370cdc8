//! The lines of a facts text.

ghost use Rattle.std.specs.Prelude.{codes};
ghost use Rattle.nll_text.specs.Tokens as lex;
ghost use Rattle.nll_text.specs.LineTokens.{tokens_in};
ghost use Rattle.nll_text.specs.Grammars.{IsNotNext};
ghost use Rattle.nll_facts.specs.FactsForms as forms;
ghost use Rattle.nll_facts.specs.FactsForms.{facts_parts};
ghost use Rattle.nll_facts.specs.FactsLines.{facts_view};
ghost use Rattle.nll_format.specs.Parts.{ReadsParts};

use nll_format::{nothing, number, region, region_number, two_numbers, two_regions};
use nll_problem::At;
use nll_text::{after_word, region_at};

/// A line, with its names where they lie in the text.
#[derive(Clone, Copy)]
pub enum Line<'a> {
    Points(u32),
    Universal(&'a [u8]),
    Outlives(&'a [u8], &'a [u8]),
    Region(&'a [u8]),
    Next(u32, u32),
    Return(u32),
    Base(&'a [u8], u32),
    Constraint(&'a [u8], &'a [u8], At),
    End,
}

// Two regions' names, and where a constraint holds: the number of a point, or `all`.
fn two_regions_place(rest: &[u8]) -> Option<(&[u8], &[u8], At)>
    ensures { ReadsParts forms.two_regions_place (λ n. (n.0.now, n.1.now, n.2)) rest.now result }
{
    let (first, rest) = region_at(rest)?;
    let (second, rest) = region_at(rest)?;
    if let Some(point) = number(rest) {
        return Some((first, second, At::Point(point)));
    }
    let rest = after_word(rest, b"all")?;
    nothing(rest)?;
    Some((first, second, At::All))
}

/// Reads a line as one of the forms.
pub fn line_of(line: &[u8]) -> Option<Line<'_>>
    ensures { ReadsParts facts_parts facts_view line.now result }
{
    if let Some(rest) = after_word(line, b"base") {
        let (name, point) = region_number(rest)?;
        return Some(Line::Base(name, point));
    }
    if let Some(rest) = after_word(line, b"next") {
        let (from, to) = two_numbers(rest)?;
        return Some(Line::Next(from, to));
    }
    if let Some(rest) = after_word(line, b"constraint") {
        let (sup, sub, at) = two_regions_place(rest)?;
        return Some(Line::Constraint(sup, sub, at));
    }
    if let Some(rest) = after_word(line, b"return") {
        return Some(Line::Return(number(rest)?));
    }
    rare_line_of(line)
}

// Like `line_of`, for a line that begins with none of the words that most lines begin with: the
// frequent words are tried first, for speed.
fn rare_line_of(line: &[u8]) -> Option<Line<'_>>
    requires base { IsNotNext (lex.word (codes "base")) (tokens_in line.now) }
    requires next { IsNotNext (lex.word (codes "next")) (tokens_in line.now) }
    requires constraint { IsNotNext (lex.word (codes "constraint")) (tokens_in line.now) }
    requires returning { IsNotNext (lex.word (codes "return")) (tokens_in line.now) }
    ensures { ReadsParts facts_parts facts_view line.now result }
{
    if let Some(rest) = after_word(line, b"region") {
        return Some(Line::Region(region(rest)?));
    }
    if let Some(rest) = after_word(line, b"outlives") {
        let (longer, shorter) = two_regions(rest)?;
        return Some(Line::Outlives(longer, shorter));
    }
    if let Some(rest) = after_word(line, b"universal") {
        return Some(Line::Universal(region(rest)?));
    }
    if let Some(rest) = after_word(line, b"points") {
        return Some(Line::Points(number(rest)?));
    }
    if let Some(rest) = after_word(line, b"end") {
        nothing(rest)?;
        return Some(Line::End);
    }
    None
}
