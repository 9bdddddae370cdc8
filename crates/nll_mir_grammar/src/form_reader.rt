//! Reading a line, by its form.

ghost use Rattle.std.specs.Prelude.{IfOk, MatchOption};
ghost use Rattle.nll_text.specs.LineTokens.{tokens_in};
ghost use Rattle.nll_text.specs.Grammars.{HasNone};
ghost use Rattle.nll_mir_grammar.specs.Kinds as kinds;
ghost use Rattle.nll_mir_grammar.specs.Kinds.{IsBehind, IsLine, tails};
ghost use Rattle.nll_mir_grammar.specs.Lines.{form_of};
ghost use Rattle.nll_mir_grammar.specs.MirForms.{Form};
ghost use Rattle.nll_mir_grammar.specs.Versions.{HasFormIn};

use crate::assignment::assignment_at;
use crate::keyword::{Keyword, seek_keyword};
use crate::line::Line;
use crate::lines::{
    assert_line, blocks_line, let_line, outlives_line, region_line, struct_line, universal_line,
};
use crate::pairs::Read;
use crate::points::{drop_line, read_line, switch_line};
use crate::statement::Statement;
use crate::version::{Version, is_of_version};
use crate::words::{block_at, variable_at};
use nll_sets::Memory;
use nll_text::{behind_gap, is_gap};
use std::alloc::Global;
use std::ops::ControlFlow;

// The line that begins with the keyword, after which the rest follows.
fn line_behind<'a>(alloc: Global, keyword: Keyword, line: &'a [u8]) -> Read<'a, Line<'a>>
    ensures { IfOk result (λ o. MatchOption o (HasNone (tails keyword) (tokens_in line.now))
        (λ p. IsBehind keyword (tokens_in line.now) (form_of p.0) (tokens_in p.1.now))) }
{
    match keyword {
        Keyword::Universal => Ok(universal_line(line)),
        Keyword::Outlives => Ok(outlives_line(line)),
        Keyword::Region => Ok(region_line(line)),
        Keyword::Assert => Ok(assert_line(line)),
        Keyword::Struct => struct_line(alloc, line),
        Keyword::Let => let_line(alloc, line),
        Keyword::Blocks => Ok(blocks_line(line)),
        Keyword::Block => match block_at(line) {
            Some((number, rest)) => Ok(Some((Line::Block(number), rest))),
            None => Ok(None),
        },
        Keyword::Read => read_line(alloc, line),
        Keyword::Live => match variable_at(line) {
            Some((variable, rest)) => Ok(Some((Line::At(Statement::Live(variable)), rest))),
            None => Ok(None),
        },
        Keyword::Dead => match variable_at(line) {
            Some((variable, rest)) => Ok(Some((Line::At(Statement::Dead(variable)), rest))),
            None => Ok(None),
        },
        Keyword::Nop => Ok(Some((Line::At(Statement::Nop), line))),
        Keyword::Goto => match block_at(line) {
            Some((block, rest)) => Ok(Some((Line::At(Statement::Goto(block)), rest))),
            None => Ok(None),
        },
        Keyword::Switch => switch_line(alloc, line),
        Keyword::Drop => Ok(drop_line(line)),
        Keyword::Return => Ok(Some((Line::At(Statement::Return), line))),
        Keyword::Stop => Ok(Some((Line::At(Statement::Stop), line))),
        Keyword::End => Ok(Some((Line::End, line))),
    }
}

// The line at the front. Assignments are told from the others by the `_` of their variable. It is
// compiled by itself, so that lines told at a glance don't clear the room for its results.
#[inline(never)]
fn line_at<'a>(alloc: Global, line: &'a [u8]) -> Read<'a, Line<'a>>
    ensures { IfOk result (λ o. MatchOption o (HasNone kinds.lines (tokens_in line.now))
        (λ p. IsLine (tokens_in line.now) (form_of p.0) (tokens_in p.1.now))) }
{
    let core = behind_gap(line);
    if let [b'_', ..] = core {
        return assignment_at(alloc, core);
    }
    match seek_keyword(core) {
        ControlFlow::Break((keyword, rest)) => line_behind(alloc, keyword, rest),
        ControlFlow::Continue(()) => Ok(None),
    }
}

/// The form of the line, where it has one in a text of the version.
///
/// # Errors
/// `Memory`.
///
/// # Cost
/// The length of the line (not proved).
pub fn line_of<'a>(
    alloc: Global,
    version: Version,
    line: &'a [u8],
) -> Result<Option<Line<'a>>, Memory>
    ensures { IfOk result (λ o. MatchOption o ((f : Form) → HasFormIn version line.now f → ⊥)
        (λ form. HasFormIn version line.now (form_of form))) }
{
    let Some((form, rest)) = line_at(alloc, line)? else {
        return Ok(None);
    };
    if !is_gap(rest) {
        drop(form);
        return Ok(None);
    }
    if !is_of_version(version, &form) {
        drop(form);
        return Ok(None);
    }
    Ok(Some(form))
}
