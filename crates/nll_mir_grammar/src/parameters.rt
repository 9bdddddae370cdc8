//! The parameters of a struct.

ghost use Rattle.std.specs.Prelude.{IfOk, MatchOption, map};
ghost use Rattle.nll_text.specs.LineTokens.{tokens_in};
ghost use Rattle.nll_text.specs.Grammars.{Begins, HasNone};
ghost use Rattle.nll_mir_grammar.specs.Lines.{parameter_of};
ghost use Rattle.nll_mir_grammar.specs.MirForms.{WrittenParameter};
ghost use Rattle.nll_mir_grammar.specs.Parts as parts;

use crate::line::ParameterText;
use crate::lists::{Listed, list};
use crate::pairs::Read;
use crate::words::name_at;
use nll_text::{after_sign, region_at};
use nll_types::{Parameter, Sign};
use std::alloc::Global;

// The marks of a parameter at the front.
fn marks_at<'a>(line: &'a [u8]) -> Option<(Parameter, &'a [u8])>
    ensures { MatchOption result (HasNone parts.parameter_marks (tokens_in line.now))
        (λ p. Begins parts.parameter_marks (tokens_in line.now) p.0 (tokens_in p.1.now)) }
{
    let (sign, behind) = sign_at(line)?;
    if let Some(rest) = after_sign(behind, b'?') {
        let may_dangle = true;
        return Some((Parameter { sign, may_dangle }, rest));
    }
    let may_dangle = false;
    Some((Parameter { sign, may_dangle }, behind))
}

// The sign of a parameter at the front.
fn sign_at<'a>(line: &'a [u8]) -> Option<(Sign, &'a [u8])>
    ensures { MatchOption result (HasNone parts.signs (tokens_in line.now))
        (λ p. Begins parts.signs (tokens_in line.now) p.0 (tokens_in p.1.now)) }
{
    if let Some(rest) = after_sign(line, b'+') {
        return Some((Sign::Covariant, rest));
    }
    if let Some(rest) = after_sign(line, b'-') {
        return Some((Sign::Contravariant, rest));
    }
    let rest = after_sign(line, b'=')?;
    Some((Sign::Invariant, rest))
}

// The parameter at the front.
fn parameter_at<'a>(line: &'a [u8]) -> Option<(ParameterText<'a>, &'a [u8])>
    ensures { MatchOption result (HasNone parts.parameters (tokens_in line.now))
        (λ p. Begins parts.parameters (tokens_in line.now) (parameter_of p.0) (tokens_in p.1.now)) }
{
    if let Some((name, behind)) = region_at(line) {
        let (parameter, rest) = marks_at(behind)?;
        return Some((ParameterText::Region(name, parameter), rest));
    }
    let (name, behind) = name_at(line)?;
    let (parameter, rest) = marks_at(behind)?;
    Some((ParameterText::Type(name, parameter), rest))
}

impl<'a> Listed<'a> for ParameterText<'a> {
    ghost Meant = { WrittenParameter };

    ghost meant = { parameter_of };

    ghost grammar = { parts.parameters };

    fn read_at(_alloc: Global, line: &'a [u8]) -> Read<'a, ParameterText<'a>> {
        Ok(parameter_at(line))
    }
}

/// The parameters between `<` and `>`, or none.
pub fn parameters_in<'a>(alloc: Global, line: &'a [u8]) -> Read<'a, Vec<ParameterText<'a>>>
    ensures { IfOk result (λ o. MatchOption o (HasNone parts.parameter_lists (tokens_in line.now))
        (λ p. Begins parts.parameter_lists (tokens_in line.now) (map parameter_of p.0.items)
        (tokens_in p.1.now))) }
{
    let Some(inner) = after_sign(line, b'<') else {
        return Ok(Some((Vec::new(alloc), line)));
    };
    let Some((parameters, behind)) = list(alloc, inner)? else {
        return Ok(None);
    };
    let Some(rest) = after_sign(behind, b'>') else {
        return Ok(None);
    };
    Ok(Some((parameters, rest)))
}
