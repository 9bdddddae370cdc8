//! The versions of MIR texts, and which lines each has.

ghost use Rattle.std.specs.Prelude.{◌≡◌, not, map};
ghost use Rattle.std.specs.List.{list_all};
ghost use Rattle.nll_mir_grammar.specs.Functions.{has_function};
ghost use Rattle.nll_mir_grammar.specs.TypeTexts.{written};
ghost use Rattle.nll_mir_grammar.specs.Lines.{form_of, parameter_of, statement_of};
ghost use Rattle.nll_mir_grammar.specs.MirForms.{at_point};
ghost use Rattle.nll_mir_grammar.specs.Versions as spec;

use crate::line::{Line, ParameterText};
use crate::statement::Statement;
use crate::type_text::TypeText;
use nll_types::{Operand, Sign};

/// A version of MIR texts.
#[derive(Clone, Copy, PartialEq, Eq)]
pub enum Version {
    /// Without function types, contravariant parameters and constraints at all points.
    First,
    Second,
}

// Whether a parameter may be in a text of version 1.
fn is_first_parameter(parameter: &ParameterText<'_>) -> bool
    ensures { result ≡ spec.is_first_parameter (parameter_of parameter.now) }
{
    match parameter {
        ParameterText::Region(_, parameter) | ParameterText::Type(_, parameter) => {
            match parameter.sign {
                Sign::Covariant | Sign::Invariant => true,
                Sign::Contravariant => false,
            }
        }
    }
}

// Whether parameters may be in a text of version 1.
fn are_first_parameters(parameters: &[ParameterText<'_>]) -> bool
    ensures { result ≡ list_all spec.is_first_parameter (map parameter_of parameters.now) }
{
    for parameter in parameters {
        if !is_first_parameter(parameter) {
            return false;
        }
    }
    true
}

// Whether the types of a call's parameters may be in a text of version 1.
fn are_first_arguments(arguments: &[(Operand, TypeText<'_>)]) -> bool
    ensures { result ≡ list_all (λ t. not (has_function t)) (map (λ a. written a.1) arguments.now) }
{
    for argument in arguments {
        if argument.1.has_function() {
            return false;
        }
    }
    true
}

// Whether the types that are written in a statement or terminator may be in a text of version 1.
fn is_first_statement(statement: &Statement<'_>) -> bool
    ensures { result ≡ spec.is_of_first (at_point (statement_of statement.now)) }
{
    match statement {
        Statement::Make(make) => !make.ty.has_function(),
        Statement::Call(call) => {
            if !are_first_arguments(call.arguments.as_slice()) {
                return false;
            }
            !call.result.has_function()
        }
        _ => true,
    }
}

/// Whether a line may be in a text of the version.
pub(crate) fn is_of_version(version: Version, line: &Line<'_>) -> bool
    ensures { result ≡ spec.is_of_version version (form_of line.now) }
{
    if version == Version::Second {
        return true;
    }
    match line {
        Line::Assert(_, _) => false,
        Line::Struct(text) => {
            if !are_first_parameters(text.parameters.as_slice()) {
                return false;
            }
            !text.fields.as_type().has_function()
        }
        Line::Let(_, ty) => !ty.has_function(),
        Line::At(statement) => is_first_statement(statement),
        _ => true,
    }
}
