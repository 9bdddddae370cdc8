//! Statements that name at most a variable, and lines that begin a block: many lines of a text are
//! such, and are told by their first bytes.

ghost use Rattle.std.specs.Prelude.{◌≡◌, ◌∷◌, [], IfSome};
ghost use Rattle.nll_text.specs.LineTokens.{tokens_in};
ghost use Rattle.nll_mir_grammar.specs.MirForms.{at_point, block, variable_word, IsShortNumber};
ghost use Rattle.nll_mir_grammar.specs.Lines.{statement_of_light};
ghost use Rattle.nll_mir_grammar.specs.Versions.{HasFormIn};
ghost use Rattle.nll_mir_grammar.specs.declared.version.Version.{Version as version};

use crate::words::{block_at, variable_at};
use nll_text::{after_word, is_gap};

/// A statement that names at most a variable.
#[derive(Clone, Copy)]
pub enum Light {
    Nop,
    Live(u32),
    Dead(u32),
}

// The variable, where it is all that is left of a line.
fn last_variable(line: &[u8]) -> Option<u32>
    ensures alone { IfSome result (λ x. tokens_in line.now ≡ variable_word x ∷ []) }
    ensures short { IfSome result IsShortNumber }
{
    let (variable, rest) = variable_at(line)?;
    if is_gap(rest) { Some(variable) } else { None }
}

/// The statement of a line that begins with its word and is one that names at most a variable.
/// Other lines can be such a statement too: those that begin with blanks.
///
/// # Cost
/// A few instructions for any other line (not proved).
pub fn light_line(line: &[u8]) -> Option<Light>
    ensures { IfSome result
        (λ l. (v : version) → HasFormIn v line.now (at_point (statement_of_light l))) }
{
    match line {
        [b'n', ..] => {
            let rest = after_word(line, b"nop")?;
            if is_gap(rest) { Some(Light::Nop) } else { None }
        }
        [b'l', ..] => {
            let variable = last_variable(after_word(line, b"live")?)?;
            Some(Light::Live(variable))
        }
        [b'd', ..] => {
            let variable = last_variable(after_word(line, b"dead")?)?;
            Some(Light::Dead(variable))
        }
        _ => None,
    }
}

/// The number of the block that a line begins, where the word `block` is at its front.
///
/// # Cost
/// A few instructions for any other line (not proved).
pub fn light_block(line: &[u8]) -> Option<u32>
    ensures { IfSome result (λ n. (v : version) → HasFormIn v line.now (block n)) }
{
    let [b'b', ..] = line else {
        return None;
    };
    let (number, rest) = block_at(after_word(line, b"block")?)?;
    if is_gap(rest) { Some(number) } else { None }
}
