//! Values that are read one after another.

ghost use Rattle.std.specs.Prelude.{◌≡◌};
ghost use Rattle.nll_mir_grammar.specs.Grammars.{both};

use nll_sets::Memory;

/// What is read at the front of the rest of a line, with what follows it; or nothing, where none is
/// there.
pub type Read<'a, T> = Result<Option<(T, &'a [u8])>, Memory>;

/// A value that was read, with what is read after it.
pub fn with<'a, A: Drop, B>(first: A, second: Read<'a, B>) -> Read<'a, (A, B)>
    ensures { result ≡ both first second.entry }
{
    match second {
        Ok(Some((second, rest))) => Ok(Some(((first, second), rest))),
        Ok(None) => Ok(None),
        Err(memory) => Err(memory),
    }
}
