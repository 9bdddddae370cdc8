//! The names that may be in a type.

ghost use Rattle.std.specs.Prelude.{◌≡◌, ◌≤◌, length};
ghost use Rattle.nll_format.specs.Names.{number_of as number_among};
ghost use Rattle.nll_mir_text.specs.Naming.{is_name_among};

use nll_format::Names;

/// What names stand for where a type is written: their places in these tables.
#[derive(Clone, Copy)]
pub struct Scope<'a> {
    pub regions: &'a Names,
    pub parameters: &'a Names,
    pub structs: &'a Names,
    /// For each struct, for each argument that it takes, whether it is a region.
    pub kinds: &'a [Vec<bool>],
}

/// The number of a name, and whether it is among the names.
pub(crate) fn find(names: &Names, name: &[u8]) -> (usize, bool)
    ensures number { result.0 ≡ number_among names.now name.now }
    ensures known { result.1 ≡ is_name_among names.now name.now }
    ensures within { result.0 ≤ length names.now }
{
    if names.len() == 0 {
        return (0, false);
    }
    match names.number_of(name) {
        Some(number) => (number, true),
        None => (names.len(), false),
    }
}
