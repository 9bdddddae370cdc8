//! A name as it is kept among others, and as it is searched for there.

ghost use Rattle.std.proofs.Common.{ap};
ghost use Rattle.std.specs.Cmp.Lexicographic.{bytes_decides, nat_list_eq_equiv};
ghost use Rattle.std.specs.Hash as fed;
ghost use Rattle.std.specs.Str.{bytes_eq};

use indexmap::Equivalent;
use smallvec::SmallVec;
use std::hash::Hash;

/// A name as it is kept. Most names are short: these are in the list of names itself, so that a
/// search among many looks at nothing else.
pub(crate) type Name = SmallVec<u8, 16>;

/// A name that is sought.
#[derive(Clone, Copy, PartialEq, Eq, Hash)]
pub(crate) struct Sought<'a>(pub(crate) &'a [u8]);

impl<'a> Equivalent<Name> for Sought<'a> {
    ghost equivalent = { λ q k. bytes_eq q.0.now k.items };

    ghost respects_hash = { λ q k h. ap (fed.slice fed.u8) ((bytes_decides q.0.now k.items).0 h) };

    ghost respects_eq = { λ q x y. nat_list_eq_equiv.congr q.0.now x.items y.items };

    fn equivalent(&self, key: &Name) -> bool {
        self.0 == key.as_slice()
    }
}
