//! The entries of rows of arguments that aren't complete, and the references that wait for a type.

ghost use Rattle.std.specs.Prelude.{◌≡◌, ◌-◌, ◌≤◌, length, map, reverse, drop, take, slice_index_or};
ghost use Rattle.std.specs.Prelude.{[], ◌∷◌, MatchOption};
ghost use Rattle.nll_mir_text.specs.Naming as naming;
ghost use Rattle.nll_mir_text.specs.Resolution.{scope_of};
ghost use Rattle.nll_mir_text.specs.Resolving as spec;
ghost use Rattle.nll_mir_text.specs.Resolving.{NoneWaits};

use crate::scope::Scope;
use nll_problem::RegionId;

/// An entry of a row, the beginning of one, or a reference.
#[derive(Clone, Copy)]
pub enum Mark {
    /// A row begins, after this many types and this many regions.
    Row(usize, usize),
    /// A region.
    Region(RegionId),
    /// A type.
    Part,
    /// A reference waits for the type that it points to: whether it is `mut`, and its region.
    Behind(bool, RegionId),
}

/// The rows and the references that aren't complete, the newest last.
pub(crate) type Rows = Vec<Mark>;

/// Where the newest row begins.
#[derive(Clone, Copy)]
pub(crate) struct Beginning {
    /// How many marks there are up to its beginning.
    pub place: usize,
    /// How many types come before it.
    pub types: usize,
    /// How many regions come before it.
    pub regions: usize,
}

/// Where the newest row begins.
pub(crate) fn newest_row(rows: &[Mark]) -> Beginning
    ensures within { result.place ≤ length rows.now }
    ensures newest { reverse (drop result.place rows.now) ≡ spec.newest (reverse rows.now) }
    ensures others { reverse (take (result.place - 1) rows.now) ≡ spec.others (reverse rows.now) }
    ensures types { result.types ≡ (spec.starts (reverse rows.now)).0 }
    ensures regions { result.regions ≡ (spec.starts (reverse rows.now)).1 }
{
    let mut place = rows.len();
    while place > 0 {
        if let Mark::Row(types, regions) = rows[place - 1] {
            return Beginning {
                place,
                types,
                regions,
            };
        }
        place -= 1;
    }
    Beginning {
        place: 0,
        types: 0,
        regions: 0,
    }
}

/// Takes off the newest mark, where it is a reference's.
pub(crate) fn pop_reference(rows: &mut Rows) -> Option<(bool, RegionId)>
    ensures { MatchOption result
        ((rows.new.items ≡ rows.old.items) × NoneWaits (reverse rows.old.items))
        (λ r. reverse rows.old.items ≡ Mark.Behind r.0 r.1 ∷ reverse rows.new.items) }
{
    let count = rows.len();
    if count == 0 {
        return None;
    }
    if let Mark::Behind(mutable, region) = rows.as_slice()[count - 1] {
        rows.truncate(count - 1);
        return Some((mutable, region));
    }
    None
}

/// Whether arguments are of these kinds.
pub(crate) fn are_of(arguments: &[Mark], kinds: &[bool]) -> bool
    ensures { result ≡ naming.same_kinds (map spec.is_region_entry arguments.now) kinds.now }
{
    if arguments.len() != kinds.len() {
        return false;
    }
    for number in 0..arguments.len() {
        if matches!(arguments[number], Mark::Region(_)) != kinds[number] {
            return false;
        }
    }
    true
}

/// Whether a struct takes arguments of these kinds.
pub(crate) fn takes(scope: &Scope<'_>, number: usize, arguments: &[Mark]) -> bool
    ensures { result ≡ naming.same_kinds (map spec.is_region_entry arguments.now)
        (slice_index_or (scope_of scope.now).kinds number []) }
{
    match scope.kinds.get(number) {
        Some(kinds) => are_of(arguments, kinds.as_slice()),
        None => are_of(arguments, &[]),
    }
}
