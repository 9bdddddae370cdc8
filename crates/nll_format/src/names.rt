//! The names of regions, in the order in which they are declared.

ghost use Rattle.std.specs.Prelude.{◌≡◌, ◌<◌, ◌++◌, ◌∷◌, [], length, codes, position, IfOk, IfSome};
ghost use Rattle.std.specs.Prelude.{map, ◌↔◌, IsTrue, MatchOption, OnOk, OnErr, slice_index_or, Some};
ghost use Rattle.std.specs.Str.{bytes_eq, IsUtf8};
ghost use Rattle.nll_format.specs.Names.{HasPlace, IsSeries, number_of};
ghost use Rattle.nll_format.specs.declared.series.Series.{Series};

use crate::name::{Name, Sought};
use crate::series::Series;
use indexmap::IndexSet;
use std::alloc::{AllocError, Global};
use std::marker::Model;
use std::str;

/// Names, each once, in the order in which they were added.
///
/// # Cost
/// Most texts number their regions, in the order in which they declare them. A name of the last
/// names that are numbered so is found by its number; for others the name is hashed (not proved).
pub struct Names {
    set: IndexSet<Name>,
    // What the last names are, if they are numbered.
    series: Option<Series>,
}

// A derived drop would be proved anew in each crate that drops one.
impl Drop for Names {
    fn drop(self) {
        let Names { set: _, series: _ } = self;
    }
}

impl Model for Names {
    ghost use Rattle.std.specs.Prelude.{ℕ, List, map, IfSome};
    ghost use Rattle.nll_format.specs.Names.{AreTexts, IsSeries};

    ghost Value = { List (List ℕ) };

    ghost view = { λ names. map (λ name. name.items) names.set.keys };

    ghost invariant = { λ names. AreTexts (map (λ name. name.items) names.set.keys)
        × IfSome names.series (IsSeries (map (λ name. name.items) names.set.keys)) };
}

// The index that a name has or would have, if it is numbered as the last names are.
fn place_in(series: Option<Series>, set: &IndexSet<Name>, name: &[u8]) -> Option<usize>
    requires { IfSome series (IsSeries (map (λ name. name.items) set.now.keys)) }
    ensures place { IfSome result (λ i. (s : Series) × (series ≡ Some s)
        × HasPlace (map (λ name. name.items) set.now.keys) s name.now i) }
    ensures number { IfSome result (λ i. i < length set.now.keys
        → number_of (map (λ name. name.items) set.now.keys) name.now ≡ i) }
{
    let series = series?;
    let first = set.as_slice().get(series.at)?;
    series.place(first.as_slice(), name)
}

// What the last names are once one more is added.
fn series_with(series: Option<Series>, set: &IndexSet<Name>, name: &[u8]) -> Option<Series>
    requires { IfSome series (IsSeries (map (λ name. name.items) set.now.keys)) }
    ensures { IfSome result (IsSeries (map (λ name. name.items) set.now.keys ++ name.now ∷ [])) }
{
    let end = set.len();
    match place_in(series, set, name) {
        Some(place) if place == end => series,
        _ => Series::of(name, end),
    }
}

impl Names {
    /// The one name `static`.
    pub fn new(alloc: Global) -> Result<Names, AllocError>
        ensures { IfOk result (λ names. names ≡ codes "static" ∷ []) }
    {
        let mut set = IndexSet::new(alloc);
        set.insert(Name::from_slice(alloc, b"static")?)?;
        Ok(Names { set, series: None })
    }

    /// No name.
    pub fn empty(alloc: Global) -> Names
        ensures { result ≡ [] }
    {
        Names {
            set: IndexSet::new(alloc),
            series: None,
        }
    }

    /// How many names there are.
    pub fn len(&self) -> usize
        ensures { result ≡ length self.now }
    {
        self.set.len()
    }

    /// The place of a name, where it is among them.
    pub fn number_of(&self, name: &[u8]) -> Option<usize>
        ensures place { result ≡ position (bytes_eq name.now) self.now }
        ensures number { MatchOption result (number_of self.now name.now ≡ length self.now)
            (λ number. (number ≡ number_of self.now name.now) × (number < length self.now)) }
    {
        match place_in(self.series, &self.set, name) {
            Some(place) if place < self.set.len() => Some(place),
            _ => self.set.get_index_of(Sought(name)),
        }
    }

    /// Whether a name is the one at an index: then that is its number, and nothing is hashed.
    pub fn is_at(&self, number: usize, name: &[u8]) -> bool
        ensures { IsTrue result ↔
            ((number_of self.now name.now ≡ number) × (number < length self.now)) }
    {
        match self.set.as_slice().get(number) {
            Some(known) => known.as_slice() == name,
            None => false,
        }
    }

    /// Adds a name that isn't among them.
    pub fn add(&mut self, alloc: Global, name: &[u8]) -> Result<(), AllocError>
        requires absent { number_of self.old name.now ≡ length self.old }
        requires text { IsUtf8 name.now }
        ensures ok { OnOk result (self.new ≡ self.old ++ name.now ∷ []) }
        ensures err { OnErr result (self.new ≡ self.old) }
    {
        let series = series_with(self.series, &self.set, name);
        let name = Name::from_slice(alloc, name)?;
        self.set.insert(name)?;
        self.series = series;
        Ok(())
    }

    /// The name at a place.
    pub fn name(&self, number: usize) -> &str
        requires { number < length self.now }
        ensures { result.now ≡ slice_index_or self.now number [] }
    {
        match str::from_utf8(self.set[number].as_slice()) {
            Ok(name) => name,
            Err(_) => unreachable!(),
        }
    }
}
