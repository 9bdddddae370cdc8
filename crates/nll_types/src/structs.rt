//! Structs.

ghost use Rattle.std.specs.Prelude.{◌≡◌, ◌≤◌, ◌<◌, ◌-◌, ◌^◌, ◌++◌, ◌∷◌, [], length};
ghost use Rattle.std.specs.Prelude.{MatchOption, OnOk, OnErr, slice_get};
ghost use Rattle.nll_types.specs.Declarations.{declared, structs_of};
ghost use Rattle.nll_types.specs.Structs.{AreInOrder, HasGoodFields, struct_at};
ghost use Rattle.nll_types.specs.Types.{type_at, type_count};
ghost use Rattle.nll_types.specs.Views.{tree};
ghost use Rattle.nll_types.specs.Sources.{AreSourcesOf};

use crate::drop_sources::sources_of;
use crate::parameter::Parameter;
use crate::source::Source;
use crate::ty::Ty;
use indexmap::IndexSet;
use nll_sets::Memory;
use std::alloc::Global;
use std::marker::Model;

/// What a struct's declaration says.
#[derive(Drop)]
pub struct Declaration {
    pub regions: Vec<Parameter>,
    pub types: Vec<Parameter>,
    /// Whether it has a drop of its own.
    pub has_drop: bool,
    pub fields: Vec<Ty>,
}

// A struct, and where its drop regions come from.
#[derive(Drop)]
struct Entry {
    declaration: Declaration,
    sources: IndexSet<Source>,
}

/// The structs that are declared, by number.
pub struct Structs {
    entries: Vec<Entry>,
}

// A derived drop would be proved anew in each crate that drops one.
impl Drop for Structs {
    fn drop(self) {
        let Structs { entries: _ } = self;
    }
}

impl Model for Structs {
    ghost use Rattle.std.specs.Prelude.{List, map};
    ghost use Rattle.std.specs.Coded.{codes};
    ghost use Rattle.nll_types.specs.contracts.ty.Ty as types;
    ghost use Rattle.nll_types.specs.declared.structs.Declaration.{Declaration as declaration};
    ghost use Rattle.nll_types.specs.Declarations.{AreKept};

    ghost Value = { List declaration };

    ghost coded = { Prim.hlevel (codes, types.the_row.coded) };

    ghost view = { λ structs. map (λ entry. entry.declaration) structs.entries.items };

    ghost invariant = { λ structs. AreKept (map (λ entry. entry.declaration) structs.entries.items)
        (map (λ entry. entry.sources.keys) structs.entries.items) };
}

impl Structs {
    /// No struct.
    pub fn new(alloc: Global) -> Structs
        ensures { result ≡ [] }
    {
        Structs {
            entries: Vec::new(alloc),
        }
    }

    /// How many structs are declared.
    pub fn len(&self) -> usize
        ensures value { result ≡ length self.now }
        ensures sound { AreInOrder (structs_of self.now) }
    {
        self.entries.len()
    }

    /// What the declaration of a struct says.
    pub fn get(&self, number: usize) -> &Declaration
        requires { number < length self.now }
        ensures { slice_get self.now number ≡ Some result.now }
    {
        &self.entries[number].declaration
    }

    /// How many fields a struct has; where there is no such struct, none.
    pub fn field_count(&self, number: usize) -> usize
        ensures { result ≡ type_count (struct_at (structs_of self.now) number).fields }
    {
        match self.entries.get(number) {
            Some(entry) => entry.declaration.fields.len(),
            None => 0,
        }
    }

    /// The type of a field as it is declared, where there is such a struct and it has the field.
    pub fn field(&self, number: usize, place: usize) -> Option<&Ty>
        ensures { MatchOption result
            (type_at (struct_at (structs_of self.now) number).fields place ≡ None)
            (λ t. type_at (struct_at (structs_of self.now) number).fields place
            ≡ Some (tree t.now)) }
    {
        let entry = self.entries.get(number)?;
        entry.declaration.fields.get(place)
    }

    // Where the drop regions of a struct come from.
    pub(crate) fn sources(&self, number: usize) -> Option<&IndexSet<Source>>
        ensures { MatchOption result (length self.now ≤ number)
            (λ s. AreSourcesOf (structs_of self.now) number s.now.keys) }
    {
        let entry = self.entries.get(number)?;
        Some(&entry.sources)
    }

    /// Declares the next struct.
    ///
    /// # Cost
    /// Linear in the declaration, however large the types of the fields of the structs are that it
    /// names.
    pub fn declare(&mut self, alloc: Global, declaration: Declaration) -> Result<(), Memory>
        requires fields { HasGoodFields (structs_of self.old) (declared declaration) }
        requires few { length declaration.regions.items < 2 ^ 32 - 1 }
        ensures ok { OnOk result (self.new ≡ self.old ++ declaration ∷ []) }
        ensures err { OnErr result (self.new ≡ self.old) }
    {
        let sources = sources_of(alloc, self, &declaration)?;
        let entry = Entry {
            declaration,
            sources,
        };
        self.entries.push(entry)?;
        Ok(())
    }
}
