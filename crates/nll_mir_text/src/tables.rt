//! The tables in which a reader keeps what lines say, each of one sense.

ghost use Rattle.std.specs.Prelude.{◌≡◌, ◌++◌, ◌∷◌, [], false, map, OnOk};
ghost use Rattle.std.specs.Str.{IsUtf8};
ghost use Rattle.nll_mir_text.specs.Naming.{is_name_among};
ghost use Rattle.nll_mir_text.specs.Resolution.{scope_of};
ghost use Rattle.nll_mir_text.specs.MirReading as spec;

use crate::scope::Scope;
use indexmap::IndexSet;
use nll_body::Statements;
use nll_format::Names;
use nll_sets::Memory;
use nll_types::{BodyTypes, Typed};
use std::alloc::Global;

/// The regions: their names, `'static` first, how many of them are universal, which of those are
/// known to outlive which, and which regions must hold, at all points, what others hold.
#[derive(Drop)]
pub struct Regions {
    pub names: Names,
    pub universals: usize,
    pub outlives: IndexSet<(u32, u32)>,
    pub asserts: IndexSet<(u32, u32)>,
}

/// The structs' names, and for each struct, for each argument that it takes, whether it is a
/// region.
#[derive(Drop)]
pub struct StructNames {
    pub names: Names,
    pub kinds: Vec<Vec<bool>>,
    /// No name at all: the type parameters that may be in the types of a body.
    pub none: Names,
}

impl StructNames {
    /// Adds a struct that takes arguments of these kinds.
    pub fn add(&mut self, alloc: Global, name: &[u8], kinds: Vec<bool>) -> Result<(), Memory>
        requires new { is_name_among self.old.names name.now ≡ false }
        requires text { IsUtf8 name.now }
        ensures names { OnOk result (self.new.names ≡ self.old.names ++ name.now ∷ []) }
        ensures kinds { OnOk result (map (λ ks. ks.items) self.new.kinds.items
            ≡ map (λ ks. ks.items) self.old.kinds.items ++ kinds.items ∷ []) }
        ensures none { self.new.none ≡ self.old.none }
    {
        self.kinds.push(kinds)?;
        self.names.add(alloc, name)?;
        Ok(())
    }
}

/// The structs and all types, and those of the variables.
#[derive(Drop)]
pub struct Variables {
    pub types: BodyTypes,
    pub typed: Vec<Typed>,
}

/// The blocks, and the statement or terminator at each point.
#[derive(Drop)]
pub struct Points {
    /// How many blocks there must be.
    pub blocks: u32,
    /// The first point of each block that is there.
    pub starts: Vec<u32>,
    pub statements: Statements,
    /// How many edges leave the points.
    pub edges: usize,
    /// Whether the last block still lacks its terminator.
    pub owes: bool,
}

/// What names mean in the types of variables and of statements.
pub fn scope_in<'a>(regions: &'a Regions, structs: &'a StructNames) -> Scope<'a>
    requires { structs.now.none ≡ [] }
    ensures { scope_of result ≡ spec.scope_in regions.now structs.now }
{
    Scope {
        regions: &regions.names,
        parameters: &structs.none,
        structs: &structs.names,
        kinds: structs.kinds.as_slice(),
    }
}
