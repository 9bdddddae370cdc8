//! The names that a struct line declares for its own fields.

ghost use Rattle.std.specs.Prelude.{◌≡◌, ◌||◌, ◌++◌, ◌∷◌, [], not, map, All, IfOk, OnOk};
ghost use Rattle.std.specs.Prelude.{if◌then◌else◌};
ghost use Rattle.std.specs.List.{list_any};
ghost use Rattle.std.specs.Str.{IsUtf8};
ghost use Rattle.nll_mir_grammar.specs.Lines.{parameter_of};
ghost use Rattle.nll_mir_text.specs.Naming.{is_name_among};
ghost use Rattle.nll_mir_text.specs.MirFaults.{has_repeats};
ghost use Rattle.nll_mir_text.specs.MirReading.{IsNamed};
ghost use Rattle.nll_mir_text.specs.StructLines.{AreOwn, region_names, type_names, takes_name};

use nll_format::Names;
use nll_mir_grammar::ParameterText;
use nll_sets::Memory;
use std::alloc::Global;

/// The names of a struct's own.
#[derive(Drop)]
pub struct OwnNames {
    /// `'static` and the region parameters, each once.
    pub regions: Names,
    /// The type parameters, each once.
    pub types: Names,
    /// Whether one of them occurs twice.
    pub repeats: bool,
}

// Adds a name, where it isn't there: whether it is new.
fn add_name(alloc: Global, names: &mut Names, name: &[u8]) -> Result<bool, Memory>
    requires { IsUtf8 name.now }
    ensures new { IfOk result (λ new. new ≡ not (is_name_among names.old name.now)) }
    ensures names { IfOk result (λ new. names.new
        ≡ (if new then names.old ++ name.now ∷ [] else names.old)) }
{
    if names.number_of(name).is_some() {
        return Ok(false);
    }
    names.add(alloc, name)?;
    Ok(true)
}

impl OwnNames {
    // Adds the names of parameters.
    fn add_all(&mut self, alloc: Global, parameters: &[ParameterText<'_>]) -> Result<(), Memory>
        requires own { AreOwn [] self.old }
        requires named { All (λ p. IsNamed (parameter_of p)) parameters.now }
        ensures { OnOk result (AreOwn (map parameter_of parameters.now) self.new) }
    {
        for parameter in parameters {
            let new = match parameter {
                ParameterText::Region(name, _) => add_name(alloc, &mut self.regions, name)?,
                ParameterText::Type(name, _) => add_name(alloc, &mut self.types, name)?,
            };
            self.repeats = self.repeats | !new;
        }
        Ok(())
    }
}

/// The names of the own of a struct with these parameters.
pub fn gather_names(alloc: Global, parameters: &[ParameterText<'_>]) -> Result<OwnNames, Memory>
    requires { All (λ p. IsNamed (parameter_of p)) parameters.now }
    ensures { IfOk result (AreOwn (map parameter_of parameters.now)) }
{
    let mut own = OwnNames {
        regions: Names::new(alloc)?,
        types: Names::empty(alloc),
        repeats: false,
    };
    match own.add_all(alloc, parameters) {
        Ok(()) => Ok(own),
        Err(memory) => {
            drop(own);
            Err(memory)
        }
    }
}

// Whether the name of a type parameter is this one or a struct's.
fn any_taken(structs: &Names, name: &[u8], parameters: &[ParameterText<'_>]) -> bool
    ensures { result ≡ list_any (takes_name (name.now ∷ structs.now)) parameters.now }
{
    for parameter in parameters {
        if let ParameterText::Type(other, _) = parameter {
            if *other == name || structs.number_of(other).is_some() {
                return true;
            }
        }
    }
    false
}

/// Whether a struct line declares a name that is declared already.
pub fn redeclares(
    own: &OwnNames,
    structs: &Names,
    name: &[u8],
    parameters: &[ParameterText<'_>],
) -> bool
    requires { AreOwn (map parameter_of parameters.now) own.now }
    ensures { result ≡ is_name_among structs.now name.now
        || has_repeats (region_names (map parameter_of parameters.now))
        || has_repeats (type_names (map parameter_of parameters.now))
        || list_any (is_name_among (name.now ∷ structs.now))
        (type_names (map parameter_of parameters.now)) }
{
    if structs.number_of(name).is_some() {
        return true;
    }
    if own.repeats {
        return true;
    }
    any_taken(structs, name, parameters)
}
