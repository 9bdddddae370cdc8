//! Lines of the head: regions, structs, variables, and how many blocks there must be.

ghost use Rattle.std.specs.Prelude.{◌≡◌, map, Some, true, false, IfOk, IfErr, OnOk, OnErr};
ghost use Rattle.nll_mir_text.specs.Naming.{has_arguments, is_name_among};
ghost use Rattle.nll_mir_text.specs.Resolution.{IsResolved};
ghost use Rattle.nll_format.specs.Names.{number_of};
ghost use Rattle.nll_mir_grammar.specs.TypeTexts.{written};
ghost use Rattle.nll_mir_grammar.specs.MirForms as forms;
ghost use Rattle.nll_mir_grammar.specs.Lines.{parameter_of};
ghost use Rattle.nll_mir_grammar.specs.Tuples.{IsTuple};
ghost use Rattle.nll_mir_text.specs.MirFaults.{first_fault, is_universal_in};
ghost use Rattle.nll_mir_text.specs.MirReading.{said_by, scope_in, IsReady};
ghost use Rattle.nll_mir_text.specs.MirReading.{IsDue, IsTaken, IsRefused, struct_form};
ghost use Rattle.nll_mir_text.specs.StructLines.{AreOwn, own_scope};

use crate::fields::{declaration, has_small_parts, kinds};
use crate::groups::Group;
use crate::limits::{MAX_STRUCTS, MAX_VARIABLES};
use crate::own_names::{OwnNames, gather_names, redeclares};
use crate::reader::Reader;
use crate::scope::Scope;
use crate::tables::scope_in;
use crate::type_resolution::resolve;
use nll_format::TextKind;
use nll_mir_grammar::{StructText, TypeText};
use nll_problem::{Kind, MAX_POINTS, MAX_REGIONS, MAX_UNIVERSALS};
use nll_types::Typed;

impl Reader {
    /// Adds a universal region.
    pub(crate) fn add_universal(&mut self, name: &[u8]) -> Result<(), TextKind>
        requires { IsDue self.old (forms.universal name.now) }
        ensures taken { OnOk result
            (IsTaken (said_by self.old) (forms.universal name.now) self.new) }
        ensures refused { IfErr result (IsRefused (said_by self.old) (forms.universal name.now)) }
    {
        if self.regions.names.number_of(name).is_some() {
            return Err(TextKind::Duplicate);
        }
        if self.regions.universals >= MAX_UNIVERSALS as usize {
            return Err(TextKind::Limit(Kind::Universals));
        }
        if self.regions.names.len() >= MAX_REGIONS as usize {
            return Err(TextKind::Limit(Kind::Regions));
        }
        self.regions.names.add(self.alloc, name)?;
        self.regions.universals += 1;
        self.reached = Group::Universals;
        Ok(())
    }

    /// Adds a further region.
    pub(crate) fn add_region(&mut self, name: &[u8]) -> Result<(), TextKind>
        requires { IsDue self.old (forms.further name.now) }
        ensures taken { OnOk result (IsTaken (said_by self.old) (forms.further name.now) self.new) }
        ensures refused { IfErr result (IsRefused (said_by self.old) (forms.further name.now)) }
    {
        if self.regions.names.number_of(name).is_some() {
            return Err(TextKind::Duplicate);
        }
        if self.regions.names.len() >= MAX_REGIONS as usize {
            return Err(TextKind::Limit(Kind::Regions));
        }
        self.regions.names.add(self.alloc, name)?;
        self.reached = Group::Regions;
        Ok(())
    }

    // The number of a universal region.
    fn universal(&self, name: &[u8]) -> Result<u32, TextKind>
        requires { IsReady self.now }
        ensures ok { IfOk result (λ r. r ≡ number_of self.now.regions.names name.now) }
        ensures universal { OnOk result (is_universal_in (said_by self.now) name.now ≡ true) }
        ensures other { OnErr result (is_universal_in (said_by self.now) name.now ≡ false) }
        ensures err { IfErr result (λ kind. kind ≡ TextKind.Unknown) }
    {
        match self.regions.names.number_of(name) {
            Some(number) if number < self.regions.universals => Ok(number as u32),
            _ => Err(TextKind::Unknown),
        }
    }

    /// Adds that one universal region is known to outlive another.
    pub(crate) fn add_outlives(&mut self, longer: &[u8], shorter: &[u8]) -> Result<(), TextKind>
        requires { IsDue self.old (forms.outlives longer.now shorter.now) }
        ensures taken { OnOk result
            (IsTaken (said_by self.old) (forms.outlives longer.now shorter.now) self.new) }
        ensures refused { IfErr result
            (IsRefused (said_by self.old) (forms.outlives longer.now shorter.now)) }
    {
        let longer = self.universal(longer)?;
        let shorter = self.universal(shorter)?;
        self.regions.outlives.insert((longer, shorter))?;
        self.reached = Group::Outlives;
        Ok(())
    }

    // The number of a declared region.
    fn region(&self, name: &[u8]) -> Result<u32, TextKind>
        requires { IsReady self.now }
        ensures ok { IfOk result (λ r. r ≡ number_of self.now.regions.names name.now) }
        ensures declared { OnOk result (is_name_among self.now.regions.names name.now ≡ true) }
        ensures other { OnErr result (is_name_among self.now.regions.names name.now ≡ false) }
        ensures err { IfErr result (λ kind. kind ≡ TextKind.Unknown) }
    {
        match self.regions.names.number_of(name) {
            Some(number) => Ok(number as u32),
            None => Err(TextKind::Unknown),
        }
    }

    /// Adds that one region must hold, at all points, what another one holds.
    pub(crate) fn add_assert(&mut self, longer: &[u8], shorter: &[u8]) -> Result<(), TextKind>
        requires { IsDue self.old (forms.assert_line longer.now shorter.now) }
        ensures taken { OnOk result
            (IsTaken (said_by self.old) (forms.assert_line longer.now shorter.now) self.new) }
        ensures refused { IfErr result
            (IsRefused (said_by self.old) (forms.assert_line longer.now shorter.now)) }
    {
        let longer = self.region(longer)?;
        let shorter = self.region(shorter)?;
        self.regions.asserts.insert((longer, shorter))?;
        self.reached = Group::Asserts;
        Ok(())
    }

    /// Sets the number of blocks.
    pub(crate) fn set_blocks(&mut self, count: u32) -> Result<(), TextKind>
        requires { IsDue self.old (forms.blocks count) }
        ensures taken { OnOk result (IsTaken (said_by self.old) (forms.blocks count) self.new) }
        ensures refused { IfErr result
            (λ kind. first_fault (said_by self.old) (forms.blocks count) ≡ Some kind) }
    {
        if count == 0 {
            return Err(TextKind::Range);
        }
        if count > MAX_POINTS {
            return Err(TextKind::Limit(Kind::Points));
        }
        self.points.blocks = count;
        self.reached = Group::BlockCount;
        Ok(())
    }

    /// Declares a variable.
    pub(crate) fn add_variable(&mut self, number: u32, text: &TypeText<'_>) -> Result<(), TextKind>
        requires { IsDue self.old (forms.variable number (written text.now)) }
        ensures taken { OnOk result
            (IsTaken (said_by self.old) (forms.variable number (written text.now)) self.new) }
        ensures refused { IfErr result
            (IsRefused (said_by self.old) (forms.variable number (written text.now))) }
    {
        let scope = scope_in(&self.regions, &self.structs);
        let types = &mut self.variables.types;
        let mut fits = true;
        let Some(ty) = resolve(&scope, text, types, &mut self.resolving, &mut fits)? else {
            return Err(TextKind::Unknown);
        };
        if number as usize != self.variables.typed.len() {
            return Err(TextKind::Range);
        }
        if !fits {
            return Err(TextKind::Shape);
        }
        if !self.variables.types.table.shapes().is_small(ty.shape) {
            return Err(TextKind::TypeSize);
        }
        if self.variables.typed.len() >= MAX_VARIABLES {
            return Err(TextKind::Limit(Kind::Variables));
        }
        self.variables.typed.push(ty)?;
        self.reached = Group::Variables;
        Ok(())
    }

    /// Declares a struct.
    pub(crate) fn add_struct(&mut self, text: &StructText<'_>) -> Result<(), TextKind>
        requires { IsDue self.old (struct_form text.now) }
        ensures taken { OnOk result (IsTaken (said_by self.old) (struct_form text.now) self.new) }
        ensures refused { IfErr result (IsRefused (said_by self.old) (struct_form text.now)) }
    {
        let own = gather_names(self.alloc, text.parameters.as_slice())?;
        let taken = self.add_named_struct(&own, text);
        // Early drop.
        drop(own);
        taken
    }

    // Declares a struct with these names of its own.
    fn add_named_struct(&mut self, own: &OwnNames, text: &StructText<'_>) -> Result<(), TextKind>
        requires due { IsDue self.old (struct_form text.now) }
        requires own { AreOwn (map parameter_of text.now.parameters.items) own.now }
        ensures taken { OnOk result (IsTaken (said_by self.old) (struct_form text.now) self.new) }
        ensures refused { IfErr result (IsRefused (said_by self.old) (struct_form text.now)) }
    {
        let scope = Scope {
            regions: &own.regions,
            parameters: &own.types,
            structs: &self.structs.names,
            kinds: self.structs.kinds.as_slice(),
        };
        let fields = text.fields.as_type();
        let mut fits = true;
        let types = &mut self.variables.types;
        match resolve(&scope, fields, types, &mut self.resolving, &mut fits)? {
            Some(fields) => self.add_resolved_struct(own, text, fields, fits),
            None => Err(TextKind::Unknown),
        }
    }

    // Declares a struct whose fields are a tuple of this number, the names in which have the
    // arguments that they take or not.
    fn add_resolved_struct(
        &mut self,
        own: &OwnNames,
        text: &StructText<'_>,
        fields: Typed,
        fits: bool,
    ) -> Result<(), TextKind>
        requires due { IsDue self.old (struct_form text.now) }
        requires own { AreOwn (map parameter_of text.now.parameters.items) own.now }
        requires fields { IsResolved (own_scope own.now self.old.structs)
            (written text.now.fields) self.old.variables.types fields }
        requires fits { fits ≡ has_arguments (own_scope own.now self.old.structs)
            (written text.now.fields) }
        requires tuple { IsTuple (written text.now.fields) }
        ensures taken { OnOk result (IsTaken (said_by self.old) (struct_form text.now) self.new) }
        ensures refused { IfErr result (IsRefused (said_by self.old) (struct_form text.now)) }
    {
        let parameters = text.parameters.as_slice();
        if redeclares(own, &self.structs.names, text.name, parameters) {
            return Err(TextKind::Duplicate);
        }
        if !fits {
            return Err(TextKind::Shape);
        }
        if !has_small_parts(self.variables.types.table.shapes(), fields.shape) {
            return Err(TextKind::TypeSize);
        }
        if self.structs.names.len() >= MAX_STRUCTS {
            return Err(TextKind::Limit(Kind::Structs));
        }
        let declaration = declaration(self.alloc, text, &self.variables.types, fields)?;
        self.variables.types.table.declare(self.alloc, declaration)?;
        let kinds = kinds(self.alloc, parameters)?;
        self.structs.add(self.alloc, text.name, kinds)?;
        self.reached = Group::Structs;
        Ok(())
    }
}
