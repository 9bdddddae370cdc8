//! Lines of the blocks, and the statements at points.

ghost use Rattle.std.specs.Prelude.{◌≡◌, Bool, Some, IfErr, OnOk};
ghost use Rattle.nll_mir_grammar.specs.Lines.{statement_of, statement_of_light};
ghost use Rattle.nll_mir_grammar.specs.MirForms as forms;
ghost use Rattle.nll_mir_grammar.specs.WrittenTypes.{WrittenName, WrittenType};
ghost use Rattle.nll_body.specs.Flat.{statement_in};
ghost use Rattle.nll_body.specs.Meant.{HasRows};
ghost use Rattle.nll_body.specs.Statements.{Statement as written_statement};
ghost use Rattle.nll_body.specs.Within.{IsStatementIn};
ghost use Rattle.nll_mir_text.specs.MirFaults.{first_fault, knows};
ghost use Rattle.nll_mir_text.specs.MirReading.{said_by, scope_in, IsAdmitted, IsDue, IsReady};
ghost use Rattle.nll_mir_text.specs.MirReading.{IsTaken, IsRefused};
ghost use Rattle.nll_mir_text.specs.ResolvedLines.{IsPlaced};
ghost use Rattle.nll_mir_text.specs.ResolvedStatements.{AreExits, IsFlatOf, IsOfPoint};

use crate::groups::Group;
use crate::ranges::targets_are_blocks;
use crate::reader::Reader;
use crate::resolution::resolve_statement;
use crate::tables::scope_in;
use nll_body::{Exits, Judgement, Places, Stmt, judge_statement};
use nll_format::TextKind;
use nll_mir_grammar::{Light, Statement};
use nll_problem::{Kind, MAX_EDGES, MAX_POINTS};

impl Reader {
    /// Begins a block.
    pub(crate) fn add_block(&mut self, number: u32) -> Result<(), TextKind>
        requires { IsDue self.old (forms.block number) }
        ensures taken { OnOk result (IsTaken (said_by self.old) (forms.block number) self.new) }
        ensures refused { IfErr result (IsRefused (said_by self.old) (forms.block number)) }
    {
        if number as usize != self.points.starts.len() || number >= self.points.blocks {
            return Err(TextKind::Range);
        }
        let start = self.points.statements.len() as u32;
        self.points.starts.push(start)?;
        self.points.owes = true;
        self.reached = Group::Blocks;
        Ok(())
    }

    /// Begins a block, where a block may begin.
    pub(crate) fn begin_block(&mut self, number: u32) -> Result<(), TextKind>
        requires { IsReady self.old }
        ensures taken { OnOk result (IsTaken (said_by self.old) (forms.block number) self.new) }
        ensures refused { IfErr result (IsRefused (said_by self.old) (forms.block number)) }
    {
        if !(self.is_in_body() & !self.points.owes) {
            return Err(TextKind::Syntax);
        }
        self.add_block(number)
    }

    /// Ends the text.
    pub(crate) fn end(&mut self) -> Result<(), TextKind>
        requires { IsDue self.old forms.end }
        ensures taken { OnOk result (IsTaken (said_by self.old) forms.end self.new) }
        ensures refused { IfErr result
            (λ kind. first_fault (said_by self.old) forms.end ≡ Some kind) }
    {
        if self.points.starts.len() < self.points.blocks as usize {
            return Err(TextKind::Range);
        }
        self.reached = Group::End;
        Ok(())
    }

    // Refuses a statement with these exits that has a fault by what was judged of it.
    fn admit(&self, judgement: Judgement, exits: Exits, statement: &Stmt) -> Result<(), TextKind>
        requires ready { IsReady self.now }
        requires exits { AreExits exits (statement_in self.now.points.statements statement.now) }
        ensures admitted { OnOk result ((i : written_statement WrittenName WrittenType)
            (fits : Bool) → IsPlaced self.now i statement.now fits
            → IsOfPoint (said_by self.now) i judgement
            → IsAdmitted (said_by self.now) i exits self.now) }
        ensures refused { IfErr result (λ kind. (i : written_statement WrittenName WrittenType)
            (fits : Bool) → IsPlaced self.now i statement.now fits
            → IsOfPoint (said_by self.now) i judgement
            → IsRefused (said_by self.now) (forms.at_point i) kind) }
    {
        if !judgement.declared {
            return Err(TextKind::Unknown);
        }
        if !targets_are_blocks(self.points.blocks, &self.points.statements, statement) {
            return Err(TextKind::Range);
        }
        if !judgement.fits {
            return Err(TextKind::Shape);
        }
        if !judgement.small {
            return Err(TextKind::TypeSize);
        }
        if self.points.statements.len() >= MAX_POINTS as usize {
            return Err(TextKind::Limit(Kind::Points));
        }
        let edges = self.points.edges + exits.edges;
        if edges > MAX_EDGES {
            return Err(TextKind::Limit(Kind::Edges));
        }
        Ok(())
    }

    // Adds a statement at the next point, unless it has a fault. What it consists of is in the
    // lists, and the names in its types have the arguments that they take or not. The shapes of
    // its types are in the table then.
    fn add_resolved(&mut self, statement: Stmt, fits: bool) -> Result<(), TextKind>
        requires ready { IsReady self.old }
        requires rows { HasRows self.old.variables.types.table.shapes
            self.old.variables.types.regions.items
            (statement_in self.old.points.statements statement) }
        requires within { IsStatementIn self.old.points.statements statement }
        ensures taken { OnOk result ((i : written_statement WrittenName WrittenType)
            → IsPlaced self.old i statement fits
            → IsTaken (said_by self.old) (forms.at_point i) self.new) }
        ensures refused { IfErr result (λ kind. (i : written_statement WrittenName WrittenType)
            → IsPlaced self.old i statement fits
            → IsRefused (said_by self.old) (forms.at_point i) kind) }
    {
        let places = Places {
            variables: self.variables.typed.as_slice(),
            statements: &self.points.statements,
        };
        let exits = places.statements.exits(self.alloc, &statement)?;
        let table = &mut self.variables.types.table;
        let mut judged = judge_statement(self.alloc, table, &places, &statement)?;
        judged.fits = fits & judged.fits;
        self.admit(judged, exits, &statement)?;
        self.points.statements.push(statement)?;
        self.points.edges += exits.edges;
        self.points.owes = !exits.ends;
        self.reached = Group::Blocks;
        Ok(())
    }

    // A light statement in the lists, and whether its variable is declared.
    fn flat_light(&self, light: Light) -> (Stmt, bool)
        ensures flat { IsFlatOf (scope_in self.now.regions self.now.structs)
            (statement_of_light light) self.now.variables.types self.now.points.statements
            result.0 }
        ensures declared { result.1 ≡ knows (said_by self.now) (statement_of_light light) }
    {
        let count = self.variables.typed.len();
        match light {
            Light::Nop => (Stmt::Nop, true),
            Light::Live(variable) => (Stmt::Live(variable), (variable as usize) < count),
            Light::Dead(variable) => (Stmt::Dead(variable), (variable as usize) < count),
        }
    }

    /// Adds a statement that names at most a variable at the next point.
    pub(crate) fn add_light(&mut self, light: Light) -> Result<(), TextKind>
        requires { IsReady self.old }
        ensures taken { OnOk result (IsTaken (said_by self.old)
            (forms.at_point (statement_of_light light)) self.new) }
        ensures refused { IfErr result (IsRefused (said_by self.old)
            (forms.at_point (statement_of_light light))) }
    {
        if !(self.is_in_body() & self.points.owes) {
            return Err(TextKind::Syntax);
        }
        let (statement, declared) = self.flat_light(light);
        if !declared {
            return Err(TextKind::Unknown);
        }
        if self.points.statements.len() >= MAX_POINTS as usize {
            return Err(TextKind::Limit(Kind::Points));
        }
        if self.points.edges >= MAX_EDGES {
            return Err(TextKind::Limit(Kind::Edges));
        }
        self.points.statements.push(statement)?;
        self.points.edges += 1;
        self.reached = Group::Blocks;
        Ok(())
    }

    /// Adds the statement at the next point.
    pub(crate) fn add_statement(&mut self, statement: &Statement<'_>) -> Result<(), TextKind>
        requires { IsDue self.old (forms.at_point (statement_of statement.now)) }
        ensures taken { OnOk result
            (IsTaken (said_by self.old) (forms.at_point (statement_of statement.now)) self.new) }
        ensures refused { IfErr result
            (IsRefused (said_by self.old) (forms.at_point (statement_of statement.now))) }
    {
        // Clause call.
        let _ = self.points.statements.call_counts();
        let scope = scope_in(&self.regions, &self.structs);
        let (types, statements) = (&mut self.variables.types, &mut self.points.statements);
        let mut fits = true;
        let made = &mut self.resolving;
        match resolve_statement(&scope, statement, types, statements, made, &mut fits)? {
            Some(resolved) => self.add_resolved(resolved, fits),
            None => Err(TextKind::Unknown),
        }
    }
}
