//! What a statement or terminator uses, defines and drops, and where it goes on.

ghost use Rattle.std.specs.Prelude.{◌≡◌, ◌++◌, map, [], ◌∷◌, OnOk, MatchOption};
ghost use Rattle.std.specs.List.{flat_map};
ghost use Rattle.nll_sets.specs.Prefix.{IsPrefix};
ghost use Rattle.nll_body.specs.Effects as spec;
ghost use Rattle.nll_body.specs.Effects.{place_in, target_of, variables_used};
ghost use Rattle.nll_body.specs.Effects.{defined, dropped, other_block};
ghost use Rattle.nll_body.specs.Flat.{operand_in, path_in, statement_in};
ghost use Rattle.nll_body.specs.Statements as statements;

use crate::flat::{FlatOperand, Stmt};
use crate::statements::Statements;
use nll_sets::Memory;
use nll_types::Typed;

impl Statements {
    /// Whether the block ends with a statement or terminator.
    pub fn is_terminator(&self, statement: &Stmt) -> bool
        ensures { result ≡ statements.is_terminator (statement_in self.now statement.now) }
    {
        match statement {
            Stmt::Switch(number) => self.switch(*number).is_some(),
            Stmt::Call(number) => self.call(*number).is_some(),
            Stmt::Goto(_)
            | Stmt::Drop(_, _)
            | Stmt::DropUnwind(_, _, _)
            | Stmt::Return
            | Stmt::Stop => true,
            Stmt::Assign(_, _)
            | Stmt::Borrow(_, _, _, _)
            | Stmt::Make(_)
            | Stmt::Read(_)
            | Stmt::Live(_)
            | Stmt::Dead(_)
            | Stmt::Nop => false,
        }
    }

    // The place that it writes.
    fn target(&self, statement: &Stmt) -> Option<u32>
        ensures { MatchOption result (target_of (statement_in self.now statement.now) ≡ [])
            (λ p. target_of (statement_in self.now statement.now) ≡ path_in self.now p ∷ []) }
    {
        match statement {
            Stmt::Assign(place, _) => Some(*place),
            Stmt::Borrow(_, place, _, _) => Some(*place),
            Stmt::Make(number) => match self.make(*number) {
                Some(make) => Some(make.place),
                None => None,
            },
            Stmt::Call(number) => match self.call(*number) {
                Some(call) => Some(call.place),
                None => None,
            },
            _ => None,
        }
    }

    /// The variable that it defines: it writes the whole variable, or the variable's storage
    /// begins or ends.
    ///
    /// # Source
    /// RFC 2094, "Liveness".
    pub fn defines(&self, statement: &Stmt) -> Option<u32>
        ensures { result ≡ defined (statement_in self.now statement.now) }
    {
        match statement {
            Stmt::Live(variable) | Stmt::Dead(variable) => Some(*variable),
            _ => match self.target(statement) {
                Some(place) if self.projections(place).is_empty() => Some(self.variable(place)),
                _ => None,
            },
        }
    }

    /// The variable that it drops.
    pub fn drops(&self, statement: &Stmt) -> Option<u32>
        ensures { result ≡ dropped (statement_in self.now statement.now) }
    {
        match statement {
            Stmt::Drop(variable, _) | Stmt::DropUnwind(variable, _, _) => Some(*variable),
            _ => None,
        }
    }

    // Appends the variable of an operand's place.
    fn push_operand(&self, operand: FlatOperand, used: &mut Vec<u32>) -> Result<(), Memory>
        ensures ok { OnOk result (used.new.items ≡ used.old.items
            ++ map (λ p. p.variable) (place_in (operand_in self.now operand))) }
        ensures begins { IsPrefix used.old.items used.new.items }
    {
        match operand {
            FlatOperand::Const => Ok(()),
            FlatOperand::Copy(place) | FlatOperand::Move(place) => {
                push_number(self.variable(place), used)
            }
        }
    }

    // Appends the variables of operands' places.
    fn push_operands(&self, operands: &[FlatOperand], used: &mut Vec<u32>) -> Result<(), Memory>
        ensures ok { OnOk result (used.new.items ≡ used.old.items
            ++ map (λ p. p.variable) (flat_map place_in (map (operand_in self.now) operands.now))) }
        ensures begins { IsPrefix used.old.items used.new.items }
    {
        for operand in operands {
            self.push_operand(*operand, used)?;
        }
        Ok(())
    }

    // Appends the variables of the places of a call's operands.
    fn push_arguments(
        &self,
        arguments: &[(FlatOperand, Typed)],
        used: &mut Vec<u32>,
    ) -> Result<(), Memory>
        ensures ok { OnOk result (used.new.items ≡ used.old.items ++ map (λ p. p.variable)
            (flat_map place_in (map (λ a. operand_in self.now a.0) arguments.now))) }
        ensures begins { IsPrefix used.old.items used.new.items }
    {
        for argument in arguments {
            self.push_operand(argument.0, used)?;
        }
        Ok(())
    }

    // Appends the variables of the places that it reads or borrows.
    fn reads(&self, statement: &Stmt, used: &mut Vec<u32>) -> Result<(), Memory>
        ensures ok { OnOk result (used.new.items ≡ used.old.items
            ++ map (λ p. p.variable) (spec.sources_of (statement_in self.now statement.now))) }
        ensures begins { IsPrefix used.old.items used.new.items }
    {
        match statement {
            Stmt::Assign(_, operand) => self.push_operand(*operand, used),
            Stmt::Borrow(_, _, _, place) | Stmt::Read(place) => {
                push_number(self.variable(*place), used)
            }
            Stmt::Make(number) => match self.make(*number) {
                Some(make) => self.push_operands(self.operands(make.operands), used),
                None => Ok(()),
            },
            Stmt::Switch(number) => match self.switch(*number) {
                Some(switch) => self.push_operand(switch.operand, used),
                None => Ok(()),
            },
            Stmt::Call(number) => match self.call(*number) {
                Some(call) => self.push_arguments(self.arguments(call.arguments), used),
                None => Ok(()),
            },
            Stmt::Return => push_number(0, used),
            _ => Ok(()),
        }
    }

    /// Appends the variables that a statement uses, one for each place that it reads or borrows,
    /// and that of the place that it writes where that isn't the whole variable.
    ///
    /// # Source
    /// RFC 2094, "Liveness".
    pub fn uses(&self, statement: &Stmt, used: &mut Vec<u32>) -> Result<(), Memory>
        ensures ok { OnOk result (used.new.items
            ≡ used.old.items ++ variables_used (statement_in self.now statement.now)) }
        ensures begins { IsPrefix used.old.items used.new.items }
    {
        self.reads(statement, used)?;
        match self.target(statement) {
            Some(place) if !self.projections(place).is_empty() => {
                push_number(self.variable(place), used)
            }
            _ => Ok(()),
        }
    }

    /// Appends the blocks to which a terminator goes on.
    pub fn targets(&self, statement: &Stmt, blocks: &mut Vec<u32>) -> Result<(), Memory>
        ensures ok { OnOk result (blocks.new.items
            ≡ blocks.old.items ++ spec.targets (statement_in self.now statement.now)) }
        ensures begins { IsPrefix blocks.old.items blocks.new.items }
    {
        match statement {
            Stmt::Goto(block) | Stmt::Drop(_, block) => push_number(*block, blocks),
            Stmt::DropUnwind(_, block, unwind) => push_exits(*block, Some(*unwind), blocks),
            Stmt::Switch(number) => match self.switch(*number) {
                Some(switch) => Ok(blocks.extend_from_slice(self.blocks(switch.blocks))?),
                None => Ok(()),
            },
            Stmt::Call(number) => match self.call(*number) {
                Some(call) => push_exits(call.target, call.unwind, blocks),
                None => Ok(()),
            },
            _ => Ok(()),
        }
    }
}

// Appends a number.
fn push_number(number: u32, numbers: &mut Vec<u32>) -> Result<(), Memory>
    ensures ok { OnOk result (numbers.new.items ≡ numbers.old.items ++ number ∷ []) }
    ensures begins { IsPrefix numbers.old.items numbers.new.items }
{
    numbers.push(number)?;
    Ok(())
}

// Appends a block, and the other one where there is one.
fn push_exits(block: u32, unwind: Option<u32>, blocks: &mut Vec<u32>) -> Result<(), Memory>
    ensures ok { OnOk result (blocks.new.items ≡ blocks.old.items ++ block ∷ other_block unwind) }
    ensures begins { IsPrefix blocks.old.items blocks.new.items }
{
    push_number(block, blocks)?;
    match unwind {
        Some(other) => push_number(other, blocks),
        None => Ok(()),
    }
}
