//! Putting statements and terminators, and what they consist of, into the flat lists.

ghost use Rattle.std.specs.Prelude.{◌≡◌, ◌<◌, ◌≤◌, ◌^◌, ◌+◌, ◌++◌, ◌∷◌, [], length, map};
ghost use Rattle.std.specs.Prelude.{IfErr, IfOk, OnErr, OnOk};
ghost use Rattle.nll_types.specs.Operands.{operand_of};
ghost use Rattle.nll_types.specs.Places.{path_of};
ghost use Rattle.nll_body.specs.Flat.{call_in, statement_in, statements_in};
ghost use Rattle.nll_body.specs.Within.{AddsArguments, AddsPlaces, AreFlatOperands, AreWithin};
ghost use Rattle.nll_body.specs.Within.{ListsGrow, IsCallIn, IsFlatOperand, IsFlatStatement};
ghost use Rattle.nll_body.specs.Within.{IsListedSlice};
ghost use Rattle.nll_body.specs.Within.{IsNumberOf, IsStatementIn};
ghost use Rattle.nll_body.specs.Statements.{assign, borrow, make, switch};

use crate::flat::{FlatCall, FlatMake, FlatOperand, FlatSwitch, PartPlace, Slice, Stmt};
use crate::statements::{FIRST_PART, Statements};
use nll_problem::RegionId;
use nll_sets::Memory;
use nll_types::{Operand, Place, Projection, Typed};
use std::alloc::AllocError;

// The number of the next part. Numbers end at 2^31, far beyond what memory holds.
fn next_number(count: usize) -> Result<u32, Memory>
    ensures number { IfOk result (λ n. n ≡ count) }
    ensures few { IfOk result (λ n. n < 2 ^ 31) }
    ensures many { IfErr result (λ _. 2 ^ 31 ≤ count) }
{
    if count < FIRST_PART as usize {
        Ok(count as u32)
    } else {
        Err(Memory::from(AllocError))
    }
}

// Appends projections. Most often there is one.
fn append(projections: &mut Vec<Projection>, taken: &[Projection]) -> Result<(), Memory>
    ensures ok { OnOk result (projections.new.items ≡ projections.old.items ++ taken.now) }
    ensures len { OnOk result
        (length projections.new.items ≡ length projections.old.items + length taken.now) }
    ensures err { OnErr result (projections.new.items ≡ projections.old.items) }
{
    match taken {
        [projection] => projections.push(*projection)?,
        _ => projections.extend_from_slice(taken)?,
    }
    Ok(())
}

impl Statements {
    // Adds a place that isn't a whole variable.
    #[inline(never)]
    fn add_part(&mut self, place: &Place) -> Result<u32, Memory>
        ensures places { AddsPlaces self.old self.new }
        ensures within { AreWithin self.new }
        ensures number { IfOk result (IsNumberOf self.new (path_of place.now)) }
    {
        let number = next_number(self.parts.len())?;
        let taken = place.projections();
        let projections = Slice {
            first: self.projections.len(),
            count: taken.len(),
        };
        append(&mut self.projections, taken)?;
        let variable = place.variable();
        self.parts.push(PartPlace {
            variable,
            projections,
        })?;
        Ok(FIRST_PART + number)
    }

    /// The number of a place, which is added where it isn't a whole variable.
    #[inline(always)]
    pub fn add_place(&mut self, place: &Place) -> Result<u32, Memory>
        ensures places { AddsPlaces self.old self.new }
        ensures within { AreWithin self.new }
        ensures number { IfOk result (IsNumberOf self.new (path_of place.now)) }
    {
        // For the proof alone: each number in the lists stands for something.
        let _ = &self.points;
        let variable = place.variable();
        if place.projections().is_empty() & (variable < FIRST_PART) {
            return Ok(variable);
        }
        self.add_part(place)
    }

    // An operand, whose place is added.
    fn add_operand(&mut self, operand: &Operand) -> Result<FlatOperand, Memory>
        ensures places { AddsPlaces self.old self.new }
        ensures operand { IfOk result (IsFlatOperand self.new (operand_of operand.now)) }
    {
        match operand {
            Operand::Const => Ok(FlatOperand::Const),
            Operand::Copy(place) => Ok(FlatOperand::Copy(self.add_place(place)?)),
            Operand::Move(place) => Ok(FlatOperand::Move(self.add_place(place)?)),
        }
    }

    // Adds the operands of which a tuple or struct is made.
    fn add_operands(&mut self, operands: &[Operand]) -> Result<Slice, Memory>
        ensures grows { ListsGrow self.old self.new }
        ensures operands { IfOk result (AreFlatOperands self.new (map operand_of operands.now)) }
    {
        let slice = Slice {
            first: self.operands.len(),
            count: operands.len(),
        };
        for operand in operands {
            let operand = self.add_operand(operand)?;
            self.operands.push(operand)?;
        }
        Ok(slice)
    }

    /// How many arguments and how many pairs calls have. Each number in the lists stands for
    /// something.
    pub fn call_counts(&self) -> (usize, usize)
        ensures arguments { result.0 ≡ length self.now.arguments }
        ensures pairs { result.1 ≡ length self.now.pairs }
        ensures within { AreWithin self.now }
    {
        (self.arguments.len(), self.pairs.len())
    }

    /// Adds an argument of a call: an operand, for a parameter of this type.
    pub fn add_argument(&mut self, operand: &Operand, ty: Typed) -> Result<(), Memory>
        ensures grows { ListsGrow self.old self.new }
        ensures added { OnOk result
            (AddsArguments self.old self.new ((operand_of operand.now, ty) ∷ [])) }
    {
        // For the proof alone: each number in the lists stands for something.
        let _ = &self.arguments;
        let operand = self.add_operand(operand)?;
        self.arguments.push((operand, ty))?;
        Ok(())
    }

    /// Adds a pair of a call.
    pub fn add_pair(&mut self, pair: (RegionId, RegionId)) -> Result<(), Memory>
        ensures grows { ListsGrow self.old self.new }
        ensures added { OnOk result (self.new.pairs ≡ self.old.pairs ++ pair ∷ []) }
    {
        self.pairs.push(pair)?;
        Ok(())
    }

    // Adds the blocks of a switch.
    fn add_blocks(&mut self, blocks: &[u32]) -> Result<Slice, Memory>
        ensures grows { ListsGrow self.old self.new }
        ensures blocks { IfOk result (IsListedSlice self.new.blocks blocks.now) }
    {
        let slice = Slice {
            first: self.blocks.len(),
            count: blocks.len(),
        };
        self.blocks.extend_from_slice(blocks)?;
        Ok(slice)
    }

    /// Adds a tuple or struct of a type that is made of operands and goes to a place.
    pub fn add_make(
        &mut self,
        place: &Place,
        ty: Typed,
        operands: &[Operand],
    ) -> Result<Stmt, Memory>
        ensures grows { ListsGrow self.old self.new }
        ensures flat { IfOk result (IsFlatStatement self.new
            (make (path_of place.now) ty (map operand_of operands.now))) }
    {
        let place = self.add_place(place)?;
        let operands = self.add_operands(operands)?;
        let number = self.makes.len();
        self.makes.push(FlatMake {
            place,
            ty,
            operands,
        })?;
        Ok(Stmt::Make(number))
    }

    /// Adds a call whose arguments and pairs are there.
    pub fn add_call(&mut self, call: FlatCall) -> Result<Stmt, Memory>
        requires { IsCallIn self.old call }
        ensures grows { ListsGrow self.old self.new }
        ensures flat { IfOk result (IsFlatStatement self.new (call_in self.old call)) }
    {
        let number = self.calls.len();
        self.calls.push(call)?;
        Ok(Stmt::Call(number))
    }

    /// Adds a switch.
    pub fn add_switch(&mut self, operand: &Operand, blocks: &[u32]) -> Result<Stmt, Memory>
        ensures grows { ListsGrow self.old self.new }
        ensures flat { IfOk result
            (IsFlatStatement self.new (switch (operand_of operand.now) blocks.now)) }
    {
        let blocks = self.add_blocks(blocks)?;
        let operand = self.add_operand(operand)?;
        let number = self.switches.len();
        self.switches.push(FlatSwitch { operand, blocks })?;
        Ok(Stmt::Switch(number))
    }

    /// Adds a borrow.
    pub fn add_borrow(
        &mut self,
        target: &Place,
        region: RegionId,
        mutable: bool,
        source: &Place,
    ) -> Result<Stmt, Memory>
        ensures grows { ListsGrow self.old self.new }
        ensures flat { IfOk result (IsFlatStatement self.new
            (borrow (path_of target.now) region mutable (path_of source.now))) }
    {
        let target = self.add_place(target)?;
        let source = self.add_place(source)?;
        Ok(Stmt::Borrow(mutable, target, region, source))
    }

    /// Adds an assignment.
    pub fn add_assign(&mut self, target: &Place, operand: &Operand) -> Result<Stmt, Memory>
        ensures grows { ListsGrow self.old self.new }
        ensures flat { IfOk result
            (IsFlatStatement self.new (assign (path_of target.now) (operand_of operand.now))) }
    {
        let target = self.add_place(target)?;
        let operand = self.add_operand(operand)?;
        Ok(Stmt::Assign(target, operand))
    }

    /// Adds a statement or terminator at the next point, whose numbers stand for something.
    ///
    /// # Errors
    /// `Memory`: the statements are as before.
    pub fn push(&mut self, statement: Stmt) -> Result<(), Memory>
        requires { IsStatementIn self.old statement }
        ensures ok { OnOk result (statements_in self.new
            ≡ statements_in self.old ++ statement_in self.old statement ∷ []) }
        ensures err { OnErr result (statements_in self.new ≡ statements_in self.old) }
    {
        self.points.push(statement)?;
        Ok(())
    }
}
