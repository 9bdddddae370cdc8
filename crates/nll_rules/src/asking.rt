//! What a statement or terminator asks.

ghost use Rattle.std.specs.Prelude.{◌≡◌, Bool, IfSome, OnOk, Option, Some, true};
ghost use Rattle.nll_types.specs.Operands.{reference_to};
ghost use Rattle.nll_types.specs.Rows.{HasRow};
ghost use Rattle.nll_types.specs.Types.{TypeTree};
ghost use Rattle.nll_body.specs.Flat.{call_in, make_in, path_in, statement_in};
ghost use Rattle.nll_body.specs.Meant.{HasRows, meant_by};
ghost use Rattle.nll_body.specs.Statements as spec;
ghost use Rattle.nll_body.specs.Typing.{types_agree};
ghost use Rattle.nll_rules.specs.Asking.{AsksInAll};
ghost use Rattle.nll_rules.specs.Flows.{AddsMet, place_type, value_type, written_type};
ghost use Rattle.nll_rules.specs.Knowing.{IsAtHand, IsAvailable, Learns};
ghost use Rattle.nll_rules.specs.Pairs.{AddsPairs, OneOutlives};

use crate::known::Known;
use crate::meetings::{Meeting, Pairs, ask_own};
use crate::type_row::TypeRow;
use nll_body::{FlatCall, FlatMake, FlatOperand, Stmt};
use nll_problem::RegionId;
use nll_sets::Memory;
use nll_types::Typed;
use std::alloc::Global;

/// The pairs of regions that are asked, the first of which must outlive the second, and scratch
/// space.
#[derive(Drop)]
pub(crate) struct Asked {
    pub(crate) pairs: Pairs,
    pub(crate) crossed: Vec<RegionId>,
}

// Appends, for each of these regions, that it outlives this one.
fn ask_outlives(regions: &[RegionId], region: RegionId, pairs: &mut Pairs) -> Result<(), Memory>
    ensures { OnOk result
        (AddsPairs (OneOutlives regions.now region) pairs.old.items pairs.new.items) }
{
    for longer in regions {
        pairs.push((*longer, region))?;
    }
    Ok(())
}

impl<'a> Known<'a> {
    // Appends what two types ask, where both are there.
    fn meet(
        &mut self,
        alloc: Global,
        one: Option<TypeRow>,
        other: Option<TypeRow>,
        pairs: &mut Pairs,
    ) -> Result<(), Memory>
        requires one { IfSome one (IsAvailable self.old) }
        requires other { IfSome other (IsAvailable self.old) }
        ensures learns { Learns self.old self.new }
        ensures asked { OnOk result ((o p : Option TypeTree)
            → IsAtHand self.old o one → IsAtHand self.old p other
            → AddsMet self.old o p pairs.old.items pairs.new.items) }
    {
        match one {
            Some(one) => match other {
                Some(other) => {
                    self.ask_meeting(alloc, Meeting { one, other }, pairs)?;
                    Ok(())
                }
                None => Ok(()),
            },
            None => Ok(()),
        }
    }

    // Appends what an operand asks that flows into a value of this type.
    fn ask_from(
        &mut self,
        alloc: Global,
        operand: FlatOperand,
        other: Option<TypeRow>,
        asked: &mut Asked,
    ) -> Result<(), Memory>
        requires { IfSome other (IsAvailable self.old) }
        ensures learns { Learns self.old self.new }
        ensures asked { OnOk result ((p : Option TypeTree) → IsAtHand self.old p other
            → AddsMet self.old (value_type self.old operand) p
            asked.old.pairs.items asked.new.pairs.items) }
    {
        match operand {
            // An `int`, in which no region occurs.
            FlatOperand::Const => Ok(()),
            FlatOperand::Copy(place) | FlatOperand::Move(place) => {
                let one = self.walk(alloc, place, &mut asked.crossed)?;
                self.meet(alloc, one, other, &mut asked.pairs)?;
                Ok(())
            }
        }
    }

    // Appends what a reference of a region, `mut` or not, to a value of the first type asks that
    // flows into a value of the second, where both are there.
    fn meet_reference(
        &mut self,
        alloc: Global,
        region: RegionId,
        target: Option<TypeRow>,
        other: Option<TypeRow>,
        pairs: &mut Pairs,
    ) -> Result<(), Memory>
        requires target { IfSome target (IsAvailable self.old) }
        requires other { IfSome other (IsAvailable self.old) }
        ensures learns { Learns self.old self.new }
        ensures asked { OnOk result ((m : Bool) (o p : Option TypeTree)
            → IsAtHand self.old o target → IsAtHand self.old p other
            → AddsMet self.old (reference_to region m o) p pairs.old.items pairs.new.items) }
    {
        match target {
            Some(target) => match other {
                Some(other) => {
                    let meeting = Meeting { one: target, other };
                    self.ask_meeting(alloc, meeting, pairs)?;
                    ask_own(region, self.lists.row(other), pairs)?;
                    Ok(())
                }
                None => Ok(()),
            },
            None => Ok(()),
        }
    }

    // Appends what a reference of a region, `mut` or not, to a place asks that flows into another
    // place.
    fn ask_borrow(
        &mut self,
        alloc: Global,
        place: u32,
        region: RegionId,
        borrowed: u32,
        asked: &mut Asked,
    ) -> Result<(), Memory>
        ensures learns { Learns self.old self.new }
        ensures asked { OnOk result ((m : Bool) → types_agree self.old.structs self.old.variables
            (spec.borrow (path_in self.old.lists place) region m (path_in self.old.lists borrowed))
            ≡ true → AddsPairs (AsksInAll self.old.structs self.old.variables
            (spec.borrow (path_in self.old.lists place) region m (path_in self.old.lists borrowed)))
            asked.old.pairs.items asked.new.pairs.items) }
    {
        let target = self.walk(alloc, borrowed, &mut asked.crossed)?;
        ask_outlives(asked.crossed.as_slice(), region, &mut asked.pairs)?;
        let other = self.walk(alloc, place, &mut asked.crossed)?;
        self.meet_reference(alloc, region, target, other, &mut asked.pairs)
    }

    // Appends what making a tuple or struct of operands, for a place, asks.
    fn ask_make(&mut self, alloc: Global, make: &FlatMake, asked: &mut Asked) -> Result<(), Memory>
        requires row { HasRow self.old.shapes self.old.regions make.now.ty }
        requires agree { types_agree self.old.structs self.old.variables
            (meant_by self.old.shapes self.old.regions (make_in self.old.lists make.now)) ≡ true }
        ensures learns { Learns self.old self.new }
        ensures asked { OnOk result (AddsPairs (AsksInAll self.old.structs self.old.variables
            (meant_by self.old.shapes self.old.regions (make_in self.old.lists make.now)))
            asked.old.pairs.items asked.new.pairs.items) }
    {
        let operands = self.statements().operands(make.operands);
        for place in 0..operands.len() {
            let row = self.written(alloc, make.ty)?;
            let other = self.part(alloc, row, place)?;
            self.ask_from(alloc, operands[place], other, asked)?;
        }
        self.ask_result(alloc, make.ty, make.place, asked)
    }

    // Appends what a value of a type asks that flows into a place.
    fn ask_result(
        &mut self,
        alloc: Global,
        ty: Typed,
        place: u32,
        asked: &mut Asked,
    ) -> Result<(), Memory>
        requires { HasRow self.old.shapes self.old.regions ty }
        ensures learns { Learns self.old self.new }
        ensures asked { OnOk result (AddsMet self.old (Some (written_type self.old ty))
            (place_type self.old place) asked.old.pairs.items asked.new.pairs.items) }
    {
        let one = self.written(alloc, ty)?;
        let other = self.walk(alloc, place, &mut asked.crossed)?;
        self.meet(alloc, Some(one), other, &mut asked.pairs)
    }

    // Appends what a call asks.
    fn ask_call(&mut self, alloc: Global, call: &FlatCall, asked: &mut Asked) -> Result<(), Memory>
        requires rows { HasRows self.old.shapes self.old.regions (call_in self.old.lists call.now) }
        requires agree { types_agree self.old.structs self.old.variables
            (meant_by self.old.shapes self.old.regions (call_in self.old.lists call.now)) ≡ true }
        ensures learns { Learns self.old self.new }
        ensures asked { OnOk result (AddsPairs (AsksInAll self.old.structs self.old.variables
            (meant_by self.old.shapes self.old.regions (call_in self.old.lists call.now)))
            asked.old.pairs.items asked.new.pairs.items) }
    {
        let statements = self.statements();
        let arguments = statements.arguments(call.arguments);
        for place in 0..arguments.len() {
            let (operand, ty) = arguments[place];
            let other = self.written(alloc, ty)?;
            self.ask_from(alloc, operand, Some(other), asked)?;
        }
        self.ask_result(alloc, call.result, call.place, asked)?;
        let wheres = statements.pairs(call.wheres);
        asked.pairs.extend_from_slice(wheres)?;
        Ok(())
    }

    /// Appends the pairs of regions that a statement or terminator asks: the first of each pair
    /// must outlive the second.
    ///
    /// # Cost
    /// The rows of the types that meet and of those on the ways to its places, and the signs of
    /// their shapes, the first time that they are requested (not proved).
    ///
    /// # Source
    /// RFC 2094, "Subtyping" and "Reborrow constraints".
    pub(crate) fn asks(
        &mut self,
        alloc: Global,
        statement: &Stmt,
        asked: &mut Asked,
    ) -> Result<(), Memory>
        requires rows { HasRows self.old.shapes self.old.regions
            (statement_in self.old.lists statement.now) }
        requires agree { types_agree self.old.structs self.old.variables
            (meant_by self.old.shapes self.old.regions
            (statement_in self.old.lists statement.now)) ≡ true }
        ensures learns { Learns self.old self.new }
        ensures asked { OnOk result (AddsPairs (AsksInAll self.old.structs self.old.variables
            (meant_by self.old.shapes self.old.regions (statement_in self.old.lists statement.now)))
            asked.old.pairs.items asked.new.pairs.items) }
    {
        match *statement {
            Stmt::Assign(place, operand) => {
                let other = self.walk(alloc, place, &mut asked.crossed)?;
                self.ask_from(alloc, operand, other, asked)?;
                Ok(())
            }
            Stmt::Borrow(_, place, region, borrowed) => {
                self.ask_borrow(alloc, place, region, borrowed, asked)?;
                Ok(())
            }
            Stmt::Make(number) => match self.statements().make(number) {
                Some(make) => self.ask_make(alloc, make, asked),
                None => Ok(()),
            },
            Stmt::Call(number) => match self.statements().call(number) {
                Some(call) => self.ask_call(alloc, call, asked),
                None => Ok(()),
            },
            // What is switched on meets an `int`, in which no region occurs.
            Stmt::Switch(_) => Ok(()),
            Stmt::Read(_)
            | Stmt::Live(_)
            | Stmt::Dead(_)
            | Stmt::Nop
            | Stmt::Goto(_)
            | Stmt::Drop(_, _)
            | Stmt::DropUnwind(_, _, _)
            | Stmt::Return
            | Stmt::Stop => Ok(()),
        }
    }
}
