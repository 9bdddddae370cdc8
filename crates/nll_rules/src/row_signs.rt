//! The signs of the regions in a type's row, which its shape has, and where in a row the rows of
//! parts are.

ghost use Rattle.std.specs.Prelude.{◌≡◌, ◌<◌, ◌++◌, ◌↔◌, ℕ, length, MatchOption};
ghost use Rattle.std.specs.Prelude.{OnOk, Some, slice_get};
ghost use Rattle.nll_types.specs.Declarations.{structs_of};
ghost use Rattle.nll_types.specs.Table.{AreBelow, all_at, shape_in, shapes_in};
ghost use Rattle.nll_types.specs.declared.parameter.Sign.TheVariants.{Covariant, Invariant};
ghost use Rattle.nll_rules.specs.Pairs.{AddsPairs};
ghost use Rattle.nll_rules.specs.Positions.{sign_or, times};
ghost use Rattle.nll_rules.specs.Signs as spec;
ghost use Rattle.nll_rules.specs.Signs.{RowsAsk, part_sign};
ghost use Rattle.nll_rules.specs.Subtyping.{IsAsked};
ghost use Rattle.nll_rules.specs.TypeRows.{AreKnown, AreSigns, first_parts, starts_from};
ghost use Rattle.nll_rules.specs.declared.row_signs.ShapeSigns.{ShapeSigns as shape_signs};

use crate::meetings::Pairs;
use crate::sign::{region_parameters, sign_or, times, type_parameters};
use nll_problem::RegionId;
use nll_sets::Memory;
use nll_types::{Node, Parameter, Shapes, Sign, Structs};
use std::alloc::Global;

/// What is known of a shape: the sign of each region of its row, and where in the row the rows of
/// its first parts begin, and the last of them ends.
#[derive(Drop)]
pub(crate) struct ShapeSigns {
    pub(crate) signs: Vec<Sign>,
    pub(crate) starts: Vec<usize>,
}

/// The signs of the positions of parts: one sign for all, or those of the parameters for which the
/// parts are, inside a position of a sign.
#[derive(Clone, Copy)]
pub(crate) enum PartSigns<'a> {
    Same(Sign),
    Arguments(Sign, &'a [Parameter]),
}

/// Appends a pair, unless it is the last one.
pub(crate) fn push_new(pair: (RegionId, RegionId), asked: &mut Pairs) -> Result<(), Memory>
    ensures { OnOk result (AddsPairs (λ x. pair ≡ x) asked.old.items asked.new.items) }
{
    if let Some(last) = asked.last().copied() {
        if last.0.0 == pair.0.0 && last.1.0 == pair.1.0 {
            return Ok(());
        }
    }
    asked.push(pair)?;
    Ok(())
}

// Appends what a position of this sign asks of two regions.
fn ask_pair(sign: Sign, a: RegionId, b: RegionId, asked: &mut Pairs) -> Result<(), Memory>
    ensures { OnOk result (AddsPairs (IsAsked sign a b) asked.old.items asked.new.items) }
{
    match sign {
        Sign::Covariant => push_new((a, b), asked),
        Sign::Contravariant => push_new((b, a), asked),
        Sign::Invariant => {
            push_new((a, b), asked)?;
            push_new((b, a), asked)
        }
    }
}

/// Appends what two rows ask of each other, place by place, by the signs.
pub(crate) fn ask_rows(
    signs: &[Sign],
    one: &[RegionId],
    other: &[RegionId],
    asked: &mut Pairs,
) -> Result<(), Memory>
    ensures { OnOk result
        (AddsPairs (RowsAsk signs.now one.now other.now) asked.old.items asked.new.items) }
{
    for place in 0..signs.len().min(one.len().min(other.len())) {
        ask_pair(signs[place], one[place], other[place], asked)?;
    }
    Ok(())
}

impl<'a> PartSigns<'a> {
    // The sign of the part at a place.
    fn at(&self, place: usize) -> Sign
        ensures { result ≡ part_sign self.now place }
    {
        match self {
            PartSigns::Same(sign) => *sign,
            PartSigns::Arguments(outer, parameters) => {
                times(*outer, sign_or(parameters, place, Sign::Invariant))
            }
        }
    }
}

// Appends the signs of region arguments for these parameters, this many.
fn push_own(
    outer: Sign,
    parameters: &[Parameter],
    count: usize,
    signs: &mut Vec<Sign>,
) -> Result<(), Memory>
    ensures { OnOk result (signs.new.items ≡ signs.old.items
        ++ spec.sign_row (λ k. times outer (sign_or parameters.now k Invariant)) count) }
{
    for place in 0..count {
        signs.push(times(outer, sign_or(parameters, place, Sign::Invariant)))?;
    }
    Ok(())
}

// Appends the signs of the rows of parts.
#[cycle(row_signs)]
fn push_parts(
    structs: &Structs,
    shapes: &Shapes,
    parts: &[usize],
    kinds: PartSigns<'_>,
    signs: &mut Vec<Sign>,
) -> Result<(), Memory>
    requires { AreBelow (length shapes.now) parts.now }
    ensures { OnOk result (signs.new.items ≡ signs.old.items
        ++ spec.all_signs (structs_of structs.now) (part_sign kinds.entry)
        (all_at (shapes_in shapes.now) parts.now)) }
{
    for place in 0..parts.len() {
        push_signs(structs, shapes, parts[place], kinds.at(place), signs)?;
    }
    Ok(())
}

// Appends the signs of a shape's row, at a position of this sign. It recurses to the depth of the
// shape.
#[cycle(row_signs)]
fn push_signs(
    structs: &Structs,
    shapes: &Shapes,
    shape: usize,
    outer: Sign,
    signs: &mut Vec<Sign>,
) -> Result<(), Memory>
    requires { shape < length shapes.now }
    ensures { OnOk result (signs.new.items ≡ signs.old.items
        ++ spec.row_signs_of (structs_of structs.now) outer (shape_in shapes.now shape)) }
{
    match shapes.node(shape) {
        Node::Int | Node::Parameter(_) => Ok(()),
        Node::Reference(mutable, target) => {
            let behind = if *mutable { Sign::Invariant } else { outer };
            push_signs(structs, shapes, *target, behind, signs)?;
            signs.push(outer)?;
            Ok(())
        }
        Node::Tuple(parts) => {
            push_parts(
                structs,
                shapes,
                parts.as_slice(),
                PartSigns::Same(outer),
                signs,
            )
        }
        Node::Named(named, count, parts) => {
            let kinds = PartSigns::Arguments(outer, type_parameters(structs, *named));
            push_parts(structs, shapes, parts.as_slice(), kinds, signs)?;
            push_own(outer, region_parameters(structs, *named), *count, signs)
        }
        Node::Function(inputs, output) => {
            let kinds = PartSigns::Same(times(outer, Sign::Contravariant));
            push_parts(structs, shapes, inputs.as_slice(), kinds, signs)?;
            push_signs(structs, shapes, *output, outer, signs)
        }
    }
}

// Appends where the rows of parts begin, and where the last of them ends, and their signs.
fn push_first(
    structs: &Structs,
    shapes: &Shapes,
    parts: &[usize],
    kinds: PartSigns<'_>,
    made: &mut ShapeSigns,
) -> Result<(), Memory>
    requires { AreBelow (length shapes.now) parts.now }
    ensures signs { OnOk result (made.new.signs.items ≡ made.old.signs.items
        ++ spec.all_signs (structs_of structs.now) (part_sign kinds.entry)
        (all_at (shapes_in shapes.now) parts.now)) }
    ensures starts { OnOk result (made.new.starts.items ≡ made.old.starts.items
        ++ starts_from (length made.old.signs.items) (all_at (shapes_in shapes.now) parts.now)) }
{
    for place in 0..parts.len() {
        made.starts.push(made.signs.len())?;
        push_signs(
            structs,
            shapes,
            parts[place],
            kinds.at(place),
            &mut made.signs,
        )?;
    }
    made.starts.push(made.signs.len())?;
    Ok(())
}

// Appends where the rows of the first parts of a shape begin, and the signs of its row.
fn push_top(
    structs: &Structs,
    shapes: &Shapes,
    shape: usize,
    made: &mut ShapeSigns,
) -> Result<(), Memory>
    requires { shape < length shapes.now }
    ensures signs { OnOk result (made.new.signs.items ≡ made.old.signs.items
        ++ spec.row_signs_of (structs_of structs.now) Covariant (shape_in shapes.now shape)) }
    ensures starts { OnOk result (made.new.starts.items ≡ made.old.starts.items
        ++ starts_from (length made.old.signs.items) (first_parts (shape_in shapes.now shape))) }
{
    match shapes.node(shape) {
        Node::Int | Node::Parameter(_) | Node::Reference(_, _) => {
            made.starts.push(made.signs.len())?;
            push_signs(structs, shapes, shape, Sign::Covariant, &mut made.signs)
        }
        Node::Tuple(parts) => {
            let kinds = PartSigns::Same(Sign::Covariant);
            push_first(structs, shapes, parts.as_slice(), kinds, made)
        }
        Node::Named(named, count, parts) => {
            let kinds = PartSigns::Arguments(Sign::Covariant, type_parameters(structs, *named));
            push_first(structs, shapes, parts.as_slice(), kinds, made)?;
            let parameters = region_parameters(structs, *named);
            push_own(Sign::Covariant, parameters, *count, &mut made.signs)
        }
        Node::Function(inputs, output) => {
            let kinds = PartSigns::Same(Sign::Contravariant);
            push_first(structs, shapes, inputs.as_slice(), kinds, made)?;
            push_signs(structs, shapes, *output, Sign::Covariant, &mut made.signs)
        }
    }
}

// Lengthens a list of what is known until it has a place for a shape. Nothing more is known.
fn make_place(known: &mut Vec<Option<ShapeSigns>>, shape: usize) -> Result<(), Memory>
    ensures within { OnOk result (shape < length known.new.items) }
    ensures same { (k : ℕ) (e : shape_signs) → slice_get known.new.items k ≡ Some (Some e)
        ↔ slice_get known.old.items k ≡ Some (Some e) }
{
    while known.len() <= shape {
        known.push(None)?;
    }
    Ok(())
}

/// The signs of shapes, by the numbers of the shapes, as far as they were asked for.
#[derive(Drop)]
pub(crate) struct SignTable {
    pub(crate) known: Vec<Option<ShapeSigns>>,
}

impl SignTable {
    /// What is known of a shape.
    pub(crate) fn get(&self, shape: usize) -> Option<&ShapeSigns>
        ensures found { MatchOption result (AreKnown self.now.known.items shape → ⊥)
            (λ e. slice_get self.now.known.items shape ≡ Some (Some e.now)) }
    {
        match self.known.get(shape) {
            Some(Some(signs)) => Some(signs),
            _ => None,
        }
    }

    /// Makes the signs of a shape, where they aren't known. What was known stays so.
    ///
    /// # Cost
    /// Linear in the shape as a tree, the first time (not proved).
    pub(crate) fn learn(
        &mut self,
        alloc: Global,
        structs: &Structs,
        shapes: &Shapes,
        shape: usize,
    ) -> Result<(), Memory>
        requires within { shape < length shapes.now }
        requires right { AreSigns (structs_of structs.now) shapes.now self.old.known.items }
        ensures right { AreSigns (structs_of structs.now) shapes.now self.new.known.items }
        ensures known { OnOk result (AreKnown self.new.known.items shape) }
        ensures kept { (k : ℕ) → AreKnown self.old.known.items k → AreKnown self.new.known.items k }
    {
        if self.get(shape).is_some() {
            return Ok(());
        }
        make_place(&mut self.known, shape)?;
        let mut made = ShapeSigns {
            signs: Vec::new(alloc),
            starts: Vec::new(alloc),
        };
        push_top(structs, shapes, shape, &mut made)?;
        self.known[shape] = Some(made);
        Ok(())
    }
}
