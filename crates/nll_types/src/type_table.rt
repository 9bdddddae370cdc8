//! The structs and the shapes of a body, while it is read.

ghost use Rattle.std.specs.Prelude.{◌≡◌, ◌<◌, ◌-◌, ◌^◌, ◌++◌, ◌∷◌, [], length, option_map};
ghost use Rattle.std.specs.Prelude.{IfOk, IfSome, OnOk, OnErr};
ghost use Rattle.nll_types.specs.Declarations.{declared, structs_of};
ghost use Rattle.nll_types.specs.Shapes.{int_shape, shape_of, put_in_shape, behind_shape};
ghost use Rattle.nll_types.specs.Places.{behind_all, part_count, small_behind};
ghost use Rattle.nll_types.specs.Structs.{HasGoodFields};
ghost use Rattle.nll_types.specs.Table.{IsOver, AreBelow, all_at, shape_in, shape_over, shapes_in};
ghost use Rattle.nll_types.specs.Tables.{AddsShapes};
ghost use Rattle.nll_types.specs.Types.{TypeTree};
ghost use Rattle.nll_types.specs.Views.{tree};
ghost use Rattle.nll_types.specs.declared.place.Projection.TheVariants.{Field as field};

use crate::node::Node;
use crate::place::Projection;
use crate::projections::part;
use crate::shapes::Shapes;
use crate::structs::{Declaration, Structs};
use crate::ty::Ty;
use crate::type_shapes::shape;
use indexmap::IndexMap;
use nll_sets::Memory;
use std::alloc::Global;
use std::marker::Model;

/// A field of a shape, by which the number of its own shape is remembered.
#[derive(Clone, Copy, PartialEq, Eq, Hash)]
pub(crate) struct FieldUse {
    pub(crate) shape: usize,
    pub(crate) place: usize,
}

/// The structs that are declared and the shapes of types. The shape of a field of a struct is made
/// once for each list of arguments, however often it is requested.
pub struct TypeTable {
    structs: Structs,
    shapes: Shapes,
    fields: IndexMap<FieldUse, usize>,
}

// A derived drop would be proved anew in each crate that drops one.
impl Drop for TypeTable {
    fn drop(self) {
        let TypeTable {
            structs: _,
            shapes: _,
            fields: _,
        } = self;
    }
}

impl Model for TypeTable {
    ghost use Rattle.std.specs.Coded.{codes};
    ghost use Rattle.nll_types.specs.contracts.ty.Ty as types;
    ghost use Rattle.nll_types.specs.Declarations.{structs_of};
    ghost use Rattle.nll_types.specs.Memo.{AreRemembered};
    ghost use Rattle.nll_types.specs.Tables.{Tables};

    ghost Value = { Tables };

    ghost coded = { Prim.hlevel (codes, types.the_row.coded) };

    ghost view = { λ table. record { structs = table.structs; shapes = table.shapes } };

    ghost invariant = { λ table.
        AreRemembered (structs_of table.structs) table.shapes table.fields.entries };
}

impl TypeTable {
    /// No struct and no shape.
    pub fn new(alloc: Global) -> TypeTable
        ensures structs { result.structs ≡ [] }
        ensures shapes { result.shapes ≡ [] }
    {
        TypeTable {
            structs: Structs::new(alloc),
            shapes: Shapes::new(alloc),
            fields: IndexMap::new(alloc),
        }
    }

    /// The structs.
    pub fn structs(&self) -> &Structs
        ensures { result.now ≡ self.now.structs }
    {
        &self.structs
    }

    /// The shapes.
    pub fn shapes(&self) -> &Shapes
        ensures { result.now ≡ self.now.shapes }
    {
        &self.shapes
    }

    /// Declares the next struct.
    pub fn declare(&mut self, alloc: Global, declaration: Declaration) -> Result<(), Memory>
        requires fields { HasGoodFields (structs_of self.old.structs) (declared declaration) }
        requires few { length declaration.regions.items < 2 ^ 32 - 1 }
        ensures ok { OnOk result (self.new.structs ≡ self.old.structs ++ declaration ∷ []) }
        ensures err { OnErr result (self.new.structs ≡ self.old.structs) }
        ensures shapes { self.new.shapes ≡ self.old.shapes }
    {
        self.fields.clear();
        self.structs.declare(alloc, declaration)
    }

    /// The number of the shape that a node makes of earlier ones.
    pub fn add(&mut self, node: Node) -> Result<usize, Memory>
        requires { IsOver (length self.old.shapes) node }
        ensures grows { AddsShapes self.old self.new }
        ensures within { IfOk result (λ i. i < length self.new.shapes) }
        ensures at { IfOk result (λ i. shape_in self.new.shapes i
            ≡ shape_over (shapes_in self.old.shapes) node) }
    {
        self.shapes.add(node)
    }

    /// The number of the shape of `int`.
    pub fn int(&mut self) -> Result<usize, Memory>
        ensures grows { AddsShapes self.old self.new }
        ensures within { IfOk result (λ i. i < length self.new.shapes) }
        ensures at { IfOk result (λ i. shape_in self.new.shapes i ≡ int_shape) }
    {
        self.shapes.int()
    }

    /// The number of the shape of a type with the shapes of these arguments substituted.
    pub fn shape(&mut self, alloc: Global, ty: &Ty, arguments: &[usize]) -> Result<usize, Memory>
        ensures grows { AddsShapes self.old self.new }
        ensures within { IfOk result (λ i. i < length self.new.shapes) }
        ensures at { IfOk result (λ i. AreBelow (length self.old.shapes) arguments.now
            → shape_in self.new.shapes i
            ≡ put_in_shape (all_at (shapes_in self.old.shapes) arguments.now)
            (shape_of (tree ty.now))) }
    {
        shape(alloc, &mut self.shapes, ty, arguments)
    }

    /// The shape of a part of a tuple or of a field of a struct, where there is one.
    ///
    /// # Cost
    /// That of a look-up after the first time (not proved).
    pub fn part(
        &mut self,
        alloc: Global,
        number: usize,
        place: usize,
    ) -> Result<Option<usize>, Memory>
        requires { number < length self.old.shapes }
        ensures grows { AddsShapes self.old self.new }
        ensures within { IfOk result (λ o. IfSome o (λ i. i < length self.new.shapes)) }
        ensures at { IfOk result (λ o. option_map (shape_in self.new.shapes) o
            ≡ behind_shape (structs_of self.old.structs) (field place)
            (shape_in self.old.shapes number)) }
    {
        let Node::Named(_, _, _) = self.shapes.node(number) else {
            return part(alloc, &self.structs, &mut self.shapes, number, place);
        };
        let sought = FieldUse {
            shape: number,
            place,
        };
        if let Some(made) = self.fields.get(&sought).copied() {
            return Ok(Some(made));
        }
        match part(alloc, &self.structs, &mut self.shapes, number, place)? {
            Some(made) => {
                self.fields.insert(sought, made)?;
                Ok(Some(made))
            }
            None => Ok(None),
        }
    }

    /// The shape behind one projection, where there is one.
    ///
    /// # Cost
    /// That of a look-up after the first time (not proved).
    pub fn behind(
        &mut self,
        alloc: Global,
        projection: Projection,
        number: usize,
    ) -> Result<Option<usize>, Memory>
        requires { number < length self.old.shapes }
        ensures grows { AddsShapes self.old self.new }
        ensures within { IfOk result (λ o. IfSome o (λ i. i < length self.new.shapes)) }
        ensures at { IfOk result (λ o. option_map (shape_in self.new.shapes) o
            ≡ behind_shape (structs_of self.old.structs) projection
            (shape_in self.old.shapes number)) }
    {
        match projection {
            Projection::Deref => match self.shapes.node(number) {
                Node::Reference(_, target) => Ok(Some(*target)),
                _ => Ok(None),
            },
            Projection::Field(place) => self.part(alloc, number, place as usize),
        }
    }

    /// The shape of the type behind projections from a type of this shape, where there is one, and
    /// whether each type on the way is small, the first and the last counted in.
    ///
    /// # Cost
    /// That of a look-up for each projection after the first time (not proved).
    pub fn place_shape(
        &mut self,
        alloc: Global,
        from: usize,
        projections: &[Projection],
    ) -> Result<Option<(usize, bool)>, Memory>
        requires { from < length self.old.shapes }
        ensures grows { AddsShapes self.old self.new }
        ensures within { IfOk result (λ o. IfSome o (λ r. r.0 < length self.new.shapes)) }
        ensures at { IfOk result (λ o. (t : TypeTree) → shape_of t ≡ shape_in self.old.shapes from
            → option_map (λ r. shape_in self.new.shapes r.0) o
            ≡ option_map shape_of (behind_all (structs_of self.old.structs) projections.now t)) }
        ensures small { IfOk result (λ o. IfSome o (λ r. (t : TypeTree)
            → shape_of t ≡ shape_in self.old.shapes from
            → r.1 ≡ small_behind (structs_of self.old.structs) projections.now t)) }
    {
        let mut number = from;
        let mut small = true;
        for projection in projections {
            let here = self.shapes().is_small(number);
            small = small & here;
            match self.behind(alloc, *projection, number)? {
                Some(next) => number = next,
                None => return Ok(None),
            }
        }
        let here = self.shapes().is_small(number);
        Ok(Some((number, small & here)))
    }

    /// How many parts a type of this shape has, if it is a tuple, or fields, if it is a struct.
    pub fn parts(&self, number: usize) -> Option<usize>
        requires { number < length self.now.shapes }
        ensures { (t : TypeTree) → shape_of t ≡ shape_in self.now.shapes number
            → result ≡ part_count (structs_of self.now.structs) t }
    {
        match self.shapes().node(number) {
            Node::Tuple(parts) => Some(parts.len()),
            Node::Named(named, _, _) => Some(self.structs().field_count(*named)),
            Node::Int | Node::Parameter(_) | Node::Reference(_, _) | Node::Function(_, _) => None,
        }
    }
}
