//! What is known of the types of a body.

ghost use Rattle.std.specs.Prelude.{◌≡◌, ◌<◌, ◌↔◌, ℕ, All, Contains, IfOk, IfSome, List};
ghost use Rattle.std.specs.Prelude.{MatchOption, OnOk, length, map, option_map};
ghost use Rattle.nll_types.specs.Declarations.{structs_of};
ghost use Rattle.nll_types.specs.Places.{behind};
ghost use Rattle.nll_types.specs.Rows.{HasRow, region_row, tree_at};
ghost use Rattle.nll_types.specs.Shapes.{behind_shape, shape_of};
ghost use Rattle.nll_types.specs.Structs.{field_type};
ghost use Rattle.nll_types.specs.Table.{shape_in};
ghost use Rattle.nll_types.specs.Types.{TypeTree, TypeTrees, named, reference, tuple, type_at};
ghost use Rattle.nll_types.specs.declared.place.Projection.TheVariants.{Field as field};
ghost use Rattle.nll_rules.specs.Knowing.{AsksAt, IsAtHand, IsFieldIn, IsFieldOfUse, IsAvailable};
ghost use Rattle.nll_rules.specs.Knowing.{IsRightField, IsSameBody, IsTypeOfRow, Learns};
ghost use Rattle.nll_rules.specs.Pairs.{AddsPairs};
ghost use Rattle.nll_rules.specs.TypeRows.{form, row_from};

use crate::field_rows::{UseRow, field_template};
use crate::fields::{FieldKey, FieldRow, FieldUse};
use crate::meetings::{Meeting, Pairs};
use crate::part_rows::tuple_part;
use crate::row_signs::{SignTable, ask_rows};
use crate::type_row::{RowLists, TypeRow};
use indexmap::IndexMap;
use nll_body::{Statements, TypedBody};
use nll_problem::RegionId;
use nll_sets::Memory;
use nll_types::{Node, Shapes, Typed, part};
use std::alloc::Global;
use std::marker::Model;

// So many regions of made rows, or pairs, are kept.
const MOST_KEPT: usize = 1 << 18;

// Of rows with fewer regions it isn't kept what they ask.
const FEW_REGIONS: usize = 32;

/// What is known of the types of a body: the shapes of its types and of what lies behind
/// projections, the fields of shapes and of their uses, the signs of shapes, and what large types
/// asked that met. Each is found once, while there is room.
#[derive(Drop)]
pub(crate) struct Known<'a> {
    pub(crate) body: TypedBody<'a>,
    shapes: Shapes,
    fields: IndexMap<FieldKey, FieldRow>,
    signs: SignTable,
    pub(crate) lists: RowLists<'a>,
    uses: IndexMap<FieldUse, TypeRow>,
    asked: IndexMap<Meeting, Pairs>,
    // How many pairs are kept.
    pairs: usize,
}

impl<'a> Model for Known<'a> {
    ghost use Rattle.std.specs.Prelude.{◌≡◌, All, map};
    ghost use Rattle.std.specs.Coded.{codes, Coded};
    ghost use Rattle.nll_types.specs.TypeCodes.{Step, tree_code, trees_code};
    ghost use Rattle.nll_types.specs.Declarations.{structs_of};
    ghost use Rattle.nll_types.specs.Rows.{HasRow, tree_at};
    ghost use Rattle.nll_types.specs.Table.{Extends};
    ghost use Rattle.nll_rules.specs.Knowing.{AreFields, AreMet, AreUses, KnownTypes};
    ghost use Rattle.nll_rules.specs.TypeRows.{AreSigns};

    ghost Value = { KnownTypes };

    ghost coded = { let step : Coded Step = Prim.hlevel codes in
        Prim.hlevel (codes, tree_code step, trees_code step) };

    ghost view = { λ k. record {
      structs = structs_of k.body.types.now.table.structs;
      shapes = k.body.types.now.table.shapes;
      regions = k.body.types.now.regions.items;
      lists = k.body.points.now;
      variables = map (tree_at k.body.types.now.table.shapes k.body.types.now.regions.items)
          k.body.variables.now;
      table = k.shapes;
      made = k.lists.made.items;
    } };

    ghost invariant = { λ k.
        All (HasRow k.body.types.now.table.shapes k.body.types.now.regions.items)
        k.body.variables.now
        × Extends k.body.types.now.table.shapes k.shapes
        × AreFields (structs_of k.body.types.now.table.structs) k.shapes k.fields.entries
        × AreSigns (structs_of k.body.types.now.table.structs) k.shapes k.signs.known.items
        × (k.lists.body.now ≡ k.body.types.now.regions.items)
        × AreUses (structs_of k.body.types.now.table.structs) k.shapes
        k.lists.body.now k.lists.made.items k.uses.entries
        × AreMet (structs_of k.body.types.now.table.structs) k.shapes
        k.lists.body.now k.lists.made.items k.asked.entries };
}

impl<'a> Known<'a> {
    /// What is known of a body.
    ///
    /// # Cost
    /// Linear in the shapes of its types (not proved).
    pub(crate) fn new(alloc: Global, body: TypedBody<'a>) -> Result<Known<'a>, Memory>
        requires { All (HasRow body.types.now.table.shapes body.types.now.regions.items)
            body.variables.now }
        ensures structs { IfOk result
            (λ k. k.structs ≡ structs_of body.entry.types.now.table.structs) }
        ensures shapes { IfOk result (λ k. k.shapes ≡ body.entry.types.now.table.shapes) }
        ensures regions { IfOk result (λ k. k.regions ≡ body.entry.types.now.regions.items) }
        ensures lists { IfOk result (λ k. k.lists ≡ body.entry.points.now) }
        ensures variables { IfOk result (λ k. k.variables ≡ map
            (tree_at body.entry.types.now.table.shapes body.entry.types.now.regions.items)
            body.entry.variables.now) }
    {
        let shapes = body.types.table.shapes().copy(alloc)?;
        let lists = RowLists {
            body: body.types.regions.as_slice(),
            made: Vec::new(alloc),
        };
        Ok(Known {
            body,
            shapes,
            fields: IndexMap::new(alloc),
            signs: SignTable {
                known: Vec::new(alloc),
            },
            lists,
            uses: IndexMap::new(alloc),
            asked: IndexMap::new(alloc),
            pairs: 0,
        })
    }

    /// Forgets rows that were made and what types asked, where that is much. Types at hand are gone
    /// then.
    pub(crate) fn make_room(&mut self, alloc: Global)
        ensures { IsSameBody self.old self.new }
    {
        // The invariant holds.
        let _ = &self.body;
        if self.lists.made.len() > MOST_KEPT || self.pairs > MOST_KEPT {
            self.uses = IndexMap::new(alloc);
            self.asked = IndexMap::new(alloc);
            self.lists.made.clear();
            self.pairs = 0;
        }
    }

    /// The statements of the body.
    pub(crate) fn statements(&self) -> &'a Statements
        ensures { result.now ≡ self.now.lists }
    {
        self.body.points
    }

    /// A type that is written, or that of a variable.
    pub(crate) fn written(&mut self, alloc: Global, ty: Typed) -> Result<TypeRow, Memory>
        requires { HasRow self.old.shapes self.old.regions ty }
        ensures learns { Learns self.old self.new }
        ensures row { IfOk result (IsTypeOfRow self.new
            (tree_at self.old.shapes self.old.regions ty)) }
    {
        // The invariant holds.
        let _ = &self.body;
        let structs = self.body.types.table.structs();
        self.signs.learn(alloc, structs, &self.shapes, ty.shape)?;
        match self.signs.get(ty.shape) {
            Some(known) => Ok(TypeRow {
                shape: ty.shape,
                first: ty.first,
                count: known.signs.len(),
            }),
            None => unreachable!(),
        }
    }

    /// The region of a reference, whether it is `mut`, and what it points to.
    pub(crate) fn reference_at(&self, row: TypeRow) -> Option<(RegionId, bool, TypeRow)>
        requires { row.shape < length self.now.table }
        ensures { (t : TypeTree) → IsTypeOfRow self.now t row → MatchOption result (form t ≡ 2 → ⊥)
            (λ r. (u : TypeTree) × (t ≡ reference r.0 r.1 u) × IsTypeOfRow self.now u r.2) }
    {
        match self.shapes.node(row.shape) {
            Node::Reference(mutable, target) => {
                let (mutable, target) = (*mutable, *target);
                match self.lists.split_last(row, target) {
                    Some((region, behind)) => Some((region, mutable, behind)),
                    None => None,
                }
            }
            _ => None,
        }
    }

    // The part of a tuple, where it has the part.
    fn tuple_part(
        &mut self,
        alloc: Global,
        row: TypeRow,
        place: usize,
    ) -> Result<Option<TypeRow>, Memory>
        requires { row.shape < length self.old.table }
        ensures learns { Learns self.old self.new }
        ensures row { IfOk result (λ o. (ts : TypeTrees) → IsTypeOfRow self.old (tuple ts) row
            → IsAtHand self.new (type_at ts place) o) }
    {
        let structs = self.body.types.table.structs();
        self.signs.learn(alloc, structs, &self.shapes, row.shape)?;
        let starts = match self.signs.get(row.shape) {
            Some(known) => known.starts.as_slice(),
            None => unreachable!(),
        };
        let Node::Tuple(parts) = self.shapes.node(row.shape) else {
            return Ok(None);
        };
        Ok(tuple_part(&self.lists, starts, parts.as_slice(), row, place))
    }

    // The shape of a field of a struct of this shape, where it has the field.
    fn field_shape(
        &mut self,
        alloc: Global,
        shape: usize,
        place: usize,
    ) -> Result<Option<usize>, Memory>
        requires { shape < length self.old.table }
        ensures learns { Learns self.old self.new }
        ensures within { IfOk result (λ o. IfSome o (λ i. i < length self.new.table)) }
        ensures at { IfOk result (λ o. option_map (shape_in self.new.table) o
            ≡ behind_shape self.old.structs (field place) (shape_in self.old.table shape)) }
    {
        let structs = self.body.types.table.structs();
        part(alloc, structs, &mut self.shapes, shape, place)
    }

    // The template of a field of a struct of this shape, where it has the field.
    fn template(
        &mut self,
        alloc: Global,
        shape: usize,
        place: usize,
    ) -> Result<Option<Vec<usize>>, Memory>
        requires { shape < length self.old.table }
        ensures learns { Learns self.old self.new }
        ensures row { IfOk result (λ o. (s : ℕ) (rs : List ℕ) (ts : TypeTrees)
            → shape_of (named s rs ts) ≡ shape_in self.old.table shape
            → option_map (λ v. row_from (region_row (named s rs ts)) v.items) o
            ≡ option_map region_row (field_type self.old.structs s rs ts place)) }
    {
        let structs = self.body.types.table.structs();
        self.signs.learn(alloc, structs, &self.shapes, shape)?;
        let arguments = match self.signs.get(shape) {
            Some(known) => {
                let starts = known.starts.as_slice();
                UseRow {
                    count: known.signs.len(),
                    starts,
                    regions: starts.last().copied().unwrap_or(0),
                }
            }
            None => unreachable!(),
        };
        let Node::Named(named, _, _) = self.shapes.node(shape) else {
            return Ok(None);
        };
        field_template(alloc, structs, *named, &arguments, place)
    }

    // What is to be known of a field of a struct of this shape, where it has the field.
    fn make_field(
        &mut self,
        alloc: Global,
        shape: usize,
        place: usize,
    ) -> Result<Option<FieldRow>, Memory>
        requires { shape < length self.old.table }
        ensures learns { Learns self.old self.new }
        ensures field { IfOk result (λ o. (s : ℕ) (rs : List ℕ) (ts : TypeTrees)
            → shape_of (named s rs ts) ≡ shape_in self.old.table shape
            → IsFieldIn self.new.table (named s rs ts)
            (field_type self.old.structs s rs ts place) o) }
    {
        let Some(made) = self.field_shape(alloc, shape, place)? else {
            return Ok(None);
        };
        match self.template(alloc, shape, place)? {
            Some(template) => Ok(Some(FieldRow {
                shape: made,
                template,
            })),
            None => Ok(None),
        }
    }

    // Makes the type of a field of each struct that has this shape and this row, where it has the
    // field. The field's shape and its template are made once.
    fn make_part(
        &mut self,
        alloc: Global,
        shape: usize,
        place: usize,
        row: &[RegionId],
    ) -> Result<Option<TypeRow>, Memory>
        requires { shape < length self.old.table }
        ensures learns { Learns self.old self.new }
        ensures row { IfOk result (IsFieldOfUse self.old self.new shape place row.now) }
    {
        let sought = FieldKey { shape, place };
        if let Some(known) = self.fields.get(&sought) {
            let made = known.of(alloc, row)?;
            let part = self.lists.add(known.shape, made.as_slice())?;
            return Ok(Some(part));
        }
        match self.make_field(alloc, shape, place)? {
            Some(field) => self.add_field(alloc, sought, field, row),
            None => Ok(None),
        }
    }

    // Keeps what is known of a field, and makes its type of a struct's row.
    fn add_field(
        &mut self,
        alloc: Global,
        key: FieldKey,
        field: FieldRow,
        row: &[RegionId],
    ) -> Result<Option<TypeRow>, Memory>
        requires { IsRightField self.old.structs self.old.table key field }
        ensures learns { Learns self.old self.new }
        ensures row { IfOk result (IsFieldOfUse self.old self.new key.shape key.place row.now) }
    {
        let made = field.of(alloc, row)?;
        let part = self.lists.add(field.shape, made.as_slice())?;
        self.fields.insert(key, field)?;
        Ok(Some(part))
    }

    // Like `make_part`, and keeps the type.
    fn add_use(&mut self, alloc: Global, used: FieldUse) -> Result<Option<TypeRow>, Memory>
        requires { used.shape < length self.old.table }
        ensures learns { Learns self.old self.new }
        ensures row { IfOk result
            (IsFieldOfUse self.old self.new used.shape used.place used.row.items) }
    {
        match self.make_part(alloc, used.shape, used.place, used.row.as_slice())? {
            Some(part) => {
                self.uses.insert(used, part)?;
                Ok(Some(part))
            }
            None => Ok(None),
        }
    }

    // The type of a field of a use, where there is the field. It is made once.
    fn field_of(&mut self, alloc: Global, used: FieldUse) -> Result<Option<TypeRow>, Memory>
        requires { used.shape < length self.old.table }
        ensures learns { Learns self.old self.new }
        ensures row { IfOk result
            (IsFieldOfUse self.old self.new used.shape used.place used.row.items) }
    {
        match self.uses.get(&used).copied() {
            Some(known) => Ok(Some(known)),
            None => self.add_use(alloc, used),
        }
    }

    // The field of a struct, where it has the field.
    fn field(
        &mut self,
        alloc: Global,
        row: TypeRow,
        place: usize,
    ) -> Result<Option<TypeRow>, Memory>
        requires { row.shape < length self.old.table }
        ensures learns { Learns self.old self.new }
        ensures row { IfOk result (λ o. (s : ℕ) (rs : List ℕ) (ts : TypeTrees)
            → IsTypeOfRow self.old (named s rs ts) row
            → IsAtHand self.new (field_type self.old.structs s rs ts place) o) }
    {
        let used = FieldUse {
            shape: row.shape,
            place,
            row: Vec::from_slice(alloc, self.lists.row(row))?,
        };
        self.field_of(alloc, used)
    }

    /// The type of a part of a tuple or of a field of a struct, where there is one.
    pub(crate) fn part(
        &mut self,
        alloc: Global,
        row: TypeRow,
        place: usize,
    ) -> Result<Option<TypeRow>, Memory>
        requires { row.shape < length self.old.table }
        ensures learns { Learns self.old self.new }
        ensures row { IfOk result (λ o. (t : TypeTree) → IsTypeOfRow self.old t row
            → IsAtHand self.new (behind self.old.structs (field place) t) o) }
    {
        match self.shapes.node(row.shape) {
            Node::Tuple(_) => self.tuple_part(alloc, row, place),
            Node::Named(_, _, _) => self.field(alloc, row, place),
            _ => Ok(None),
        }
    }

    // Appends what two rows ask of each other, place by place, by the signs of the second's shape.
    fn zip(&mut self, alloc: Global, meeting: Meeting, asked: &mut Pairs) -> Result<(), Memory>
        requires { meeting.other.shape < length self.old.table }
        ensures learns { Learns self.old self.new }
        ensures asked { OnOk result (AddsPairs (AsksAt self.old meeting)
            asked.old.items asked.new.items) }
    {
        let structs = self.body.types.table.structs();
        self.signs
            .learn(alloc, structs, &self.shapes, meeting.other.shape)?;
        match self.signs.get(meeting.other.shape) {
            Some(known) => {
                let (one, other) = (self.lists.row(meeting.one), self.lists.row(meeting.other));
                ask_rows(known.signs.as_slice(), one, other, asked)
            }
            None => unreachable!(),
        }
    }

    // Keeps what two types ask that met, and appends it.
    fn add_pairs(&mut self, meeting: Meeting, pairs: Pairs, asked: &mut Pairs) -> Result<(), Memory>
        requires one { IsAvailable self.old meeting.one }
        requires other { IsAvailable self.old meeting.other }
        requires pairs { (x : ℕ × ℕ) → Contains pairs.items x ↔ AsksAt self.old meeting x }
        ensures learns { Learns self.old self.new }
        ensures asked { OnOk result (AddsPairs (AsksAt self.old meeting)
            asked.old.items asked.new.items) }
    {
        asked.extend_from_slice(pairs.as_slice())?;
        self.pairs = self.pairs.saturating_add(pairs.len());
        self.asked.insert(meeting, pairs)?;
        Ok(())
    }

    // Appends what two types ask that meet for the first time, and keeps it.
    fn ask_first(
        &mut self,
        alloc: Global,
        meeting: Meeting,
        asked: &mut Pairs,
    ) -> Result<(), Memory>
        requires one { IsAvailable self.old meeting.one }
        requires other { IsAvailable self.old meeting.other }
        ensures learns { Learns self.old self.new }
        ensures asked { OnOk result (AddsPairs (AsksAt self.old meeting)
            asked.old.items asked.new.items) }
    {
        let mut pairs = Vec::new(alloc);
        self.zip(alloc, meeting, &mut pairs)?;
        self.add_pairs(meeting, pairs, asked)
    }

    /// Appends what two types ask that meet. Of large types it is found once.
    pub(crate) fn ask_meeting(
        &mut self,
        alloc: Global,
        meeting: Meeting,
        asked: &mut Pairs,
    ) -> Result<(), Memory>
        requires one { IsAvailable self.old meeting.one }
        requires other { IsAvailable self.old meeting.other }
        ensures learns { Learns self.old self.new }
        ensures asked { OnOk result (AddsPairs (AsksAt self.old meeting)
            asked.old.items asked.new.items) }
    {
        if meeting.other.count < FEW_REGIONS {
            return self.zip(alloc, meeting, asked);
        }
        match self.asked.get(&meeting) {
            Some(pairs) => {
                asked.extend_from_slice(pairs.as_slice())?;
                Ok(())
            }
            None => self.ask_first(alloc, meeting, asked),
        }
    }
}
