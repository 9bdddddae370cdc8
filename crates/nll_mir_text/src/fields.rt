//! The parameters and the fields of a struct: sizes, and what a struct line declares.

ghost use Rattle.std.specs.Prelude.{◌≡◌, ◌<◌, ◌++◌, length, map, IfOk, OnOk};
ghost use Rattle.std.specs.List.{list_all};
ghost use Rattle.nll_types.specs.Shapes.{is_small_shape, shapes_of, tuple_shape};
ghost use Rattle.nll_types.specs.Table.{AreBelow, shape_in};
ghost use Rattle.nll_types.specs.Rows.{tree_at};
ghost use Rattle.nll_types.specs.Types.{TypeTrees, tuple};
ghost use Rattle.nll_types.specs.Views.{tree, trees};
ghost use Rattle.nll_mir_grammar.specs.Lines.{parameter_of};
ghost use Rattle.nll_mir_text.specs.StructLines as specs;
ghost use Rattle.nll_mir_text.specs.StructLines.{region_marks, type_marks, regions_in, types_in};
ghost use Rattle.nll_body.specs.Typing as typing;

use nll_mir_grammar::{ParameterText, StructText};
use nll_sets::Memory;
use nll_types::{BodyTypes, Declaration, Node, Shapes, Ty, Typed};
use std::alloc::Global;

// Whether none of these shapes has more nodes than a type may have.
fn are_small(shapes: &Shapes, parts: &[usize]) -> bool
    requires { AreBelow (length shapes.now) parts.now }
    ensures { result ≡ list_all (λ k. is_small_shape (shape_in shapes.now k)) parts.now }
{
    for part in parts {
        if !shapes.is_small(*part) {
            return false;
        }
    }
    true
}

/// Whether none of the parts of a tuple's shape has more nodes than a type may have.
pub fn has_small_parts(shapes: &Shapes, shape: usize) -> bool
    requires { shape < length shapes.now }
    ensures { (ts : TypeTrees) → shape_in shapes.now shape ≡ tuple_shape (shapes_of ts)
        → result ≡ typing.are_small ts }
{
    match shapes.node(shape) {
        Node::Tuple(parts) => are_small(shapes, parts.as_slice()),
        _ => true,
    }
}

// The parts of a tuple.
fn parts_of(alloc: Global, ty: Ty) -> Vec<Ty>
    ensures { (ts : TypeTrees) → tree ty ≡ tuple ts → trees result.items ≡ ts }
{
    match ty {
        Ty::Tuple(parts) => parts,
        _ => Vec::new(alloc),
    }
}

// Appends what is marked of parameters: of regions, and of types.
fn push_marks(parameters: &[ParameterText<'_>], declaration: &mut Declaration) -> Result<(), Memory>
    ensures regions { OnOk result (declaration.new.regions.items
        ≡ declaration.old.regions.items ++ region_marks (map parameter_of parameters.now)) }
    ensures types { OnOk result (declaration.new.types.items
        ≡ declaration.old.types.items ++ type_marks (map parameter_of parameters.now)) }
    ensures has_drop { declaration.new.has_drop ≡ declaration.old.has_drop }
    ensures fields { declaration.new.fields ≡ declaration.old.fields }
{
    for parameter in parameters {
        match parameter {
            ParameterText::Region(_, marks) => declaration.regions.push(*marks)?,
            ParameterText::Type(_, marks) => declaration.types.push(*marks)?,
        }
    }
    Ok(())
}

/// What a struct line declares, whose fields are a tuple of this number.
pub fn declaration(
    alloc: Global,
    text: &StructText<'_>,
    types: &BodyTypes,
    fields: Typed,
) -> Result<Declaration, Memory>
    requires { fields.shape < length types.now.table.shapes }
    ensures regions { IfOk result (λ d. d.regions.items ≡ map (λ p. p.1)
        (regions_in (map parameter_of text.now.parameters.items))) }
    ensures types { IfOk result (λ d. d.types.items ≡ map (λ p. p.1)
        (types_in (map parameter_of text.now.parameters.items))) }
    ensures has_drop { IfOk result (λ d. d.has_drop ≡ text.now.has_drop) }
    ensures fields { IfOk result (λ d. (ts : TypeTrees)
        → tree_at types.now.table.shapes types.now.regions.items fields ≡ tuple ts
        → trees d.fields.items ≡ ts) }
{
    let fields = parts_of(alloc, types.tree(alloc, fields)?);
    let mut declaration = Declaration {
        regions: Vec::new(alloc),
        types: Vec::new(alloc),
        has_drop: text.has_drop,
        fields,
    };
    match push_marks(text.parameters.as_slice(), &mut declaration) {
        Ok(()) => Ok(declaration),
        Err(memory) => {
            drop(declaration);
            Err(memory)
        }
    }
}

/// For each parameter whether it is a region.
pub fn kinds(alloc: Global, parameters: &[ParameterText<'_>]) -> Result<Vec<bool>, Memory>
    ensures { IfOk result (λ v.
        v.items ≡ map specs.is_region_parameter (map parameter_of parameters.now)) }
{
    let mut kinds = Vec::with_capacity(alloc, parameters.len())?;
    for parameter in parameters {
        match parameter {
            ParameterText::Region(_, _) => kinds.push(true)?,
            ParameterText::Type(_, _) => kinds.push(false)?,
        }
    }
    Ok(kinds)
}
