//! Types that are made of shapes and rows of regions, as text.
ghost use Rattle.std.specs.Prelude.{◌<◌, IfOk, length};

use super::transcript::Transcript;
use super::type_text::write_type;
use nll_core::RegionId;
use nll_sets::Memory;
use nll_types::{BodyTypes, Node, Typed};

// A struct of two regions and of two arguments: a `mut` reference to an `int`, and an `int`. Its
// row begins at the second region of the list.
fn add_struct(out: &Transcript, types: &mut BodyTypes) -> Result<Typed, Memory>
    ensures { IfOk result (λ t. t.shape < length types.new.table.shapes) }
{
    for number in 5..10u32 {
        types.regions.push(RegionId(number))?;
    }
    let int = types.table.add(Node::Int)?;
    let reference = types.table.add(Node::Reference(true, int))?;
    let arguments = Vec::from_slice(out.alloc, &[reference, int])?;
    let shape = types.table.add(Node::Named(3, 2, arguments))?;
    Ok(Typed { shape, first: 1 })
}

// Writes the type of a struct, by its row.
fn write_tree(out: &mut Transcript, types: &mut BodyTypes) -> Result<(), Memory> {
    let added = add_struct(out, types)?;
    let ty = types.tree(out.alloc, added)?;
    write_type(out, &ty);
    drop(ty);
    Ok(())
}

/// Writes a type that a shape and a row of regions make.
pub fn write_row(out: &mut Transcript) {
    let mut types = BodyTypes::new(out.alloc);
    let written = write_tree(out, &mut types);
    out.note(written);
    drop(types);
}
