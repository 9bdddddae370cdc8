//! The forms and the parts of types where they are kept.

ghost use Rattle.std.specs.Prelude.{◌≡◌, IfOk};
ghost use Rattle.nll_types.specs.TypesAt.{meant_type, meant_types, meant_form, meant_split};
ghost use Rattle.nll_types.specs.Views.{tree};

use crate::node::Node;
use crate::rows::{pass_row, pass_rows, take_regions};
use crate::ty::Ty;
use crate::type_at::{TypeAt, TypeForm, TypesAt};
use crate::typed::Typed;
use nll_problem::RegionId;
use nll_sets::Memory;
use std::alloc::Global;

impl<'a> TypeAt<'a> {
    /// Its outermost layer. Takes no memory.
    ///
    /// # Cost
    /// Linear in the type; it recurses to its depth (not proved).
    pub fn form(self) -> TypeForm<'a>
        ensures { meant_form result ≡ meant_type self.entry }
    {
        let TypeAt { types, ty } = self;
        let shapes = types.table.shapes();
        let regions = types.regions.as_slice();
        let first = ty.first;
        let mut at = first;
        match shapes.node(ty.shape) {
            Node::Int => TypeForm::Int,
            Node::Parameter(number) => TypeForm::Parameter(*number),
            Node::Reference(mutable, target) => {
                pass_row(shapes, *target, regions, &mut at);
                let region = take_regions(regions, 1, &mut at).first().copied();
                let shape = *target;
                let ty = Typed { shape, first };
                let target = TypeAt { types, ty };
                TypeForm::Reference(region.unwrap_or(RegionId(0)), *mutable, target)
            }
            Node::Tuple(parts) => {
                let shapes = parts.as_slice();
                TypeForm::Tuple(TypesAt {
                    types,
                    shapes,
                    first,
                })
            }
            Node::Named(number, count, parts) => {
                let parts = parts.as_slice();
                pass_rows(shapes, parts, regions, &mut at);
                let own = take_regions(regions, *count, &mut at);
                let arguments = TypesAt {
                    types,
                    shapes: parts,
                    first,
                };
                TypeForm::Named(*number, own, arguments)
            }
            Node::Function(inputs, output) => {
                let parts = inputs.as_slice();
                pass_rows(shapes, parts, regions, &mut at);
                let inputs = TypesAt {
                    types,
                    shapes: parts,
                    first,
                };
                let shape = *output;
                let ty = Typed { shape, first: at };
                TypeForm::Function(inputs, TypeAt { types, ty })
            }
        }
    }

    /// A tree of its own.
    ///
    /// # Errors
    /// `Memory` alone.
    ///
    /// # Cost
    /// Linear in the type; it recurses to its depth (not proved).
    pub fn tree(self, alloc: Global) -> Result<Ty, Memory>
        ensures { IfOk result (λ t. tree t ≡ meant_type self.entry) }
    {
        self.types.tree(alloc, self.ty)
    }
}

impl<'a> TypesAt<'a> {
    /// The first of them and the others, where there is one. Takes no memory.
    ///
    /// # Cost
    /// Linear in the first one (not proved).
    pub fn split_first(self) -> Option<(TypeAt<'a>, TypesAt<'a>)>
        ensures { meant_split result ≡ meant_types self.entry }
    {
        let TypesAt {
            types,
            shapes,
            first,
        } = self;
        match shapes {
            [] => None,
            [shape, shapes @ ..] => {
                let mut at = first;
                let shape = *shape;
                pass_row(
                    types.table.shapes(),
                    shape,
                    types.regions.as_slice(),
                    &mut at,
                );
                let ty = Typed { shape, first };
                let others = TypesAt {
                    types,
                    shapes,
                    first: at,
                };
                Some((TypeAt { types, ty }, others))
            }
        }
    }
}
