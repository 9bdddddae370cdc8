//! What holds of types and their shapes, stated once for those who call both.

ghost use Rattle.std.specs.Prelude.{◌≡◌, ◌↔◌, ◌<◌, ℕ, List, option_map, All, Some, IsTrue};
ghost use Rattle.nll_types.specs.Types.{TypeTree, TypeTrees, nodes};
ghost use Rattle.nll_types.specs.Structs.{Struct, put_in, AreInOrder, IsWellFormed};
ghost use Rattle.nll_types.specs.Places.{behind, PlacePath, type_of};
ghost use Rattle.nll_types.specs.Shapes.{shape_of, shapes_of, shape_nodes, put_in_shape};
ghost use Rattle.nll_types.specs.Shapes.{behind_shape, same_shape};
ghost use Rattle.nll_types.specs.declared.place.Projection.{Projection as projection};

/// States that a type has as many nodes as its shape.
pub fn types_are_as_large_as_shapes()
    ensures { (t : TypeTree) → nodes t ≡ shape_nodes (shape_of t) }
{}

/// States that substituting arguments into a type substitutes their shapes into its shape.
pub fn arguments_of_types_and_shapes_agree()
    ensures { (regions : List ℕ) (types : TypeTrees) (t : TypeTree)
        → shape_of (put_in regions types t) ≡ put_in_shape (shapes_of types) (shape_of t) }
{}

/// States that the shape behind a projection is that of the type behind it.
pub fn projections_of_types_and_shapes_agree()
    ensures { (structs : List Struct) (p : projection) (t : TypeTree)
        → option_map shape_of (behind structs p t) ≡ behind_shape structs p (shape_of t) }
{}

/// States that two types are reported to have the same shape exactly where their shapes are equal.
pub fn same_shape_means_equal_shapes()
    ensures { (t u : TypeTree) → IsTrue (same_shape t u) ↔ (shape_of t ≡ shape_of u) }
{}

/// States that the type of a place keeps to what is declared, where the types of the variables do.
pub fn types_of_places_are_well_formed()
    ensures { (structs : List Struct) → AreInOrder structs → (regions parameters : ℕ)
        → 0 < regions → (variables : List TypeTree)
        → All (IsWellFormed structs regions parameters) variables
        → (place : PlacePath) (t : TypeTree) → type_of structs variables place ≡ Some t
        → IsWellFormed structs regions parameters t }
{}
