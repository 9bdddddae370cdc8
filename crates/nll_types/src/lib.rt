//! Types with regions, the structs that they name, and places. It knows no text and no points.
#![tactic(auto)]

mod body_types;
mod copies;
mod drop_regions;
mod drop_search;
mod drop_sources;
mod forms;
mod laws;
mod limits;
mod node;
mod operand;
mod parameter;
mod place;
mod place_types;
mod projections;
mod rows;
mod shapes;
mod source;
mod structs;
mod substitution;
mod trees;
mod ty;
mod type_at;
mod type_shapes;
mod type_table;
mod typed;

pub use body_types::BodyTypes;
pub use copies::copy;
pub use laws::{
    arguments_of_types_and_shapes_agree, projections_of_types_and_shapes_agree,
    same_shape_means_equal_shapes, types_are_as_large_as_shapes, types_of_places_are_well_formed,
};
pub use limits::MAX_NODES;
pub use node::Node;
pub use operand::Operand;
pub use parameter::{Parameter, Sign};
pub use place::{Place, Projection};
pub use place_types::behind;
pub use projections::part;
pub use shapes::Shapes;
pub use structs::{Declaration, Structs};
pub use substitution::put_in;
pub use ty::Ty;
pub use type_at::{TypeAt, TypeForm, TypesAt};
pub use type_table::TypeTable;
pub use typed::Typed;
