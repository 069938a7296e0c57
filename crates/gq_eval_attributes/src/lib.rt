//! Field access: attributes of vertices and edges, fields of tuples, and the columns of group rows.
//!
//! The plan has the position of a field for each type, so an attribute is read by index; a field whose
//! position isn't known is looked up by name. INT attributes have a fast path that makes no value.
//!
//! Read `specs/Worlds.antt` first: the graph that a catalog and a store represent. Then read
//! `specs/Attributes.antt`, `specs/Tuples.antt` and `specs/Parts.antt` (fields), and `specs/Reads.antt` (the
//! fast path). Fields are read in `src/vertices.rt`, `src/edges.rt`, `src/tuples.rt` and `src/groups.rt`,
//! INTs in `src/vertex_ints.rt` and `src/edge_ints.rt`.
#![tactic(auto)]

mod edge_ints;
mod edges;
mod groups;
mod ids;
mod int_items;
mod names;
mod tuple_type;
mod tuples;
mod vertex_ints;
mod vertices;

pub use edge_ints::edge_int;
pub use edges::edge_field;
pub use groups::{opening_part, row_part};
pub use ids::{integer_in, number_in};
pub use tuple_type::TupleType;
pub use tuples::{made_field, tuple_field};
pub use vertex_ints::vertex_int;
pub use vertices::vertex_field;
