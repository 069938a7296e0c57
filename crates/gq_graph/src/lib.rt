//! The graph as plain data: the catalog's types, the rows of vertices and edges, and the candidates of a
//! SELECT.
//!
//! A catalog and a store are lists, and the number of an entry is its position. The definitions look up every
//! name from the first entry on; the crates `gq_schema`, `gq_vertex`, `gq_edge` and `gq_index` compute the
//! same with hash tables and adjacency lists.
//!
//! Read `specs/Catalog.antt` first, then `specs/Vertices.antt` and `specs/Edges.antt` (what an upsert does to
//! a list of rows) and `specs/Candidates.antt` (the matches of a block, and their order).
//! `src/types.rt` has vertex types, edge types and graphs; `src/rows.rt` has the rows of a store.
//!
//! `Rows` stores the attributes of many rows in one list, and where each row begins in it, so that a row needs no
//! allocation. A row that replaces one with the same number of values is written in its place; one with another
//! number is appended, and the space of the old one stays unused. Read `specs/Spans.antt` for it
//! (what parts of a list are, and when they are apart); the list is in `src/row_list.rt`. Where each row begins takes no
//! memory as long as all rows have the same number of values (`src/spans.rt`).
#![tactic(auto)]

mod row_list;
mod row_values;
mod rows;
mod spans;
mod steps;
mod types;

pub use row_list::Rows;
pub use rows::{Candidate, EdgeRow, Naming, Pattern, StoreFault, VertexRow};
pub use steps::Steps;
pub use types::{
    Attribute, Attributes, EdgeType, GraphType, IdKind, IdShape, Names, Numbers, VertexType,
};
