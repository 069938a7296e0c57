//! The store, the adjacency index over its edges, and the candidates that a SELECT block processes.
//!
//! An index has a list of walks for each vertex. It is built from a catalog and a store; a `KeptIndex` is updated
//! when rows were appended to those that it covers. Candidates along a hop are read in the index if those from each
//! source are neighbours there; else they are copied, and those of one source and edge type form a segment.
//! `Candidates::at` finds a candidate by its position, so workers share only a counter of chunks.
//!
//! Read `Candidates.antt` of `gq_graph` first, then `specs/Walks.antt`, `specs/Runs.antt` and `specs/Stretches.antt`.
//! `src/index.rt` has the adjacency lists, which `src/walks.rt` fills, and `src/ranges.rt` divides among workers.
//! `src/stretches.rt` has what is borrowed from them, and `src/runs.rt` the segments. `specs/Kept.antt` specifies what
//! `src/kept.rt` keeps. Rows enter the store in `src/put.rt`: `specs/Steps.antt` defines a row as a list of upserts, and
//! a store as a fold of them.
#![tactic(auto)]

mod candidates;
mod chunks;
mod index;
mod kept;
mod listing;
mod lists;
mod marks;
mod packed;
mod places;
mod put;
mod ranges;
mod runs;
mod store;
mod stretches;
mod vertex_list;
mod walks;

pub use candidates::{Candidates, in_number_order};
pub use chunks::chunk;
pub use index::Index;
pub use kept::KeptIndex;
pub use listing::Listing;
pub use places::{in_order, part};
pub use put::{EndpointRef, put_edge, put_vertex};
pub use runs::Cursor;
pub use store::{Graph, Store};
pub use vertex_list::VertexList;
pub use walks::{Neighbor, Traversal, rows_by_kind};
