//! The edges of a store, each with a unique name.
//!
//! The name of an edge is its type, its two ends (unordered if the type is undirected) and the values of its
//! discriminators. `Edges` keeps types and ends in one list and attributes in another, and finds a row by the key of its
//! name, which includes the discriminators. So edges that differ only in these are found as fast as others.
//!
//! Read `Edges.antt` of `gq_graph` first: the effect of an upsert on a list of rows. Then read `specs/Named.antt`
//! and `specs/Keyed.antt`. The table is in `src/edges.rt`, its rows are in `src/rows.rt`, the
//! lookup is in `src/find.rt`.
#![tactic(auto)]

mod edges;
mod find;
mod hash;
mod key;
mod names;
mod rows;

pub use edges::Edges;
pub use rows::EdgeEnds;
