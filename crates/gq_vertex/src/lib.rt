//! The vertices of a store, numbered in the order in which they are first named.
//!
//! `Vertices` keeps types and ids in one list, each id once, and attributes in another. It finds a row by a key of its
//! type and id. An id of at most seven bytes is its own key, so no row is read to find it. A longer one has a hash, and
//! the rows are compared. A vertex's number is the position of its row and never changes.
//!
//! Read `Vertices.antt` of `gq_graph` first: the effect of an upsert on a list of rows. Then read
//! `specs/Keyed.antt` and `specs/Named.antt`. The table is in `src/vertices.rt`, the keys are in `src/key.rt`,
//! the lookup is in `src/find.rt`.
#![tactic(auto)]

mod find;
mod heads;
mod index;
mod key;
mod names;
mod vertices;

pub use vertices::Vertices;
