//! The catalog: vertex types, edge types and graphs, which declarations extend.
//!
//! A declaration appends an entry, or is refused by the first rule that fails. Names are looked up in a tree.
//!
//! Read `Catalog.antt` of `gq_graph` first, then `specs/Refusals.antt` (the first rule that a declaration violates)
//! and `specs/Members.antt` (the types of a graph). The code begins in `src/catalog.rt`;
//! `src/checks.rt` has the rules and `src/names.rt` the lookup of names.
#![tactic(auto)]

mod attributes;
mod catalog;
mod checks;
mod entries;
mod fault;
mod members;
mod names;

pub use catalog::Catalog;
pub use fault::SchemaFault;
