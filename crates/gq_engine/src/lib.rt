//! The engine: runs the queries of a session over its catalog and store.
//!
//! It plans a query, and executes the plan over the store and its index, which the session keeps. It
//! implements the trait `RunsQueries` of `gq_query_run`.
//!
//! Read `specs/Engines.antt` first. The implementation is in `src/engine.rt`.
#![tactic(auto)]

mod engine;

pub use engine::{Engine, run_plan};
