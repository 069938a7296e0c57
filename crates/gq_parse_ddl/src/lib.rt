//! Parses declarations: vertex types, edge types, graphs and loading jobs; and INSERT and RUN LOADING JOB.
//!
//! Each function is one production of the grammar. The words CREATE and RUN are read by the caller. An
//! optional part that doesn't match is skipped, and its tokens are left for what follows.
//!
//! Read `Schema.antt` and `Jobs.antt` of `gq_grammar` first, then `specs/Schema.antt` and `specs/Jobs.antt`:
//! what each function computes. Types are read in `src/vertices.rt`, `src/edges.rt` and `src/graphs.rt`, jobs
//! in `src/jobs.rt` and `src/loads.rt`, INSERT in `src/inserts.rt`.
#![tactic(auto)]

mod attributes;
mod destinations;
mod edges;
mod graphs;
mod inserts;
mod jobs;
mod laws;
mod loads;
mod vertices;

pub use edges::edge;
pub use graphs::graph;
pub use inserts::insert;
pub use jobs::{job, run_job};
pub use laws::declarations_are_exact;
pub use vertices::vertex;
