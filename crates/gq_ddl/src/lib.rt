//! Data definition: CREATE VERTEX, CREATE EDGE, CREATE GRAPH and CREATE LOADING JOB.
//!
//! A declaration adds one entry to the catalog or is refused by the first rule that fails. Loading jobs are
//! checked when they are created and kept by name; they stay valid while the catalog grows.
//!
//! Read `specs/Declarations.antt` first (the effect of each statement on a catalog), then `specs/Attributes.antt`
//! and, for loading jobs, `specs/Jobs.antt` and `specs/Fitting.antt`. `src/create.rt` has the statements on
//! types and graphs, `src/named.rt` the jobs by name, `src/attributes.rt` the attributes of a declaration.
#![tactic(auto)]

mod attributes;
mod create;
mod fault;
mod job_creation;
mod job_fault;
mod laws;
mod named;

pub use create::{create_edge, create_graph, create_vertex};
pub use job_creation::create_job;
pub use laws::jobs_stay_checked;
pub use named::{Jobs, NamedJob};
