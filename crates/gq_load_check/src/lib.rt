//! Checks loading jobs against a catalog: names are replaced by numbers, or the first rule that fails is
//! reported.
//!
//! A checked job is plain data. It stays valid while its catalog grows. A run of a job may override the paths
//! that the job defines for its files.
//!
//! Read `specs/Refusals.antt` first, which rule a job violates first, then `specs/Lines.antt` and
//! `specs/Options.antt`, what a checked job contains, and `specs/Paths.antt`, which path each file has.
//! `src/check.rt` is the check, `src/job.rt` the checked job, `src/files.rt` its files, `src/paths.rt` the
//! lookup of paths. `specs/Placed.antt` has the trees of names beside both.
#![tactic(auto)]

mod check;
mod fault;
mod files;
mod insert;
mod job;
mod laws;
mod options;
mod paths;
mod targets;

pub use check::check_job;
pub use fault::JobFault;
pub use files::JobFiles;
pub use insert::{Endpoint, Insert, InsertFault};
pub use job::{FileName, Job, LoadInto, LoadLine, Target};
pub use laws::{catalogs_grow, lines_stay_checked};
pub use paths::{GivenPaths, path_of, undefined};
pub use targets::{edge_type_at, id_count, key_count, value_count, vertex_type_at};
