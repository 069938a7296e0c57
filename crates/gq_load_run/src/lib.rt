//! Runs loading jobs: RUN LOADING JOB executes the LOADs of a job in order and prints one report.
//!
//! Each file is read when its LOAD begins, after the LOADs before it. If a LOAD fails, the store keeps what
//! was loaded before.
//!
//! Read `specs/JobRuns.antt` first: what a run of a job means, and what it leaves if it fails.
//! `specs/Loads.antt` defines the sequence of LOADs by what each of them does, `specs/Loadings.antt` a single
//! LOAD, and `specs/Reports.antt` the printed line. `src/run.rt` is the statement, `src/job.rt` the loop over
//! LOADs.
#![tactic(auto)]

mod job;
mod laws;
mod line;
mod lines;
mod place;
mod run;

pub use laws::jobs_do_one_thing;
pub use lines::FileReport;
pub use run::run_job;
