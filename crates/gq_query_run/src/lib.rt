//! Queries of a session: CREATE QUERY, INSTALL QUERY, RUN QUERY and INTERPRET QUERY.
//!
//! A query is type-checked when it is created; only an installed one can be run. The statements work with any
//! type that has the trait `RunsQueries`; `gq_engine` has the one that plans and executes.
//!
//! Read `specs/Judging.antt` first, why a query is refused for its modes, its graph or its rules, then
//! `specs/Queries.antt` (creating and installing) and `specs/Answers.antt` (running). `Sessions.antt` of
//! `gq_rules_meaning` defines `ran` and `interpreted`; `specs/Indexed.antt` says what a store and its index
//! are when a query runs. The trait is in `src/runner.rt`, the statements in
//! `src/create.rt`, `src/install.rt`, `src/run.rt` and `src/interpret.rt`. `src/queries.rt` finds queries by name,
//! and `src/ready.rt` keeps what is prepared of them from run to run.
#![tactic(auto)]

mod create;
mod fault;
mod install;
mod interpret;
mod judge;
mod line;
mod modes;
mod queries;
mod ready;
mod run;
mod runner;
mod slot;
mod stored;

pub use create::create_query;
pub use install::install_queries;
pub use interpret::interpret_query;
pub use queries::Queries;
pub use ready::Ready;
pub use run::run_query;
pub use runner::{QueryFault, Runner, RunsQueries};
pub use stored::Stored;
