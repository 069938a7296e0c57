//! Sessions: executes the statements of a script in order, and keeps what each leaves to the next.
//!
//! A session has a catalog, the graph in use, loading jobs, queries and a store. A refused statement leaves
//! the session as it was, except for the store of a loading job. The line of a statement is written before
//! the next one begins.
//!
//! Read `specs/Statements.antt` first, what each statement does to a session, then `specs/Runs.antt`, what a
//! script prints, `specs/Safe.antt`, why no query is stuck, and `specs/Keeping.antt`, the invariant of a session.
//! `src/session.rt` has the session and `src/run.rt` the loop over statements. Queries run through the trait
//! `RunsQueries` of `gq_query_run`.
#![tactic(auto)]

mod file;
mod laws;
mod run;
mod session;

pub use file::ArgsFile;
pub use laws::{no_session_is_stuck, statements_do_one_thing};
pub use run::run_statements;
pub use session::Session;
