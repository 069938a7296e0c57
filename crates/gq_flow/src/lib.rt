//! Runs plans: `run_query` executes a plan over its arguments and returns what it prints, or the fault that
//! ends it.
//!
//! Statement after statement: IF, WHILE and FOREACH, whole SELECTs (the block, POST-ACCUM, then HAVING to LIMIT),
//! assignments to sets, variables and accumulators, and PRINT. The names of a body go out of scope at its end, and
//! each iteration of a loop takes one turn of a budget.
//!
//! Read `Queries.antt` of `gq_rules_meaning` first (`run_plan`), then `specs/Plans.antt`, `specs/Bodies.antt`
//! (branches and loops), `specs/Selecting.antt` (a whole SELECT), `specs/Assigning.antt` (assignments) and
//! `specs/Steps.antt` (other statements). The code begins in `src/query.rt`; `src/run.rt` has the loops over
//! statements, `src/program.rt` single statements, `src/selects.rt` SELECT and `src/rights.rt` assignments.
#![tactic(auto)]

mod change;
mod chosen;
mod named;
mod print;
mod program;
mod query;
mod rights;
mod run;
mod selects;
mod sets;
mod value;

pub use program::Program;
pub use query::run_query;
pub use selects::{Selected, Workers};
