//! The planner: `plan` takes a query that `gq_check` has accepted and returns its plan.
//!
//! Names resolve in three layers: the types of the graph with the tuple types and accumulators of the query,
//! the variables and sets in view, and the aliases of a SELECT.
//!
//! Read `PlannedLaws.antt` of `gq_plan_laws` first: when a plan is made of a query. Then read
//! `specs/Prints.antt` (the plan prints what the query prints), `specs/Safe.antt` (the plan of a typed query
//! is never stuck) and `specs/Unplanned.antt`. The code begins in `src/plans.rt`; names are resolved by
//! `CatalogNames` of `gq_plan_expr`.
#![tactic(auto)]

mod accums;
mod definitions;
mod laws;
mod names;
mod parameters;
mod plans;
mod tuples;

pub use laws::{a_plan_of_a_typed_query_is_never_stuck, a_plan_prints_what_its_query_prints};
pub use plans::plan;
