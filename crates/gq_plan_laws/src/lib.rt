//! Correctness of plans: a plan prints what its query prints, and well-typed statements have a plan.
//!
//! Nothing here runs: each function states a law in its contract. The laws reduce the correctness of planning
//! to name resolution: `gq_plan` has to show only that its plan is made of the query (`IsPlanned`).
//!
//! Read `specs/Found.antt` of `gq_plan_expr` first (what a name resolves to), then `specs/PlannedLaws.antt`
//! (`IsPlanned`) with `specs/Planned.antt`. `specs/RefinementLaws.antt` says that a run with references has the
//! same result as the run with names, `specs/Sides.antt` and `specs/FoundLaws.antt` that references denote
//! what names denote, and `specs/Laws.antt` with `specs/Shown.antt` that typed statements have plans. Each has its
//! module: `src/found.rt`, `src/planned.rt`, `src/refinement.rt`, `src/laws.rt`.
#![tactic(auto)]

mod found;
mod laws;
mod planned;
mod refinement;

pub use found::what_is_found_is_what_names_are;
pub use laws::typed_statements_have_a_plan;
pub use planned::what_is_planned_is_the_query;
pub use refinement::{a_plan_runs_as_its_query_does, references_run_as_names_do};
