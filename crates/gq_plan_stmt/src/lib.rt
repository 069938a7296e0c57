//! Plans statements: `plan_steps` takes statements and returns those of the plan, with names resolved.
//!
//! A name that comes into view takes the next of the `Places`. Names that don't depend on the position, such
//! as types and accumulators, are resolved by `CatalogNames` of `gq_plan_expr`.
//!
//! Read `specs/Parts.antt` and `specs/Steps.antt` first, the statements of the plan, then
//! `specs/References.antt`, the references of names, and `specs/Laws.antt`: they represent the statements of
//! the query. The code begins in `src/steps.rt`; `src/blocks.rt` plans SELECT and assignments,
//! `src/names.rt` declares names.
#![tactic(auto)]

mod blocks;
mod items;
mod laws;
mod names;
mod sets;
mod steps;
mod values;

pub use laws::what_is_planned_stands_for_it;
pub use names::{add_name, plan_base};
pub use steps::plan_steps;
pub use values::plan_opening;
