//! Plans SELECT and changes of accumulators: `plan_block` takes the tree of a SELECT and returns the block of
//! the plan.
//!
//! Names are resolved by a `NameResolver` of `gq_plan_expr`, with the aliases of the SELECT in view.
//!
//! Read `specs/References.antt` first, the references of names, then `specs/Resolved.antt`, the block of the
//! plan, and `specs/Laws.antt`: it is the SELECT of the query with references for names. The code begins in
//! `src/selects.rt`; `src/walks.rt` plans patterns, `src/acts.rt` and `src/inputs.rt` the statements of
//! ACCUM.
#![tactic(auto)]

mod acts;
mod exprs;
mod inputs;
mod laws;
mod selects;
mod walks;

pub use exprs::plan_if;
pub use inputs::plan_change;
pub use laws::{what_is_changed_is_the_query, what_is_selected_is_the_query};
pub use selects::plan_block;
pub use walks::plan_place;
