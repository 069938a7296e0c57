//! Plans expressions: `plan_expr` takes the tree of an expression and returns the expression of the plan,
//! with names resolved.
//!
//! Names are resolved by a `NameResolver`: those in view by their places, and all others by `CatalogNames`,
//! which knows the types of the graph, and the tuple types and accumulators of the query. If a name denotes
//! nothing, there is no plan.
//!
//! Read `specs/Known.antt` and `specs/Globals.antt` first, what names resolve to, then `specs/Found.antt`, to
//! what in particular, `specs/Resolved.antt`, the expression of the plan, and `specs/Laws.antt`: it is the
//! expression of the query with references for names. The code begins in `src/exprs.rt`; `src/names.rt`
//! resolves names.
#![tactic(auto)]

mod attributes;
mod exprs;
mod fault;
mod functions;
mod laws;
mod methods;
mod names;
mod tables;

pub use exprs::plan_expr;
pub use fault::PlanFault;
pub use laws::{what_is_kept_is_right, what_is_planned_is_the_query, what_is_typed_has_a_plan};
pub use names::{CatalogNames, NameResolver, NamedTupleType};
