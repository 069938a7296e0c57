//! Opens a query's run (parameters, tuple types, accumulators) and evaluates and assigns vertex sets.
//!
//! A run begins by declaring its parameters and evaluating the opening values of its accumulators. Set
//! expressions are computed on bit sets, so a set lists its vertices in the order of their numbers, each
//! once.
//!
//! Read `Queries.antt` of `gq_rules_meaning` first (`start`), then `specs/Begun.antt`: when the opened state
//! is the one of the definitions. For sets, read `specs/Lookups.antt` and `specs/Written.antt`. The code
//! begins in `src/opening.rt`; `src/expression.rt` evaluates sets and `src/assign.rt` assigns them.
#![tactic(auto)]

mod accums;
mod assign;
mod bits;
mod expression;
mod fields;
mod join;
mod lookup;
mod opening;
mod parameters;
mod seeds;
mod typed;
mod values;

pub use assign::assign_set;
pub use expression::sets;
pub use lookup::Lookup;
pub use opening::{Opened, open};
pub use typed::{SetOperand, TypedSet};
