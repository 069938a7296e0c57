//! The tail of a SELECT block: HAVING, ORDER BY and LIMIT.
//!
//! All vertices are filtered first; then all keys are evaluated; then the list is sorted and cut. Vertices
//! with equal keys are ordered by vertex number.
//!
//! Read `Tails.antt` of `gq_rules_meaning` first, then `specs/Ranks.antt` (the order in which rows of keys
//! are compared, for rows of any length), `specs/Sights.antt` (what the expressions see) and `specs/Before.antt`
//! (whether an expression has a `v.@a'`). The code begins in `src/tails.rt`; `src/having.rt`, `src/order.rt` and
//! `src/limit.rt` have one step each. ORDER BY takes its keys from `src/keys.rt` and compares them in `src/rows.rt`.
#![tactic(auto)]

mod before;
mod having;
mod keys;
mod limit;
mod order;
mod rows;
mod tails;

pub use rows::Ranked;
pub use tails::tail;
