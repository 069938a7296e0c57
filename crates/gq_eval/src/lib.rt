//! The evaluator of expressions: the value of a plan's expression, over any type with the trait `Sees`.
//!
//! `run` mirrors the definition in `Expressions.antt` of `gq_rules_meaning`, with a function for each list of
//! operands. It borrows values where it can; `eval` and `eval_whole` return owned ones. It accepts any
//! expression: one that isn't well typed may end with `Stuck`.
//!
//! Read `Meant.antt` of `gq_eval_operand` first, then `specs/Typed.antt` (the results of well-typed expressions).
//! The code begins in `src/expressions.rt`. `src/values.rt` and `src/collections.rt` have the owned results,
//! and `src/laws.rt` the law that typed expressions are never stuck.
#![tactic(auto)]

mod collections;
mod expressions;
mod laws;
mod values;

pub use collections::eval_whole;
pub use expressions::{run, run_truth, run_value};
pub use laws::{no_typed_collection_is_stuck, no_typed_value_is_stuck};
pub use values::eval;
