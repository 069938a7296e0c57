//! The context of evaluation: the graph, the frame and the aliases that an expression of a plan sees.
//!
//! An `EvalContext` is the context in which `gq_eval` evaluates. A `BlockContext` is that of a SELECT block: it makes
//! an `EvalContext` for each candidate. The result of a block, its faults, and how many vertices a LIMIT keeps are
//! defined here too, since several stages share them.
//!
//! Read `specs/Looks.antt` first (what an expression sees, in terms of the definitions, and what its catalog, store,
//! index and frame have to satisfy). Then read `specs/Answered.antt` (when an answer is the defined one) and
//! `specs/FieldReads.antt`. `src/eval_context.rt` and `src/block_context.rt` have the contexts, `src/sees.rt` the trait
//! of `gq_eval`, `src/after.rt` the result of a block, `src/faults.rt` its faults, `src/limit.rt` LIMIT.
#![tactic(auto)]

mod after;
mod block_context;
mod degrees;
mod eval_context;
mod faults;
mod fields;
mod limit;
mod sees;

pub use after::{After, BlockFault};
pub use block_context::BlockContext;
pub use eval_context::EvalContext;
pub use faults::fault_at;
pub use limit::limit_count;
