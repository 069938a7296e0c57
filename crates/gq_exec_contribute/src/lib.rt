//! WHERE and ACCUM of one match: evaluates the condition and the inputs, and adds the inputs to a batch.
//!
//! All inputs of a match are evaluated before the first is added, so a match whose ACCUM faults adds nothing.
//!
//! Read `Blocks.antt` of `gq_rules_meaning` first, then `specs/Passing.antt`: the result of a candidate, and
//! what the batches gain. `specs/Feeds.antt` and `specs/Taking.antt` say what an input means. The code begins
//! in `src/candidate.rt`; `src/acts.rt` runs the statements of ACCUM and `src/inputs.rt` evaluates inputs.
//!
//! Expressions that are INTs, truths or vertices are read without making values, if the whole match consists of them.
//! The names and accumulators of a block's expressions are resolved once, at its start: which end of a candidate an
//! alias is, and where the contents of each accumulator are. An expression is then read from the plan's own tree, its
//! leaves directly from the candidate, the graph and the contents; results stay in registers. Other INTs are leaves
//! that are evaluated. A result is what the evaluation gives. `None` says nothing: the caller evaluates then, so
//! faults, overflows, and values that aren't INTs, truths or vertices are left to the evaluation. Inputs
//! of maps, groups and heaps that are made of INTs are kept as INTs (`src/rows.rt`), and become rows of values only
//! when they are fed. Read `specs/Prepared.antt` first; the code begins in `src/gathering.rt` (ACCUM), `src/truths.rt`
//! (WHERE) and `src/vertex.rt` (POST-ACCUM, HAVING and ORDER BY), and `src/leaves.rt` resolves names and accumulators.
//! `src/filters.rt` resolves a WHERE over accumulators of the ends as a whole.
#![tactic(auto)]

mod acts;
mod aliases;
mod arithmetic;
mod asked;
mod bound;
mod candidate;
mod cells;
mod columns;
mod feeding;
mod filters;
mod gathering;
mod held;
mod inputs;
mod ints;
mod kinds;
mod leaves;
mod names;
mod reading;
mod rows;
mod scalars;
mod takes;
mod truths;
mod vertex;
mod waiting;

pub use bound::{bind, no_alias};
pub use candidate::{Outcome, Stop, contribute};
pub use cells::{Cells, Taken, keep, touch};
pub use columns::{Column, column_of};
pub use feeding::Room;
pub use filters::{EndCell, Filter, filter_of, passes_by};
pub use gathering::gather;
pub use inputs::run_feed;
pub use leaves::{Leaves, leaves_of};
pub use rows::Ints;
pub use scalars::{ScalarInput, feed_scalars, input_of};
pub use truths::passes;
pub use vertex::{added_at, int_at, truth_at};
pub use waiting::WaitingInputs;
