//! WHERE and ACCUM of a SELECT block, run by one or several worker threads.
//!
//! Workers take chunks of candidates. The contributions of a chunk wait in a batch, and batches are fed in
//! the order of the candidates into a copy of the accumulators, so the result doesn't depend on the schedule.
//! Expressions see the accumulators from before the block. Sums are checked for overflow at the end.
//!
//! Read `Blocks.antt` of `gq_rules_meaning` first, then `specs/Running.antt` (the invariant while a block
//! runs), `specs/Rounds.antt` (what several workers leave) and `specs/Results.antt` (how a block ends). The
//! code begins in `src/block.rt`; `src/candidate.rt` tries one candidate, `src/ahead.rt` reads ahead what candidates need,
//! `src/workers.rt` has the threads.
#![tactic(auto)]

mod ahead;
mod block;
mod candidate;
mod chunk;
mod found;
mod joining;
mod laws;
mod order;
mod rounds;
mod run;
mod seats;
mod tables;
mod wanted;
mod workers;

pub use block::run_block;
pub use laws::chunks_make_the_block;
pub use seats::work;
pub use tables::{Tables, open_tables};
