//! The type checker of SELECT, ACCUM, POST-ACCUM, vertex sets and assignments.
//!
//! Clauses are checked in the order of the text, and the first fault is the result. Each function implements
//! one rule of `gq_rules_typing`.
//!
//! Read `SelectTypes.antt` and `ActTypes.antt` of `gq_rules_typing` first, then `specs/Selects.antt` and
//! `specs/Trees.antt`: the same rules, split into the code's functions. `src/blocks.rt` checks a whole SELECT,
//! `src/clauses.rt` its clauses, `src/acts.rt` the statements of ACCUM and POST-ACCUM, `src/sets.rt` vertex
//! sets and `src/assignments.rt` assignments.
#![tactic(auto)]

mod acts;
mod assignments;
mod blocks;
mod changes;
mod clauses;
mod inputs;
mod mentions;
mod sets;

pub use assignments::assignment;
pub use changes::written;
pub use sets::set_types;
