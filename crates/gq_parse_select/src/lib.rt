//! Parses SELECT, its patterns, the statements of ACCUM and POST-ACCUM, vertex sets and assignments.
//!
//! Each function is one production of the grammar. Only `nested_input` and `nested_act` are recursive: they
//! pass themselves to the parsers of inputs and statements that contain others, one level deeper.
//!
//! Read `Acts.antt` and `Selects.antt` of `gq_grammar` first, then `specs/Selects.antt`, `specs/Acts.antt`
//! and `specs/Bodies.antt`: what each function computes. `src/selects.rt` reads SELECT, `src/patterns.rt`,
//! `src/hops.rt` and `src/paths.rt` its patterns, `src/act.rt` and `src/branches.rt` the statements of ACCUM,
//! `src/sets.rt` vertex sets.
#![tactic(auto)]

mod act;
mod assigns;
mod branches;
mod changes;
mod hops;
mod input;
mod inputs;
mod laws;
mod parts;
mod paths;
mod patterns;
mod selects;
mod sets;
mod stages;

pub use act::acts;
pub use assigns::{assign, global_change, local};
pub use changes::change;
pub use laws::blocks_are_exact;
pub use selects::select;
pub use stages::{beside, chained, paired};
