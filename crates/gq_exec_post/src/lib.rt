//! POST-ACCUM: statements that run once for each distinct matched vertex.
//!
//! Statements run in phases; a phase is a sequence of statements that name the same alias. Within a phase,
//! vertices go in the order of their numbers. A vertex sees its own writes at once, while global accumulators
//! get their inputs at the end of the phase.
//!
//! Read `Posts.antt` of `gq_rules_meaning` first, then `specs/Phases.antt`, `specs/Sights.antt` (what
//! statements see), `specs/Writing.antt` (what vertices leave) and `specs/Making.antt` (what `+=` and `=` do
//! to a content). The code begins in `src/post_accum.rt`; `src/phases.rt` splits statements, `src/making.rt` and
//! `src/changed.rt` apply changes.
#![tactic(auto)]

mod act_mentions;
mod acts;
mod changed;
mod exprs;
mod feeding;
mod judging;
mod making;
mod phases;
mod post_accum;
mod vertices;
mod waiting;
mod writing;

pub use changed::{ChangeFault, change_at};
pub use making::{Made, made_by};
pub use post_accum::post;
