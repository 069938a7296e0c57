//! Parses the body of a query: its declarations and its statements, with IF, WHILE, FOREACH and PRINT.
//!
//! Each function is one production of the grammar. Only `nested` is recursive: it passes itself to the
//! parsers of statements that contain statements, one level deeper. SELECT and assignments are parsed by
//! `gq_parse_select`.
//!
//! Read `Bodies.antt` of `gq_grammar` first, then `Bodies.antt` of `gq_parse_select`, which defines what each
//! function computes, and `specs/StmtNests.antt`, which states what the recursion requires. `src/bodies.rt`
//! reads whole bodies, `src/levels.rt` one statement, `src/blocks.rt` statements that contain others, and
//! `src/prints.rt` PRINT.
#![tactic(auto)]

mod blocks;
mod bodies;
mod items;
mod laws;
mod levels;
mod overs;
mod prints;

pub use bodies::body;
pub use laws::bodies_are_exact;
