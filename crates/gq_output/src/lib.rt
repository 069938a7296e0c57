//! PRINT: converts values, accumulator contents, vertices and sets with columns to the output of `gq_json`.
//!
//! Values and contents are borrowed; a text is copied once, into the output. Each item of a PRINT is printed
//! under its key, in the order of the text.
//!
//! Read `Outs.antt` and `Printing.antt` of `gq_rules_meaning` first, then `specs/Printed.antt` and
//! `specs/Vertices.antt` (what values and vertices print as) and `specs/Items.antt` (what a PRINT prints).
//! The code begins in `src/whole.rt`; `src/columns.rt` prints sets, `src/vertices.rt` vertices and
//! `src/values.rt` values.
#![tactic(auto)]

mod attributes;
mod columns;
mod contents;
mod ids;
mod items;
mod keys;
mod seen;
mod times;
mod values;
mod vertices;
mod whole;

pub use whole::print;
