//! The parsers that all other parsers share: single tokens, literals, lists, types, accumulator kinds and
//! declarations.
//!
//! Each parser returns what it read and the position after it, or None if its production doesn't match.
//! Lists are read by loops, in linear time. Only `kind` is recursive: it passes itself to the parsers of
//! nested kinds, one level deeper.
//!
//! Read `Literals.antt` and `Kinds.antt` of `gq_grammar` first: they are the grammar. `specs/Literals.antt`
//! and `specs/Kinds.antt` define what each function computes, and `specs/Exact.antt` when that is what the
//! grammar derives. `src/words.rt` reads single tokens and expressions, `src/lists.rt` lists, `src/kind.rt`
//! kinds, `src/definitions.rt` the declarations.
#![tactic(auto)]

mod accums;
mod bases;
mod definitions;
mod flat;
mod heaps;
mod kind;
mod kinds;
mod laws;
mod lists;
mod literal_laws;
mod literals;
mod macros;
mod words;

pub use accums::value;
pub use bases::base;
pub use definitions::definition;
pub use heaps::direction;
pub use laws::kinds_are_exact;
pub use lists::{list, listed, run};
pub use literal_laws::literals_are_exact;
pub use literals::{literal, names, of_graph, setting};
pub use words::{attached, expression, global, name, text};
