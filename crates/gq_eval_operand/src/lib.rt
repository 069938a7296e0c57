//! The results of evaluating an expression, and the operators on them.
//!
//! A `Seen` is a value with its type, an average, a collection, a group row, an edge or a set, borrowed if
//! possible. An expression reads the graph, names and accumulators through any type with the
//! trait `Sees`.
//!
//! Read `specs/Meant.antt` first: what each form of `Seen` denotes, and when an answer is the defined one.
//! Then read `specs/Sound.antt`. `src/seen.rt` has the results, `src/sees.rt` the trait, `src/operators.rt`,
//! `src/compare.rt` and `src/convert.rt` the operators.
#![tactic(auto)]

mod compare;
mod contents;
mod convert;
mod digits;
mod halt;
mod operand;
mod operators;
mod seen;
mod sees;

pub use compare::{compared, held};
pub use contents::{opening, read};
pub use convert::{converted, converted_to, made};
pub use digits::{decimal, signed_decimal};
pub use halt::Halt;
pub use operand::{number, own, text, truth, vertex_in};
pub use operators::{calculated, is_unsigned, minus, nots, numbered, product, summed, truly};
pub use seen::{Operand, Seen, Sort, value, vertex};
pub use sees::Sees;
