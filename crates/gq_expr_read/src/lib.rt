//! Parses expressions.
//!
//! Each production of the grammar has one function, and only `expr` is recursive. The functions are methods
//! of a parser that holds the function for nested expressions in a field. Operands of one precedence level
//! are read by loops, so a long chain uses linear time and no stack.
//!
//! Read `Expressions.antt` of `gq_grammar` first, then `specs/Descent.antt`: what each function computes.
//! `src/grammar.rt` has the parser, `src/logic.rt`, `src/sums.rt` and `src/primary.rt` the productions from
//! loose to tight, and `src/read.rt` the entry point.
#![tactic(auto)]

mod chains;
mod fault;
mod grammar;
mod laws;
mod logic;
mod primary;
mod read;
mod sums;

pub use fault::ReadFault;
pub use laws::{levels_drop_out, one_tree};
pub use read::{Read, expr, read_expr};
