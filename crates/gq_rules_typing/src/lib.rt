//! The type system of GSQL: typing rules of expressions, statements and queries, and laws about them.
//!
//! Rules are functions over trees as plain data. They are tried in the order of the text, and the first one
//! that fails is the fault. The same rules type queries, which have names, and plans, which have references.
//!
//! Read `specs/Judging.antt` first, then `specs/Scopes.antt` and `specs/ExpressionTypes.antt`,
//! `specs/SelectTypes.antt`, `specs/StatementTypes.antt` and `specs/QueryTypes.antt`. `specs/Words.antt` is
//! the only place where queries and plans differ. The only code that runs here is the look-up of the language's own
//! names (`src/words.rt`), which the checker and the planner share; the checker is `gq_check`.
#![tactic(auto)]

mod words;

pub use words::{Builtin, builtin_named, unit_named};
