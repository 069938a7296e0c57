//! The type checker of queries: `check` accepts a query, or returns the fault of the first rule that fails.
//!
//! Rules are tried in the order of the text. Each function implements one rule of `gq_rules_typing`;
//! expressions, SELECT and declarations are checked by the crates below.
//!
//! Read `QueryTypes.antt` and `StatementTypes.antt` of `gq_rules_typing` first, then `Faults.antt` of
//! `gq_check_from` (when a result is that of a rule), `specs/Checks.antt` and `specs/Rules.antt`. The code
//! begins in `src/queries.rt`; `src/bodies.rt` checks statements, `src/looping.rt` loops and
//! `src/printing.rt` PRINT.
#![tactic(auto)]

mod bodies;
mod keys;
mod locals;
mod looping;
mod printing;
mod queries;

pub use queries::check;
