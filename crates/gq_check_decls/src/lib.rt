//! The type checker of a query's declarations: written types, accumulator kinds, parameters, tuple types,
//! accumulators.
//!
//! Each function implements one rule of `gq_rules_typing`, and the first rule that fails in the order of the
//! text is the fault.
//!
//! Read `KindTypes.antt` and `QueryTypes.antt` of `gq_rules_typing` first, then `Faults.antt` of
//! `gq_check_from` (when a result is that of a rule), `specs/Written.antt` and `specs/Heads.antt`.
//! `src/written.rt` checks types, `src/kinds.rt` accumulator kinds, `src/defaults.rt` parameters,
//! `src/heads.rt` tuple types and accumulators.
#![tactic(auto)]

mod defaults;
mod elements;
mod fields;
mod heads;
mod kinds;
mod lists;
mod sorting;
mod written;

pub use defaults::parameters;
pub use heads::definitions;
pub use kinds::kind_written;
pub use written::base_written;
