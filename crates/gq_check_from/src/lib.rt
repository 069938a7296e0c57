//! The type checker of FROM: source sets, patterns, their vertex and edge types, and the aliases that they
//! declare.
//!
//! The types that a pattern can match are sets of type numbers, in order. Each function implements one rule
//! of `gq_rules_typing`. The faults of all checker crates, and the rules on names that they share, are here
//! too.
//!
//! Read `specs/Faults.antt` first: what a fault means, when a result is that of a rule, and which names a
//! scope gains. Then read `specs/Walks.antt`, the rules on patterns. `src/walks.rt` checks a pattern,
//! `src/patterns.rt` finds its types, `src/aliases.rt` declares aliases.
#![tactic(auto)]

mod aliases;
mod ends;
mod fault;
mod names;
mod numbers;
mod patterns;
mod source;
mod walks;

pub use aliases::with_alias;
pub use ends::{hop_far, or_all, push_ends};
pub use fault::{CheckFault, bad_kind, name_twice, order_dependent, unknown, wider_set};
pub use names::{add, new_name, vertex_type};
pub use numbers::{both, by_number, lie_within};
pub use patterns::{end_types, text_of};
pub use source::{selected_types, source_types};
pub use walks::{target_alias, walk};
