//! The type checker of expressions: `type_of` returns the type of an expression in a scope, or the first
//! fault.
//!
//! Each function implements one rule of `gq_rules_typing`, or one list of operands. Rules are tried in the
//! order of the text, so that the first fault is always the same.
//!
//! Read `ExpressionTypes.antt` of `gq_rules_typing` first, then `Views.antt` of `gq_scope` (when a result is
//! that of a rule), `specs/Calls.antt` and `specs/Arguments.antt`. The code begins in `src/expressions.rt`;
//! operators are in `src/operators.rt`, functions and methods in `src/calls.rt`, fields in `src/fields.rt`.
#![tactic(auto)]

mod arguments;
mod calls;
mod expressions;
mod fields;
mod functions;
mod names;
mod operators;
mod rules;
mod wanted;

pub use expressions::type_of;
pub use names::declared_kind;
pub use operators::number_of_both;
pub use rules::{
    as_base, convert_all, converts, is_number, is_numeric, is_vertex, printable, vertex_of,
};
pub use wanted::{base_type, condition, converting, number};
