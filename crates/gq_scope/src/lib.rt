//! The visible names of a query: scopes for the type checker, and frame places for the planner.
//!
//! A `Scope` implements the scope of `gq_rules_typing` with trees of names. In `Places`, each name that becomes
//! visible takes a new place, even if it shadows another; the names of a body are removed at its
//! end, and their places aren't reused.
//!
//! Read `specs/Held.antt` first: which scope of the rules a `Scope` represents. Then read `specs/Named.antt`
//! (names with places) and `specs/Views.antt` (when a result of the checker is that of a rule).
//! `src/scope.rt` has scopes, `src/places.rt` places, and `src/typed.rt` and `src/fault.rt` the results of
//! typing an expression.
#![tactic(auto)]

mod entry;
mod fault;
mod fields;
mod kinds;
mod names;
mod places;
mod scope;
mod table;
mod trees;
mod typed;

pub use entry::{Entry, Place};
pub use fault::{TypeFault, allowed, matched, no_attribute, unknown};
pub use fields::field_place;
pub use kinds::{
    contained_type, element_type, input_type, is_list, key_types, read_type, set_type,
};
pub use places::{NameBinding, Places};
pub use scope::Scope;
pub use trees::{allows_paths, key_text, name_of, text_of};
pub use typed::{Base, TupleFieldTypes, Typed};
