//! Tests of the shared store: what readers see beside the writer, in one thread and in two.
//!
//! They are a separate crate, so that the library isn't proved a second time with its tests.
//!
//! The tests are in `src/shared.rt`; `src/people.rt` has the store that is shared, and a plan that counts its persons.
#![tactic(auto)]

#[cfg(test)]
mod people;
#[cfg(test)]
mod shared;
