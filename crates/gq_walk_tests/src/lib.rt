//! Tests of the index and its candidates, of the bindings of paths, and of rows put into a store.
//!
//! They are a separate crate, so that the libraries aren't proved a second time with their tests.
//!
//! The tests are in `src/walks.rt`, `src/paths.rt` and `src/puts.rt`; `src/world.rt` has the persons that walks and
//! paths connect.
#![tactic(auto)]

#[cfg(test)]
mod paths;
#[cfg(test)]
mod puts;
#[cfg(test)]
mod walks;
#[cfg(test)]
mod world;
