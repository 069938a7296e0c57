//! Tests of the tables of vertices and edges, and of the catalog.
//!
//! They are a separate crate, so that the libraries aren't proved a second time with their tests.
//!
//! The tests are in `src/vertices.rt`, `src/edges.rt` and `src/catalogs.rt`.
#![tactic(auto)]

#[cfg(test)]
mod catalogs;
#[cfg(test)]
mod edges;
#[cfg(test)]
mod vertices;
