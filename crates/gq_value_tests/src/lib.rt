//! Tests of values, times, hashes, lines of JSON, copies of trees, and fields and records of CSV files.
//!
//! They are a separate crate, so that the libraries aren't proved a second time with their tests. Each module
//! tests one library.
//!
//! The modules are `src/values.rt`, `src/times.rt`, `src/hashes.rt`, `src/lines.rt`, `src/trees.rt`, `src/fields.rt` and
//! `src/records.rt`.
#![tactic(auto)]

#[cfg(test)]
mod fields;
#[cfg(test)]
mod hashes;
#[cfg(test)]
mod lines;
#[cfg(test)]
mod records;
#[cfg(test)]
mod times;
#[cfg(test)]
mod trees;
#[cfg(test)]
mod values;
