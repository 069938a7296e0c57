//! Tests of accumulators: their contents, flat or with others inside, and the targets of all slots of a query.
//!
//! They are a separate crate, so that the libraries aren't proved a second time with their tests.
//!
//! `src/scalars.rt` has sums, averages and bits, `src/flat.rt` lists, sets and bags, `src/contents.rt` maps, groups and
//! heaps, and `src/targets.rt` the numbers of targets.
#![tactic(auto)]

#[cfg(test)]
mod contents;
#[cfg(test)]
mod flat;
#[cfg(test)]
mod scalars;
#[cfg(test)]
mod targets;
