//! Tests of data that threads share: the state machine of workers, atomic words, striped tables, and the tables of a
//! block.
//!
//! They are a separate crate, so that the libraries aren't proved a second time with their tests.
//!
//! The tests are in `src/machines.rt`, `src/words.rt`, `src/stripes.rt`, `src/sets.rt`, `src/threads.rt` and
//! `src/blocks.rt`, which calls `work` of `gq_workers`.
#![tactic(auto)]

#[cfg(test)]
mod blocks;
#[cfg(test)]
mod machines;
#[cfg(test)]
mod sets;
#[cfg(test)]
mod stripes;
#[cfg(test)]
mod threads;
#[cfg(test)]
mod words;
