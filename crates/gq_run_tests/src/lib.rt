//! Tests of the devices of `gq_io`, and of whole runs of `gq_driver` with the engine.
//!
//! They check what the contracts leave open: that calls succeed when there is memory, how gates behave, what
//! the host's files give, and that output is what the documentation shows. They are a separate crate, so that
//! the libraries aren't proved a second time with their tests.
//!
//! `src/devices.rt` tests the devices and `src/tests.rt` whole runs. `src/files.rt` has the scripts and the
//! expected output.
#![tactic(auto)]

#[cfg(test)]
mod devices;
#[cfg(test)]
mod files;
#[cfg(test)]
mod tests;
