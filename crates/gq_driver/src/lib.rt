//! The driver: `run` executes a command line over files and an output sink.
//!
//! A script is tokenized and parsed as a whole before its first statement runs; if it can't be read, one
//! message with the line number is printed. Sample mode generates its script and its files.
//!
//! Read `specs/CommandLine.antt` first, what a command line means, then `specs/Scripts.antt`, what the bytes
//! of a script mean, and `specs/Messages.antt`, the words for a script that can't be read. Then read the
//! contracts of `run` in `src/command_line.rt` and of `run_script` in `src/script.rt`. `src/file.rt` reads
//! the script and the arguments file. `src/laws.rt` says that a command line means one outcome.
#![tactic(auto)]

mod command_line;
mod file;
mod laws;
mod refusals;
mod sample;
mod script;

pub use command_line::run;
pub use laws::one_outcome;
