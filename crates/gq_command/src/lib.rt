//! The command line: parses the arguments of the program into a command, and generates the input of sample
//! mode.
//!
//! `clap` parses options and positionals; this crate checks numbers, ranges, defaults and which options go
//! together. Sample mode needs no files: its script and the two CSV files that it loads are functions of a
//! number of people.
//!
//! Read `specs/Words.antt` first: the whole meaning of a list of arguments, by way of `specs/Line.antt` (the
//! command as `clap` sees it) and `specs/Number.antt`. For sample mode, read `specs/Sample.antt` and
//! `specs/Script.antt`. The code begins in `src/read.rt`; the sample is in `src/files.rt` and
//! `src/script.rt`.
#![tactic(auto)]

mod command;
mod files;
mod line;
mod number;
mod read;
mod script;

pub use command::{Command, Task, WordsFault};
pub use files::{knows_csv, people_csv};
pub use read::read_words;
pub use script::sample_script;
