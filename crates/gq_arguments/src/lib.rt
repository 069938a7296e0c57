//! The arguments of RUN QUERY: values of a query's parameters, from the statement or from the arguments file.
//!
//! The file is a JSON object with a member for each query, which is an object with a member for each
//! parameter. `serde_json` parses it. A parameter without an argument takes its default.
//!
//! Read `specs/Objects.antt` first, which bytes are an arguments file, then `specs/Members.antt`, what it has
//! for a query, and `specs/Rows.antt`, why a run is refused for its arguments. `Arguments.antt` of
//! `gq_rules_meaning` defines the values. `src/args.rt` reads the file, `src/row.rt` builds the row of
//! values.
#![tactic(auto)]

mod args;
mod given;
mod lookup;
mod row;
mod value;

pub use args::{Args, ArgsFault};
pub use row::{Arguments, argument_row};
