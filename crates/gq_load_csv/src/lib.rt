//! CSV files for loading jobs: the records of a file, and its fields read as values or as ids.
//!
//! What records a file has is the definition of the `csv` library. A field is read by the type of its
//! attribute, and one that can't be read has no value. Reading a DATETIME is defined as a function, which the
//! specification of `gq_time` determines.
//!
//! Read `specs/Records.antt` first (which records a file has), then `specs/Fields.antt` (which value or id a
//! field gives) with `specs/Texts.antt`, `specs/Numbers.antt` and `specs/Readings.antt`. The code is in
//! `src/records.rt`, `src/lines.rt`, `src/line.rt`, `src/value.rt` and `src/id.rt`.
#![tactic(auto)]

mod cursor;
mod id;
mod laws;
mod line;
mod lines;
mod numbers;
mod record;
mod records;
mod value;

pub use id::{Id, read_id};
pub use laws::one_reading;
pub use line::Line;
pub use record::Record;
pub use records::Records;
pub use value::{default_value, read_int, read_key, read_value};
