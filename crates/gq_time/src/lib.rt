//! DATETIME: seconds since 1970-01-01 00:00:00 in the proleptic Gregorian calendar, without zone and leap seconds, and
//! their texts.
//!
//! A DATETIME is a whole number of seconds, so comparison and difference are those of numbers. Dates come from jiff, whose
//! calendar is proved; the forms of a text are this crate's own, so digits are read here.
//!
//! Read `specs/Moments.antt` (seconds and dates), `specs/Texts.antt` and `specs/Reading.antt` (which text is which seconds),
//! then `specs/Adding.antt`.
#![tactic(auto)]

mod adding;
mod blanks;
mod counts;
mod dates;
mod ends;
mod laws;
mod moment;
mod numbers;
mod reading;
mod shown;
mod writing;

pub use adding::{Unit, add};
pub use blanks::trimmed;
pub use laws::written_texts;
pub use moment::{in_range, parts};
pub use reading::read_time;
pub use shown::DateTimeParts;
pub use writing::write_time;
