//! The lines that a run prints, as JSON text.
//!
//! A query prints one line, `{"error":false,"message":"","results":[..]}`, with an object for each PRINT; a refusal is the
//! line `{"error":true,"message":".."}`. Members appear in the order in which they were printed. That is why the text
//! is written here, and not by a library that orders members by name.
//!
//! Read `specs/Json.antt` first: it defines the text of each part.
#![tactic(auto)]

mod average;
mod line;
mod out;
mod text;
mod value;

pub use line::{error_line, json_line};
pub use out::{Members, Out, Outs, Printed};
