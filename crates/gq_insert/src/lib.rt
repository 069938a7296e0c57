//! INSERT INTO: checks a row against the catalog and puts it into the store, or reports the first rule that
//! fails.
//!
//! The check turns names into numbers and literals into an id and values of the attributes' types. The row is
//! then put like the row of a loaded record.
//!
//! Read `specs/Inserts.antt` first: which row an INSERT names, and why one is refused. Then read
//! `specs/Inserting.antt`: what the statement does to a store. The check is `src/check.rt`, the statement
//! `src/insert.rt`, and `src/values.rt` converts literals.
#![tactic(auto)]

mod check;
mod fault;
mod insert;
mod laws;
mod values;

pub use check::check_insert;
pub use insert::insert_row;
pub use laws::catalogs_are_sound;
