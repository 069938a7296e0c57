//! Loads the records of a file into a store: columns by the header, values by attribute types, and rows as
//! upserts.
//!
//! A load is a fold over the records of a file. A record either puts all its rows or, if one of its values
//! can't be read, none; the report counts both. A store keeps to its catalog while rows are put and while the
//! catalog grows.
//!
//! Read `specs/Loads.antt` first, then `specs/Columns.antt`, `specs/Routes.antt`, `specs/Rows.antt` and
//! `specs/Records.antt` (what a record puts) and `specs/Reports.antt`. `specs/Puts.antt` has upserts as a
//! function and `specs/Keeping.antt` the invariant of a store. The code begins in `src/loading.rt` and
//! `src/batch.rt`; `src/inserting.rt` puts the row of an INSERT.
#![tactic(auto)]

mod ahead;
mod batch;
mod column;
mod draft;
mod fault;
mod inserting;
mod laws;
mod loading;
mod overwrite;
mod record;
mod report;
mod route;
mod straight;
mod value;

pub use draft::Draft;
pub use fault::LoadFault;
pub use inserting::insert;
pub use laws::{rows_are_whole, stores_stay_fit, upserts_are_decided};
pub use loading::load;
pub use record::Verdict;
pub use report::Report;
pub use route::{Route, default_row};
