//! The source of a SELECT block: its starting vertices, the vertex types of its aliases, and its candidates.
//!
//! Vertex sets are bit sets: vertex v is bit v modulo 64 of word v / 64. A set is listed in the order of
//! vertex numbers, each vertex once.
//!
//! Read `Sources.antt` of `gq_rules_meaning` first, then `specs/Starts.antt` (which vertices a source has,
//! and which candidates), `specs/Ends.antt` (the types of the aliases) and `specs/Marks.antt` (bit sets).
//! `src/candidates.rt` finds the candidates, `src/starts.rt` the starting vertices, `src/ends.rt` the types;
//! `src/marks.rt` has bit sets.
//!
//! Along a path the candidates are its bindings. Mostly the kept index has the walks of all steps: then they are looked
//! up from vertex to vertex. A search that looks at many walks begins again once all vertices are marked from which
//! a path continues, by one pass over the rows for each step, so the time depends on what is found. A step that walks a
//! type otherwise, such as both ways along a directed type, has a list of walks for each vertex, a hop. Hops are made
//! from the last step to the first, and a row that leads nowhere is left out.
//!
//! Read `Paths.antt` of `gq_rules_meaning` first, then `specs/Entries.antt` (under which types the index has the walks
//! of a step), `specs/Directions.antt` (which rows a step walks, and from which end) and `specs/Indexed.antt` (the
//! vertices that lead on), `specs/Ways.antt` (the walks of a step along all rows) and `specs/Hops.antt` (the listed
//! walks, and their ends). `src/lookups.rt` walks the index, `src/entries.rt` finds the types, `src/directions.rt`
//! scans the rows and `src/indexed.rt` finds the vertices that lead on; `src/walks.rt` finds the walks of a step,
//! `src/hop.rt` sorts them by vertex, and `src/paths.rt` walks from hop to hop.
#![tactic(auto)]

mod candidates;
mod directions;
mod ends;
mod entries;
mod hop;
mod indexed;
mod lookups;
mod marks;
mod path_types;
mod paths;
mod patterns;
mod sources;
mod starts;
mod types;
mod walks;

pub use candidates::candidates_of;
pub use ends::{End, Ends, as_source, ends_of, selects_target};
pub use marks::{is_marked, listed, mark, unmarked};
pub use path_types::{PathPattern, PathStep, PathsFault};
pub use paths::{MOST_PATHS, Paths};
pub use types::is_own;
