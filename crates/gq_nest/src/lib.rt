//! The contents of accumulators of every kind, nested to any depth.
//!
//! A content is fed inputs one by one, and can be merged with another content of its kind. The results are those of
//! `after` and `merged` of `gq_accum_laws`, which are defined on whole lists of inputs.
//!
//! Read `specs/Shows.antt` first, which says what a content is to its callers, then `specs/Forms.antt` and
//! `specs/Heaps.antt`. The code begins in `src/content.rt`; `src/feed.rt` feeds inputs, `src/merge.rt`
//! merges, `src/reads.rt` reads contents and `src/heap.rt` has heaps.
//!
//! Contents are kept in maps and sets in the order of their keys, that are small while they have few. A map of at most
//! 16 entries is a sorted vector, and a larger one a tree. Contracts see either as the entries in the order of their
//! keys, as they see std's `BTreeMap`. Read `src/map.rt` first of these; `src/form.rt` has the two forms, `src/find.rt`
//! searches a vector, and `src/iter.rt` goes through a map. `src/set.rt` has sets, which are maps to nothing.
#![tactic(auto)]

mod content;
mod copies;
mod feed;
mod find;
mod fitting;
mod form;
mod fresh;
mod heap;
mod iter;
mod map;
mod merge;
mod more;
mod reads;
mod rows;
mod set;

pub use content::{Content, Heap, Parts};
pub use map::SortedMap;
pub use reads::Keys;
pub use set::SortedSet;
