//! Growing lists, boxes, and hash tables of row numbers, with their specifications, and the error for memory
//! that runs out.
//!
//! Contracts see a `List` as its items and a `Boxed` as its value. So a tree of structs, enums, lists and
//! boxes is plain data to a contract: two trees are equal if they have the same shape and contents, wherever
//! they lie in memory.
//!
//! Read `specs/Last.antt` first: it says which row of a table has a given key, searching from the last row.
//! `KeyIndex` (`src/key_index.rt`, with its chains in `src/key_chains.rt`) is that table, and its keys have 96
//! bits. A short name can be its own key, and then the caller compares nothing; else a hash is in the key, and
//! the caller compares names, so a name is stored only in its row. The hash function, `src/hash.rt`, has no
//! secret seed. `KeyTable` (`src/key_table.rt`, with its slots in `src/key_slots.rt`) is the same with faster
//! look-ups, and takes more memory. Lists and boxes are in `src/list.rt` and `src/boxed.rt`.
#![tactic(auto)]

mod boxed;
mod hash;
mod key;
mod key_chains;
mod key_index;
mod key_slots;
mod key_table;
mod list;
mod memory;

pub use boxed::Boxed;
pub use hash::{mixed, text_hash, wide_hash};
pub use key::Key;
pub use key_index::KeyIndex;
pub use key_table::KeyTable;
pub use list::List;
pub use memory::{OutOfMemory, narrow, within};
