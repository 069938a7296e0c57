//! A store that one writer and many readers share, from threads of their own.
//!
//! The writer adds inserts and publishes them, all at once. A query of a reader runs over the store after a list of published
//! inserts, which begins with all that this reader saw before, and with all that it was told of.
//!
//! Read `specs/Histories.antt` first: the list of inserts and its beginnings; then `specs/Shows.antt`: what the two copies of a
//! store show, and the rule that readers rely on. The writer is in `src/writer.rt`, readers are in `src/reader.rt`, the copies
//! in `src/store_copy.rt`, and tokens of the list in `src/book.rt`.
#![tactic(auto)]

mod answer;
mod book;
mod entry;
mod opening;
mod reader;
mod row;
mod rule;
mod store_copy;
mod view;
mod writer;

pub use answer::Answer;
pub use book::{News, Opened, StoreName};
pub use opening::{OpenFault, open};
pub use reader::SharedReader;
pub use writer::{AddFault, Writer, WriterOver};
