//! A table of accumulator contents, cut into stripes, which many threads fill chunk by chunk.
//!
//! Each thread has a seat. It takes a chunk by one atomic step, and puts the chunk's contributions into each
//! stripe in turn, in the order of the tickets taken there. The view of a seat is ghost state that lists what
//! it took and put. Between any two steps, the atomic words, the slots and all views together represent a
//! core of `gq_core` that meets its invariant, and each stripe holds the contents after all inputs put there.
//!
//! Read `specs/Contents.antt` (what a stripe holds) and `specs/Rule.antt` (the invariant), then
//! `specs/Seats.antt` (what contracts see). The code begins in `src/book.rt`; the only loop that waits is
//! `wait_for` in `src/turn.rt`.
#![tactic(auto)]

mod book;
mod close;
mod fault;
mod layout;
mod opening;
mod partials;
mod rule;
mod seat;
mod stripe;
mod turn;
mod view;

pub use book::Book;
pub use fault::CloseFault;
pub use layout::Layout;
pub use partials::Partials;
pub use seat::Seat;
