//! Atomic words of 64 bits that many threads update without locks: max, min, or, and.
//!
//! A thread feeds inputs through its own seat and never waits. The view of a seat is ghost state that
//! lists its inputs. At any moment each word is the fold of its opening value and all inputs in all views, in
//! any order. Seats are split and joined; a counter of seats lets the thread that closes the words check that
//! all are back.
//!
//! Read `specs/Fold.antt` (the value of a word after inputs) and `specs/Rule.antt` (the invariant between any
//! two steps), then `specs/Seats.antt` (what contracts see). The steps are in `src/words.rt`.
#![tactic(auto)]

mod fault;
mod fold;
mod laws;
mod parts;
mod rule;
mod seat;
mod signed;
mod view;
mod words;

pub use fault::WordFault;
pub use fold::Op;
pub use laws::{four_folds, one_fold};
pub use seat::WordSeat;
pub use signed::{shift, unshift};
pub use words::Words;
