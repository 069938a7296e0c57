//! A protocol for the worker threads of a block, as a state machine that takes one event at a time, and the lists
//! of inputs that it hands on. Blocks of the engine use the lists (`Batches`), and not the machine yet.
//!
//! A job is cut into chunks, and its contributions belong to stripes. Workers take chunks, and put the batch of
//! each chunk into one stripe after another, in the order of the tickets that they take there. In this crate a single
//! thread makes the steps, in any order; `gq_stripe` makes the same steps with atomic operations on many
//! threads.
//!
//! Read `specs/Machine.antt` first (the eight events), then `specs/Accounts.antt` (the invariant) and
//! `specs/Contents.antt` (what a finished core holds). The code begins in `src/machine.rt`.
#![tactic(auto)]

mod batches;
mod copies;
mod event;
mod job;
mod laws;
mod machine;
mod stripe;
mod worker;

pub use batches::Batches;
pub use event::Event;
pub use job::{Contributions, FeedJob};
pub use laws::{any_events, once_at_most, one_content};
pub use machine::{Core, step};
pub use stripe::Stripe;
pub use worker::{Phase, Turn, Worker};
