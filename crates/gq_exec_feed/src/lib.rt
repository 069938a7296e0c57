//! Feeds batches of inputs into the accumulators of a query, and checks sums for overflow.
//!
//! While a block runs, a sum may be out of range: it is checked once all inputs are fed, so overflow doesn't
//! depend on their order. Most blocks feed one INT for each match, and batches of INTs are fed without making
//! a value.
//!
//! Read `specs/Taking.antt` first, which inputs an accumulator takes, then `specs/Feeding.antt`, the contents
//! between two inputs, and `specs/Ints.antt`. Batches are fed in `src/feed.rt` and `src/ints.rt`, sums are
//! checked in `src/fits.rt`, and `src/inputs.rt` tests whether an input suits a kind.
#![tactic(auto)]

mod feed;
mod fits;
mod inputs;
mod ints;
mod targets;
mod values;

pub use feed::{feed_all, feed_one};
pub use fits::{first_unfit, slot_number};
pub use inputs::{suits, takes};
pub use ints::feed_ints;
pub use targets::{needed, place};
