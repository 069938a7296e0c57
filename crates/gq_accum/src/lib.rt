//! The contents of scalar accumulators: one number, truth value or average.
//!
//! The trait `Fold` specifies any content that takes inputs and can be merged; `Scalar` implements it. Sums
//! have 128 bits, so a sum is checked for overflow only at the end.
//!
//! Read the trait in `src/fold.rt` first, then `specs/Scalars.antt` (the content of a scalar) and
//! `specs/Seals.antt` (its final value). The code is in `src/scalar.rt` and `src/sums.rt`; `src/wide.rt` has
//! numbers of 128 bits in two words.
#![tactic(auto)]

mod fold;
mod folding;
mod inputs;
mod scalar;
mod sums;
mod wide;

pub use fold::Fold;
pub use scalar::{Mean, OutOfRange, Scalar};
pub use sums::{count, total};
pub use wide::{Count, Sum};
