// Why a book can't be closed.
ghost use Rattle.std.specs.Prelude.{◌≡◌};
ghost use Rattle.gq_stripe.specs.declared.fault.CloseFault.TheVariants.{OutOfMemory};

use gq_base::OutOfMemory;
use thiserror::Error;

/// Why a book can't be closed. The book and the seat are consumed all the same.
#[derive(Clone, Copy, Debug, PartialEq, Eq, Error)]
pub enum CloseFault {
    /// The seat, with those that were joined into it, has made `put` of the `of` puts needed: each chunk at each
    /// stripe.
    #[error("{put} of {of} batches were put")]
    Unfinished { put: u64, of: u64 },

    /// A stripe is spoiled, or memory ran out.
    #[error("out of memory")]
    OutOfMemory,
}

impl From<OutOfMemory> for CloseFault {
    ghost from_gives = { λ _ e. e ≡ OutOfMemory };

    fn from(_: OutOfMemory) -> Self {
        CloseFault::OutOfMemory
    }
}
