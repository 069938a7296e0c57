// Why words can't be closed.
ghost use Rattle.std.specs.Prelude.{◌≡◌};
ghost use Rattle.gq_words.specs.declared.fault.WordFault.TheVariants.{OutOfMemory};

use gq_base::OutOfMemory;
use thiserror::Error;

/// Why words can't be closed. The words and the seat are consumed all the same.
#[derive(Clone, Copy, Debug, PartialEq, Eq, Error)]
pub enum WordFault {
    /// The seat represents `joined` of the `made` seats: itself and those that were joined into it.
    #[error("{joined} of {made} seats were joined")]
    Apart { joined: u32, made: u32 },

    #[error("out of memory")]
    OutOfMemory,
}

impl From<OutOfMemory> for WordFault {
    ghost from_gives = { λ _ e. e ≡ OutOfMemory };

    fn from(_: OutOfMemory) -> Self {
        WordFault::OutOfMemory
    }
}
