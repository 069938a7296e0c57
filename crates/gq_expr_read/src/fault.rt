// Why nothing was read.
ghost use Rattle.std.specs.Prelude.{◌≡◌};

use gq_base::OutOfMemory;
use thiserror::Error;

/// Why nothing was read.
#[derive(Clone, Copy, Debug, PartialEq, Eq, Error)]
pub enum ReadFault {
    /// No prefix of the tokens from the place on is an expression.
    #[error("no expression")]
    NoDerivation,

    #[error("out of memory")]
    OutOfMemory,
}

impl From<OutOfMemory> for ReadFault {
    ghost use Rattle.gq_expr_read.specs.declared.fault.ReadFault.TheVariants.{OutOfMemory};

    ghost from_gives = { λ _ e. e ≡ OutOfMemory };

    fn from(_: OutOfMemory) -> Self {
        ReadFault::OutOfMemory
    }
}
