// Why a script isn't read.
ghost use Rattle.std.specs.Prelude.{◌≡◌};
ghost use Rattle.gq_stmt_read.specs.declared.fault.ScriptFault.TheVariants.{OutOfMemory};

use gq_base::OutOfMemory;
use std::alloc::AllocFailed;
use thiserror::Error;

/// Why a script isn't read. Places are counted in bytes from 0.
#[derive(Clone, Copy, Debug, PartialEq, Eq, Error)]
pub enum ScriptFault {
    /// The statement of this number, counted from 1, whose first token begins at `at`: no prefix of the rest is a statement.
    #[error("syntax error in statement {statement}")]
    Syntax { statement: u64, at: usize },

    /// The token that begins at `at` is the first one that raises the depth to 65.
    #[error("nested too deep at byte {at}")]
    TooDeep { at: usize },

    #[error("out of memory")]
    OutOfMemory,
}

impl From<OutOfMemory> for ScriptFault {
    ghost from_gives = { λ _ e. e ≡ OutOfMemory };

    fn from(_: OutOfMemory) -> Self {
        ScriptFault::OutOfMemory
    }
}

impl<T: Drop> From<AllocFailed<T>> for ScriptFault {
    ghost from_gives = { λ _ e. e ≡ OutOfMemory };

    fn from(_: AllocFailed<T>) -> Self {
        ScriptFault::OutOfMemory
    }
}
