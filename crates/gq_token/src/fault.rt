// Why a script can't be cut into tokens.
ghost use Rattle.std.specs.Prelude.{◌≡◌};
ghost use Rattle.gq_token.specs.declared.fault.LexFault.TheVariants.{OutOfMemory};

use std::alloc::{AllocError, AllocFailed};
use thiserror::Error;

/// Why a script can't be cut into tokens. Places are counted in bytes from 0.
#[derive(Clone, Copy, Debug, PartialEq, Eq, Error)]
pub enum LexFault {
    /// The script isn't UTF-8; its first `at` bytes are the longest prefix that is.
    #[error("not UTF-8 at byte {at}")]
    NotUtf8 { at: usize },

    /// The byte at `at` begins neither a gap nor a token, or is the backslash of an unknown escape in a text.
    #[error("bad token at byte {at}")]
    BadToken { at: usize },

    /// The comment that begins with `/*` at `at` has no `*/`.
    #[error("open comment at byte {at}")]
    OpenComment { at: usize },

    /// The text that begins with `"` at `at` isn't closed.
    #[error("open text at byte {at}")]
    OpenText { at: usize },

    /// The number that begins at `at` is above 18446744073709551615.
    #[error("number too big at byte {at}")]
    TooBig { at: usize },

    #[error("out of memory")]
    OutOfMemory,
}

impl From<AllocError> for LexFault {
    ghost from_gives = { λ _ e. e ≡ OutOfMemory };

    fn from(_: AllocError) -> Self {
        LexFault::OutOfMemory
    }
}

impl<T: Drop> From<AllocFailed<T>> for LexFault {
    ghost from_gives = { λ _ e. e ≡ OutOfMemory };

    fn from(_: AllocFailed<T>) -> Self {
        LexFault::OutOfMemory
    }
}
