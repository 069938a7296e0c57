// `OutOfMemory`, and the limits past which it is answered.
ghost use Rattle.std.specs.Prelude.{◌≡◌, ◌≤◌, ◌<◌, IfOk, OnOk, OnErr};

use std::alloc::{AllocError, AllocFailed};
use thiserror::Error;

/// `OutOfMemory`.
///
/// Each call that allocates may return it at any time; no contract says when memory is available.
#[derive(Clone, Copy, Debug, PartialEq, Eq, Error)]
#[error("out of memory")]
pub struct OutOfMemory;

impl From<AllocError> for OutOfMemory {
    fn from(_: AllocError) -> Self {
        OutOfMemory
    }
}

impl<T: Drop> From<AllocFailed<T>> for OutOfMemory {
    fn from(_: AllocFailed<T>) -> Self {
        OutOfMemory
    }
}

/// `OutOfMemory` exactly past `most`: the limit of a number that is stored in fewer bits than there are things.
///
/// Each limit of this kind is far beyond what a machine holds. So it is told as a want of memory.
pub fn within(number: usize, most: usize) -> Result<(), OutOfMemory>
    ensures ok { OnOk result (number ≤ most) }
    ensures err { OnErr result (most < number) }
{
    if number > most {
        return Err(OutOfMemory);
    }
    Ok(())
}

/// The number in 32 bits; `OutOfMemory` exactly if it doesn't fit.
pub fn narrow(number: usize) -> Result<u32, OutOfMemory>
    ensures ok { IfOk result (λ narrowed. narrowed ≡ number) }
    ensures err { OnErr result (4294967295 < number) }
{
    within(number, u32::MAX as usize)?;
    Ok(number as u32)
}
