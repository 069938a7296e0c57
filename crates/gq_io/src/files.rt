// Files as a run sees them.
ghost use Rattle.std.specs.Prelude.{◌≡◌, ◌<◌, ◌≤◌, ℕ, Option, Some, None, length, IfOk, IsErrOf};
ghost use Rattle.gq_io.specs.declared.files.FileFault.TheVariants.{OutOfMemory};
ghost use Rattle.gq_io.specs.Counts.{Rose};
ghost use Rattle.gq_io.specs.Listing.{Listing};
ghost use Rattle.gq_io.specs.Files.{AnswersFrom, most_bytes};

use std::alloc::{AllocError, AllocFailed, Global};
use thiserror::Error;

/// The maximum size of a file in bytes.
pub const MOST_BYTES: usize = 1_073_741_824;

/// Why a file wasn't read.
#[derive(Clone, Copy, Debug, PartialEq, Eq, Error)]
pub enum FileFault {
    /// There is no file of that name.
    #[error("missing file")]
    Missing,

    /// The device failed, and counted it.
    #[error("file could not be read")]
    Failed,

    /// The file has more than `MOST_BYTES` bytes.
    #[error("file too large")]
    TooLarge,

    #[error("out of memory")]
    OutOfMemory,
}

impl From<AllocError> for FileFault {
    ghost from_gives = { λ _ e. e ≡ OutOfMemory };

    fn from(_: AllocError) -> Self {
        FileFault::OutOfMemory
    }
}

impl<T: Drop> From<AllocFailed<T>> for FileFault {
    ghost from_gives = { λ _ e. e ≡ OutOfMemory };

    fn from(_: AllocFailed<T>) -> Self {
        FileFault::OutOfMemory
    }
}

/// Files that are read whole, by name.
pub trait Files {
    /// The files, by name, if the device reports them.
    ghost held: { Self → Option Listing };

    /// How often a read has failed.
    ghost faults: { Self → ℕ };

    /// How often a file didn't exist, if the device doesn't report its files.
    ghost absences: { Self → ℕ };

    /// The number of bytes of the last read, if the device doesn't report its files.
    ghost length_met: { Self → ℕ };

    /// Reads all bytes of the first file of that name.
    ///
    /// If the device reports its files and `faults` didn't increase, Missing and TooLarge are returned exactly if the
    /// file doesn't exist or has more than `MOST_BYTES` bytes; then OutOfMemory is the only other possible error.
    fn read(&mut self, alloc: Global, name: &str) -> Result<Vec<u8>, FileFault>
        ensures held { held self.new ≡ held self.old }
        ensures told { (pairs : Listing) → held self.old ≡ Some pairs → AnswersFrom pairs name.now result }
        ensures most { IfOk result (λ bytes. length bytes.items ≤ most_bytes) }

        ensures failed { IsErrOf result FileFault.Failed → Rose (faults self.old) (faults self.new) }

        // The causes of the other refusals, if the files aren't reported.
        ensures missing { held self.old ≡ None → IsErrOf result FileFault.Missing → Rose (absences self.old) (absences self.new) }
        ensures too_large { held self.old ≡ None → IsErrOf result FileFault.TooLarge → most_bytes < length_met self.new }

        // The length of what was read, if the files aren't reported.
        ensures met { held self.old ≡ None → IfOk result (λ bytes. length_met self.new ≡ length bytes.items) }

        ensures faults_stay { faults self.old ≤ faults self.new }
        ensures absences_stay { absences self.old ≤ absences self.new };
}
