// Reading of files, by what is known of them.
ghost use Rattle.std.specs.Prelude.{◌≡◌, ◌≤◌, ℕ, IfOk, IsErrOf};
ghost use Rattle.gq_io.specs.Counts.{Rose};
ghost use Rattle.gq_io.specs.Known.{Answered, Bytes, MayAnswer, known_of};

use crate::files::{FileFault, Files};
use std::alloc::Global;

/// Reads all bytes of a file. If the files aren't known, a refusal is justified by their counts, from any earlier time
/// on; bytes need no justification.
pub fn ask<F: Files>(alloc: Global, files: &mut F, name: &str) -> Result<Vec<u8>, FileFault>
    ensures answered { (before : ℕ) → before ≤ F.absences files.old
        → Answered (known_of (F.held files.old) before (F.absences files.new) (F.length_met files.new)) name.now result }
    ensures bytes { (before now met : ℕ)
        → IfOk result (λ bytes. MayAnswer (known_of (F.held files.old) before now met) name.now (Bytes bytes.items)) }
    ensures failed { IsErrOf result FileFault.Failed → Rose (F.faults files.old) (F.faults files.new) }
    ensures held { F.held files.new ≡ F.held files.old }
    ensures faults_stay { F.faults files.old ≤ F.faults files.new }
    ensures absences_stay { F.absences files.old ≤ F.absences files.new }
{
    files.read(alloc, name)
}
