// A sink as a run sees it.
ghost use Rattle.std.specs.Prelude.{◌≡◌, ◌≤◌, List, ℕ, Option, IfOk, OnOk, OnErr, IsErrOf};
ghost use Rattle.gq_io.specs.Counts.{Rose};
ghost use Rattle.gq_io.specs.Sink.{Appends, AppendsPrefix, TakesSome};

use thiserror::Error;

/// Why a sink took nothing.
#[derive(Clone, Copy, Debug, PartialEq, Eq, Error)]
pub enum SinkFault {
    /// The device failed, and counted it.
    #[error("output could not be written")]
    Failed,

    #[error("out of memory")]
    OutOfMemory,
}

/// Something that takes bytes, one piece at a time.
pub trait Sink {
    /// The bytes that were written so far, if the device reports them.
    ghost written: { Self → Option (List ℕ) };

    /// How often a write has failed.
    ghost faults: { Self → ℕ };

    /// Takes the first bytes of a piece, at least one unless the piece is empty, and returns how many.
    fn write(&mut self, piece: &[u8]) -> Result<usize, SinkFault>
        ensures taken { IfOk result (λ n. TakesSome (written self.old) (written self.new) piece.now n) }
        ensures kept { OnErr result (written self.new ≡ written self.old) }
        ensures failed { IsErrOf result SinkFault.Failed → Rose (faults self.old) (faults self.new) }
        ensures faults_stay { faults self.old ≤ faults self.new };
}

/// Writes all bytes, with as many writes as necessary. On a fault, which is that of the failed write, a prefix of
/// the bytes was written. Allocates nothing itself.
pub fn write_all<K: Sink>(out: &mut K, bytes: &[u8]) -> Result<(), SinkFault>
    ensures all { OnOk result (Appends (K.written out.old) (K.written out.new) bytes.now) }
    ensures prefix { OnErr result (AppendsPrefix (K.written out.old) (K.written out.new) bytes.now) }
    ensures failed { IsErrOf result SinkFault.Failed → Rose (K.faults out.old) (K.faults out.new) }
    ensures faults_stay { K.faults out.old ≤ K.faults out.new }
{
    let mut at = 0;
    while at < bytes.len() {
        at += out.write(&bytes[at..])?;
    }
    Ok(())
}
