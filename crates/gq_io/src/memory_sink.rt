// Sinks in memory.
ghost use Rattle.std.specs.Prelude.{◌≡◌, [], ◌++◌, Some, ◌<◌, ◌≤◌, ◌↔◌, min, length, take, IfOk, OnOk, OnErr, IsErrOf, IsTrue};
ghost use Rattle.gq_io.specs.Schedule.{is_due, called};
ghost use Rattle.gq_io.specs.Devices.{planned, unplanned};

use crate::schedule::Calls;
use crate::sink::{Sink, SinkFault};
use gq_base::OutOfMemory;
use std::alloc::Global;
use std::marker::Model;

/// A sink in memory that never fails. Contracts see the bytes written, and the maximum number of bytes of one write.
#[derive(Drop)]
pub struct SureSink {
    bytes: Vec<u8>,
    most: usize,
}

impl Model for SureSink {
    ghost use Rattle.std.specs.Prelude.{◌<◌};
    ghost use Rattle.gq_io.specs.Devices.{SureState};

    ghost Value = { SureState };

    ghost view = { λ s. record { written = s.bytes.items; most = s.most } };

    ghost invariant = { λ s. 0 < s.most };
}

impl SureSink {
    /// Returns an empty sink of which each write takes at most `most` bytes.
    pub fn new(alloc: Global, most: usize) -> Self
        requires { 0 < most }
        ensures { result ≡ record { written = []; most = most } }
    {
        let bytes = Vec::new(alloc);
        SureSink { bytes, most }
    }

    /// The bytes that were written.
    pub fn bytes(&self) -> &[u8]
        ensures { result.now ≡ self.now.written }
    {
        &self.bytes
    }
}

impl Sink for SureSink {
    ghost written = { λ s. Some s.written };

    ghost faults = { λ _. 0 };

    /// Takes as many bytes of the piece as one write may take.
    fn write(&mut self, piece: &[u8]) -> Result<usize, SinkFault>
        ensures count { IfOk result (λ n. n ≡ min (length piece.now) self.old.most) }
        ensures taken { IfOk result (λ n. self.new ≡ record self.old { written = self.old.written ++ take n piece.now }) }
        ensures kept { OnErr result (self.new ≡ self.old) }
        ensures sure { IsErrOf result SinkFault.Failed → ⊥ }
        ensures some { IfOk result (λ n. 0 < length piece.now → 0 < n) }
    {
        let count = piece.len().min(self.most);
        match self.bytes.extend_from_slice(&piece[..count]) {
            Ok(()) => Ok(count),
            Err(_) => Err(SinkFault::OutOfMemory),
        }
    }
}

/// A sink in memory; the writes that `fail_at` named fail.
#[derive(Drop)]
pub struct MemorySink {
    sink: SureSink,
    calls: Calls,
}

impl Model for MemorySink {
    ghost use Rattle.gq_io.specs.Devices.{SinkState};

    ghost Value = { SinkState };

    ghost view = { λ s. record { written = s.sink.written; most = s.sink.most; schedule = s.calls } };
}

impl MemorySink {
    /// Returns an empty sink of which each write takes at most `most` bytes, and none is to fail.
    pub fn new(alloc: Global, most: usize) -> Self
        requires { 0 < most }
        ensures { result ≡ record { written = []; most = most; schedule = unplanned } }
    {
        MemorySink {
            sink: SureSink::new(alloc, most),
            calls: Calls::new(alloc),
        }
    }

    /// Makes the write with this number, counted from 1, fail.
    pub fn fail_at(&mut self, call: u64) -> Result<(), OutOfMemory>
        ensures ok { OnOk result (self.new ≡ record self.old { schedule = planned self.old.schedule call }) }
        ensures err { OnErr result (self.new ≡ self.old) }
    {
        self.calls.fail_at(call)
    }

    /// The bytes that were written.
    pub fn bytes(&self) -> &[u8]
        ensures { result.now ≡ self.now.written }
    {
        self.sink.bytes()
    }
}

impl Sink for MemorySink {
    ghost written = { λ s. Some s.written };

    ghost faults = { λ s. s.schedule.faults };

    /// Takes as many bytes of the piece as one write may take, except at a named call.
    fn write(&mut self, piece: &[u8]) -> Result<usize, SinkFault>
        ensures count { IfOk result (λ n. n ≡ min (length piece.now) self.old.most) }
        ensures taken { IfOk result (λ n. self.new ≡ record self.old { written = self.old.written ++ take n piece.now; schedule = called self.old.schedule }) }
        ensures kept { OnErr result (self.new ≡ record self.old { schedule = called self.old.schedule }) }
        ensures some { IfOk result (λ n. 0 < length piece.now → 0 < n) }
        ensures faults_stay { self.old.schedule.faults ≤ self.new.schedule.faults }

        // It fails, and counts the failure, exactly at the named calls.
        ensures failed { IsErrOf result SinkFault.Failed ↔ IsTrue (is_due self.old.schedule) }
    {
        if self.calls.count() {
            return Err(SinkFault::Failed);
        }
        self.sink.write(piece)
    }
}
