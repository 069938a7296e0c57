// The devices of the host, the trusted boundary. They count failures, and report no contents.
ghost use Rattle.std.specs.Prelude.{◌≡◌, ◌<◌, ◌≤◌, None, length, IfOk, IfSome, IsErrOf};
ghost use Rattle.gq_io.specs.Files.{most_bytes};

use crate::files::{FileFault, Files, MOST_BYTES};
use crate::sink::{Sink, SinkFault};
use std::alloc::Global;
use std::fs;
use std::io::{ErrorKind, Read};
use std::marker::Model;

/// The number of bytes that one read of the host asks for.
const PIECE: usize = 65_536;

/// The files of the host, by their paths. Contracts see what was counted.
#[derive(Drop)]
pub struct HostFiles<'a, R: std::rt::Files> {
    rt: &'a R,
    faults: u64,
    absences: u64,
    length_met: usize,
}

impl<'a, R: std::rt::Files> Model for HostFiles<'a, R> {
    ghost use Rattle.gq_io.specs.Devices.{HostCounts};

    ghost Value = { HostCounts };

    ghost view = { λ f. record { faults = f.faults; absences = f.absences; length_met = f.length_met } };
}

impl<'a, R: std::rt::Files> HostFiles<'a, R> {
    /// Returns files for which nothing was counted so far.
    pub fn new(rt: &'a R) -> Self
        ensures { result ≡ record { faults = 0; absences = 0; length_met = 0 } }
    {
        HostFiles {
            rt,
            faults: 0,
            absences: 0,
            length_met: 0,
        }
    }
}

impl<R: std::rt::Files> Files for HostFiles<'_, R> {
    ghost held = { λ _. None };

    ghost faults = { λ f. f.faults };

    ghost absences = { λ f. f.absences };

    ghost length_met = { λ f. f.length_met };

    fn read(&mut self, alloc: Global, name: &str) -> Result<Vec<u8>, FileFault> {
        let mut file = match fs::open(self.rt, name) {
            Ok(file) => file,
            Err(error) => match error.kind() {
                ErrorKind::NotFound => {
                    self.absences = self.absences.saturating_add(1);
                    return Err(FileFault::Missing);
                }
                ErrorKind::OutOfMemory => return Err(FileFault::OutOfMemory),
                _ => {
                    self.faults = self.faults.saturating_add(1);
                    return Err(FileFault::Failed);
                }
            },
        };
        let read = read_whole(alloc, &mut file, &mut self.length_met);
        if let Err(FileFault::Failed) = read {
            self.faults = self.faults.saturating_add(1);
        }
        read
    }
}

/// The standard output of the host. Contracts see how often a write failed.
#[derive(Drop)]
pub struct HostSink<'a, R: Print> {
    rt: &'a R,
    faults: u64,
}

impl<'a, R: Print> Model for HostSink<'a, R> {
    ghost use Rattle.std.specs.Prelude.{ℕ};

    ghost Value = { ℕ };

    ghost view = { λ s. s.faults };
}

impl<'a, R: Print> HostSink<'a, R> {
    /// Returns a sink of which no write has failed so far.
    pub fn new(rt: &'a R) -> Self
        ensures { result ≡ 0 }
    {
        HostSink { rt, faults: 0 }
    }
}

impl<R: Print> Sink for HostSink<'_, R> {
    ghost written = { λ _. None };

    ghost faults = { λ s. s };

    /// Counts a write as failed if it takes no byte of a nonempty piece.
    fn write(&mut self, piece: &[u8]) -> Result<usize, SinkFault> {
        match self.rt.write_some(piece) {
            Ok(count) if count > 0 || piece.is_empty() => Ok(count),
            _ => {
                self.faults = self.faults.saturating_add(1);
                Err(SinkFault::Failed)
            }
        }
    }
}

// Reads all remaining bytes of a reader, and sets `met` to their number. A failed read isn't counted here.
fn read_whole<R: Read>(alloc: Global, reader: &mut R, met: &mut usize) -> Result<Vec<u8>, FileFault>
    // For a reader that reports its bytes.
    ensures all { IfOk result (λ bytes. IfSome (R.remaining reader.old) (λ told. bytes.items ≡ told)) }
    ensures larger { IsErrOf result FileFault.TooLarge → IfSome (R.remaining reader.old) (λ told. most_bytes < length told) }

    // For every reader.
    ensures most { IfOk result (λ bytes. length bytes.items ≤ most_bytes) }
    ensures met { IfOk result (λ bytes. met.new ≡ length bytes.items) }
    ensures too_large { IsErrOf result FileFault.TooLarge → most_bytes < met.new }
    ensures there { IsErrOf result FileFault.Missing → ⊥ }
{
    *met = 0;
    let mut bytes = Vec::new(alloc);
    let mut piece = [0u8; PIECE];
    for _ in 0..u64::MAX {
        let Ok(count) = reader.read(&mut piece) else {
            return Err(FileFault::Failed);
        };
        *met = bytes.len() + count;
        if count == 0 {
            return Ok(bytes);
        }
        if count > MOST_BYTES - bytes.len() {
            return Err(FileFault::TooLarge);
        }
        bytes.extend_from_slice(&piece[..count])?;
    }
    Err(FileFault::Failed)
}
