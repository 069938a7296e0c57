// Files in memory.
ghost use Rattle.std.specs.Prelude.{◌≡◌, ◌∷◌, [], ◌++◌, List, ℕ, Some, IfOk, OnOk, OnErr, IsErrOf, ◌<◌, ◌≤◌, ◌↔◌, IsTrue, length, string_bytes};
ghost use Rattle.gq_io.specs.Schedule.{is_due, called};
ghost use Rattle.gq_io.specs.Devices.{planned, unplanned};
ghost use Rattle.gq_io.specs.Files.{AnswersFrom, most_bytes};

use crate::files::{FileFault, Files, MOST_BYTES};
use crate::schedule::Calls;
use gq_base::OutOfMemory;
use std::alloc::Global;
use std::marker::Model;

#[derive(Drop)]
struct Entry {
    name: String,
    bytes: Vec<u8>,
}

impl Model for Entry {
    ghost Value = { List ℕ × List ℕ };

    ghost view = { λ e. (string_bytes e.name, e.bytes.items) };
}

impl Entry {
    fn name(&self) -> &str
        ensures { result.now ≡ self.now.0 }
    {
        self.name.as_str()
    }

    fn copy(&self, alloc: Global) -> Result<Vec<u8>, FileFault>
        ensures bytes { IfOk result (λ bytes. bytes.items ≡ self.now.1) }
        ensures most { IfOk result (λ bytes. length bytes.items ≤ most_bytes) }
        ensures too_large { IsErrOf result FileFault.TooLarge → most_bytes < length self.now.1 }
        ensures there { IsErrOf result FileFault.Missing → ⊥ }
        ensures sure { IsErrOf result FileFault.Failed → ⊥ }
    {
        if self.bytes.len() > MOST_BYTES {
            return Err(FileFault::TooLarge);
        }
        Ok(self.bytes.to_vec(alloc)?)
    }
}

/// Files in memory that never fail. Contracts see them as a list of names with their bytes.
#[derive(Drop)]
pub struct SureFiles {
    alloc: Global,
    entries: Vec<Entry>,
}

impl Model for SureFiles {
    ghost use Rattle.gq_io.specs.Listing.{Listing};

    ghost Value = { Listing };

    ghost view = { λ f. f.entries.items };
}

impl SureFiles {
    /// Returns an empty set of files.
    pub fn new(alloc: Global) -> Self
        ensures { result ≡ [] }
    {
        let entries = Vec::new(alloc);
        SureFiles { alloc, entries }
    }

    /// Adds a file. If several files have one name, the first is read.
    pub fn add(&mut self, name: &str, bytes: &[u8]) -> Result<(), OutOfMemory>
        ensures ok { OnOk result (self.new ≡ self.old ++ (name.now, bytes.now) ∷ []) }
        ensures err { OnErr result (self.new ≡ self.old) }
    {
        let name = String::from_str(self.alloc, name)?;
        let bytes = bytes.to_vec(self.alloc)?;
        self.entries.push(Entry { name, bytes })?;
        Ok(())
    }
}

impl Files for SureFiles {
    ghost held = { λ f. Some f };

    ghost faults = { λ _. 0 };

    ghost absences = { λ _. 0 };

    ghost length_met = { λ _. 0 };

    fn read(&mut self, alloc: Global, name: &str) -> Result<Vec<u8>, FileFault> {
        for entry in &self.entries {
            if entry.name() == name {
                return entry.copy(alloc);
            }
        }
        Err(FileFault::Missing)
    }
}

/// Files in memory; the reads that `fail_at` named fail.
#[derive(Drop)]
pub struct MemoryFiles {
    files: SureFiles,
    calls: Calls,
}

impl Model for MemoryFiles {
    ghost use Rattle.gq_io.specs.Devices.{FilesState};

    ghost Value = { FilesState };

    ghost view = { λ f. record { listing = f.files; schedule = f.calls } };
}

impl MemoryFiles {
    /// Returns an empty set of files, with no reads so far and none that is to fail.
    pub fn new(alloc: Global) -> Self
        ensures { result ≡ record { listing = []; schedule = unplanned } }
    {
        MemoryFiles {
            files: SureFiles::new(alloc),
            calls: Calls::new(alloc),
        }
    }

    /// Adds a file. If several files have one name, the first is read.
    pub fn add(&mut self, name: &str, bytes: &[u8]) -> Result<(), OutOfMemory>
        ensures ok { OnOk result (self.new ≡ record self.old { listing = self.old.listing ++ (name.now, bytes.now) ∷ [] }) }
        ensures err { OnErr result (self.new ≡ self.old) }
    {
        self.files.add(name, bytes)
    }

    /// Makes the read with this number, counted from 1, fail.
    pub fn fail_at(&mut self, call: u64) -> Result<(), OutOfMemory>
        ensures ok { OnOk result (self.new ≡ record self.old { schedule = planned self.old.schedule call }) }
        ensures err { OnErr result (self.new ≡ self.old) }
    {
        self.calls.fail_at(call)
    }
}

impl Files for MemoryFiles {
    ghost held = { λ f. Some f.listing };

    ghost faults = { λ f. f.schedule.faults };

    ghost absences = { λ _. 0 };

    ghost length_met = { λ _. 0 };

    fn read(&mut self, alloc: Global, name: &str) -> Result<Vec<u8>, FileFault>
        ensures answer { AnswersFrom self.old.listing name.now result }
        ensures most { IfOk result (λ bytes. length bytes.items ≤ most_bytes) }

        // It fails, and counts the failure, exactly at the named calls.
        ensures failed { IsErrOf result FileFault.Failed ↔ IsTrue (is_due self.old.schedule) }
        ensures after { self.new ≡ record self.old { schedule = called self.old.schedule } }
        ensures faults_stay { self.old.schedule.faults ≤ self.new.schedule.faults }
    {
        if self.calls.count() {
            return Err(FileFault::Failed);
        }
        self.files.read(alloc, name)
    }
}
