// Which calls of a device in memory fail.
ghost use Rattle.std.specs.Prelude.{◌≡◌, ◌≤◌, ◌==◌, OnOk, OnErr};
ghost use Rattle.std.specs.List.{list_any};
ghost use Rattle.gq_io.specs.Schedule.{is_due, called};
ghost use Rattle.gq_io.specs.Devices.{planned, unplanned};

use gq_base::OutOfMemory;
use std::alloc::Global;
use std::marker::Model;

/// The calls of a device, of which the named ones fail.
#[derive(Drop)]
pub struct Calls {
    made: u64,
    failing: Vec<u64>,
    failed: u64,
}

impl Model for Calls {
    ghost use Rattle.gq_io.specs.Schedule.{Schedule};

    ghost Value = { Schedule };

    ghost view = { λ c. record { calls = c.made; failing = c.failing.items; faults = c.failed } };
}

impl Calls {
    pub fn new(alloc: Global) -> Self
        ensures { result ≡ unplanned }
    {
        let failing = Vec::new(alloc);
        Calls {
            made: 0,
            failing,
            failed: 0,
        }
    }

    /// Makes the call with this number, counted from 1, fail.
    pub fn fail_at(&mut self, call: u64) -> Result<(), OutOfMemory>
        ensures ok { OnOk result (self.new ≡ planned self.old call) }
        ensures err { OnErr result (self.new ≡ self.old) }
    {
        self.failing.push(call)?;
        Ok(())
    }

    /// Counts one more call, and returns whether it fails.
    pub fn count(&mut self) -> bool
        ensures due { result ≡ is_due self.old }
        ensures called { self.new ≡ called self.old }
        ensures faults_stay { self.old.faults ≤ self.new.faults }
    {
        self.made = self.made.saturating_add(1);
        let due = is_among(self.made, &self.failing);
        if due {
            self.failed = self.failed.saturating_add(1);
        }
        due
    }
}

fn is_among(call: u64, failing: &[u64]) -> bool
    ensures { result ≡ list_any (λ other. other == call) failing.now }
{
    failing.iter().any(|other| *other == call)
}
