// Gates, which workers pass.
ghost use Rattle.std.specs.Prelude.{◌≡◌, ◌<◌};

use std::marker::Model;
use std::sync::atomic::{AtomicU64, Ordering};

/// What each worker of a block passes after it has taken a chunk.
///
/// A gate observes workers at work, and doesn't affect their results. Tests delay workers at one.
pub trait Gate: Sync {
    /// Worker `worker`, of at most 64, has taken the chunk `chunk`.
    fn pass(&self, worker: u32, chunk: u64)
        requires { worker < 64 };
}

/// A gate at which nobody waits.
#[derive(Clone, Copy, Debug)]
pub struct OpenGate;

impl Gate for OpenGate {
    fn pass(&self, _worker: u32, _chunk: u64) {}
}

/// A gate at which each worker waits at its first pass, for a bounded time, until another worker has arrived.
///
/// It lets tests make sure that several workers run. Contracts see `turns`, and don't mention what other threads did;
/// only tests check that.
#[derive(Debug, Drop)]
pub struct HoldGate {
    turns: u64,
    came: AtomicU64,
    met: AtomicU64,
}

impl Model for HoldGate {
    ghost use Rattle.std.specs.Prelude.{ℕ};

    ghost Value = { ℕ };

    ghost view = { λ g. g.turns };
}

impl HoldGate {
    /// Returns a gate at which the first pass of a worker polls up to `turns` times for another worker.
    pub fn new(turns: u64) -> Self
        ensures { result ≡ turns }
    {
        HoldGate {
            turns,
            came: AtomicU64::new(0),
            met: AtomicU64::new(0),
        }
    }

    /// Whether the first passes of at least two workers saw that another worker had arrived.
    pub fn met(&self) -> bool {
        self.met.load(Ordering::SeqCst).count_ones() >= 2
    }
}

impl Gate for HoldGate {
    fn pass(&self, worker: u32, _chunk: u64) {
        let own = 1u64 << worker;
        if self.came.fetch_or(own, Ordering::SeqCst) & own != 0 {
            return;
        }
        for _ in 0..self.turns {
            if self.came.load(Ordering::SeqCst) & !own != 0 {
                self.met.fetch_or(own, Ordering::SeqCst);
                return;
            }
        }
    }
}

/// A gate at which one chosen worker waits at its first pass, for a bounded time, until the others have passed often
/// enough.
///
/// It is for tests that the result of a block is the same however late a worker is. Contracts see only `turns`.
#[derive(Debug, Drop)]
pub struct HeldGate {
    worker: u32,
    passes: u64,
    turns: u64,
    came: AtomicU64,
    made: AtomicU64,
    seen: AtomicU64,
}

impl Model for HeldGate {
    ghost use Rattle.std.specs.Prelude.{ℕ};

    ghost Value = { ℕ };

    ghost view = { λ g. g.turns };
}

impl HeldGate {
    /// Returns a gate at which the first pass of `worker` polls up to `turns` times until the others have made `passes`
    /// passes.
    pub fn new(worker: u32, passes: u64, turns: u64) -> Self
        ensures { result ≡ turns }
    {
        HeldGate {
            worker,
            passes,
            turns,
            came: AtomicU64::new(0),
            made: AtomicU64::new(0),
            seen: AtomicU64::new(0),
        }
    }

    /// Whether the chosen worker arrived and saw that the others had made their passes.
    pub fn has_seen(&self) -> bool {
        self.seen.load(Ordering::SeqCst) != 0
    }
}

impl Gate for HeldGate {
    fn pass(&self, worker: u32, _chunk: u64) {
        if worker != self.worker {
            self.made.fetch_add(1, Ordering::SeqCst);
            return;
        }
        if self.came.fetch_or(1, Ordering::SeqCst) != 0 {
            return;
        }
        for _ in 0..self.turns {
            if self.made.load(Ordering::SeqCst) >= self.passes {
                self.seen.fetch_or(1, Ordering::SeqCst);
                return;
            }
        }
    }
}

/// Any of the gates, for code that runs a whole script: queries run behind traits, whose methods take one type of gate.
#[derive(Clone, Copy, Debug)]
pub enum AnyGate<'g> {
    /// Nobody waits. This is the gate of the program.
    Open,
    /// Each worker waits for another one.
    Hold(&'g HoldGate),
    /// One worker waits for the others.
    Held(&'g HeldGate),
}

impl<'g> Gate for AnyGate<'g> {
    fn pass(&self, worker: u32, chunk: u64) {
        match self {
            AnyGate::Open => {}
            AnyGate::Hold(gate) => gate.pass(worker, chunk),
            AnyGate::Held(gate) => gate.pass(worker, chunk),
        }
    }
}
