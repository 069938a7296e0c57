// Workers.
ghost use Rattle.std.specs.Prelude.{◌≡◌, [], ◌∷◌, ◌++◌, OnOk, OnErr};
ghost use Rattle.gq_core.specs.declared.worker.Phase.TheVariants.{Holds};

use gq_base::{List, OutOfMemory};
use std::alloc::Global;

/// A chunk at a stripe, with the ticket that was taken for it there.
#[derive(Clone, Copy, Debug, PartialEq, Eq)]
pub struct Turn {
    pub chunk: u64,
    pub stripe: u32,
    pub ticket: u64,
}

/// The phase of a worker.
#[derive(Clone, Copy, Debug, PartialEq, Eq)]
pub enum Phase {
    /// Holds no chunk, and may draw one.
    Idle,

    /// Drew a number past the last chunk.
    Ended,

    /// Holds a chunk that is to be put at a stripe: first the chunk, then the stripe.
    Holds(u64, u32),

    /// Has a ticket for that stripe.
    Waits(Turn),

    /// Saw that its ticket is served.
    Served(Turn),

    /// Has taken the stripe away.
    Lifted(Turn),

    /// Has brought it back.
    Laid(Turn),

    /// Has handed its draws and puts to another worker, and no longer counts.
    Joined,
}

impl Phase {
    ghost use Rattle.gq_core.specs.Machine.{is_free};

    /// Whether a worker in this phase is live and holds no chunk.
    pub fn is_free(self) -> bool
        ensures { result ≡ is_free self }
    {
        matches!(self, Phase::Idle | Phase::Ended)
    }
}

/// A worker: its phase, the chunks that it drew, and its puts, each a chunk and a stripe.
#[derive(Debug, Drop)]
pub struct Worker {
    pub phase: Phase,
    pub draws: List<u64>,
    pub puts: List<(u64, u32)>,
}

impl Worker {
    ghost use Rattle.gq_core.specs.Machine.{newcomer, gathered};

    /// Returns a worker that has drawn nothing; allocates nothing.
    pub fn new(alloc: Global, phase: Phase) -> Worker
        ensures { result ≡ newcomer phase }
    {
        Worker {
            phase,
            draws: List::new(alloc),
            puts: List::new(alloc),
        }
    }

    /// Records the draw of a chunk, and holds it at the first stripe.
    pub fn draw(&mut self, chunk: u64) -> Result<(), OutOfMemory>
        ensures ok { OnOk result (self.new ≡ record self.old { phase = Holds chunk 0; draws = self.old.draws ++ chunk ∷ [] }) }
        ensures err { OnErr result (self.new ≡ self.old) }
    {
        self.draws.push(chunk)?;
        self.phase = Phase::Holds(chunk, 0);
        Ok(())
    }

    /// Records the put of its chunk at a stripe, and changes to another phase.
    pub fn put(&mut self, chunk: u64, stripe: u32, next: Phase) -> Result<(), OutOfMemory>
        ensures ok { OnOk result (self.new ≡ record self.old { phase = next; puts = self.old.puts ++ (chunk, stripe) ∷ [] }) }
        ensures err { OnErr result (self.new ≡ self.old) }
    {
        self.puts.push((chunk, stripe))?;
        self.phase = next;
        Ok(())
    }

    /// Adds the draws and puts of another worker to its own, or none of them.
    pub fn gather(&mut self, other: &Worker) -> Result<(), OutOfMemory>
        ensures ok { OnOk result (self.new ≡ gathered self.old other.now) }
        ensures err { OnErr result (self.new ≡ self.old) }
    {
        let before = self.draws.len();
        append(&mut self.draws, other.draws.as_slice())?;
        match append(&mut self.puts, other.puts.as_slice()) {
            Ok(()) => Ok(()),
            Err(fault) => {
                self.draws.truncate(before);
                Err(fault)
            }
        }
    }
}

/// Appends copies of `items` to a list. After `OutOfMemory` some of them may be there.
fn push_all<T: Copy>(list: &mut List<T>, items: &[T]) -> Result<(), OutOfMemory>
    ensures ok { OnOk result (list.new ≡ list.old ++ items.now) }
    ensures err { OnErr result ((part : _) × (list.new ≡ list.old ++ part)) }
{
    for item in items {
        list.push(*item)?;
    }
    Ok(())
}

/// Appends copies of `items` to a list, which is unchanged after `OutOfMemory`.
fn append<T: Copy>(list: &mut List<T>, items: &[T]) -> Result<(), OutOfMemory>
    ensures ok { OnOk result (list.new ≡ list.old ++ items.now) }
    ensures err { OnErr result (list.new ≡ list.old) }
{
    let before = list.len();
    match push_all(list, items) {
        Ok(()) => Ok(()),
        Err(fault) => {
            list.truncate(before);
            Err(fault)
        }
    }
}
