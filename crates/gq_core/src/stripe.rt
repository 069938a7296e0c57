// Stripes.
ghost use Rattle.std.specs.Prelude.{◌≡◌, ◌+◌, ◌^◌, ◌<◌, length, OnOk, OnErr};

use crate::copies::add_batch;
use crate::job::{Contributions, FeedJob};
use crate::worker::Turn;
use gq_base::{List, OutOfMemory};
use std::alloc::Global;

/// One stripe: its tickets, the chunks that were laid there, with their inputs, and the worker that has it away.
#[derive(Debug, Drop)]
pub struct Stripe {
    /// The number that the next ticket gets.
    pub tickets: u64,

    /// The ticket that is served.
    pub serving: u64,

    /// The chunks that were laid here, in order.
    pub book: List<u64>,

    /// The batches of these chunks, concatenated.
    pub inputs: Contributions,

    /// The worker that has the stripe away.
    pub away: Option<u32>,
}

impl Stripe {
    ghost use Rattle.gq_core.specs.Machine.{fresh, laid};

    /// Returns a stripe at which nothing was put yet; allocates nothing.
    pub fn new(alloc: Global) -> Stripe
        ensures { result ≡ fresh }
    {
        Stripe {
            tickets: 0,
            serving: 0,
            book: List::new(alloc),
            inputs: List::new(alloc),
            away: None,
        }
    }

    /// Returns the next ticket.
    pub fn give_ticket(&mut self) -> u64
        requires { self.old.tickets + 1 < 2 ^ 64 }
        ensures ticket { result ≡ self.old.tickets }
        ensures rises { self.new ≡ record self.old { tickets = self.old.tickets + 1 } }
    {
        let ticket = self.tickets;
        self.tickets = ticket + 1;
        ticket
    }

    /// Appends a chunk's batch, and marks the stripe as back. After `OutOfMemory` nothing has changed.
    pub fn lay(&mut self, alloc: Global, job: &FeedJob, turn: Turn) -> Result<(), OutOfMemory>
        requires { turn.chunk < length job.now.chunks }
        ensures ok { OnOk result (self.new ≡ laid job.now turn self.old) }
        ensures err { OnErr result (self.new ≡ self.old) }
    {
        let before = self.book.len();
        self.book.push(turn.chunk)?;
        let chunk = job.chunks.at(turn.chunk as usize);
        match add_batch(
            alloc,
            &mut self.inputs,
            chunk.as_slice(),
            job.stripes,
            turn.stripe,
        ) {
            Ok(()) => {
                self.away = None;
                Ok(())
            }
            Err(fault) => {
                self.book.truncate(before);
                Err(fault)
            }
        }
    }
}
