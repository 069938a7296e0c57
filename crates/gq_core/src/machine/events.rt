// The eight events.
ghost use Rattle.std.specs.Prelude.{◌≡◌, ◌<◌, length, IfOk, OnErr};
ghost use Rattle.gq_core.specs.Machine.{worker_at, draw, ticket, look, lift, lay, leave, split, join, Tells};
ghost use Rattle.gq_core.specs.Accounts.{IsInOrder};

use super::Core;
use crate::job::FeedJob;
use crate::worker::{Phase, Turn, Worker};
use gq_base::{OutOfMemory, within};
use std::alloc::Global;
use std::mem;

impl Core {
    // The phase of a worker; one that was never made counts as joined.
    fn phase(&self, w: u32) -> Phase
        ensures { result ≡ (worker_at self.now w).phase }
    {
        match self.workers.get(w as usize) {
            Some(worker) => worker.phase,
            None => Phase::Joined,
        }
    }

    pub fn draw(&mut self, job: &FeedJob, w: u32) -> Result<bool, OutOfMemory>
        ensures ok { IfOk result (λ done. Tells (draw job.now self.old w (worker_at self.old w).phase) done self.old self.new) }
        ensures err { OnErr result (self.new ≡ self.old) }
    {
        match self.phase(w) {
            Phase::Idle => {
                // That many chunks don't fit in memory.
                within(self.next as usize, usize::MAX - 1)?;
                let next = self.next + 1;
                let worker = &mut self.workers[w as usize];
                if self.next < job.chunks.len() as u64 {
                    worker.draw(self.next)?;
                } else {
                    worker.phase = Phase::Ended;
                }
                self.next = next;
                Ok(true)
            }
            _ => Ok(false),
        }
    }

    pub fn ticket(&mut self, job: &FeedJob, w: u32) -> bool
        requires { IsInOrder job.now self.old }
        ensures { Tells (ticket self.old w (worker_at self.old w).phase) result self.old self.new }
    {
        match self.phase(w) {
            Phase::Holds(chunk, stripe) => {
                // A stripe gives at most as many tickets as there are chunks.
                let chunks = job.chunks.len() as u64;
                prove!(self.stripes[stripe as usize].tickets < chunks);
                let ticket = self.stripes[stripe as usize].give_ticket();
                self.workers[w as usize].phase = Phase::Waits(Turn {
                    chunk,
                    stripe,
                    ticket,
                });
                true
            }
            _ => false,
        }
    }

    pub fn look(&mut self, job: &FeedJob, w: u32) -> bool
        requires { IsInOrder job.now self.old }
        ensures { Tells (look self.old w (worker_at self.old w).phase) result self.old self.new }
    {
        match self.phase(w) {
            Phase::Waits(turn) => {
                if turn.ticket == self.stripes[turn.stripe as usize].serving {
                    self.workers[w as usize].phase = Phase::Served(turn);
                }
                true
            }
            _ => false,
        }
    }

    pub fn lift(&mut self, job: &FeedJob, w: u32) -> bool
        requires { IsInOrder job.now self.old }
        ensures { Tells (lift self.old w (worker_at self.old w).phase) result self.old self.new }
    {
        match self.phase(w) {
            Phase::Served(turn) => {
                if self.stripes[turn.stripe as usize].away.is_some() {
                    return false;
                }
                self.stripes[turn.stripe as usize].away = Some(w);
                self.workers[w as usize].phase = Phase::Lifted(turn);
                true
            }
            _ => false,
        }
    }

    pub fn lay(&mut self, alloc: Global, job: &FeedJob, w: u32) -> Result<bool, OutOfMemory>
        requires { IsInOrder job.now self.old }
        ensures ok { IfOk result (λ done. Tells (lay job.now self.old w (worker_at self.old w).phase) done self.old self.new) }
        ensures err { OnErr result (self.new ≡ self.old) }
    {
        match self.phase(w) {
            Phase::Lifted(turn) => {
                self.stripes[turn.stripe as usize].lay(alloc, job, turn)?;
                self.workers[w as usize].phase = Phase::Laid(turn);
                Ok(true)
            }
            _ => Ok(false),
        }
    }

    pub fn leave(&mut self, job: &FeedJob, w: u32) -> Result<bool, OutOfMemory>
        requires { IsInOrder job.now self.old }
        ensures ok { IfOk result (λ done. Tells (leave job.now self.old w (worker_at self.old w).phase) done self.old self.new) }
        ensures err { OnErr result (self.new ≡ self.old) }
    {
        match self.phase(w) {
            Phase::Laid(turn) => {
                let stripes = job.stripes;
                let next = if turn.stripe + 1 < stripes {
                    Phase::Holds(turn.chunk, turn.stripe + 1)
                } else {
                    Phase::Idle
                };
                self.workers[w as usize].put(turn.chunk, turn.stripe, next)?;
                let stripe = &mut self.stripes[turn.stripe as usize];
                prove!(stripe.serving < stripe.tickets);
                stripe.serving += 1;
                Ok(true)
            }
            _ => Ok(false),
        }
    }

    pub fn split(&mut self, alloc: Global, w: u32) -> Result<bool, OutOfMemory>
        ensures ok { IfOk result (λ done. Tells (split self.old (worker_at self.old w).phase) done self.old self.new) }
        ensures err { OnErr result (self.new ≡ self.old) }
    {
        if self.phase(w) == Phase::Joined || self.workers.len() >= 1024 {
            return Ok(false);
        }
        self.workers.push(Worker::new(alloc, Phase::Idle))?;
        Ok(true)
    }

    pub fn join(&mut self, alloc: Global, w: u32, x: u32) -> Result<bool, OutOfMemory>
        ensures ok { IfOk result (λ done. Tells (join self.old w x) done self.old self.new) }
        ensures err { OnErr result (self.new ≡ self.old) }
    {
        if w == x || !self.phase(w).is_free() || !self.phase(x).is_free() {
            return Ok(false);
        }
        let other = mem::replace(
            &mut self.workers[x as usize],
            Worker::new(alloc, Phase::Joined),
        );
        if let Err(fault) = self.workers[w as usize].gather(&other) {
            self.workers[x as usize] = other;
            return Err(fault);
        }
        Ok(true)
    }
}
