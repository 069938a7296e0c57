// The core.
ghost use Rattle.std.specs.Prelude.{◌≡◌, ◌<◌, length, IfOk, OnErr};
ghost use Rattle.gq_core.specs.Machine.{opening, happens, Tells};
ghost use Rattle.gq_core.specs.Accounts.{IsInOrder};

mod events;

use crate::event::Event;
use crate::job::FeedJob;
use crate::stripe::Stripe;
use crate::worker::{Phase, Worker};
use gq_base::OutOfMemory;
use std::alloc::Global;
use std::marker::Model;

/// The state of a job's stripes and workers. Contracts see it as a `Machine`.
#[derive(Debug, Drop)]
pub struct Core {
    next: u64,
    stripes: Vec<Stripe>,
    workers: Vec<Worker>,
}

impl Model for Core {
    ghost use Rattle.std.specs.Coded.{codes};
    ghost use Rattle.gq_core.specs.contracts.stripe.Stripe as stripe;
    ghost use Rattle.gq_core.specs.contracts.worker.Worker as worker;
    ghost use Rattle.gq_core.specs.Machine.{Machine};

    ghost Value = { Machine };

    ghost coded = { Prim.hlevel (codes, stripe.the_row.coded, worker.the_row.coded) };

    ghost view = { λ c. record { next = c.next; stripes = c.stripes.items; workers = c.workers.items } };
}

impl Core {
    /// Returns a core with only worker 0, which has drawn nothing.
    pub fn open(alloc: Global, job: &FeedJob) -> Result<Core, OutOfMemory>
        ensures opening { IfOk result (λ core. core ≡ opening job.now) }
        ensures order { IfOk result (IsInOrder job.now) }
    {
        let mut stripes = Vec::with_capacity(alloc, job.stripes as usize)?;
        for _stripe in 0..job.stripes {
            stripes.push(Stripe::new(alloc))?;
        }
        let mut workers = Vec::new(alloc);
        workers.push(Worker::new(alloc, Phase::Idle))?;
        Ok(Core {
            next: 0,
            stripes,
            workers,
        })
    }
}

/// Executes one event and returns whether it was enabled. After false and after `OutOfMemory` the core is unchanged.
pub fn step(
    alloc: Global,
    core: &mut Core,
    job: &FeedJob,
    event: Event,
) -> Result<bool, OutOfMemory>
    requires { IsInOrder job.now core.old }
    ensures happens { IfOk result (λ done. Tells (happens job.now core.old event) done core.old core.new) }
    ensures err { OnErr result (core.new ≡ core.old) }
    ensures order { IsInOrder job.now core.new }
{
    match event {
        Event::Draw(w) => core.draw(job, w),
        Event::Ticket(w) => Ok(core.ticket(job, w)),
        Event::Look(w) => Ok(core.look(job, w)),
        Event::Lift(w) => Ok(core.lift(job, w)),
        Event::Lay(w) => core.lay(alloc, job, w),
        Event::Leave(w) => core.leave(job, w),
        Event::Split(w) => core.split(alloc, w),
        Event::Join(w, x) => core.join(alloc, w, x),
    }
}
