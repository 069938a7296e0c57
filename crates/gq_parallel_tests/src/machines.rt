// Tests of the core, event by event.
ghost use Rattle.gq_core.specs.Accounts.{IsInOrder};

use gq_base::{List, OutOfMemory};
use gq_core::{Batches, Contributions, Core, Event, FeedJob, step};
use gq_value::{Input, Txt, Value};
use std::alloc::Global;
use std::test::Fail;

// Returns inputs with one text for each of the targets 0, 1 and 2.
fn three_inputs(alloc: Global) -> Result<Contributions, OutOfMemory> {
    let mut inputs = List::new(alloc);
    for target in 0..3 {
        inputs.push((target, Input::One(Value::Text(Txt::of(alloc, "one")?))))?;
    }
    Ok(inputs)
}

// Whether each event is enabled or not, as expected.
fn goes_as(
    alloc: Global,
    core: &mut Core,
    job: &FeedJob,
    events: &[(Event, bool)],
) -> Result<bool, OutOfMemory>
    requires { IsInOrder job.now core.old }
{
    for (event, enabled) in events {
        if step(alloc, core, job, *event)? != *enabled {
            return Ok(false);
        }
    }
    Ok(true)
}

#[test]
fn one_worker_puts_one_chunk_at_one_stripe(rt: HostRuntime) -> Result<(), Fail> {
    let alloc = rt.alloc();
    let mut job = FeedJob::new(alloc, 1);
    job.add_chunk(alloc, &three_inputs(alloc)?)?;
    let mut core = Core::open(alloc, &job)?;
    let events = [
        (Event::Draw(0), true),
        (Event::Ticket(0), true),
        (Event::Look(0), true),
        (Event::Lift(0), true),
        (Event::Lay(0), true),
        (Event::Leave(0), true),
        (Event::Lay(0), false),
        (Event::Draw(1), false),
    ];
    assert!(rt; goes_as(alloc, &mut core, &job, &events)?);
    Ok(())
}

#[test]
fn a_stripe_is_worked_on_by_one_worker_at_a_time(rt: HostRuntime) -> Result<(), Fail> {
    let alloc = rt.alloc();
    let mut job = FeedJob::new(alloc, 1);
    job.add_chunk(alloc, &three_inputs(alloc)?)?;
    job.add_chunk(alloc, &three_inputs(alloc)?)?;
    let mut core = Core::open(alloc, &job)?;
    let events = [
        (Event::Split(0), true),
        (Event::Draw(0), true),
        (Event::Draw(1), true),
        (Event::Ticket(1), true),
        (Event::Ticket(0), true),
        (Event::Look(0), true),
        (Event::Lift(0), false),
        (Event::Look(1), true),
        (Event::Lift(1), true),
        (Event::Join(0, 1), false),
        (Event::Lay(1), true),
        (Event::Leave(1), true),
        (Event::Draw(1), true),
        (Event::Join(0, 1), false),
        (Event::Look(0), true),
        (Event::Lift(0), true),
        (Event::Lay(0), true),
        (Event::Leave(0), true),
        (Event::Join(0, 1), true),
        (Event::Split(1), false),
        (Event::Draw(0), true),
        (Event::Draw(0), false),
    ];
    assert!(rt; goes_as(alloc, &mut core, &job, &events)?);
    Ok(())
}

#[test]
fn a_target_goes_to_the_stripe_of_its_remainder(rt: HostRuntime) -> Result<(), Fail> {
    let alloc = rt.alloc();
    let mut batches = Batches::new(alloc, 2)?;
    for target in [4, 7, 0] {
        batches.add(target, Input::One(Value::UInt(target)))?;
    }
    assert_eq!(rt; batches.stripes(), 2);
    let targets = |stripe: usize| batches.at(stripe).iter().map(|one| one.0);
    assert!(rt; targets(0).eq([4, 0]));
    assert!(rt; targets(1).eq([7]));
    batches.clear();
    assert!(rt; batches.at(0).is_empty() && batches.at(1).is_empty());
    Ok(())
}
