// Books of sums, filled by two threads.
ghost use Rattle.std.specs.Prelude.{◌≡◌, ◌<◌, ℕ, Some, IfOk, replicate};
ghost use Rattle.gq_value.specs.declared.kind.Kind.TheVariants.{Sum};
ghost use Rattle.gq_value.specs.declared.kind.Number.TheVariants.{Int};
ghost use Rattle.gq_stripe.specs.Seats.{plan_of, IsIdle, IsFree, FitBatches, content_at};

use crate::stripes::{add, put_next, sum_at, sums};
use gq_base::OutOfMemory;
use gq_core::Batches;
use gq_stripe::{Book, CloseFault, Partials, Seat};
use std::alloc::Global;
use std::sync::Wait;
use std::test::Fail;
use std::thread::{Threads, join};

// Returns batches with a one for each of the sums of a book with three.
fn one_to_each(alloc: Global, book: &Book) -> Result<Batches, OutOfMemory>
    requires layout { (plan_of book.now).layout ≡ replicate 3 (Sum Int) }
    requires stripes { (plan_of book.now).stripes ≡ 3 }
    ensures { IfOk result (FitBatches (plan_of book.now)) }
{
    let mut batches = Batches::new(alloc, 3)?;
    add(book, &mut batches, 0, 1)?;
    add(book, &mut batches, 1, 1)?;
    add(book, &mut batches, 2, 1)?;
    Ok(batches)
}

// One thread's part: puts the same batches for each chunk that it draws, until there are no more chunks.
fn fill<R: Wait>(rt: &R, book: &Book, mut seat: Seat, batches: &Batches) -> Seat
    requires own { IsIdle book.now seat }
    requires fit { FitBatches (plan_of book.now) batches.now }
    ensures { IsFree book.entry.now result }
{
    for _ in rt.forever() {
        let Some(_) = put_next(rt, book, &mut seat, batches) else {
            return seat;
        };
    }
    unreachable!()
}

fn fill_by_two<R: Threads + Wait + Sync>(
    rt: &R,
    book: &Book,
    one: Seat,
    other: Seat,
    batches: &Batches,
) -> (Seat, Seat)
    requires one { IsIdle book.now one }
    requires other { IsIdle book.now other }
    requires fit { FitBatches (plan_of book.now) batches.now }
    ensures { IsFree book.entry.now result.0 × IsFree book.entry.now result.1 }
{
    join(
        rt,
        || -> Seat
            requires { IsIdle book.now one × FitBatches (plan_of book.now) batches.now }
            ensures { IsFree book.entry.now result }
        { fill(rt, book, one, batches) },
        || -> Seat
            requires { IsIdle book.now other × FitBatches (plan_of book.now) batches.now }
            ensures { IsFree book.entry.now result }
        { fill(rt, book, other, batches) },
    )
}

// Returns the three sums of a closed book.
pub(crate) fn three_sums(partials: &Partials) -> [Option<i128>; 3]
    requires { (t : ℕ) → t < 3 → (content : _) × (content_at partials.now t ≡ Some content) }
{
    [
        sum_at(partials, 0),
        sum_at(partials, 1),
        sum_at(partials, 2),
    ]
}

// Returns the sums of a book with three sums and 100 chunks, with a one for each sum from each chunk.
fn sums_by_two<R: Threads + Wait + Sync>(
    rt: &R,
    alloc: Global,
) -> Result<[Option<i128>; 3], CloseFault> {
    let (book, mut seat) = sums(alloc, 3, 100, 3, 2)?;
    let batches = one_to_each(alloc, &book)?;
    let other = book.split(&mut seat);
    let (mut seat, other) = fill_by_two(rt, &book, seat, other, &batches);
    book.join(&mut seat, other);
    let partials = book.close(seat)?;
    Ok(three_sums(&partials))
}

#[test]
fn two_threads_put_each_chunk_once(rt: HostRuntime) -> Result<(), Fail> {
    assert_eq!(rt;
        sums_by_two(&rt, rt.alloc())?,
        [Some(100), Some(100), Some(100)]
    );
    Ok(())
}
