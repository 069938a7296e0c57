// Books of sums, filled by one seat.
ghost use Rattle.std.specs.Prelude.{◌≡◌, ◌+◌, ◌^◌, ◌<◌, ◌≤◌, Some, IfOk, IfSome, replicate, slice_get};
ghost use Rattle.gq_value.specs.declared.kind.Kind.TheVariants.{Sum};
ghost use Rattle.gq_value.specs.declared.kind.Number.TheVariants.{Int};
ghost use Rattle.gq_stripe.specs.Seats.{plan_of, view_of, IsIdle, IsFree, FitBatches, contributions, content_at};

use gq_accum::Scalar;
use gq_base::OutOfMemory;
use gq_core::Batches;
use gq_nest::Content;
use gq_stripe::{Book, CloseFault, Layout, Partials, Seat};
use gq_value::{Input, Kind, Number, Value};
use std::alloc::Global;
use std::sync::Wait;
use std::test::Fail;

// Opens a book of sums.
pub(crate) fn sums(
    alloc: Global,
    targets: u32,
    chunks: u64,
    stripes: u32,
    seats: u32,
) -> Result<(Book, Seat), OutOfMemory>
    requires stripes { (1 ≤ stripes) × (stripes ≤ 256) }
    requires seats { (1 ≤ seats) × (seats ≤ 1024) }
    requires chunks { chunks ≤ 2 ^ 25 }
    ensures idle { IfOk result (λ r. IsIdle r.0 r.1) }
    ensures layout { IfOk result (λ r. (plan_of r.0).layout ≡ replicate targets (Sum Int)) }
    ensures stripes { IfOk result (λ r. (plan_of r.0).stripes ≡ stripes) }
    ensures spare { IfOk result (λ r. (view_of r.1).spare + 1 ≡ seats) }
{
    let mut layout = Layout::new(alloc);
    layout.push_all(Kind::Sum(Number::Int), targets)?;
    Book::open(alloc, &layout, chunks, stripes, seats)
}

// Adds a number to the inputs of a sum.
pub(crate) fn add(
    book: &Book,
    batches: &mut Batches,
    target: u64,
    x: i64,
) -> Result<(), OutOfMemory>
    requires fit { FitBatches (plan_of book.now) batches.old }
    requires few { contributions batches.old < 2 ^ 35 }
    requires sum { slice_get (plan_of book.now).layout target ≡ Some (Sum Int) }
    ensures fit { IfOk result (λ _. FitBatches (plan_of book.now) batches.new) }
    ensures few { IfOk result (λ _. contributions batches.new ≤ contributions batches.old + 1) }
{
    let _ = book;
    batches.add(target, Input::One(Value::Int(x)))
}

// Draws a chunk and puts its batches. Returns None if there is no chunk, else whether the put found memory.
pub(crate) fn put_next<R: Wait>(
    rt: &R,
    book: &Book,
    seat: &mut Seat,
    batches: &Batches,
) -> Option<bool>
    requires own { IsIdle book.now seat.old }
    requires fit { FitBatches (plan_of book.now) batches.now }
    ensures free { IsFree book.now seat.new }
    ensures idle { IfSome result (λ _. IsIdle book.now seat.new) }
{
    let chunk = book.draw(seat)?;
    Some(book.put(rt, seat, chunk, batches).is_ok())
}

// Returns the sum at a target of a closed book.
pub(crate) fn sum_at(partials: &Partials, target: u64) -> Option<i128>
    requires { (content : _) × (content_at partials.now target ≡ Some content) }
{
    match partials.at(target) {
        Content::Scalar(Scalar::SumInt(sum)) => Some(sum.get()),
        _ => None,
    }
}

// Returns the batches of one chunk for the sum of a book with one sum: these two numbers.
fn two_numbers(alloc: Global, book: &Book, one: i64, other: i64) -> Result<Batches, OutOfMemory>
    requires layout { (plan_of book.now).layout ≡ replicate 1 (Sum Int) }
    requires stripes { (plan_of book.now).stripes ≡ 1 }
    ensures { IfOk result (FitBatches (plan_of book.now)) }
{
    let mut batches = Batches::new(alloc, 1)?;
    add(book, &mut batches, 0, one)?;
    add(book, &mut batches, 0, other)?;
    Ok(batches)
}

// Returns why a book with two chunks can't be closed after the first put.
fn fault_after_one_put<R: Wait>(rt: &R, alloc: Global) -> Result<Option<CloseFault>, OutOfMemory> {
    let (book, mut seat) = sums(alloc, 1, 2, 1, 1)?;
    let batches = two_numbers(alloc, &book, 4, 5)?;
    let _ = put_next(rt, &book, &mut seat, &batches);
    Ok(book.close(seat).err())
}

#[test]
fn a_missing_put_is_counted(rt: HostRuntime) -> Result<(), Fail> {
    let fault = fault_after_one_put(&rt, rt.alloc())?;
    assert_eq!(rt; fault, Some(CloseFault::Unfinished { put: 1, of: 2 }));
    Ok(())
}

// Returns the sum of a book with two chunks: 4 and 5 are put for the first, 3 and -4 for the second.
fn sum_of_two_chunks<R: Wait>(rt: &R, alloc: Global) -> Result<Option<i128>, CloseFault> {
    let (book, mut seat) = sums(alloc, 1, 2, 1, 1)?;
    let batches = two_numbers(alloc, &book, 4, 5)?;
    if put_next(rt, &book, &mut seat, &batches).is_some() {
        let batches = two_numbers(alloc, &book, 3, -4)?;
        let _ = put_next(rt, &book, &mut seat, &batches);
    }
    Ok(sum_at(&book.close(seat)?, 0))
}

#[test]
fn a_sum_is_of_both_chunks(rt: HostRuntime) -> Result<(), Fail> {
    assert_eq!(rt; sum_of_two_chunks(&rt, rt.alloc())?, Some(8));
    Ok(())
}
