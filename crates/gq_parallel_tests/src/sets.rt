// A book with a single set, which takes memory at each put.
ghost use Rattle.std.specs.Prelude.{◌≡◌, Some, IfOk, slice_get, [], ◌∷◌};
ghost use Rattle.gq_value.specs.declared.kind.Kind.TheVariants.{Set};
ghost use Rattle.gq_value.specs.declared.kind.BaseType.TheVariants.{Int};
ghost use Rattle.gq_stripe.specs.Seats.{plan_of, IsIdle, FitBatches};

use crate::stripes::put_next;
use gq_base::OutOfMemory;
use gq_core::Batches;
use gq_stripe::{Book, Layout, Seat};
use gq_value::{BaseType, Input, Kind, Value};
use std::alloc::Global;
use std::sync::Wait;
use std::test::Fail;

// Opens a book with a single set and two chunks.
fn set_book(alloc: Global) -> Result<(Book, Seat), OutOfMemory>
    ensures idle { IfOk result (λ r. IsIdle r.0 r.1) }
    ensures layout { IfOk result (λ r. (plan_of r.0).layout ≡ Set Int ∷ []) }
    ensures stripes { IfOk result (λ r. (plan_of r.0).stripes ≡ 1) }
{
    let mut layout = Layout::new(alloc);
    layout.push(Kind::Set(BaseType::Int))?;
    Book::open(alloc, &layout, 2, 1, 1)
}

// Returns the batches of one chunk for the set: one number.
fn one_number(alloc: Global, book: &Book, x: i64) -> Result<Batches, OutOfMemory>
    requires layout { (plan_of book.now).layout ≡ Set Int ∷ [] }
    requires stripes { (plan_of book.now).stripes ≡ 1 }
    ensures { IfOk result (FitBatches (plan_of book.now)) }
{
    let _ = book;
    let mut batches = Batches::new(alloc, 1)?;
    batches.add(0, Input::One(Value::Int(x)))?;
    Ok(batches)
}

// Returns whether each of two puts found memory, and whether the book could be closed then.
fn puts_at_a_set<R: Wait>(
    rt: &R,
    alloc: Global,
) -> Result<(Option<bool>, Option<bool>, bool), OutOfMemory> {
    let (book, mut seat) = set_book(alloc)?;
    let batches = one_number(alloc, &book, 7)?;
    let one = put_next(rt, &book, &mut seat, &batches);
    let other = if one.is_some() {
        put_next(rt, &book, &mut seat, &batches)
    } else {
        None
    };
    Ok((one, other, book.close(seat).is_ok()))
}

#[test]
fn a_put_that_found_no_memory_spoils_each_later_one(rt: HostRuntime) -> Result<(), Fail> {
    let (one, other, closed) = puts_at_a_set(&rt, rt.alloc())?;
    assert!(rt; one.is_some() && other.is_some());
    if one == Some(false) {
        assert_eq!(rt; other, Some(false));
    }
    if other == Some(false) {
        assert!(rt; !closed);
    }
    Ok(())
}
