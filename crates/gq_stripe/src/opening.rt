// The initial contents of a table.
ghost use Rattle.std.specs.Prelude.{◌≡◌, ◌+◌, ◌*◌, ◌<◌, ◌≤◌, [], length, replicate, slice_get, slice_set, Some, IfOk, OnOk};
ghost use Rattle.gq_value.specs.declared.kind.Kind.{Kind};
ghost use Rattle.gq_value.specs.AccumViews.{accum_of};
ghost use Rattle.gq_accum_laws.specs.After as model;
ghost use Rattle.gq_nest.specs.Shows.{Shows};
ghost use Rattle.gq_stripe.specs.Opening.{AreOpen, AreRows, IsPushedAt};

use crate::layout::Layout;
use crate::stripe::Stripe;
use gq_base::{List, OutOfMemory};
use gq_nest::Content;
use std::alloc::Global;
use std::mem;

/// Returns the initial words: nothing is drawn, and no ticket is taken or served.
pub(crate) fn first_words(alloc: Global, stripes: u32) -> Result<Vec<u64>, OutOfMemory>
    requires { stripes ≤ 256 }
    ensures { IfOk result (λ v. v.items ≡ replicate (2 * stripes + 1) 0) }
{
    Ok(vec![in alloc; 0u64; 2 * stripes as usize + 1]?)
}

/// Returns each stripe with the contents of its targets before any input.
pub(crate) fn first_stripes(
    alloc: Global,
    layout: &Layout,
    stripes: u32,
) -> Result<Vec<Option<Stripe>>, OutOfMemory>
    requires { 1 ≤ stripes }
    ensures { IfOk result (λ v. AreOpen layout.now stripes v.items) }
{
    let mut rows = first_rows(alloc, layout, stripes)?;
    let mut slots = Vec::with_capacity(alloc, stripes as usize)?;
    for stripe in 0..stripes {
        slots.push(Some(Stripe {
            contents: take_row(alloc, &mut rows, stripe as usize),
            laid: 0,
            spoiled: false,
        }))?;
    }
    Ok(slots)
}

/// Returns a row of contents for each stripe, in one pass over the targets, which are distributed over the stripes in
/// cyclic order.
fn first_rows(
    alloc: Global,
    layout: &Layout,
    stripes: u32,
) -> Result<Vec<List<Content>>, OutOfMemory>
    requires { 1 ≤ stripes }
    ensures { IfOk result (λ v. AreRows layout.now stripes v.items) }
{
    let mut rows = empty_rows(alloc, stripes)?;
    let mut stripe = 0u32;
    for run in layout.runs() {
        for _ in 0..run.targets {
            let content = Content::fresh(alloc, &run.kind)?;
            push_at(&mut rows, stripe as usize, content)?;
            stripe = (stripe + 1) % stripes;
        }
    }
    Ok(rows)
}

/// Returns an empty row for each stripe.
fn empty_rows(alloc: Global, stripes: u32) -> Result<Vec<List<Content>>, OutOfMemory>
    ensures { IfOk result (λ v. v.items ≡ replicate stripes []) }
{
    let mut rows = Vec::with_capacity(alloc, stripes as usize)?;
    for _stripe in 0..stripes {
        rows.push(List::new(alloc))?;
    }
    Ok(rows)
}

/// Takes a row out, and leaves an empty one in its place.
fn take_row(alloc: Global, rows: &mut Vec<List<Content>>, at: usize) -> List<Content>
    requires { at < length rows.old.items }
    ensures row { slice_get rows.old.items at ≡ Some result }
    ensures left { rows.new.items ≡ slice_set rows.old.items at [] }
{
    mem::replace(&mut rows[at], List::new(alloc))
}

/// Appends a content to a row.
fn push_at(rows: &mut Vec<List<Content>>, at: usize, content: Content) -> Result<(), OutOfMemory>
    requires { at < length rows.old.items }
    ensures { OnOk result (IsPushedAt at content rows.old.items rows.new.items) }
{
    rows[at].push(content)
}
