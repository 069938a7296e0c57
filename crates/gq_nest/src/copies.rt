// Deep copies of contents.
ghost use Rattle.std.specs.Prelude.{◌≡◌, IfOk};
ghost use Rattle.gq_nest.specs.declared.content.Content.{out-Content};
ghost use Rattle.gq_nest.specs.Forms.{Copies, CopiesEntries, CopiesGroups, CopyEach, IsGroup, IsMap, entries_in, groups_in};

use crate::content::{Content, Heap, Parts};
use crate::map::SortedMap;
use crate::more::{add_keys, put_entry};
use crate::set::SortedSet;
use gq_base::{Boxed, List, OutOfMemory};
use gq_value::{Value, duplicate_row};
use std::alloc::Global;

/// A deep copy. A spoiled content returns `OutOfMemory`.
#[cycle(copying)]
pub(crate) fn duplicate(alloc: Global, content: &Content) -> Result<Content, OutOfMemory>
    ensures { IfOk result (λ copy. Copies (out-Content content.now) (out-Content copy)) }
{
    match content {
        Content::Scalar(scalar) => Ok(Content::Scalar(*scalar)),
        Content::Set(keys) => {
            let mut copy = SortedSet::with_capacity(alloc, keys.len())?;
            add_keys(alloc, &mut copy, keys)?;
            Ok(Content::Set(copy))
        }
        Content::Bag(items) => Ok(Content::Bag(duplicate_row(alloc, items.as_slice())?)),
        Content::List(items) => Ok(Content::List(duplicate_row(alloc, items.as_slice())?)),
        Content::Heap(heap) => Ok(Content::Heap(Heap {
            capacity: heap.capacity,
            order: Boxed::new(alloc, List::from_slice(alloc, heap.order.get().as_slice())?)?,
            tuples: duplicate_row(alloc, heap.tuples.as_slice())?,
        })),
        Content::Map(opening, _) => {
            let opening = duplicate(alloc, opening.get())?;
            let copy = duplicate_entries(alloc, content)?;
            Ok(Content::Map(Boxed::new(alloc, opening)?, copy))
        }
        Content::Group(openings, _) => {
            let openings = duplicate_parts(alloc, openings.get().as_slice())?;
            let copy = duplicate_groups(alloc, content)?;
            Ok(Content::Group(Boxed::new(alloc, openings)?, copy))
        }
        Content::Spoiled => Err(OutOfMemory),
    }
}

/// Deep copies of parts, in the same order.
#[cycle(copying)]
pub(crate) fn duplicate_parts(alloc: Global, parts: &[Content]) -> Result<Parts, OutOfMemory>
    ensures { IfOk result (CopyEach parts.now) }
{
    let mut copy = List::from_vec(Vec::with_capacity(alloc, parts.len())?);
    for part in parts {
        copy.push(duplicate(alloc, part)?)?;
    }
    Ok(copy)
}

/// A copy of a group's key rows with their parts.
#[cycle(copying)]
fn duplicate_groups(
    alloc: Global,
    content: &Content,
) -> Result<SortedMap<Vec<Value>, Parts>, OutOfMemory>
    requires { IsGroup (out-Content content.now) }
    ensures { IfOk result (λ copy. CopiesGroups (groups_in (out-Content content.now)) copy.entries) }
{
    match content {
        Content::Group(_, groups) => {
            let mut copy = SortedMap::with_capacity(alloc, groups.len())?;
            for (row, parts) in groups {
                let parts = duplicate_parts(alloc, parts.as_slice())?;
                put_entry(alloc, &mut copy, key_row(alloc, row.as_slice())?, parts)?;
            }
            Ok(copy)
        }
        _ => unreachable!(),
    }
}

/// A copy of a key row.
pub(crate) fn key_row(alloc: Global, row: &[Value]) -> Result<Vec<Value>, OutOfMemory>
    ensures { IfOk result (λ copy. copy.items ≡ row.now) }
{
    let mut copy = Vec::with_capacity(alloc, row.len())?;
    for value in row {
        copy.push(value.duplicate(alloc)?)?;
    }
    Ok(copy)
}

/// A copy of a map's entries.
#[cycle(copying)]
fn duplicate_entries(
    alloc: Global,
    content: &Content,
) -> Result<SortedMap<Value, Content>, OutOfMemory>
    requires { IsMap (out-Content content.now) }
    ensures { IfOk result (λ copy. CopiesEntries (entries_in (out-Content content.now)) copy.entries) }
{
    match content {
        Content::Map(_, entries) => {
            let mut copy = SortedMap::with_capacity(alloc, entries.len())?;
            for (key, part) in entries {
                let part = duplicate(alloc, part)?;
                put_entry(alloc, &mut copy, key.duplicate(alloc)?, part)?;
            }
            Ok(copy)
        }
        _ => unreachable!(),
    }
}
