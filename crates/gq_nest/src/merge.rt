// Merging contents.
ghost use Rattle.std.specs.Prelude.{◌≡◌, ◌∷◌, [], true, map, OnOk, IsOk, IsErr};
ghost use Rattle.gq_value.specs.Views.{val};
ghost use Rattle.gq_nest.specs.declared.content.Content.{out-Content};
ghost use Rattle.gq_nest.specs.Forms.{Merges, MergesAt, MergesParts, MergesGroup, Unites, UnitesGroups, entries_in, groups_in};
ghost use Rattle.gq_nest.specs.Shows.{is_plain, is_spoiled};

use crate::content::{Content, Parts};
use crate::copies::{duplicate, duplicate_parts, key_row};
use crate::map::SortedMap;
use crate::more::{add_items, add_keys, put_entry};
use gq_accum::Fold;
use gq_base::OutOfMemory;
use gq_value::Value;
use std::alloc::Global;

/// Merges `other` into `content`. An `other` of another form changes nothing.
#[cycle(merging)]
pub(crate) fn merge(
    alloc: Global,
    content: &mut Content,
    other: &Content,
) -> Result<(), OutOfMemory>
    ensures merged { OnOk result (Merges (out-Content content.old) (out-Content other.now) (out-Content content.new)) }
    ensures stays { is_spoiled content.old ≡ true → IsErr result }
    ensures plain { is_plain content.old ≡ true → is_plain other.now ≡ true → IsOk result }
{
    match content {
        Content::Map(opening, entries) => merge_entries(alloc, opening.get(), entries, other),
        Content::Group(openings, groups) => {
            merge_groups(alloc, openings.get().as_slice(), groups, other)
        },
        _ => merge_flat(alloc, content, other),
    }
}

/// Merges contents that aren't keyed.
fn merge_flat(alloc: Global, content: &mut Content, other: &Content) -> Result<(), OutOfMemory>
    ensures merged { OnOk result (Merges (out-Content content.old) (out-Content other.now) (out-Content content.new)) }
    ensures stays { is_spoiled content.old ≡ true → IsErr result }
    ensures plain { is_plain content.old ≡ true → is_plain other.now ≡ true → IsOk result }
{
    match content {
        Content::Scalar(mine) => match other {
            Content::Scalar(theirs) => {
                mine.merge(theirs);
                Ok(())
            }
            _ => passed(other),
        },
        Content::Set(keys) => match other {
            Content::Set(more) => add_keys(alloc, keys, more),
            _ => passed(other),
        },
        Content::Bag(items) => match other {
            Content::Bag(more) => add_items(alloc, items, more.as_slice()),
            _ => passed(other),
        },
        Content::List(items) => match other {
            Content::List(more) => add_items(alloc, items, more.as_slice()),
            _ => passed(other),
        },
        Content::Heap(heap) => match other {
            Content::Heap(more) => heap.add_all(alloc, more.tuples.as_slice()),
            _ => passed(other),
        },
        Content::Map(_, _) | Content::Group(_, _) | Content::Spoiled => Err(OutOfMemory),
    }
}

/// A content of another form is passed over. A spoiled one isn't: it has no form, since memory ran out for it.
fn passed(other: &Content) -> Result<(), OutOfMemory>
    ensures { is_spoiled other.now ≡ true → IsErr result }
{
    match other {
        Content::Scalar(_)
        | Content::Set(_)
        | Content::Bag(_)
        | Content::List(_)
        | Content::Heap(_)
        | Content::Map(_, _)
        | Content::Group(_, _) => Ok(()),
        Content::Spoiled => Err(OutOfMemory),
    }
}

/// Merges the entries of the map `other`.
#[cycle(merging)]
fn merge_entries(
    alloc: Global,
    opening: &Content,
    entries: &mut SortedMap<Value, Content>,
    other: &Content,
) -> Result<(), OutOfMemory>
    ensures { OnOk result (Unites opening.now entries.old.entries (entries_in (out-Content other.now)) entries.new.entries) }
{
    match other {
        Content::Map(_, more) => {
            for (key, part) in more {
                merge_entry(alloc, opening, entries, key, part)?;
            }
            Ok(())
        }
        _ => passed(other),
    }
}

/// Merges a content into the one at a key. A new key starts with a copy of `opening`.
#[cycle(merging)]
fn merge_entry(
    alloc: Global,
    opening: &Content,
    entries: &mut SortedMap<Value, Content>,
    key: &Value,
    part: &Content,
) -> Result<(), OutOfMemory>
    ensures { OnOk result (MergesAt opening.now entries.old.entries (val key.now ∷ []) part.now entries.new.entries) }
{
    match entries.get_mut(key) {
        Some(mine) => merge(alloc, mine, part),
        None => {
            let mut mine = duplicate(alloc, opening)?;
            merge(alloc, &mut mine, part)?;
            put_entry(alloc, entries, key.duplicate(alloc)?, mine)
        }
    }
}

/// Merges the key rows, with their parts, of the group `other`.
#[cycle(merging)]
fn merge_groups(
    alloc: Global,
    openings: &[Content],
    groups: &mut SortedMap<Vec<Value>, Parts>,
    other: &Content,
) -> Result<(), OutOfMemory>
    ensures { OnOk result (UnitesGroups openings.now groups.old.entries (groups_in (out-Content other.now)) groups.new.entries) }
{
    match other {
        Content::Group(_, more) => {
            for (row, parts) in more {
                merge_group(alloc, parts.as_slice(), openings, groups, row.as_slice())?;
            }
            Ok(())
        }
        _ => passed(other),
    }
}

/// Merges parts into those of a key row. The parts of a new key row start as copies of `openings`.
#[cycle(merging)]
fn merge_group(
    alloc: Global,
    parts: &[Content],
    openings: &[Content],
    groups: &mut SortedMap<Vec<Value>, Parts>,
    row: &[Value],
) -> Result<(), OutOfMemory>
    ensures { OnOk result (MergesGroup openings.now groups.old.entries (map val row.now) parts.now groups.new.entries) }
{
    match groups.get_mut(row) {
        Some(mine) => merge_parts(alloc, parts, mine),
        None => {
            let mut mine = duplicate_parts(alloc, openings)?;
            merge_parts(alloc, parts, &mut mine)?;
            put_entry(alloc, groups, key_row(alloc, row)?, mine)
        }
    }
}

/// Merges each part into the one at the same index, if there are as many.
#[cycle(merging)]
fn merge_parts(alloc: Global, parts: &[Content], mine: &mut Parts) -> Result<(), OutOfMemory>
    ensures { OnOk result (MergesParts mine.old parts.now mine.new) }
{
    if parts.len() != mine.len() {
        return Ok(());
    }
    for (i, part) in parts.iter().enumerate() {
        merge(alloc, mine.at_mut(i), part)?;
    }
    Ok(())
}
