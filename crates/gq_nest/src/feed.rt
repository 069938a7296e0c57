// Feeding one input.
ghost use Rattle.std.specs.Prelude.{◌≡◌, ◌∷◌, [], true, map, OnOk, IsOk, IsErr};
ghost use Rattle.gq_value.specs.Accums as plain;
ghost use Rattle.gq_value.specs.Views.{val};
ghost use Rattle.gq_value.specs.AccumViews.{given};
ghost use Rattle.gq_nest.specs.declared.content.Content.{out-Content};
ghost use Rattle.gq_nest.specs.Forms.{Feeds, FeedsAt, FeedsGroup, FeedsParts};
ghost use Rattle.gq_nest.specs.Shows.{ListIn, is_one, is_plain, is_spoiled};

use crate::content::{Content, Parts};
use crate::copies::{duplicate, duplicate_parts, key_row};
use crate::map::SortedMap;
use crate::more::{add_item, add_key, push_item, put_entry};
use gq_accum::Fold;
use gq_base::OutOfMemory;
use gq_value::{Input, Value};
use std::alloc::Global;

/// Feeds one input. An input that no kind of this content takes changes nothing.
#[cycle(feeding)]
pub(crate) fn feed(alloc: Global, content: &mut Content, input: &Input) -> Result<(), OutOfMemory>
    ensures fed { OnOk result (Feeds (out-Content content.old) (given input.now) (out-Content content.new)) }
    ensures stays { is_spoiled content.old ≡ true → IsErr result }
    ensures plain { is_plain content.old ≡ true → is_one (given input.now) ≡ true → IsOk result }
{
    match input {
        Input::One(value) => feed_one(alloc, content, value),
        Input::Keyed(row, inputs) => match content {
            Content::Map(opening, entries) => match row.as_slice() {
                [key] => match inputs.as_slice() {
                    [input] => feed_entry(alloc, opening.get(), entries, key, input),
                    [] | [_, _, ..] => Ok(()),
                },
                [] | [_, _, ..] => Ok(()),
            },
            Content::Group(openings, groups) => {
                feed_group(
                    alloc,
                    inputs.as_slice(),
                    openings.get().as_slice(),
                    groups,
                    row.as_slice(),
                )
            }
            Content::Scalar(_) => Ok(()),
            Content::Set(_) => Ok(()),
            Content::Bag(_) => Ok(()),
            Content::List(_) => Ok(()),
            Content::Heap(_) => Ok(()),
            Content::Spoiled => Err(OutOfMemory),
        },
    }
}

/// Feeds one value, which isn't keyed.
fn feed_one(alloc: Global, content: &mut Content, value: &Value) -> Result<(), OutOfMemory>
    ensures fed { OnOk result (Feeds (out-Content content.old) (plain.One (val value.now)) (out-Content content.new)) }
    ensures stays { is_spoiled content.old ≡ true → IsErr result }
    ensures plain { is_plain content.old ≡ true → IsOk result }
{
    match content {
        Content::Scalar(scalar) => {
            scalar.feed(value);
            Ok(())
        }
        Content::Set(keys) => add_key(alloc, keys, value),
        Content::Bag(items) => add_item(alloc, items, value),
        Content::List(items) => add_item(alloc, items, value),
        Content::Heap(heap) => heap.add(alloc, value),
        Content::Map(_, _) | Content::Group(_, _) => Ok(()),
        Content::Spoiled => Err(OutOfMemory),
    }
}

/// Feeds one input to the content at a key. A new key starts with a copy of `opening`.
#[cycle(feeding)]
fn feed_entry(
    alloc: Global,
    opening: &Content,
    entries: &mut SortedMap<Value, Content>,
    key: &Value,
    input: &Input,
) -> Result<(), OutOfMemory>
    ensures { OnOk result (FeedsAt opening.now entries.old.entries (val key.now ∷ []) (given input.now) entries.new.entries) }
{
    match entries.get_mut(key) {
        Some(part) => feed(alloc, part, input),
        None => {
            let mut part = duplicate(alloc, opening)?;
            feed(alloc, &mut part, input)?;
            put_entry(alloc, entries, key.duplicate(alloc)?, part)
        }
    }
}

/// Feeds one input to each part of a key row. The parts of a new key row start as copies of `openings`.
#[cycle(feeding)]
fn feed_group(
    alloc: Global,
    inputs: &[Input],
    openings: &[Content],
    groups: &mut SortedMap<Vec<Value>, Parts>,
    row: &[Value],
) -> Result<(), OutOfMemory>
    ensures { OnOk result (FeedsGroup openings.now groups.old.entries (map val row.now) (map given inputs.now) groups.new.entries) }
{
    match groups.get_mut(row) {
        Some(parts) => feed_parts(alloc, inputs, parts),
        None => {
            let mut parts = duplicate_parts(alloc, openings)?;
            feed_parts(alloc, inputs, &mut parts)?;
            put_entry(alloc, groups, key_row(alloc, row)?, parts)
        }
    }
}

/// Feeds one input to each part, if there are as many inputs as parts.
#[cycle(feeding)]
fn feed_parts(alloc: Global, inputs: &[Input], parts: &mut Parts) -> Result<(), OutOfMemory>
    ensures { OnOk result (FeedsParts parts.old (map given inputs.now) parts.new) }
{
    if inputs.len() != parts.len() {
        return Ok(());
    }
    for (i, input) in inputs.iter().enumerate() {
        feed(alloc, parts.at_mut(i), input)?;
    }
    Ok(())
}

/// Appends a value to a list. A spoiled content returns `OutOfMemory`.
pub(crate) fn push(content: &mut Content, x: Value) -> Result<(), OutOfMemory>
    requires { ListIn (out-Content content.old) }
    ensures pushed { OnOk result (Feeds (out-Content content.old) (plain.One (val x)) (out-Content content.new)) }
    ensures stays { is_spoiled content.old ≡ true → IsErr result }
    ensures list { OnOk result (ListIn (out-Content content.new)) }
{
    match content {
        Content::List(items) => push_item(items, x),
        Content::Spoiled => Err(OutOfMemory),
        _ => unreachable!(),
    }
}
