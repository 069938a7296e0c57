// Reads methods of accumulators: `size`, and `get` and `containsKey` with an INT key.
ghost use Rattle.std.specs.Prelude.{◌≡◌, ◌∷◌, [], IfSome, pos, true};
ghost use Rattle.std.specs.Option.{option_copied};
ghost use Rattle.gq_value.specs.declared.value.Value.TheVariants as value;
ghost use Rattle.gq_value.specs.Val.{Int, Truth};
ghost use Rattle.gq_tree.specs.Tree as tree;
ghost use Rattle.gq_rules_calendar.specs.Gregorian.{gregorian};
ghost use Rattle.gq_plan_ir.specs.ExprView.{view, view_parts};
ghost use Rattle.gq_plan_ir.specs.Reference.{Place};
ghost use Rattle.gq_exec_contribute.specs.Asked.{Begins, HasEntry, HasIntKey, HasSize, HoldsKey, IsBehind, IsCollection, IsGot, IsKey, IsSize, found_in};
ghost use Rattle.gq_exec_contribute.specs.Prepared.{AreAllCells, AreIn, IsInt, IsTruth, sees_in};
ghost use Rattle.gq_frame.specs.declared.slots.Slots.{Slots};

use crate::cells::{Taken, int_in};
use crate::held::{content_at, held_int, held_truth};
use crate::ints::short_int;
use crate::leaves::Leaves;
use crate::names::vertex_at;
use gq_eval_context::BlockContext;
use gq_frame::Accums;
use gq_graph::Candidate;
use gq_nest::{Content, SortedMap};
use gq_plan_ir::{Behind, Expr, Method};
use gq_value::Value;

/// An accumulator that an expression begins with: its slot, its vertex, which is 0 for a global one, and the parts after it.
#[derive(Clone, Copy)]
pub(crate) struct Accumulator<'a> {
    pub slot: u32,
    pub vertex: u32,
    pub parts: &'a [Behind],
}

/// The accumulator that an expression begins with: a global one, or an attached one of a named vertex.
fn leading_accumulator<'a>(
    first: &Expr,
    parts: &'a [Behind],
    leaves: &Leaves<'_>,
    c: &Candidate,
) -> Option<Accumulator<'a>>
    ensures { IfSome result (Begins gregorian leaves.now c.now (tree.Post (view first.now) (view_parts parts.entry.now))) }
{
    match first {
        Expr::Global(slot) => Some(Accumulator {
            slot: *slot,
            vertex: 0,
            parts,
        }),
        Expr::Name(place) => match parts {
            [] => None,
            [part, others @ ..] => attached(part, others, leaves, c, *place),
        },
        _ => None,
    }
}

/// The accumulator that a part attaches to the vertex at `place`.
fn attached<'a>(
    part: &Behind,
    others: &'a [Behind],
    leaves: &Leaves<'_>,
    c: &Candidate,
    place: u32,
) -> Option<Accumulator<'a>>
    ensures { IfSome result (Begins gregorian leaves.now c.now (tree.Post (tree.Name (Place place)) (view_parts (part.now ∷ others.entry.now)))) }
{
    match part {
        Behind::Attached(slot) => match vertex_at(leaves, c, place) {
            Some(vertex) => Some(Accumulator {
                slot: *slot,
                vertex,
                parts: others,
            }),
            None => None,
        },
        _ => None,
    }
}

/// The INT result of the methods called on a global accumulator, or on an attached one of a named vertex.
pub(crate) fn int_of_parts(
    first: &Expr,
    parts: &[Behind],
    over: &BlockContext<'_>,
    leaves: &Leaves<'_>,
    accums: &Accums,
    c: &Candidate,
) -> Option<i64>
    requires { AreIn accums.now leaves.now }
    ensures { IfSome result (IsInt (sees_in gregorian over.now leaves.now accums.now c.now) (tree.Post (view first.now) (view_parts parts.now))) }
{
    match leading_accumulator(first, parts, leaves, c) {
        Some(at) => int_asked(at.parts, over, leaves, accums, c, at.slot, at.vertex),
        None => None,
    }
}

/// The BOOL value of a global accumulator, or of an attached one of a named vertex, or the result of its methods.
pub(crate) fn truth_of_parts(
    first: &Expr,
    parts: &[Behind],
    over: &BlockContext<'_>,
    leaves: &Leaves<'_>,
    accums: &Accums,
    c: &Candidate,
) -> Option<bool>
    requires { AreIn accums.now leaves.now }
    ensures { IfSome result (IsTruth (sees_in gregorian over.now leaves.now accums.now c.now) (tree.Post (view first.now) (view_parts parts.now))) }
{
    match leading_accumulator(first, parts, leaves, c) {
        Some(at) => truth_asked(at.parts, over, leaves, accums, c, at.slot, at.vertex),
        None => None,
    }
}

/// The INT that the accumulator of a slot at a vertex gives: its value, its size, its entry at an INT key, or the
/// size of that entry.
fn int_asked(
    parts: &[Behind],
    over: &BlockContext<'_>,
    leaves: &Leaves<'_>,
    accums: &Accums,
    c: &Candidate,
    slot: u32,
    vertex: u32,
) -> Option<i64>
    requires { AreIn accums.now leaves.now }
    ensures { IfSome result (λ x. IsBehind gregorian over.now leaves.now accums.now c.now slot vertex parts.now (Int x)) }
{
    match parts {
        [] => held_int(over, leaves, accums, slot, vertex),
        [part] => one_asked(part, over, leaves, accums, c, slot, vertex),
        [first, next] => match got(first, over, leaves, accums, c, slot, vertex) {
            Some(content) => {
                if is_size(next) {
                    size_in(content)
                } else {
                    None
                }
            }
            None => None,
        },
        [_, _, _, ..] => None,
    }
}

/// The INT result of one method: `size`, or `get` of an entry that is an INT.
fn one_asked(
    part: &Behind,
    over: &BlockContext<'_>,
    leaves: &Leaves<'_>,
    accums: &Accums,
    c: &Candidate,
    slot: u32,
    vertex: u32,
) -> Option<i64>
    requires { AreIn accums.now leaves.now }
    ensures { IfSome result (λ x. IsBehind gregorian over.now leaves.now accums.now c.now slot vertex (part.now ∷ []) (Int x)) }
{
    if is_size(part) {
        match content_at(accums, leaves, slot, vertex) {
            Some(content) => size_in(content),
            None => None,
        }
    } else {
        match got(part, over, leaves, accums, c, slot, vertex) {
            Some(content) => int_in(content),
            None => None,
        }
    }
}

/// The truth that the accumulator of a slot at a vertex gives: its value, or whether it holds an INT key.
fn truth_asked(
    parts: &[Behind],
    over: &BlockContext<'_>,
    leaves: &Leaves<'_>,
    accums: &Accums,
    c: &Candidate,
    slot: u32,
    vertex: u32,
) -> Option<bool>
    requires { AreIn accums.now leaves.now }
    ensures { IfSome result (λ b. IsBehind gregorian over.now leaves.now accums.now c.now slot vertex parts.now (Truth b)) }
{
    match parts {
        [] => held_truth(over, leaves, accums, slot, vertex),
        [part] => held_key(part, over, leaves, accums, c, slot, vertex),
        [_, _, ..] => None,
    }
}

/// The result of `containsKey` with an INT key; `None` for other methods.
fn held_key(
    part: &Behind,
    over: &BlockContext<'_>,
    leaves: &Leaves<'_>,
    accums: &Accums,
    c: &Candidate,
    slot: u32,
    vertex: u32,
) -> Option<bool>
    requires { AreIn accums.now leaves.now }
    ensures { IfSome result (λ b. IsBehind gregorian over.now leaves.now accums.now c.now slot vertex (part.now ∷ []) (Truth b)) }
{
    match part {
        Behind::Method(method, arguments) => match method {
            Method::ContainsKey => match key(arguments.as_slice(), over, leaves, accums, c, slot) {
                Some(key) => match content_at(accums, leaves, slot, vertex) {
                    Some(content) => has_key(content, key),
                    None => None,
                },
                None => None,
            },
            _ => None,
        },
        _ => None,
    }
}

/// The entry that `get` finds at an INT key; `None` for other methods, and if there is no entry.
fn got<'a>(
    part: &Behind,
    over: &BlockContext<'_>,
    leaves: &Leaves<'_>,
    accums: &'a Accums,
    c: &Candidate,
    slot: u32,
    vertex: u32,
) -> Option<&'a Content>
    requires { AreIn accums.now leaves.now }
    ensures { IfSome result (λ content. IsGot gregorian over.now leaves.now accums.entry.now c.now slot vertex part.now content.now) }
{
    match part {
        Behind::Method(method, arguments) => match method {
            Method::Get => match key(arguments.as_slice(), over, leaves, accums, c, slot) {
                Some(key) => match content_at(accums, leaves, slot, vertex) {
                    Some(content) => entry(content, key),
                    None => None,
                },
                None => None,
            },
            _ => None,
        },
        _ => None,
    }
}

/// Whether the part is a call of `size` without arguments.
fn is_size(part: &Behind) -> bool
    ensures { result ≡ true → IsSize part.now }
{
    match part {
        Behind::Method(method, arguments) => match method {
            Method::Size => arguments.len() == 0,
            _ => false,
        },
        _ => false,
    }
}

/// The only argument, if it is an INT and the slot's accumulators have INT keys.
fn key(
    arguments: &[Expr],
    over: &BlockContext<'_>,
    leaves: &Leaves<'_>,
    accums: &Accums,
    c: &Candidate,
    slot: u32,
) -> Option<i64>
    requires { AreIn accums.now leaves.now }
    ensures { IfSome result (IsKey accums.now (sees_in gregorian over.now leaves.now accums.now c.now) slot arguments.now) }
{
    if !has_int_key(leaves, slot) {
        return None;
    }
    match arguments {
        [argument] => short_int(argument, over, leaves, accums, c),
        [] | [_, _, ..] => None,
    }
}

/// Whether the slot's accumulators have exactly one key, of type INT.
fn has_int_key(leaves: &Leaves<'_>, slot: u32) -> bool
    ensures { (slots : Slots) → AreAllCells slots leaves.now.cells → result ≡ true → HasIntKey slots slot }
{
    match leaves.cells.get(slot as usize) {
        Some(cells) => match cells.takes {
            Taken::Keyed(count, _) => count == 1,
            _ => false,
        },
        None => false,
    }
}

/// The number of elements or keys of a collection.
fn size_in(content: &Content) -> Option<i64>
    ensures { IfSome result (HasSize content.now) }
{
    if !is_collection(content) {
        return None;
    }
    within(content.size())
}

/// Whether the content is a collection, not a number, truth or average.
#[tactic(auto, using(crate::proofs::AskedLemmas::collection_laws))]
fn is_collection(content: &Content) -> bool
    ensures { result ≡ true → IsCollection content.now }
{
    match content {
        Content::Scalar(_) | Content::Spoiled => false,
        Content::Set(_) | Content::Bag(_) | Content::List(_) => true,
        Content::Heap(_) | Content::Map(_, _) | Content::Group(_, _) => true,
    }
}

fn within(count: u64) -> Option<i64>
    ensures { IfSome result (λ n. n ≡ pos count) }
{
    match i64::try_from(count) {
        Ok(count) => Some(count),
        Err(_) => None,
    }
}

/// The entry of a map at a key.
fn entry(content: &Content, key: i64) -> Option<&Content>
    ensures { IfSome result (λ part. HasEntry content.entry.now key part.now) }
{
    match content {
        Content::Map(_, entries) => looked_up(entries, key),
        _ => None,
    }
}

/// Whether a map has a key.
fn has_key(content: &Content, key: i64) -> Option<bool>
    ensures { IfSome result (HoldsKey content.now key) }
{
    match content {
        Content::Map(_, entries) => match looked_up(entries, key) {
            Some(_) => Some(true),
            None => Some(false),
        },
        _ => None,
    }
}

/// The entry at an INT key, if there is one.
fn looked_up(entries: &SortedMap<Value, Content>, key: i64) -> Option<&Content>
    ensures { option_copied result ≡ found_in (value.Int key) entries.entry.now.entries }
{
    entries.get(&Value::Int(key))
}
