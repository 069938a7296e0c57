// Contents.
ghost use Rattle.std.specs.Prelude.{◌≡◌, ◌++◌, IfOk, OnOk, Some, map, slice_get, true};
ghost use Rattle.gq_json.specs.declared.out.Out.TheVariants as json;
ghost use Rattle.gq_value.specs.AccumViews.{accum_of};
ghost use Rattle.gq_value.specs.Typed.{is_scalar};
ghost use Rattle.gq_value.specs.Views.{val};
ghost use Rattle.gq_value.specs.Order.{place};
ghost use Rattle.gq_accum_laws.specs.Gather.{distinct};
ghost use Rattle.gq_nest.specs.Tells.{Tells};
ghost use Rattle.gq_rules_calendar.specs.Gregorian.{gregorian};
ghost use Rattle.gq_eval_operand.specs.Meant.{keys_are, parts_are, sort_is};
ghost use Rattle.gq_eval_context.specs.Looks.{world_over};
ghost use Rattle.gq_output.specs.Printed.{AreShown, IsGroup, IsMap, IsShown, content_shown, elements_out, elements_shown, groups_shown, key_fields, map_shown, named_shown, part_kinds, parts_shown, plain_shown, scalar_shown, value_shown};

use crate::keys::key_text;
use crate::values::{out_value, put, put_value, values};
use gq_base::{List, OutOfMemory};
use gq_eval_context::BlockContext;
use gq_eval_operand::Sort;
use gq_json::{Members, Out, Outs};
use gq_nest::{Content, Parts, SortedSet};
use gq_value::{BaseType, GroupShape, Kind, Txt, Value};
use std::alloc::Global;

/// Prints a content of a kind: a map as an object by the texts of its keys, a group as a list of objects, an average as
/// its fraction.
///
/// The content is borrowed; only a bag or heap is copied, for sorting.
#[cycle(contents)]
#[tactic(auto, using(gq_value::proofs::AccumLemmas::accum_laws, crate::proofs::ContentLemmas::content_laws))]
pub fn out_content(
    alloc: Global,
    over: &BlockContext<'_>,
    kind: &Kind,
    content: &Content,
) -> Result<Out, OutOfMemory>
    requires { IsShown (accum_of kind.now) content.now }
    ensures { IfOk result (λ out. out ≡ content_shown (world_over gregorian over.now) (accum_of kind.now) content.now) }
{
    match kind {
        Kind::Sum(_) | Kind::Min(_) | Kind::Max(_) | Kind::Avg => Ok(scalar(alloc, kind, content)),
        Kind::Or | Kind::And | Kind::BitOr | Kind::BitAnd => Ok(scalar(alloc, kind, content)),
        Kind::Set(base) => collection(alloc, over, Sort::of(base), content),
        Kind::Bag(base) => collection(alloc, over, Sort::of(base), content),
        Kind::List(base) => collection(alloc, over, Sort::of(base), content),
        Kind::Heap(shape) => {
            let sort = Sort::Tuple(shape.tuple, shape.fields.as_slice());
            collection(alloc, over, sort, content)
        }
        Kind::Map(_, inner) => Ok(Out::Object(entries(alloc, over, inner.get(), content)?)),
        Kind::Group(shape) => Ok(Out::List(groups(alloc, over, shape, content)?)),
    }
}

/// Prints a number, a truth value or an average.
#[tactic(auto, using(crate::proofs::ContentLemmas::scalar_laws))]
fn scalar(alloc: Global, kind: &Kind, content: &Content) -> Out
    requires shown { IsShown (accum_of kind.now) content.now }
    requires scalar { is_scalar (accum_of kind.now) ≡ true }
    ensures { result ≡ scalar_shown (accum_of kind.now) content.now }
{
    plain(alloc, content.value())
}

/// Prints a value that a scalar has. Texts, vertices and tuples, which none has, print as an empty list.
#[tactic(auto, using(gq_value::specs::ViewLaws::view_laws))]
fn plain(alloc: Global, value: Value) -> Out
    ensures { result ≡ plain_shown (val value) }
{
    match value {
        Value::Int(x) => Out::Int(x),
        Value::UInt(n) => Out::UInt(n),
        Value::Bool(truth) => Out::Bool(truth),
        Value::Fraction(average) => Out::Fraction(average),
        Value::Text(_) | Value::Vertex(_) | Value::Tuple(_) => Out::List(List::new(alloc)),
    }
}

/// Prints a set, bag, list or heap, as a list.
#[tactic(auto, using(crate::proofs::ContentLemmas::list_made))]
fn collection(
    alloc: Global,
    over: &BlockContext<'_>,
    sort: Sort<'_>,
    content: &Content,
) -> Result<Out, OutOfMemory>
    ensures { IfOk result (λ out. Tells content.now out (elements_out (world_over gregorian over.now) (sort_is sort.entry))) }
{
    let outs = elements(alloc, over, sort, content)?;
    Ok(Out::List(outs))
}

/// Prints the elements of a set, bag, list or heap. Other contents have none.
fn elements(
    alloc: Global,
    over: &BlockContext<'_>,
    sort: Sort<'_>,
    content: &Content,
) -> Result<Outs, OutOfMemory>
    ensures { IfOk result (λ outs. Tells content.now outs (elements_shown (world_over gregorian over.now) (sort_is sort.entry))) }
{
    match content {
        Content::Set(keys) => keys_of(alloc, over, sort, keys),
        Content::List(items) => values(alloc, over, sort, items.as_slice()),
        _ => in_order(alloc, over, sort, content),
    }
}

/// Prints copies of the elements, sorted.
fn in_order(
    alloc: Global,
    over: &BlockContext<'_>,
    sort: Sort<'_>,
    content: &Content,
) -> Result<Outs, OutOfMemory>
    ensures { IfOk result (λ outs. Tells content.now outs (elements_shown (world_over gregorian over.now) (sort_is sort.entry))) }
{
    let row = content.elements(alloc)?;
    values(alloc, over, sort, row.as_slice())
}

/// Prints the elements of a set, ascending.
fn keys_of(
    alloc: Global,
    over: &BlockContext<'_>,
    sort: Sort<'_>,
    keys: &SortedSet<Value>,
) -> Result<Outs, OutOfMemory>
    ensures { IfOk result (λ outs. outs ≡ map (value_shown (world_over gregorian over.now) (sort_is sort.entry)) (distinct place (map val keys.now.keys))) }
{
    let mut outs = List::new(alloc);
    for key in keys {
        outs.push(out_value(alloc, over, sort, key)?)?;
    }
    Ok(outs)
}

/// Prints the entries of a map, as members by the texts of their keys.
#[cycle(contents)]
fn entries(
    alloc: Global,
    over: &BlockContext<'_>,
    kind: &Kind,
    content: &Content,
) -> Result<Members, OutOfMemory>
    requires { IsMap (accum_of kind.now) content.now }
    ensures { IfOk result (λ members. members ≡ map_shown (world_over gregorian over.now) (accum_of kind.now) content.now) }
{
    match content {
        Content::Map(_, entries) => {
            let mut members = List::new(alloc);
            for (key, part) in entries {
                let value = out_content(alloc, over, kind, part)?;
                members.push((key_text(alloc, over, key)?, value))?;
            }
            Ok(members)
        }
        _ => unreachable!(),
    }
}

/// Prints a group, as an object for each key row.
#[cycle(contents)]
fn groups(
    alloc: Global,
    over: &BlockContext<'_>,
    shape: &GroupShape,
    content: &Content,
) -> Result<Outs, OutOfMemory>
    requires { IsGroup (keys_are shape.now) (parts_are shape.now) content.now }
    ensures { IfOk result (λ outs. outs ≡ groups_shown (world_over gregorian over.now) (keys_are shape.now) (parts_are shape.now) content.now) }
{
    match content {
        Content::Group(_, groups) => {
            let mut outs = List::new(alloc);
            for (row, parts) in groups {
                let parts = lent(shape, parts);
                outs.push(group(alloc, over, parts, shape, row.as_slice())?)?;
            }
            Ok(outs)
        }
        _ => unreachable!(),
    }
}

/// Returns the parts at a key row of a group.
fn lent<'a>(shape: &GroupShape, parts: &'a Parts) -> &'a [Content]
    requires { AreShown (parts_are shape.now) parts.now }
    ensures parts { result.now ≡ parts.entry.now }
    ensures shown { AreShown (parts_are shape.now) result.now }
{
    parts.as_slice()
}

/// Prints a key row with its parts: the keys by name, and then the parts by name.
#[cycle(contents)]
fn group(
    alloc: Global,
    over: &BlockContext<'_>,
    parts: &[Content],
    shape: &GroupShape,
    row: &[Value],
) -> Result<Out, OutOfMemory>
    requires { AreShown (parts_are shape.now) parts.now }
    ensures { IfOk result (λ out. out ≡ json.Object (named_shown (world_over gregorian over.now) (keys_are shape.now) (map val row.now) ++ parts_shown (world_over gregorian over.now) (parts_are shape.now) parts.now)) }
{
    let mut members = List::new(alloc);
    put_keys(alloc, over, shape.keys.as_slice(), row, &mut members)?;
    put_parts(alloc, over, parts, shape.parts.as_slice(), &mut members)?;
    Ok(Out::Object(members))
}

/// Appends the keys of a row by name to other members, up to the last one that has a value.
#[tactic(auto, using(crate::proofs::NamedLemmas::key_laws))]
fn put_keys(
    alloc: Global,
    over: &BlockContext<'_>,
    keys: &[(Txt, BaseType)],
    row: &[Value],
    members: &mut Members,
) -> Result<(), OutOfMemory>
    ensures { OnOk result (members.new ≡ members.old ++ named_shown (world_over gregorian over.now) (key_fields keys.now) (map val row.now)) }
{
    for (place, key) in keys.iter().enumerate() {
        match row.get(place) {
            None => return Ok(()),
            Some(value) => put_value(alloc, over, &key.0, &key.1, value, members)?,
        }
    }
    Ok(())
}

/// Appends parts by name to other members.
#[cycle(contents)]
#[tactic(auto, using(crate::proofs::ContentLemmas::part_laws))]
fn put_parts(
    alloc: Global,
    over: &BlockContext<'_>,
    parts: &[Content],
    kinds: &[(Txt, Kind)],
    members: &mut Members,
) -> Result<(), OutOfMemory>
    requires { AreShown (part_kinds kinds.now) parts.now }
    ensures { OnOk result (members.new ≡ members.old ++ parts_shown (world_over gregorian over.now) (part_kinds kinds.now) parts.now) }
{
    for (place, part) in parts.iter().enumerate() {
        let kind = kind_at(kinds, parts, place, part);
        let value = out_content(alloc, over, &kind.1, part)?;
        put(alloc, kind.0.as_str(), value, members)?;
    }
    Ok(())
}

/// Returns the name and the kind of the part at a place.
fn kind_at<'a>(
    kinds: &'a [(Txt, Kind)],
    parts: &[Content],
    place: usize,
    part: &Content,
) -> &'a (Txt, Kind)
    requires shown { AreShown (part_kinds kinds.now) parts.now }
    requires there { slice_get parts.now place ≡ Some part.now }
    ensures kind { slice_get kinds.entry.now place ≡ Some result.now }
    ensures shown { IsShown (accum_of result.now.1) part.now }
{
    &kinds[place]
}
