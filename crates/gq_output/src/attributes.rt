// The members of a vertex: its attributes, and then its accumulators.
ghost use Rattle.std.specs.Prelude.{◌≡◌, ◌<◌, ◌≤◌, ◌++◌, [], IfOk, OnOk, Some, length, map, slice_get};
ghost use Rattle.std.specs.List.{flat_map};
ghost use Rattle.std.specs.Option.{option_copied, unwrap_or};
ghost use Rattle.gq_value.specs.Views.{val};
ghost use Rattle.gq_graph.specs.Vertices.{vertex_at};
ghost use Rattle.gq_index.specs.Rows.{IsId};
ghost use Rattle.gq_rules_typing.specs.Sorts.{attribute_fields};
ghost use Rattle.gq_eval_context.specs.Looks.{world_over};
ghost use Rattle.gq_frame.specs.Slots.{slots_are};
ghost use Rattle.gq_rules_calendar.specs.Gregorian.{gregorian};
ghost use Rattle.gq_plan_ir.specs.PlanView.{accum_names, names_in};
ghost use Rattle.gq_output.specs.Printed.{named_shown};
ghost use Rattle.gq_output.specs.Vertices.{IsFirst, attached_shown, slot_shown, vertex_named};

use crate::contents::out_content;
use crate::ids::shown_id;
use crate::items::accums_of;
use crate::values::{put, put_value};
use gq_base::{List, OutOfMemory};
use gq_eval_context::BlockContext;
use gq_frame::Accums;
use gq_graph::{Attribute, VertexType};
use gq_json::Members;
use gq_nest::Content;
use gq_plan_ir::Definition;
use gq_value::{Slot, Txt};
use gq_vertex::Vertices;
use std::alloc::Global;

/// Returns the attributes of a vertex of a type, as members; an id that is shown comes first.
#[tactic(auto, using(crate::proofs::VertexLemmas::id_first_laws))]
pub(crate) fn attributes(
    alloc: Global,
    over: &BlockContext<'_>,
    of: &VertexType,
    vertices: &Vertices,
    vertex: u32,
) -> Result<Members, OutOfMemory>
    requires there { vertex < length vertices.now }
    requires within { length of.now.attributes ≤ length (vertex_at vertices.now vertex).attributes }
    requires id { IsId of.now.id.kind (vertex_at vertices.now vertex).id }
    ensures { IfOk result (λ members. members ≡ vertex_named (world_over gregorian over.now) of.now (vertex_at vertices.now vertex)) }
{
    let mut members = List::new(alloc);
    if of.id.shown {
        let id = shown_id(alloc, of.id.kind, vertices.id(vertex))?;
        put(alloc, of.id.name.as_str(), id, &mut members)?;
    }
    put_attributes(
        alloc,
        over,
        of.attributes.as_slice(),
        vertices,
        vertex,
        &mut members,
    )?;
    Ok(members)
}

/// Appends the declared attributes of a vertex to other members.
#[tactic(auto, using(crate::proofs::VertexLemmas::attribute_laws))]
fn put_attributes(
    alloc: Global,
    over: &BlockContext<'_>,
    attributes: &[Attribute],
    vertices: &Vertices,
    vertex: u32,
    members: &mut Members,
) -> Result<(), OutOfMemory>
    requires there { vertex < length vertices.now }
    requires within { length attributes.now ≤ length (vertex_at vertices.now vertex).attributes }
    ensures { OnOk result (members.new ≡ members.old ++ named_shown (world_over gregorian over.now) (attribute_fields attributes.now) (map val (vertex_at vertices.now vertex).attributes)) }
{
    for (place, attribute) in attributes.iter().enumerate() {
        let value = vertices.value(vertex, place);
        put_value(
            alloc,
            over,
            &attribute.name,
            &attribute.kind,
            value,
            members,
        )?;
    }
    Ok(())
}

/// Appends the attached accumulators of a vertex by name, in order of declaration, to other members.
#[tactic(auto, using(crate::proofs::SlotLemmas::attached_laws))]
pub(crate) fn put_attached(
    alloc: Global,
    over: &BlockContext<'_>,
    vertex: u32,
    members: &mut Members,
) -> Result<(), OutOfMemory>
    ensures { OnOk result (members.new ≡ members.old ++ attached_shown (world_over gregorian over.now) vertex (slots_are over.now.frame.accums)) }
{
    let slots = &over.frame.accums.slots;
    // The number of the first target of the slot.
    let mut first = 0u128;
    for (number, slot) in slots.declared.as_slice().iter().enumerate() {
        put_slot(alloc, over, number, slot, first, vertex, members)?;
        first += u128::from(slots.targets(slot));
    }
    Ok(())
}

/// Appends the content of the accumulator in a slot at a vertex, if it is attached and has one there, to other members.
#[tactic(auto, using(crate::proofs::SlotLemmas::slot_laws))]
fn put_slot(
    alloc: Global,
    over: &BlockContext<'_>,
    number: usize,
    slot: &Slot,
    first: u128,
    vertex: u32,
    members: &mut Members,
) -> Result<(), OutOfMemory>
    requires declared { slice_get over.now.frame.accums.slots.declared number ≡ Some slot.now }
    requires first { IsFirst over.now.frame.accums.slots number first }
    ensures { OnOk result (members.new ≡ members.old ++ slot_shown (world_over gregorian over.now) vertex (slice_get (slots_are over.now.frame.accums) number)) }
{
    let accums = accums_of(over);
    if !slot.attached {
        return Ok(());
    }
    if vertex >= accums.slots.vertices {
        return Ok(());
    }
    match content_at(accums, first + u128::from(vertex)) {
        None => Ok(()),
        Some(content) => {
            let value = out_content(alloc, over, &slot.kind, content)?;
            put(alloc, name_of(over, number), value, members)
        }
    }
}

/// Returns the content at a target, if there is one.
fn content_at(accums: &Accums, target: u128) -> Option<&Content>
    ensures { slice_get accums.now.contents target ≡ option_copied result }
{
    if target < accums.contents.len() as u128 {
        Some(accums.contents.at(target as usize))
    } else {
        None
    }
}

/// Returns the name of an accumulator by its number, which is empty if the plan has none.
fn name_of<'a>(over: &BlockContext<'a>, number: usize) -> &'a str
    ensures { result.now ≡ unwrap_or (slice_get (accum_names over.now.plan) number) [] }
{
    match accum_name(over.plan.definitions.as_slice(), number) {
        Some(name) => name.as_str(),
        None => "",
    }
}

/// Returns the name of an accumulator by its index among those of all definitions, if there is one.
#[tactic(auto, using(crate::proofs::SlotLemmas::name_laws))]
fn accum_name(definitions: &[Definition], number: usize) -> Option<&Txt>
    ensures { slice_get (flat_map names_in definitions.now) number ≡ option_copied result }
{
    let mut left = number;
    for definition in definitions {
        match name_in(definition, left) {
            Some(name) => return Some(name),
            None => left = left.saturating_sub(name_count(definition)),
        }
    }
    None
}

/// Returns the name of an accumulator by its index in a definition, if there is one.
#[tactic(auto, using(crate::proofs::SlotLemmas::line_laws))]
fn name_in(definition: &Definition, place: usize) -> Option<&Txt>
    ensures { slice_get (names_in definition.now) place ≡ option_copied result }
{
    match definition {
        Definition::Tuple(_, _) => None,
        Definition::Accums(_, accums) => match accums.get(place) {
            Some(accum) => Some(&accum.name),
            None => None,
        },
    }
}

/// Returns the number of accumulators that a definition declares.
#[tactic(auto, using(crate::proofs::SlotLemmas::line_laws))]
fn name_count(definition: &Definition) -> usize
    ensures { result ≡ length (names_in definition.now) }
{
    match definition {
        Definition::Tuple(_, _) => 0,
        Definition::Accums(_, accums) => accums.len(),
    }
}
