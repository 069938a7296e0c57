// Vertices.
ghost use Rattle.std.specs.Prelude.{◌≡◌, ◌<◌, ◌≤◌, ◌++◌, ◌∷◌, [], codes, IfOk, MatchOption, None, Some, length, slice_get};
ghost use Rattle.std.specs.Option.{option_copied};
ghost use Rattle.gq_json.specs.declared.out.Out.TheVariants as json;
ghost use Rattle.gq_graph.specs.Vertices.{vertex_at};
ghost use Rattle.gq_rules_meaning.specs.Graphs.{sort_of_vertex};
ghost use Rattle.gq_rules_calendar.specs.Gregorian.{gregorian};
ghost use Rattle.gq_eval_operand.specs.Meant.{itself, Tells};
ghost use Rattle.gq_frame.specs.Slots.{slots_are};
ghost use Rattle.gq_eval_context.specs.Looks.{world_over};
ghost use Rattle.gq_output.specs.Vertices.{HasType, described, vertex_shown, whole_shown};

use crate::attributes::{attributes, put_attached};
use crate::keys::id_of;
use crate::values::put;
use gq_base::{List, OutOfMemory};
use gq_eval_context::BlockContext;
use gq_eval_operand::Halt;
use gq_graph::VertexType;
use gq_json::{Members, Out};
use gq_value::Txt;
use gq_vertex::Vertices;
use std::alloc::Global;

/// Prints a vertex with all its attributes, and then its attached accumulators in order of declaration.
#[tactic(auto, using(crate::proofs::VertexLemmas::whole_laws))]
pub fn out_whole_vertex(alloc: Global, over: &BlockContext<'_>, vertex: u32) -> Result<Out, Halt>
    ensures { Tells itself (whole_shown (world_over gregorian over.now) (slots_are over.now.frame.accums) vertex) result }
{
    match type_of(over, vertex) {
        None => Err(Halt::Stuck),
        Some(of) => {
            let mut members = attributes(alloc, over, of, vertices_of(over), vertex)?;
            put_attached(alloc, over, vertex, &mut members)?;
            out_vertex(alloc, over, vertex, members)
        }
    }
}

/// Prints a vertex with these members as its attributes.
#[tactic(auto, using(crate::proofs::VertexLemmas::vertex_laws))]
pub fn out_vertex(
    alloc: Global,
    over: &BlockContext<'_>,
    vertex: u32,
    attributes: Members,
) -> Result<Out, Halt>
    ensures { Tells itself (vertex_shown (world_over gregorian over.now) vertex attributes) result }
{
    match type_of(over, vertex) {
        None => Err(Halt::Stuck),
        Some(of) => {
            let id = id_of(alloc, over, vertex)?;
            let kind = Txt::of(alloc, of.name.as_str())?;
            Ok(described(alloc, id, kind, attributes)?)
        }
    }
}

/// Returns an object with an id, a type and attributes.
#[tactic(auto, using(crate::proofs::VertexLemmas::three_put))]
fn described(alloc: Global, id: Txt, kind: Txt, attributes: Members) -> Result<Out, OutOfMemory>
    ensures { IfOk result (λ out. out ≡ described id kind attributes) }
{
    let mut members = List::new(alloc);
    put(alloc, "v_id", Out::Text(id), &mut members)?;
    put(alloc, "v_type", Out::Text(kind), &mut members)?;
    put(alloc, "attributes", Out::Object(attributes), &mut members)?;
    Ok(Out::Object(members))
}

fn vertices_of<'a>(over: &BlockContext<'a>) -> &'a Vertices
    ensures { result.now ≡ over.now.vertices }
{
    &over.graph.store.vertices
}

/// Returns the type of a vertex, if there is one.
fn type_of<'a>(over: &BlockContext<'a>, vertex: u32) -> Option<&'a VertexType>
    ensures { MatchOption result (sort_of_vertex (world_over gregorian over.now).graph vertex ≡ None) (λ of. HasType over.now vertex of.now) }
{
    let vertices = &over.graph.store.vertices;
    if vertex >= vertices.len() {
        return None;
    }
    over.graph.catalog.vertex_by_number(vertices.kind(vertex))
}
