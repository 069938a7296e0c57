// Ids and texts of keys.
ghost use Rattle.std.specs.Prelude.{◌≡◌, [], IfOk, map, slice_get};
ghost use Rattle.std.specs.Option.{unwrap_or};
ghost use Rattle.gq_value.specs.Views.{val};
ghost use Rattle.gq_graph.specs.declared.rows.VertexRow.{VertexRow};
ghost use Rattle.gq_rules_meaning.specs.Outs as plain;
ghost use Rattle.gq_rules_calendar.specs.Gregorian.{gregorian};
ghost use Rattle.gq_eval_context.specs.Looks.{world_over};

use gq_base::OutOfMemory;
use gq_eval_context::BlockContext;
use gq_eval_operand::{decimal, signed_decimal};
use gq_value::{Txt, Value};
use gq_vertex::Vertices;
use std::alloc::Global;

/// Returns the id of a vertex, or an empty text if there is no such vertex.
#[tactic(auto, using(crate::proofs::KeyLemmas::id_laws))]
pub(crate) fn id_of(alloc: Global, over: &BlockContext<'_>, vertex: u32) -> Result<Txt, OutOfMemory>
    ensures { IfOk result (λ id. id ≡ plain.id_of (world_over gregorian over.now).graph vertex) }
{
    id_among(alloc, &over.graph.store.vertices, vertex)
}

#[tactic(auto, using(crate::proofs::KeyLemmas::among_laws))]
fn id_among(alloc: Global, vertices: &Vertices, vertex: u32) -> Result<Txt, OutOfMemory>
    ensures { IfOk result (λ id. id ≡ unwrap_or (slice_get (map (λ (r : VertexRow). r.id) vertices.now) vertex) []) }
{
    if vertex >= vertices.len() {
        return Txt::of(alloc, "");
    }
    Txt::of(alloc, vertices.id(vertex))
}

/// Returns the text of a key: a number in decimal digits, a vertex as its id. Values of other types are no keys, and
/// have an empty text.
#[tactic(auto, using(gq_value::specs::ViewLaws::view_laws, crate::proofs::KeyLemmas::key_laws))]
pub(crate) fn key_text(
    alloc: Global,
    over: &BlockContext<'_>,
    key: &Value,
) -> Result<Txt, OutOfMemory>
    ensures { IfOk result (λ text. text ≡ plain.key_text (world_over gregorian over.now).graph (val key.now)) }
{
    match key {
        Value::Int(x) => signed_decimal(alloc, *x),
        Value::UInt(n) => decimal(alloc, *n),
        Value::Bool(true) => Txt::of(alloc, "true"),
        Value::Bool(false) => Txt::of(alloc, "false"),
        Value::Text(text) => Txt::of(alloc, text.as_str()),
        Value::Vertex(vertex) => id_of(alloc, over, *vertex),
        Value::Tuple(_) => Txt::of(alloc, ""),
        Value::Fraction(_) => Txt::of(alloc, ""),
    }
}
