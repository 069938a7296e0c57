// The context of set expressions.
ghost use Rattle.std.specs.Prelude.{◌≡◌};
ghost use Rattle.std.specs.Option.{option_map};
ghost use Rattle.gq_value.specs.AccumViews.{base_of};
ghost use Rattle.gq_value.specs.Views.{val};
ghost use Rattle.gq_frame.specs.Names.{thing_in};
ghost use Rattle.gq_exec_vars.specs.Lookups.{variable_in, vertex_in, vertex_of};

use gq_frame::{Frame, Thing};
use gq_value::{BaseType, Value};
use gq_vertex::Vertices;

/// The read-only context of set expressions.
#[derive(Clone, Copy)]
pub struct Lookup<'a> {
    pub vertices: &'a Vertices,

    /// The vertex types of the graph, by their numbers.
    pub own: &'a [u32],
    pub frame: &'a Frame,
}

/// The type and the vertex of the variable at a place, if one is in view.
pub fn vertex_at<'a>(things: &'a [Option<Thing>], place: u32) -> Option<(&'a BaseType, u32)>
    ensures { option_map (λ v. (base_of v.0.now, v.1)) result ≡ vertex_in (variable_in (thing_in things.entry.now place)) }
{
    match variable_at(things, place) {
        Some((base, value)) => match vertex_of(value) {
            Some(vertex) => Some((base, vertex)),
            None => None,
        },
        None => None,
    }
}

/// The type and the value of the variable at a place, if one is in view.
fn variable_at<'a>(things: &'a [Option<Thing>], place: u32) -> Option<(&'a BaseType, &'a Value)>
    ensures { option_map (λ v. (base_of v.0.now, val v.1.now)) result ≡ variable_in (thing_in things.entry.now place) }
{
    match things.get(place as usize) {
        Some(Some(Thing::Value(base, value))) => Some((base, value)),
        Some(Some(Thing::Set(_, _))) | Some(None) | None => None,
    }
}

/// The vertex, if the value is one.
#[tactic(auto, using(gq_value::specs::ViewLaws::view_laws))]
fn vertex_of(value: &Value) -> Option<u32>
    ensures { result ≡ vertex_of (val value.now) }
{
    match value {
        Value::Vertex(vertex) => Some(*vertex),
        Value::Int(_) | Value::UInt(_) | Value::Bool(_) | Value::Text(_) => None,
        Value::Tuple(_) | Value::Fraction(_) => None,
    }
}
