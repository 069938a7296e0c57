// Vertices by type and id.
ghost use Rattle.std.specs.Prelude.{◌≡◌};
ghost use Rattle.std.specs.Fmt.{signed_decimal};
ghost use Rattle.std.specs.Option.{option_map};
ghost use Rattle.gq_value.specs.Views.{val};
ghost use Rattle.gq_scope.specs.Held.{sorts_in};
ghost use Rattle.gq_rules_meaning.specs.Arguments as spec;

use gq_scope::Scope;
use gq_tree::signed;
use gq_value::Value;
use gq_vertex::Vertices;
use itoa::Buffer;

/// Returns the vertex with a type and an id, if the query sees the type.
#[tactic(auto, using(gq_value::specs::ViewLaws::view_laws))]
pub(crate) fn vertex_in(
    types: &Scope<'_>,
    vertices: &Vertices,
    kind: &str,
    id: &str,
) -> Option<Value>
    ensures { option_map val result ≡ spec.vertex_in (sorts_in types.now) vertices.now kind.now id.now }
{
    match types.vertex_type(kind) {
        Some(kind) => match vertices.find(kind, id) {
            Some(vertex) => Some(Value::Vertex(vertex)),
            None => None,
        },
        None => None,
    }
}

/// Returns the vertex whose id is a number, in decimal.
pub(crate) fn numbered_vertex(
    types: &Scope<'_>,
    vertices: &Vertices,
    kind: &str,
    minus: bool,
    number: u64,
) -> Option<Value>
    ensures { option_map val result ≡ spec.vertex_in (sorts_in types.now) vertices.now kind.now (spec.number_id minus number) }
{
    let mut digits = Buffer::new();
    vertex_in(types, vertices, kind, digits.format(signed(minus, number)))
}
