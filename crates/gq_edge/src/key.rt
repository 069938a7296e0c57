// Keys of edges.
ghost use Rattle.std.specs.Prelude.{◌≡◌, ◌+◌, ◌*◌, ◌<◌, ◌≤◌, length, map};
ghost use Rattle.gq_value.specs.Views.{val};
ghost use Rattle.gq_base.specs.Keys.{number_of};
ghost use Rattle.gq_edge.specs.Flat.{edge_of};
ghost use Rattle.gq_edge.specs.Keyed as spec;

use crate::rows::EdgeRef;
use gq_base::{Key, mixed, text_hash, wide_hash};
use gq_graph::Naming;
use gq_value::Value;

/// Tags from here on are hashes; smaller ones are types.
pub(crate) const HASHED: u32 = 0x8000_0000;

/// The key by which an edge is found: its ends are the word, and its type is the tag if nothing else is part of the
/// name.
pub(crate) fn edge_key(naming: Naming, edge: EdgeRef<'_>) -> Key
    requires { naming.key ≤ length edge.attributes.now }
    ensures number { number_of result ≡ spec.edge_key naming (edge_of edge.entry) }
    ensures tag { result.tag ≡ spec.edge_tag naming (edge_of edge.entry) }
    ensures ends { spec.HasEnds (edge_of edge.entry) }
{
    Key {
        word: ends(naming.directed, edge.from, edge.to),
        tag: edge_tag(naming, edge),
    }
}

/// The key of an edge without discriminators.
pub(crate) fn plain_key(kind: u32, directed: bool, from: u32, to: u32) -> Key {
    Key {
        word: ends(directed, from, to),
        tag: kind,
    }
}

/// Both ends as one number; the smaller is first if the edge is undirected.
fn ends(directed: bool, from: u32, to: u32) -> u64
    ensures word { result ≡ spec.first_end directed from to * 4294967296 + spec.second_end directed from to }
    ensures small { (from < 4294967296) × (to < 4294967296) }
{
    if directed || from <= to {
        pair(from, to)
    } else {
        pair(to, from)
    }
}

fn pair(first: u32, second: u32) -> u64
    ensures { result ≡ first * 4294967296 + second }
{
    first as u64 * 4_294_967_296 + second as u64
}

fn edge_tag(naming: Naming, edge: EdgeRef<'_>) -> u32
    requires { naming.key ≤ length edge.attributes.now }
    ensures { result ≡ spec.edge_tag naming (edge_of edge.entry) }
{
    if naming.key == 0 && edge.kind < HASHED {
        return edge.kind;
    }
    let values = &edge.attributes[..naming.key as usize];
    HASHED + values_hash(mixed(0, edge.kind), values) % HASHED
}

fn values_hash(hash: u32, values: &[Value]) -> u32
    ensures { result ≡ spec.values_hash hash (map val values.now) }
{
    let mut mix = hash;
    for value in values {
        mix = value_hash(mix, value);
    }
    mix
}

#[tactic(auto, using(gq_value::specs::ViewLaws::view_laws))]
fn value_hash(hash: u32, value: &Value) -> u32
    ensures { result ≡ spec.value_hash hash (val value.now) }
{
    match value {
        Value::Int(n) => wide_hash(hash, n.cast_unsigned()),
        Value::UInt(n) => wide_hash(hash, *n),
        Value::Bool(b) => mixed(hash, *b as u32),
        Value::Text(text) => text_hash(hash, text.as_str()),
        Value::Vertex(n) => mixed(hash, *n),
        Value::Tuple(_) => hash,
        Value::Fraction(f) => wide_hash(hash, f.sum.cast_unsigned()),
    }
}
