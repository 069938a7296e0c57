// A hash of 64 bits over the name of an edge.
ghost use Rattle.std.specs.Prelude.{◌≡◌, map, fold};
ghost use Rattle.gq_value.specs.Views.{val};
ghost use Rattle.gq_edge.specs.Hashed as spec;

use gq_value::Value;

/// The hash of a row of values. It is another function than that of the keys, so rows that share a key seldom share it.
pub(crate) fn row_hash(row: &[Value]) -> u64
    ensures { result ≡ spec.row_hash (map val row.now) }
{
    let mut hash = 0;
    for value in row {
        hash = value_mixed(hash, value);
    }
    hash
}

#[tactic(auto, using(gq_value::specs::ViewLaws::view_laws))]
fn value_mixed(hash: u64, value: &Value) -> u64
    ensures { result ≡ spec.value_mixed hash (val value.now) }
{
    match value {
        Value::Int(n) => mixed(hash, n.cast_unsigned()),
        Value::UInt(n) => mixed(hash, *n),
        Value::Bool(b) => mixed(hash, *b as u64),
        Value::Text(text) => text_mixed(hash, text.as_str()),
        Value::Vertex(n) => mixed(hash, *n as u64),
        Value::Tuple(_) => hash,
        Value::Fraction(f) => mixed(hash, f.sum.cast_unsigned()),
    }
}

fn text_mixed(hash: u64, text: &str) -> u64
    ensures { result ≡ fold spec.mixed hash text.now }
{
    let mut mix = hash;
    for byte in text.as_bytes() {
        mix = mixed(mix, *byte as u64);
    }
    mix
}

#[tactic(auto, unfolding(crate::specs::Hashed::mixed))]
fn mixed(hash: u64, part: u64) -> u64
    ensures { result ≡ spec.mixed hash part }
{
    hash.wrapping_mul(0x9E37_79B9_7F4A_7C15).wrapping_add(part)
}
