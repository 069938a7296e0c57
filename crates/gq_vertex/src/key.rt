// Keys of vertices.
ghost use Rattle.std.specs.Prelude.{◌≡◌, ◌+◌, ◌<◌, ◌≤◌, ◌↔◌, IsTrue, length};
ghost use Rattle.gq_base.specs.Keys.{number_of};
ghost use Rattle.gq_vertex.specs.Keyed as spec;

use gq_base::Key;

/// The key by which a vertex is found: the type is the tag, and a short id is the word itself.
pub(crate) fn vertex_key(kind: u32, id: &str) -> Key
    ensures number { number_of result ≡ spec.vertex_key kind id.now }
    ensures word { result.word ≡ spec.word id.now }
    ensures bytes { spec.IsBytes id.now }
{
    Key {
        word: word(id.as_bytes()),
        tag: kind,
    }
}

/// Whether a key determines the whole name.
pub(crate) fn is_exact(key: Key) -> bool
    ensures { IsTrue result ↔ (key.word < 9223372036854775808) }
{
    key.word < 0x8000_0000_0000_0000
}

fn word(id: &[u8]) -> u64
    ensures exact { result ≡ spec.word id.now }
    ensures bytes { spec.IsBytes id.now }
{
    if id.len() <= 7 {
        packed(id) * 8 + id.len() as u64
    } else {
        0x8000_0000_0000_0000 + mixed(id) % 0x8000_0000_0000_0000
    }
}

/// The bytes of a short id as the digits of a number. Four to seven bytes take two reads: of the first four and of the
/// last four, some of which may be the same.
fn packed(id: &[u8]) -> u64
    ensures exact { result ≡ spec.packed id.now }
    ensures small { result < 72057594037927936 }
{
    if id.len() < 4 || id.len() > 7 {
        return packed_each(id);
    }
    (four(id, 0) >> (64 - 8 * id.len())) * 4_294_967_296 + four(id, id.len() - 4)
}

/// The same by single bytes.
fn packed_each(id: &[u8]) -> u64
    ensures exact { result ≡ spec.packed id.now }
    ensures small { result < 72057594037927936 }
{
    let mut word = 0u64;
    for byte in id {
        word = (word * 256 + *byte as u64) % 0x0100_0000_0000_0000;
    }
    word
}

/// Four bytes as the digits of a number.
fn four(id: &[u8], at: usize) -> u64
    requires { at + 4 ≤ length id.now }
    ensures exact { result ≡ spec.four id.now at }
    ensures small { result < 4294967296 }
{
    u32::from_be_bytes([id[at], id[at + 1], id[at + 2], id[at + 3]]) as u64
}

/// A hash of a longer id.
fn mixed(id: &[u8]) -> u64
    ensures { result ≡ spec.mixed id.now }
{
    let mut word = 0u64;
    for byte in id {
        word = with_byte(word, *byte);
    }
    word
}

#[tactic(auto, unfolding(crate::specs::Keyed::mixed_with))]
fn with_byte(word: u64, byte: u8) -> u64
    ensures { result ≡ spec.mixed_with word byte }
{
    word.wrapping_mul(0x9E37_79B9_7F4A_7C15)
        .wrapping_add(byte as u64)
}
