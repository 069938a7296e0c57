// Keys of rows.
ghost use Rattle.std.specs.Prelude.{◌≡◌, ◌<◌, ◌≤◌, ◌↔◌, IsTrue};
ghost use Rattle.gq_base.specs.Keys.{number_of, bucket_of};

/// The key by which a row of a table is found: a whole short name or the hash of a longer one, with a tag.
#[derive(Clone, Copy, Debug)]
pub struct Key {
    pub word: u64,
    pub tag: u32,
}

/// Whether two keys are equal.
pub(crate) fn is_same(a: Key, b: Key) -> bool
    ensures { IsTrue result ↔ (number_of a ≡ number_of b) }
{
    a.word == b.word && a.tag == b.tag
}

/// The bucket of a key, out of `buckets`.
///
/// The product spreads keys that differ little. Its upper half is scaled to the buckets, which needs no division.
pub(crate) fn bucket(key: Key, buckets: usize) -> usize
    requires some { 0 < buckets }
    requires few { buckets ≤ 4294967296 }
    ensures exact { result ≡ bucket_of (number_of key) buckets }
    ensures within { result < buckets }
{
    let tag = (key.tag as u64).wrapping_mul(0xC2B2_AE3D_27D4_EB4F);
    let spread = key
        .word
        .wrapping_add(tag)
        .wrapping_mul(0x9E37_79B9_7F4A_7C15)
        >> 32;
    ((spread * buckets as u64) >> 32) as usize
}
