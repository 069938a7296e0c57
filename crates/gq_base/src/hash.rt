// Hashes of names.
ghost use Rattle.std.specs.Prelude.{◌≡◌, ◌/◌, ◌%◌, [], ◌∷◌};
ghost use Rattle.gq_base.specs.Hash as spec;

/// The hash with one more part of a name.
#[tactic(auto, unfolding(crate::specs::Hash::mixed))]
pub fn mixed(hash: u32, part: u32) -> u32
    ensures { result ≡ spec.mixed hash part }
{
    ((hash as u64 * 2_654_435_769 + part as u64) % 4_294_967_291) as u32
}

/// The hash with the bytes of a text as further parts.
pub fn text_hash(hash: u32, text: &str) -> u32
    ensures { result ≡ spec.hash_from hash text.now }
{
    let mut mix = hash;
    for byte in text.as_bytes() {
        mix = mixed(mix, *byte as u32);
    }
    mix
}

/// The hash with both halves of a number as further parts.
pub fn wide_hash(hash: u32, number: u64) -> u32
    ensures { result ≡ spec.hash_from hash ((number / 4294967296) ∷ (number % 4294967296) ∷ []) }
{
    mixed(
        mixed(hash, (number / 4_294_967_296) as u32),
        (number % 4_294_967_296) as u32,
    )
}
