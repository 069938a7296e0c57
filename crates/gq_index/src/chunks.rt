// Chunks of candidates.
ghost use Rattle.std.specs.Prelude.{◌≡◌, ◌+◌, ◌*◌, ◌<◌, ◌≤◌, min};

/// The first place of chunk `c`, and the place after its last one. The last chunk of `count` candidates may be shorter.
pub fn chunk(c: u64, size: u64, count: u64) -> (u64, u64)
    requires some { 1 ≤ size }
    requires begun { c * size < count }
    ensures first { result.0 ≡ c * size }
    ensures end { result.1 ≡ min (c * size + size) count }
{
    let first = c * size;
    (first, first + size.min(count - first))
}
