// Where a key is among sorted entries.
ghost use Rattle.std.specs.Prelude.{◌≡◌};
ghost use Rattle.std.specs.List.Sorted.{IsStrictlySortedBy};
ghost use Rattle.std.specs.Map.{keys_of};
ghost use Rattle.std_collections.specs.Layout.BTreeMap.{seek};

use std::cmp::Ordering;
use std::collections::btree_map::Comparable;

/// The index of the first key that `key` isn't above: `Ok` if it is equal, else `Err`.
///
/// Goes from the last to the first, as keys often come in ascending order.
pub(crate) fn find<K: Ord, V, Q: Comparable<K>>(entries: &[(K, V)], key: Q) -> Result<usize, usize>
    requires { IsStrictlySortedBy K.cmp (keys_of entries.now) }
    ensures { result ≡ seek (Q.compare key) entries.now }
{
    let mut end = entries.len();
    while end > 0 {
        match key.compare(&entries[end - 1].0) {
            Ordering::Less => end -= 1,
            Ordering::Equal => return Ok(end - 1),
            Ordering::Greater => return Err(end),
        }
    }
    Err(0)
}
