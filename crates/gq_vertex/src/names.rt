// A tree of vertices by name.
ghost use Rattle.std.specs.Prelude.{◌≡◌, ℕ, List, if◌then◌else◌, None, Some, OnOk, OnErr};
ghost use Rattle.std.specs.BTreeMap.{get_by_text, Updates, IsUnchanged};
ghost use Rattle.std.specs.Prelude.{bytes_eq};
ghost use Rattle.gq_vertex.specs.Sorted.{Gives, number_of};

use gq_base::OutOfMemory;
use std::alloc::Global;
use std::collections::BTreeMap;

/// The numbers of vertices, by type and then by id.
pub(crate) type Names = BTreeMap<u32, Ids>;

/// The numbers of the vertices of one type, by id.
pub(crate) type Ids = BTreeMap<String, u32>;

/// Finds the number of the vertex of a type and an id.
pub(crate) fn number_of(names: &Names, kind: u32, id: &str) -> Option<u32>
    ensures { result ≡ number_of names.now kind id.now }
{
    names.get(&kind)?.get(id).copied()
}

/// Maps a name to that number. After `OutOfMemory` all names keep their numbers.
pub(crate) fn put(
    alloc: Global,
    names: &mut Names,
    kind: u32,
    id: &str,
    number: u32,
) -> Result<(), OutOfMemory>
    ensures put { OnOk result (Gives names.old kind id.now (Some number) names.new) }
    ensures stays { OnErr result ((k : ℕ) (i : List ℕ) → number_of names.new k i ≡ number_of names.old k i) }
{
    let id = String::from_str(alloc, id)?;
    match names.get_mut(&kind) {
        Some(ids) => put_entry(ids, id, number),
        None => {
            let mut ids = BTreeMap::new(alloc);
            put_entry(&mut ids, id, number)?;
            put_entry(names, kind, ids)
        }
    }
}

fn put_entry<K: Ord + Drop, X: Drop>(
    entries: &mut BTreeMap<K, X>,
    key: K,
    value: X,
) -> Result<(), OutOfMemory>
    ensures put { OnOk result (Updates K.cmp entries.old entries.new key (Some value)) }
    ensures stays { OnErr result (IsUnchanged entries.old entries.new) }
{
    match entries.insert(key, value) {
        Ok(_) => Ok(()),
        Err(_) => Err(OutOfMemory),
    }
}

/// Removes a name.
pub(crate) fn take_out(names: &mut Names, kind: u32, id: &str)
    ensures { Gives names.old kind id.now None names.new }
{
    if let Some(ids) = names.get_mut(&kind) {
        take_id(ids, id);
    }
}

fn take_id(ids: &mut Ids, id: &str)
    ensures { (i : List ℕ) → get_by_text ids.new i ≡ (if bytes_eq id.now i then None else get_by_text ids.old i) }
{
    let _ = ids.remove(id);
}
