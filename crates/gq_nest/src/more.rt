// Adding keys, items and entries.
ghost use Rattle.std.specs.BTreeMap.{insert_entry};
ghost use Rattle.std.specs.Prelude.{◌≡◌, ◌++◌, ◌∷◌, [], false, map, OnOk};
ghost use Rattle.gq_value.specs.Views.{val};
ghost use Rattle.gq_value.specs.Order.{place};
ghost use Rattle.gq_accum_laws.specs.Gather.{put, into, distinct};

use crate::map::SortedMap;
use crate::set::SortedSet;
use gq_base::{List, OutOfMemory};
use gq_value::Value;
use std::alloc::Global;

/// Adds a copy of `key`, unless the set has it.
#[tactic(auto, using(crate::proofs::SetSteps::set_steps))]
pub(crate) fn add_key(
    alloc: Global,
    keys: &mut SortedSet<Value>,
    key: &Value,
) -> Result<(), OutOfMemory>
    ensures { OnOk result (distinct place (map val keys.new.keys) ≡ put place false (val key.now) (distinct place (map val keys.old.keys))) }
{
    if keys.contains(key) {
        return Ok(());
    }
    keys.insert(alloc, key.duplicate(alloc)?)
}

/// Appends `item`.
#[tactic(auto, using(gq_accum_laws::proofs::KindLaws::map_append))]
pub(crate) fn push_item(items: &mut List<Value>, item: Value) -> Result<(), OutOfMemory>
    ensures { OnOk result (map val items.new ≡ map val items.old ++ val item ∷ []) }
{
    items.push(item)
}

/// Appends a copy of `item`.
#[tactic(auto, using(gq_accum_laws::proofs::KindLaws::map_append))]
pub(crate) fn add_item(
    alloc: Global,
    items: &mut List<Value>,
    item: &Value,
) -> Result<(), OutOfMemory>
    ensures { OnOk result (map val items.new ≡ map val items.old ++ val item.now ∷ []) }
{
    items.push(item.duplicate(alloc)?)?;
    Ok(())
}

/// Adds copies of the keys of `more`.
pub(crate) fn add_keys(
    alloc: Global,
    keys: &mut SortedSet<Value>,
    more: &SortedSet<Value>,
) -> Result<(), OutOfMemory>
    ensures { OnOk result (distinct place (map val keys.new.keys) ≡ into (put place false) (map val more.now.keys) (distinct place (map val keys.old.keys))) }
{
    for key in more {
        add_key(alloc, keys, key)?;
    }
    Ok(())
}

/// Appends copies of `more`, in order.
pub(crate) fn add_items(
    alloc: Global,
    items: &mut List<Value>,
    more: &[Value],
) -> Result<(), OutOfMemory>
    ensures { OnOk result (map val items.new ≡ map val items.old ++ map val more.now) }
{
    for item in more {
        add_item(alloc, items, item)?;
    }
    Ok(())
}

/// Stores `value` at `key`.
pub(crate) fn put_entry<K: Ord + Drop, X: Drop>(
    alloc: Global,
    entries: &mut SortedMap<K, X>,
    key: K,
    value: X,
) -> Result<(), OutOfMemory>
    ensures { OnOk result (entries.new.entries ≡ insert_entry K.cmp entries.old.entries key value) }
{
    entries.insert(alloc, key, value)
}
