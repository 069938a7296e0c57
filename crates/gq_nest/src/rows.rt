// Sorted copies of elements and keys.
ghost use Rattle.std.specs.Prelude.{◌≡◌, map, IfOk};
ghost use Rattle.gq_value.specs.Views.{val};
ghost use Rattle.gq_value.specs.Order.{place};
ghost use Rattle.gq_accum_laws.specs.Gather.{sorted, distinct};
ghost use Rattle.gq_accum_laws.specs.Holds.{row_cmp};
ghost use Rattle.gq_nest.specs.Entries.{group_row, key_row, rows};

use crate::content::{Content, Parts};
use crate::map::SortedMap;
use crate::set::SortedSet;
use gq_base::{List, OutOfMemory};
use gq_value::{Row, Value, duplicate_row};
use std::alloc::Global;

/// Copies of the keys, ascending.
pub(crate) fn keys_in_order(alloc: Global, keys: &SortedSet<Value>) -> Result<Row, OutOfMemory>
    ensures { IfOk result (λ row. map val row ≡ distinct place (map val keys.now.keys)) }
{
    let mut row = List::new(alloc);
    for key in keys {
        row.push(key.duplicate(alloc)?)?;
    }
    Ok(row)
}

/// Copies of the items, ascending.
pub(crate) fn sorted_row(alloc: Global, items: &[Value]) -> Result<Row, OutOfMemory>
    ensures { IfOk result (λ row. map val row ≡ sorted place (map val items.now)) }
{
    let mut row = duplicate_row(alloc, items)?;
    row.as_mut_slice().sort_unstable();
    Ok(row)
}

/// Copies of the keys as rows of one value, ascending.
pub(crate) fn key_rows(
    alloc: Global,
    entries: &SortedMap<Value, Content>,
) -> Result<List<Row>, OutOfMemory>
    ensures { IfOk result (λ all. map (map val) all ≡ distinct row_cmp (rows key_row entries.now.entries)) }
{
    let mut all = List::new(alloc);
    for (key, _) in entries {
        let mut row = List::new(alloc);
        row.push(key.duplicate(alloc)?)?;
        all.push(row)?;
    }
    Ok(all)
}

/// Copies of a group's key rows, ascending by the order of keys (`order` of gq_value, field by field), which is the
/// map's order.
pub(crate) fn group_rows(
    alloc: Global,
    groups: &SortedMap<Vec<Value>, Parts>,
) -> Result<List<Row>, OutOfMemory>
    ensures { IfOk result (λ all. map (map val) all ≡ distinct row_cmp (rows group_row groups.now.entries)) }
{
    let mut all = List::new(alloc);
    for (row, _) in groups {
        all.push(duplicate_row(alloc, row.as_slice())?)?;
    }
    Ok(all)
}
