// Lists of ways, filled by several workers: each fills those of one range of vertices.
ghost use Rattle.std.specs.Prelude.{◌≡◌, ℕ, ◌+◌, ◌<◌, ◌≤◌, ◌^◌, ◌++◌, ◌∷◌, [], List, length, true, All, IfOk, IfSome};
ghost use Rattle.gq_index.specs.declared.walks.Traversal.{Traversal};
ghost use Rattle.gq_index.specs.Lists.{lists_of};
ghost use Rattle.gq_index.specs.Ranges.{AreRanged, HoldWalks};

use crate::lists;
use crate::lists::{Lists, room_for, widen};
use crate::packed::Packed;
use crate::walks::{Traversal, put_walks};
use gq_base::OutOfMemory;
use gq_edge::EdgeEnds;
use gq_graph::EdgeType;
use std::alloc::Global;
use std::thread;
use std::thread::Threads;

/// The most ranges. Each worker reads all edges, so many of them would cost more than they gain.
const MOST_RANGES: u32 = 8;

/// The lists of a range of vertices, of which `first` is the first one.
#[derive(Drop)]
pub struct RangeLists {
    pub first: u32,
    pub lists: Lists,
}

/// Adds a walk to the list of its source vertex, if that is in the range.
#[inline(always)]
pub fn put(range: &mut RangeLists, walk: Traversal) -> Result<(), OutOfMemory>
    ensures { IfOk result (λ _. (a n count : ℕ) (walks : List Traversal) → walk.kind < count
        → AreRanged a n count range.old walks → AreRanged a n count range.new (walks ++ walk ∷ [])) }
{
    if walk.source < range.first {
        return Ok(());
    }
    let counted = Traversal {
        source: walk.source - range.first,
        kind: walk.kind,
        row: walk.row,
        target: walk.target,
    };
    lists::put(&mut range.lists, counted)
}

/// Fills the lists of the vertices from `first` on and below `last`.
fn filled(
    alloc: Global,
    types: &[EdgeType],
    edges: &[EdgeEnds],
    first: u32,
    last: u32,
) -> Result<RangeLists, OutOfMemory>
    requires forward { first ≤ last }
    requires limited { length types.now + 1 < 2 ^ 32 }
    requires few { length edges.now < 2 ^ 32 }
    ensures { IfOk result (λ range. HoldWalks types.now edges.now range.first (lists_of range.lists)) }
{
    let room = room_for(alloc, types, edges, first, last)?;
    let mut lists = Lists::new(alloc);
    widen(alloc, &mut lists, &room)?;
    let mut range = RangeLists { first, lists };
    put_walks(alloc, types, 0, edges, &mut range)?;
    Ok(range)
}

/// Fills the lists of a range, by its number. Each range has `size` vertices; the last ones may have fewer.
fn filled_at(
    alloc: Global,
    types: &[EdgeType],
    edges: &[EdgeEnds],
    vertices: u32,
    size: u32,
    number: usize,
) -> Result<RangeLists, OutOfMemory>
    requires limited { length types.now + 1 < 2 ^ 32 }
    requires few { length edges.now < 2 ^ 32 }
    ensures { IfOk result (λ range. HoldWalks types.now edges.now range.first (lists_of range.lists)) }
{
    let first = (size as usize)
        .saturating_mul(number)
        .min(vertices as usize) as u32;
    let last = first.saturating_add(size).min(vertices);
    filled(alloc, types, edges, first, last)
}

/// Appends the lists of a range. False, and nothing has changed, if it doesn't begin where the others end, or if its lists
/// are apart: no worker leaves either.
fn take_in(whole: &mut Packed, range: &RangeLists) -> Result<bool, OutOfMemory>
    ensures { IfOk result (λ fits. fits ≡ true → (range.now.first ≡ length whole.old) × (whole.new ≡ whole.old ++ lists_of range.now.lists)) }
{
    if range.first as usize != whole.len() {
        return Ok(false);
    }
    match &range.lists {
        Lists::Apart(_) => Ok(false),
        Lists::Together(packed) => {
            whole.extend(packed)?;
            Ok(true)
        }
    }
}

/// Joins the lists of all ranges, in order; none if they aren't those of all vertices, which no workers leave.
fn joined(
    alloc: Global,
    types: &[EdgeType],
    edges: &[EdgeEnds],
    vertices: u32,
    ranges: &[Result<RangeLists, OutOfMemory>],
) -> Result<Option<Packed>, OutOfMemory>
    requires { All (λ range. IfOk range (λ range. HoldWalks types.now edges.now range.first (lists_of range.lists))) ranges.now }
    ensures { IfOk result (λ whole. IfSome whole (λ lists. (length lists ≡ vertices) × HoldWalks types.now edges.now 0 lists)) }
{
    let mut whole = Packed::new(alloc);
    for range in ranges {
        match range {
            Err(OutOfMemory) => return Err(OutOfMemory),
            Ok(range) => {
                if !take_in(&mut whole, range)? {
                    return Ok(None);
                }
            }
        }
    }
    if whole.len() != vertices as usize {
        return Ok(None);
    }
    Ok(Some(whole))
}

/// Fills the lists of all vertices, each worker those of one range. None if they can't be joined, which doesn't happen:
/// ranges follow one another, and there is room for all walks.
pub fn filled_by<R: Threads + Sync>(
    rt: &R,
    workers: u32,
    alloc: Global,
    types: &[EdgeType],
    edges: &[EdgeEnds],
    vertices: u32,
) -> Result<Option<Packed>, OutOfMemory>
    requires limited { length types.now + 1 < 2 ^ 32 }
    requires few { length edges.now < 2 ^ 32 }
    ensures { IfOk result (λ whole. IfSome whole (λ lists. (length lists ≡ vertices) × HoldWalks types.now edges.now 0 lists)) }
{
    let count = workers.clamp(1, MOST_RANGES);
    let size = vertices.div_ceil(count);
    let fill = |number: usize| -> Result<RangeLists, OutOfMemory>
        requires limited { length types.now + 1 < 2 ^ 32 }
        requires few { length edges.now < 2 ^ 32 }
        ensures { IfOk result (λ range. HoldWalks types.entry.now edges.entry.now range.first (lists_of range.lists)) }
    { filled_at(alloc, types, edges, vertices, size, number) };
    let ranges = thread::map_indices(rt, alloc, count as usize, &fill)?;
    joined(alloc, types, edges, vertices, &ranges)
}
