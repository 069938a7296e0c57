// Lists of ways, one for each vertex, together in one list or each by itself.
ghost use Rattle.std.specs.Prelude.{◌≡◌, ℕ, ◌+◌, ◌-◌, ◌<◌, ◌≤◌, ◌++◌, [], ◌∷◌, List, length, map, nat_le, true, false, IfOk, replicate};
ghost use Rattle.std.specs.List.Sorted.{IsPartitionedBy, IsPartitionPoint};
ghost use Rattle.gq_index.specs.declared.walks.Neighbor.{Neighbor};
ghost use Rattle.gq_index.specs.declared.walks.Traversal.{Traversal};
ghost use Rattle.gq_index.specs.Lists.{lists_of};
ghost use Rattle.gq_index.specs.Walks.{AreListed, by_type, walked, ways_at};

use crate::packed::Packed;
use crate::walks::{Neighbor, Traversal};
use gq_base::OutOfMemory;
use gq_edge::EdgeEnds;
use gq_graph::EdgeType;
use std::alloc::Global;

/// The position at which a way of this type is inserted: after those of its type and of lower types.
///
/// Ways arrive by type, except those that are added to a kept index. So the last way is checked first.
fn place_for(list: &[Neighbor], kind: u32) -> usize
    ensures bound { result ≤ length list.now }
    ensures place { IsPartitionedBy (λ (other : Neighbor). nat_le other.kind kind) list.now
        → IsPartitionPoint (λ (other : Neighbor). nat_le other.kind kind ≡ true) (λ (other : Neighbor). nat_le other.kind kind ≡ false) list.now result }
{
    let behind = list.len();
    if behind > 0 && list[behind - 1].kind <= kind {
        return behind;
    }
    list.partition_point(|other| other.kind <= kind)
}

/// Inserts a way after those of its type and of lower types.
fn insert(list: &mut Vec<Neighbor>, way: Neighbor) -> Result<(), OutOfMemory>
    ensures { IfOk result (λ _. (count v : ℕ) (walks : List Traversal) → way.kind < count
        → map (walked v) list.old.items ≡ by_type count walks
        → map (walked v) list.new.items ≡ by_type count (walks ++ walked v way ∷ [])) }
{
    let place = place_for(list, way.kind);
    list.insert(place, way)?;
    Ok(())
}

/// Whether a way of this type is inserted at the end.
pub fn is_last(list: &[Neighbor], kind: u32) -> bool
    ensures { result ≡ true → (IsPartitionedBy (λ (other : Neighbor). nat_le other.kind kind) list.now
        → IsPartitionPoint (λ (other : Neighbor). nat_le other.kind kind ≡ true) (λ (other : Neighbor). nat_le other.kind kind ≡ false) list.now (length list.now)) }
{
    place_for(list, kind) == list.len()
}

/// Adds a walk to the list of its source vertex, if that exists.
fn put_apart(lists: &mut Vec<Vec<Neighbor>>, walk: Traversal) -> Result<(), OutOfMemory>
    ensures { IfOk result (λ _. (n count : ℕ) (walks : List Traversal) → walk.kind < count
        → AreListed n count (map (λ list. list.items) lists.old.items) walks
        → AreListed n count (map (λ list. list.items) lists.new.items) (walks ++ walk ∷ [])) }
{
    if walk.source as usize >= lists.len() {
        return Ok(());
    }
    let way = Neighbor {
        kind: walk.kind,
        row: walk.row,
        target: walk.target,
    };
    insert(&mut lists[walk.source as usize], way)
}

/// A list of ways for each vertex: together, where a list can't grow past the room behind it, or apart.
#[derive(Drop)]
pub enum Lists {
    Together(Packed),
    Apart(Vec<Vec<Neighbor>>),
}

impl Lists {
    /// Returns no lists; allocates nothing.
    pub fn new(alloc: Global) -> Lists
        ensures { lists_of result ≡ [] }
    {
        Lists::Together(Packed::new(alloc))
    }

    /// The number of lists.
    pub fn len(&self) -> usize
        ensures { result ≡ length (lists_of self.now) }
    {
        match self {
            Lists::Together(packed) => packed.len(),
            Lists::Apart(lists) => lists.len(),
        }
    }

    /// The list of a vertex; empty if there is none.
    pub fn ways(&self, vertex: usize) -> &[Neighbor]
        ensures { result.now ≡ ways_at (lists_of self.now) vertex }
    {
        match self {
            Lists::Together(packed) => packed.ways(vertex),
            Lists::Apart(lists) => ways_in(lists, vertex),
        }
    }
}

/// The list of a vertex among lists apart; empty if there is none.
fn ways_in(lists: &[Vec<Neighbor>], vertex: usize) -> &[Neighbor]
    ensures { result.now ≡ ways_at (map (λ list. list.items) lists.now) vertex }
{
    if vertex >= lists.len() {
        return &[];
    }
    lists[vertex].as_slice()
}

/// Adds a walk to lists that are together, if they have room for it; false, and nothing has changed, if not.
#[inline(always)]
fn fits(lists: &mut Lists, walk: Traversal) -> bool
    ensures put { result ≡ true → (n count : ℕ) (walks : List Traversal) → walk.kind < count
        → AreListed n count (lists_of lists.old) walks → AreListed n count (lists_of lists.new) (walks ++ walk ∷ []) }
    ensures same { result ≡ false → lists_of lists.new ≡ lists_of lists.old }
{
    match lists {
        Lists::Together(packed) => packed.put(walk),
        Lists::Apart(_) => false,
    }
}

/// Copies lists that are together, each by itself.
fn separated(packed: &Packed) -> Result<Vec<Vec<Neighbor>>, OutOfMemory>
    ensures { IfOk result (λ apart. map (λ list. list.items) apart.items ≡ packed.now) }
{
    let alloc = packed.allocator();
    let count = packed.len();
    let mut apart = Vec::new(alloc);
    apart.reserve(count)?;
    for vertex in 0..count {
        let list = Vec::from_slice(alloc, packed.ways(vertex))?;
        apart.push(list)?;
    }
    Ok(apart)
}

/// Adds a walk to the list of its source vertex, if that exists. Lists that are together are separated before.
#[cold]
#[inline(never)]
fn put_anyway(lists: &mut Lists, walk: Traversal) -> Result<(), OutOfMemory>
    ensures { IfOk result (λ _. (n count : ℕ) (walks : List Traversal) → walk.kind < count
        → AreListed n count (lists_of lists.old) walks → AreListed n count (lists_of lists.new) (walks ++ walk ∷ [])) }
{
    match lists {
        Lists::Together(packed) => {
            let mut apart = separated(packed)?;
            put_apart(&mut apart, walk)?;
            *lists = Lists::Apart(apart);
            Ok(())
        }
        Lists::Apart(apart) => put_apart(apart, walk),
    }
}

/// Adds a walk to the list of its source vertex, if that exists. Separates the lists if that list has no room.
#[inline(always)]
pub fn put(lists: &mut Lists, walk: Traversal) -> Result<(), OutOfMemory>
    ensures { IfOk result (λ _. (n count : ℕ) (walks : List Traversal) → walk.kind < count
        → AreListed n count (lists_of lists.old) walks → AreListed n count (lists_of lists.new) (walks ++ walk ∷ [])) }
{
    if fits(lists, walk) {
        return Ok(());
    }
    put_anyway(lists, walk)
}

/// Counts a way from a vertex, if it is one of the new ones.
fn count(room: &mut [u32], first: u32, vertex: u32)
    ensures { length room.new ≡ length room.old }
{
    if vertex < first {
        return;
    }
    let place = (vertex - first) as usize;
    if place < room.len() {
        room[place] = room[place].saturating_add(1);
    }
}

/// Whether edges of a type are also walked from their TO vertices.
fn is_walked_back(types: &[EdgeType], kind: u32) -> bool {
    match types.get(kind as usize) {
        Some(of) => !of.directed || of.reverse.is_some(),
        None => false,
    }
}

/// The number of ways along these edges from each of the new vertices, of which `first` is the first one.
pub fn room_for(
    alloc: Global,
    types: &[EdgeType],
    edges: &[EdgeEnds],
    first: u32,
    vertices: u32,
) -> Result<Vec<u32>, OutOfMemory>
    requires { first ≤ vertices }
    ensures { IfOk result (λ room. length room.items ≡ vertices - first) }
{
    let mut room = vec![in alloc; 0u32; (vertices - first) as usize]?;
    for edge in edges {
        count(&mut room, first, edge.from());
        if is_walked_back(types, edge.kind()) {
            count(&mut room, first, edge.to());
        }
    }
    Ok(room)
}

/// Appends empty lists, each with a capacity from `room`.
fn widen_apart(
    alloc: Global,
    lists: &mut Vec<Vec<Neighbor>>,
    room: &[u32],
) -> Result<(), OutOfMemory>
    ensures { IfOk result (λ _. map (λ list. list.items) lists.new.items ≡ map (λ list. list.items) lists.old.items ++ replicate (length room.now) []) }
{
    lists.reserve(room.len())?;
    for ways in room {
        let empty = Vec::with_capacity(alloc, *ways as usize)?;
        lists.push(empty)?;
    }
    Ok(())
}

/// Appends empty lists, each with room for that many ways.
pub fn widen(alloc: Global, lists: &mut Lists, room: &[u32]) -> Result<(), OutOfMemory>
    ensures { IfOk result (λ _. lists_of lists.new ≡ lists_of lists.old ++ replicate (length room.now) []) }
{
    match lists {
        Lists::Together(packed) => packed.widen(room),
        Lists::Apart(apart) => widen_apart(alloc, apart, room),
    }
}
