// Lists of ways that lie one after another in one list.
ghost use Rattle.std.specs.Prelude.{◌≡◌, ℕ, ◌+◌, ◌-◌, ◌<◌, ◌≤◌, ◌^◌, ◌++◌, [], ◌∷◌, List, length, map, true, false, IfOk, replicate, slice_set};
ghost use Rattle.gq_index.specs.declared.walks.Neighbor.{Neighbor};
ghost use Rattle.gq_index.specs.declared.walks.Traversal.{Traversal};
ghost use Rattle.gq_index.specs.Packed.{AreApart, HasRoom, moved, part, parts, span_at};
ghost use Rattle.gq_index.specs.Walks.{AreListed, ways_at};

use crate::lists::is_last;
use crate::walks::{Neighbor, Traversal};
use gq_base::{OutOfMemory, within};
use std::alloc::Global;
use std::marker::Model;

/// Where the list of a vertex starts, and where it stops.
#[derive(Clone, Copy)]
pub struct Span {
    pub start: u32,
    pub stop: u32,
}

/// Whether the place behind a list is in no later one.
fn has_room(spans: &[Span], size: usize, vertex: usize) -> bool
    requires apart { AreApart spans.now size }
    requires there { vertex < length spans.now }
    ensures { result ≡ true → HasRoom spans.now size vertex }
{
    let stop = spans[vertex].stop;
    if stop as usize >= size {
        return false;
    }
    if vertex + 1 >= spans.len() {
        return true;
    }
    stop < spans[vertex + 1].start
}

/// Writes a way behind a list.
fn write(spans: &mut [Span], ways: &mut [Neighbor], vertex: usize, way: Neighbor)
    requires apart { AreApart spans.old (length ways.old) }
    requires there { vertex < length spans.old }
    requires room { HasRoom spans.old (length ways.old) vertex }
    requires short { length ways.old < 2 ^ 32 }
    ensures apart { AreApart spans.new (length ways.new) }
    ensures long { length ways.new ≡ length ways.old }
    ensures put { parts spans.new ways.new ≡ slice_set (parts spans.old ways.old) vertex (part ways.old (span_at spans.old vertex) ++ way ∷ []) }
{
    let span = spans[vertex];
    ways[span.stop as usize] = way;
    spans[vertex] = Span {
        start: span.start,
        stop: span.stop + 1,
    };
}

/// How many ways there is room for.
fn sum(room: &[u32]) -> usize {
    let mut all = 0usize;
    for ways in room {
        all = all.saturating_add(*ways as usize);
    }
    all
}

/// Appends empty lists, with room for that many ways behind each, at most up to a limit. After `OutOfMemory` some of
/// them may be there.
fn append(spans: &mut Vec<Span>, first: u32, limit: u32, room: &[u32]) -> Result<(), OutOfMemory>
    requires apart { AreApart spans.old.items first }
    requires within { first ≤ limit }
    ensures apart { AreApart spans.new.items limit }
    ensures lists { IfOk result (λ _. (ways : List Neighbor) → parts spans.new.items ways ≡ parts spans.old.items ways ++ replicate (length room.now) []) }
{
    spans.reserve(room.len())?;
    let mut place = first;
    for ways in room {
        spans.push(Span {
            start: place,
            stop: place,
        })?;
        place = place.saturating_add(*ways).min(limit);
    }
    Ok(())
}

/// Appends spans, each moved behind the first ways. After `OutOfMemory` some of them may be there.
fn append_moved(
    spans: &mut Vec<Span>,
    first: u32,
    limit: u32,
    others: &[Span],
) -> Result<(), OutOfMemory>
    requires apart { AreApart spans.old.items first }
    requires others { AreApart others.now (limit - first) }
    requires within { first ≤ limit }
    ensures apart { AreApart spans.new.items limit }
    ensures spans { IfOk result (λ _. spans.new.items ≡ spans.old.items ++ map (moved first) others.now) }
{
    spans.reserve(others.len())?;
    for span in others {
        spans.push(Span {
            start: first + span.start,
            stop: first + span.stop,
        })?;
    }
    Ok(())
}

/// Lists of ways that lie one after another in one list, each with room behind it. It takes 8 bytes for each list.
#[derive(Drop)]
pub struct Packed {
    spans: Vec<Span>,
    ways: Vec<Neighbor>,
}

impl Model for Packed {
    ghost use Rattle.std.specs.Prelude.{◌<◌, ◌^◌, List, length};
    ghost use Rattle.gq_index.specs.declared.walks.Neighbor.{Neighbor};
    ghost use Rattle.gq_index.specs.Packed.{AreApart, parts};

    ghost Value = { List (List Neighbor) };

    ghost view = { λ p. parts p.spans.items p.ways.items };

    ghost invariant = { λ p. record {
      apart : AreApart p.spans.items (length p.ways.items);
      short : length p.ways.items < 2 ^ 32;
    } };
}

impl Packed {
    /// Returns no lists; allocates nothing.
    pub fn new(alloc: Global) -> Packed
        ensures { result ≡ [] }
    {
        Packed {
            spans: Vec::new(alloc),
            ways: Vec::new(alloc),
        }
    }

    /// The allocator of the lists.
    pub fn allocator(&self) -> Global {
        *self.ways.allocator()
    }

    /// The number of lists.
    pub fn len(&self) -> usize
        ensures { result ≡ length self.now }
    {
        self.spans.len()
    }

    /// The list of a vertex; empty if there is none.
    pub fn ways(&self, vertex: usize) -> &[Neighbor]
        ensures { result.now ≡ ways_at self.now vertex }
    {
        if vertex >= self.spans.len() {
            return &[];
        }
        let span = self.spans[vertex];
        &self.ways[span.start as usize..span.stop as usize]
    }

    /// Appends empty lists, with room for that many ways behind each.
    pub fn widen(&mut self, room: &[u32]) -> Result<(), OutOfMemory>
        ensures { IfOk result (λ _. self.new ≡ self.old ++ replicate (length room.now) []) }
    {
        let first = self.ways.len();
        let size = first.saturating_add(sum(room));
        within(size, u32::MAX as usize)?;
        self.ways.resize(
            size,
            Neighbor {
                kind: 0,
                row: 0,
                target: 0,
            },
        )?;
        append(&mut self.spans, first as u32, size as u32, room)
    }

    /// Appends other lists, with the room behind each.
    pub fn extend(&mut self, other: &Packed) -> Result<(), OutOfMemory>
        ensures { IfOk result (λ _. self.new ≡ self.old ++ other.now) }
    {
        let first = self.ways.len();
        let size = first.saturating_add(other.ways.len());
        within(size, u32::MAX as usize)?;
        self.ways.extend_from_slice(&other.ways)?;
        append_moved(&mut self.spans, first as u32, size as u32, &other.spans)
    }

    /// Adds a walk behind those from its source vertex, if that exists; false, and nothing has changed, if there is no
    /// room, or if walks of higher types are there.
    #[inline(always)]
    pub fn put(&mut self, walk: Traversal) -> bool
        ensures put { result ≡ true → (n count : ℕ) (walks : List Traversal) → walk.kind < count
            → AreListed n count self.old walks → AreListed n count self.new (walks ++ walk ∷ []) }
        ensures same { result ≡ false → self.new ≡ self.old }
    {
        let vertex = walk.source as usize;
        if vertex >= self.spans.len() {
            return true;
        }
        if !has_room(&self.spans, self.ways.len(), vertex) {
            return false;
        }
        if !is_last(self.ways(vertex), walk.kind) {
            return false;
        }
        let way = Neighbor {
            kind: walk.kind,
            row: walk.row,
            target: walk.target,
        };
        write(&mut self.spans, &mut self.ways, vertex, way);
        true
    }
}
