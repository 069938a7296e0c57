// A list of walks that are read in an index, where those from one vertex are neighbours.
ghost use Rattle.std.specs.Prelude.{◌≡◌, ℕ, ◌+◌, ◌-◌, ◌<◌, ◌≤◌, ◌^◌, ◌++◌, [], true, length, map, IfOk};
ghost use Rattle.gq_index.specs.Runs.{run_count};
ghost use Rattle.gq_index.specs.Stretches.{FollowFrom, end_of, stretch_at, walks_along, way_at};
ghost use Rattle.gq_index.specs.Walks.{walk_at, walked};

use crate::runs::Cursor;
use crate::walks::{Neighbor, Traversal};
use gq_base::{OutOfMemory, within};
use gq_graph::Steps;
use std::alloc::Global;
use std::marker::Model;

/// Ways from a vertex that are neighbours in an index, at least one, and the place of the first walk along them.
#[derive(Clone, Copy)]
pub struct Stretch<'g> {
    pub source: u32,
    pub start: u32,
    pub ways: &'g [Neighbor],
}

/// The number of stretches that start at or before a place, found by binary search. Each examined stretch is a step.
fn find(stretches: &[Stretch<'_>], place: u64, steps: &mut Steps) -> usize
    requires short { length stretches.now < 2 ^ 63 }
    requires room { steps.old < 2 ^ 63 + 2 }
    ensures within { result ≤ length stretches.now }
    ensures before { 0 < result → (stretch_at stretches.now (result - 1)).start ≤ place }
    ensures behind { result < length stretches.now → place < (stretch_at stretches.now result).start }
    ensures counted { (d : ℕ) → length stretches.now < 2 ^ d → steps.new ≤ steps.old + d }
    ensures grown { steps.old ≤ steps.new }
{
    let mut low = 0;
    let mut high = stretches.len();
    while low < high {
        let middle = low + (high - low) / 2;
        steps.tick();
        if stretches[middle].start as u64 <= place {
            low = middle + 1;
        } else {
            high = middle;
        }
    }
    low
}

/// Whether a place belongs to the stretch with this number.
fn is_in(stretches: &[Stretch<'_>], number: usize, place: u64) -> bool
    ensures there { result ≡ true → number < length stretches.now }
    ensures low { result ≡ true → (stretch_at stretches.now number).start ≤ place }
    ensures high { result ≡ true → place < end_of (stretch_at stretches.now number) }
{
    if number >= stretches.len() {
        return false;
    }
    if place < stretches[number].start as u64 {
        return false;
    }
    let offset = place - stretches[number].start as u64;
    (offset as usize) < stretches[number].ways.len()
}

/// The number of the stretch of a place, found by binary search.
fn number_of(stretches: &[Stretch<'_>], place: u64, steps: &mut Steps) -> usize
    requires follow { FollowFrom 0 stretches.now }
    requires within { place < length (walks_along stretches.now) }
    requires short { length stretches.now < 2 ^ 63 }
    requires room { steps.old < 2 ^ 63 + 2 }
    ensures there { result < length stretches.now }
    ensures low { (stretch_at stretches.now result).start ≤ place }
    ensures high { place < end_of (stretch_at stretches.now result) }
    ensures counted { (d : ℕ) → length stretches.now < 2 ^ d → steps.new ≤ steps.old + d }
    ensures grown { steps.old ≤ steps.new }
{
    find(stretches, place, steps) - 1
}

/// The number of the stretch of a place: the next one, or else found by binary search. The look at the next one is a
/// step.
fn number_behind(stretches: &[Stretch<'_>], place: u64, last: usize, steps: &mut Steps) -> usize
    requires follow { FollowFrom 0 stretches.now }
    requires within { place < length (walks_along stretches.now) }
    requires short { length stretches.now < 2 ^ 63 }
    requires room { steps.old < 2 ^ 63 + 1 }
    ensures there { result < length stretches.now }
    ensures low { (stretch_at stretches.now result).start ≤ place }
    ensures high { place < end_of (stretch_at stretches.now result) }
    ensures counted { (d : ℕ) → length stretches.now < 2 ^ d → steps.new ≤ steps.old + d + 1 }
    ensures grown { steps.old ≤ steps.new }
{
    steps.tick();
    let next = last.saturating_add(1);
    if is_in(stretches, next, place) {
        return next;
    }
    number_of(stretches, place, steps)
}

/// The walk along one of the ways from a vertex.
fn along(source: u32, ways: &[Neighbor], number: u64) -> Traversal
    requires { number < length ways.now }
    ensures { result ≡ walked source (way_at ways.now number) }
{
    let way = ways[number as usize];
    Traversal {
        source,
        kind: way.kind,
        row: way.row,
        target: way.target,
    }
}

/// The walk at a place of the stretch with this number.
fn read(stretches: &[Stretch<'_>], number: usize, place: u64) -> Traversal
    requires follow { FollowFrom 0 stretches.now }
    requires there { number < length stretches.now }
    requires low { (stretch_at stretches.now number).start ≤ place }
    requires high { place < end_of (stretch_at stretches.now number) }
    ensures { result ≡ walk_at (walks_along stretches.now) place }
{
    let stretch = stretches[number];
    along(stretch.source, stretch.ways, place - stretch.start as u64)
}

/// A list of walks that holds none of them: 24 bytes for each stretch of ways that are read in an index.
#[derive(Drop)]
pub struct Stretches<'g> {
    stretches: Vec<Stretch<'g>>,
    count: u32,
}

impl<'g> Model for Stretches<'g> {
    ghost use Rattle.std.specs.Prelude.{List};
    ghost use Rattle.gq_index.specs.declared.walks.Traversal.{Traversal};
    ghost use Rattle.gq_index.specs.Stretches.{AreStretches, walks_along};

    ghost Value = { List Traversal };

    ghost view = { λ s. walks_along s.stretches.items };

    ghost invariant = { λ s. AreStretches s.stretches.items s.count };
}

impl<'g> Stretches<'g> {
    /// Returns an empty list; allocates nothing.
    pub fn new(alloc: Global) -> Stretches<'g>
        ensures { result ≡ [] }
    {
        Stretches {
            stretches: Vec::new(alloc),
            count: 0,
        }
    }

    /// Appends the walks along ways from a vertex with a higher number than the last source. Also returns
    /// `OutOfMemory` past 4,294,967,295 walks. Unchanged after `OutOfMemory`.
    pub fn push(&mut self, source: u32, ways: &'g [Neighbor]) -> Result<(), OutOfMemory>
        requires { 0 < length self.old → (walk_at self.old (length self.old - 1)).source < source }
        ensures { IfOk result (λ _. self.new ≡ self.old ++ map (walked source) ways.now) }
    {
        if ways.is_empty() {
            return Ok(());
        }
        within(ways.len(), (u32::MAX - self.count) as usize)?;
        self.stretches.push(Stretch {
            source,
            start: self.count,
            ways,
        })?;
        self.count += ways.len() as u32;
        Ok(())
    }

    /// The number of walks.
    pub fn len(&self) -> u64
        ensures { result ≡ length self.now }
    {
        self.count as u64
    }

    /// The walk at a place.
    pub fn at(&self, place: u64, steps: &mut Steps) -> Traversal
        requires within { place < length self.now }
        requires room { steps.old < 2 ^ 63 }
        ensures exact { result ≡ walk_at self.now place }
        ensures counted { (d : ℕ) → run_count self.now < 2 ^ d → steps.new ≤ steps.old + d + 1 }
        ensures grown { steps.old < steps.new }
    {
        let number = number_of(&self.stretches, place, steps);
        steps.tick();
        read(&self.stretches, number, place)
    }

    /// The walk at a place; takes no search if its stretch is that of the cursor or the next one.
    pub fn near(&self, place: u64, cursor: &mut Cursor, steps: &mut Steps) -> Traversal
        requires within { place < length self.now }
        requires room { steps.old < 2 ^ 63 }
        ensures exact { result ≡ walk_at self.now place }
        ensures counted { (d : ℕ) → run_count self.now < 2 ^ d → steps.new ≤ steps.old + d + 3 }
        ensures grown { steps.old < steps.new }
    {
        steps.tick();
        if is_in(&self.stretches, cursor.near, place) {
            steps.tick();
            return read(&self.stretches, cursor.near, place);
        }
        let number = number_behind(&self.stretches, place, cursor.near, steps);
        cursor.near = number;
        steps.tick();
        read(&self.stretches, number, place)
    }
}
