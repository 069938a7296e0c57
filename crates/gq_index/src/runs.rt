// A list of walks that stores the source and the type of consecutive walks once.
ghost use Rattle.std.specs.Prelude.{◌≡◌, ℕ, ◌+◌, ◌-◌, ◌<◌, ◌≤◌, ◌^◌, ◌++◌, List, [], ◌∷◌, length, IfOk, vec_len, count_by, nat_le, ◌==◌, ◌&&◌, true, false};
ghost use Rattle.gq_index.specs.declared.walks.Traversal.{Traversal};
ghost use Rattle.gq_index.specs.Runs.{shown, IsRising, Holds, run_count, segment_at, reached_at, segment_of, walk_of};
ghost use Rattle.gq_index.specs.Walks.{walk_at};

use crate::walks::Traversal;
use gq_base::OutOfMemory;
use gq_graph::Steps;
use std::marker::Model;

/// The source and the type of consecutive walks, and the place of the first of them.
#[derive(Clone, Copy)]
pub struct Segment {
    pub source: u32,
    pub kind: u32,
    pub start: u32,
}

/// The edge and the far end of a walk.
#[derive(Clone, Copy)]
pub struct Reached {
    pub row: u32,
    pub target: u32,
}

/// The number of segments that start at or before a place, found by binary search. Each examined segment is a step.
fn find(segments: &[Segment], place: u64, steps: &mut Steps) -> usize
    requires rising { IsRising segments.now }
    requires short { length segments.now < 2 ^ 63 }
    requires room { steps.old < 2 ^ 63 + 2 }
    ensures found { result ≡ count_by (λ s. nat_le s.start place) segments.now }
    ensures grown { steps.old ≤ steps.new }
    ensures counted { (d : ℕ) → length segments.now < 2 ^ d → steps.new ≤ steps.old + d }
{
    let mut low = 0;
    let mut high = segments.len();
    while low < high {
        let middle = low + (high - low) / 2;
        steps.tick();
        if segments[middle].start as u64 <= place {
            low = middle + 1;
        } else {
            high = middle;
        }
    }
    low
}

/// Whether the first `end` segments start at or before `place`.
fn start_by(segments: &[Segment], place: u64, end: usize) -> bool
    requires { end ≤ length segments.now }
    ensures { result ≡ true → 0 < end → (segment_at segments.now (end - 1)).start ≤ place }
{
    if end == 0 {
        return true;
    }
    segments[end - 1].start as u64 <= place
}

/// Whether the segment after the first `end` ones starts after `place`.
fn starts_after(segments: &[Segment], place: u64, end: usize) -> bool
    ensures { result ≡ true → end < length segments.now → place < (segment_at segments.now end).start }
{
    if end >= segments.len() {
        return true;
    }
    segments[end].start as u64 > place
}

/// Whether exactly the first `end` segments start at or before `place`.
fn is_end(segments: &[Segment], place: u64, end: usize) -> bool
    requires rising { IsRising segments.now }
    ensures { result ≡ true → end ≡ count_by (λ s. nat_le s.start place) segments.now }
{
    if end > segments.len() {
        return false;
    }
    if !start_by(segments, place, end) {
        return false;
    }
    starts_after(segments, place, end)
}

/// The number of segments that start at or before a place: `near`, or one more, or else found by binary search. Each
/// look at one of them is a step.
fn find_near(segments: &[Segment], place: u64, near: usize, steps: &mut Steps) -> usize
    requires rising { IsRising segments.now }
    requires short { length segments.now < 2 ^ 63 }
    requires room { steps.old < 2 ^ 63 }
    ensures found { result ≡ count_by (λ s. nat_le s.start place) segments.now }
    ensures counted { (d : ℕ) → length segments.now < 2 ^ d → steps.new ≤ steps.old + d + 2 }
    ensures grown { steps.old ≤ steps.new }
{
    steps.tick();
    if is_end(segments, place, near) {
        return near;
    }
    steps.tick();
    let next = near.saturating_add(1);
    if is_end(segments, place, next) {
        return next;
    }
    find(segments, place, steps)
}

/// Whether a walk belongs to the last segment.
fn continues(segments: &[Segment], walk: Traversal) -> bool
    ensures yes { result ≡ true → (0 < length segments.now) × (walk.source ≡ (segment_at segments.now (length segments.now - 1)).source) × (walk.kind ≡ (segment_at segments.now (length segments.now - 1)).kind) }
    ensures no { result ≡ false → 0 < length segments.now → ((walk.source == (segment_at segments.now (length segments.now - 1)).source) && (walk.kind == (segment_at segments.now (length segments.now - 1)).kind)) ≡ false }
{
    if segments.is_empty() {
        return false;
    }
    let last = segments[segments.len() - 1];
    walk.source == last.source && walk.kind == last.kind
}

/// Appends a walk.
pub fn push(
    segments: &mut Vec<Segment>,
    reached: &mut Vec<Reached>,
    walk: Traversal,
) -> Result<(), OutOfMemory>
    requires { vec_len reached.old < 2 ^ 32 }
    ensures { IfOk result (λ _. (walks : List Traversal) → Holds segments.old.items reached.old.items walks → Holds segments.new.items reached.new.items (walks ++ walk ∷ [])) }
{
    if continues(segments, walk) {
        reached.push(Reached {
            row: walk.row,
            target: walk.target,
        })?;
        return Ok(());
    }
    segments.push(Segment {
        source: walk.source,
        kind: walk.kind,
        start: reached.len() as u32,
    })?;
    reached.push(Reached {
        row: walk.row,
        target: walk.target,
    })?;
    Ok(())
}

/// The walk at a place.
fn walk_at_place(
    segments: &[Segment],
    reached: &[Reached],
    place: u64,
    steps: &mut Steps,
) -> Traversal
    requires holds { Holds segments.now reached.now (shown segments.now reached.now) }
    requires within { place < length reached.now }
    requires short { length segments.now < 2 ^ 63 }
    requires room { steps.old < 2 ^ 63 }
    ensures exact { result ≡ walk_of (segment_of segments.now place) (reached_at reached.now place) }
    ensures counted { (d : ℕ) → length segments.now < 2 ^ d → steps.new ≤ steps.old + d + 1 }
    ensures grown { steps.old < steps.new }
{
    let end = find(segments, place, steps);
    let segment = segments[end - 1];
    steps.tick();
    traversal(segment, reached[place as usize])
}

/// An edge as it is walked in its segment.
fn traversal(segment: Segment, reached: Reached) -> Traversal
    ensures { result ≡ walk_of segment reached }
{
    Traversal {
        source: segment.source,
        kind: segment.kind,
        row: reached.row,
        target: reached.target,
    }
}

/// The walk at a place, whose segment is searched near the previous one.
fn walk_near(
    segments: &[Segment],
    reached: &[Reached],
    place: u64,
    cursor: &mut Cursor,
    steps: &mut Steps,
) -> Traversal
    requires holds { Holds segments.now reached.now (shown segments.now reached.now) }
    requires within { place < length reached.now }
    requires short { length segments.now < 2 ^ 63 }
    requires room { steps.old < 2 ^ 63 }
    ensures exact { result ≡ walk_of (segment_of segments.now place) (reached_at reached.now place) }
    ensures counted { (d : ℕ) → length segments.now < 2 ^ d → steps.new ≤ steps.old + d + 3 }
    ensures grown { steps.old < steps.new }
{
    let end = find_near(segments, place, cursor.near, steps);
    cursor.near = end;
    let segment = segments[end - 1];
    steps.tick();
    traversal(segment, reached[place as usize])
}

/// The position of a reader of candidates.
#[derive(Drop)]
pub struct Cursor {
    /// How many segments start at or before the place that was read last, or the number of its stretch.
    pub(crate) near: usize,
}

impl Cursor {
    /// Returns a cursor before the first place.
    pub fn new() -> Cursor {
        Cursor { near: 0 }
    }
}

/// A list of walks: 12 bytes for each segment, and 8 for each walk.
#[derive(Drop)]
pub struct Runs {
    segments: Vec<Segment>,
    reached: Vec<Reached>,
}

impl Model for Runs {
    ghost use Rattle.std.specs.Prelude.{List};
    ghost use Rattle.gq_index.specs.declared.walks.Traversal.{Traversal};
    ghost use Rattle.gq_index.specs.Runs.{shown, Holds};

    ghost Value = { List Traversal };

    ghost view = { λ r. shown r.segments.items r.reached.items };

    ghost invariant = { λ r. Holds r.segments.items r.reached.items (shown r.segments.items r.reached.items) };
}

impl Runs {
    /// Returns the list that segments and places show.
    pub fn of(segments: Vec<Segment>, reached: Vec<Reached>) -> Runs
        requires { Holds segments.items reached.items (shown segments.items reached.items) }
        ensures { result ≡ shown segments.items reached.items }
    {
        Runs { segments, reached }
    }

    /// The number of walks.
    pub fn len(&self) -> u64
        ensures { result ≡ length self.now }
    {
        self.reached.len() as u64
    }

    /// The walk at a place.
    pub fn at(&self, place: u64, steps: &mut Steps) -> Traversal
        requires within { place < length self.now }
        requires room { steps.old < 2 ^ 63 }
        ensures exact { result ≡ walk_at self.now place }
        ensures counted { (d : ℕ) → run_count self.now < 2 ^ d → steps.new ≤ steps.old + d + 1 }
        ensures grown { steps.old < steps.new }
    {
        walk_at_place(&self.segments, &self.reached, place, steps)
    }

    /// The walk at a place; takes no search if its segment is that of the cursor or the next one.
    pub fn near(&self, place: u64, cursor: &mut Cursor, steps: &mut Steps) -> Traversal
        requires within { place < length self.now }
        requires room { steps.old < 2 ^ 63 }
        ensures exact { result ≡ walk_at self.now place }
        ensures counted { (d : ℕ) → run_count self.now < 2 ^ d → steps.new ≤ steps.old + d + 3 }
        ensures grown { steps.old < steps.new }
    {
        walk_near(&self.segments, &self.reached, place, cursor, steps)
    }
}
