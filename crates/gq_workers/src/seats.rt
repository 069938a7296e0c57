// One worker's part of a block, through a seat of a book of stripes and a seat of words.
ghost use Rattle.std.specs.Prelude.{◌≡◌, ◌+◌, ◌*◌, ◌^◌, ◌<◌, ◌≤◌, ℕ, [], ◌∷◌, length, Some, OnOk, Option};
ghost use Rattle.std.specs.List.{All};
ghost use Rattle.std.specs.Fork.{slice_chunk};
ghost use Rattle.gq_rules_calendar.specs.Gregorian.{gregorian};
ghost use Rattle.gq_exec_source.specs.Ends.{HasEnds};
ghost use Rattle.gq_exec_source.specs.Starts.{AreCandidates, IsWithin};
ghost use Rattle.gq_stripe.specs.declared.view.View.{View};
ghost use Rattle.gq_stripe.specs.Steps.{got};
ghost use Rattle.gq_stripe.specs.Seats as stripes;
ghost use Rattle.gq_words.specs.Seats as marked;
ghost use Rattle.gq_workers.specs.Working.{AreTables, AreWords, DoesChunk, Gathers, GathersOne, IsEdgePlace, IsFirst, Works, job_of, mark_in, mark_of, marks, task_job, with_feeds};

use crate::candidate::outcome_of;
use gq_base::{OutOfMemory, within};
use gq_core::Batches;
use gq_eval_context::BlockContext;
use gq_exec_contribute::{Outcome, Room, leaves_of};
use gq_exec_source::Ends;
use gq_graph::{Candidate, Steps};
use gq_index::{Candidates, Cursor};
use gq_io::{Gate, Shape};
use gq_plan_ir::Block;
use gq_stripe::{Book, Seat};
use gq_words::{WordSeat, Words};
use std::alloc::Global;
use std::sync::Wait;

/// The most contributions that one put takes.
const MOST: usize = 34_359_738_368;

/// What a worker tries candidates with.
#[derive(Drop)]
pub(crate) struct Task<'a> {
    pub block: &'a Block,
    pub ends: &'a Ends,

    /// The place of the edge's alias.
    pub edge: Option<u32>,
    pub candidates: &'a Candidates<'a>,

    /// The number of candidates per chunk, at least 1.
    pub size: u64,
}

/// Room for the contributions of a chunk, for one chunk after another.
#[derive(Drop)]
pub(crate) struct ChunkRoom {
    pub room: Room,
    pub batches: Batches,
}

/// One worker's part of a block. Callers may run several on threads of their own, each with its own two seats.
///
/// It draws chunks of `shape.chunk` candidates (a chunk of 0 counts as 1) from the book, passes the gate after each
/// draw, tries the candidates, and puts their contributions at each stripe, until no chunk is left. A match sets the
/// bits of its ends in the words, and a candidate that faults lowers the first word to its place; the candidates after
/// it are tried too. Returns `OutOfMemory` past 2^35 contributions of a chunk. After `OutOfMemory` nothing is promised
/// of what the seats have put and fed. It waits for its turn at each stripe.
pub fn work<'a, R: Wait, G: Gate>(
    rt: &R,
    alloc: Global,
    block: &'a Block,
    over: &BlockContext<'_>,
    ends: &'a Ends,
    candidates: &'a Candidates<'a>,
    shape: &Shape,
    worker: u32,
    book: &Book,
    seat: &mut Seat,
    words: &Words,
    word_seat: &mut WordSeat,
    gate: &G,
) -> Result<(), OutOfMemory>
    requires worker { worker < 64 }
    requires ends { HasEnds over.now.schema over.now.plan over.now.frame.things block.now ends.now }
    requires candidates { AreCandidates over.now block.now candidates.now }
    requires stripes { 0 < shape.now.stripes }
    requires tables { (edge : Option ℕ) → IsEdgePlace block.now edge → AreTables (job_of gregorian over.now block.now ends.now edge candidates.now shape.now) (stripes.plan_of book.now) (marked.openings_of words.now) }
    requires seat { stripes.IsIdle book.now seat.old }
    requires word_seat { marked.IsSeatOf words.now word_seat.old }
    ensures same { stripes.IsSameSeat seat.old seat.new × marked.IsSameSeat word_seat.old word_seat.new }
    ensures works { OnOk result ((edge : Option ℕ) → IsEdgePlace block.now edge →
        Works (job_of gregorian over.now block.now ends.now edge candidates.now shape.now) (stripes.view_of seat.old) (stripes.view_of seat.new) (marked.view_of word_seat.old) (marked.view_of word_seat.new)) }
{
    let leaves = leaves_of(alloc, &over.frame.accums.slots, &block.walk, ends)?;
    let task = Task {
        block,
        ends,
        edge: leaves.edge,
        candidates,
        size: shape.chunk.max(1),
    };
    let mut room = ChunkRoom {
        room: Room::new(alloc),
        batches: Batches::new(alloc, shape.stripes)?,
    };
    for _ in rt.forever() {
        let Some(chunk) = book.draw(seat) else {
            return Ok(());
        };
        gate.pass(worker, chunk);
        do_chunk(
            rt, alloc, &task, over, chunk, &mut room, book, seat, words, word_seat,
        )?;
    }
    unreachable!()
}

/// Tries the candidates of a chunk, and puts their contributions.
fn do_chunk<R: Wait>(
    rt: &R,
    alloc: Global,
    task: &Task<'_>,
    over: &BlockContext<'_>,
    chunk: u64,
    room: &mut ChunkRoom,
    book: &Book,
    seat: &mut Seat,
    words: &Words,
    word_seat: &mut WordSeat,
) -> Result<(), OutOfMemory>
    requires within { All (IsWithin (length over.now.vertices)) task.now.candidates.now }
    requires tables { AreTables (task_job gregorian over.now task.now (length room.old.batches)) (stripes.plan_of book.now) (marked.openings_of words.now) }
    requires inside { chunk * task.now.size < length task.now.candidates.now }
    requires own { stripes.IsSeatOf book.now seat.old }
    requires holds { stripes.chunk_held (stripes.view_of seat.old).phase ≡ Some chunk }
    requires word_seat { marked.IsSeatOf words.now word_seat.old }
    ensures same { stripes.IsSameSeat seat.old seat.new × marked.IsSameSeat word_seat.old word_seat.new }
    ensures count { OnOk result (length room.new.batches ≡ length room.old.batches) }
    ensures does { OnOk result ((view : View) → stripes.view_of seat.old ≡ got view chunk →
        DoesChunk (task_job gregorian over.now task.now (length room.old.batches)) chunk view (stripes.view_of seat.new) (marked.view_of word_seat.old) (marked.view_of word_seat.new)) }
{
    gather_chunk(alloc, task, over, chunk, room, words, word_seat)?;
    are_few(&room.batches)?;
    book.put(rt, seat, chunk, &room.batches)
}

/// Refuses more contributions than one put takes.
fn are_few(batches: &Batches) -> Result<(), OutOfMemory>
    ensures { OnOk result (stripes.contributions batches.now ≤ 2 ^ 35) }
{
    let mut count = 0usize;
    for stripe in 0..batches.stripes() {
        count = count.saturating_add(batches.at(stripe).len());
        within(count, MOST)?;
    }
    Ok(())
}

/// Tries the candidates of a chunk. Their contributions are in the batches then, and what they feed is fed to the words.
fn gather_chunk(
    alloc: Global,
    task: &Task<'_>,
    over: &BlockContext<'_>,
    chunk: u64,
    room: &mut ChunkRoom,
    words: &Words,
    seat: &mut WordSeat,
) -> Result<(), OutOfMemory>
    requires within { All (IsWithin (length over.now.vertices)) task.now.candidates.now }
    requires inside { chunk * task.now.size < length task.now.candidates.now }
    requires words { AreWords (length over.now.vertices) words.now }
    requires own { marked.IsSeatOf words.now seat.old }
    ensures same { marked.IsSameSeat seat.old seat.new }
    ensures count { OnOk result (length room.new.batches ≡ length room.old.batches) }
    ensures gathers { OnOk result (Gathers (task_job gregorian over.now task.now (length room.old.batches)) (chunk * task.now.size) (slice_chunk task.now.candidates.now task.now.size chunk)
        room.new.batches (marked.view_of seat.old) (marked.view_of seat.new)) }
{
    room.batches.clear();
    let count = task.candidates.count();
    let start = chunk * task.size;
    let end = start.saturating_add(task.size).min(count);
    let mut cursor = Cursor::new();
    for place in start..end {
        let candidate = task.candidates.near(place, &mut cursor, &mut Steps::new());
        gather_one(alloc, task, over, place, &candidate, room, words, seat)?;
    }
    Ok(())
}

/// Tries a candidate: adds its contributions to the batches, and feeds its ends, or the place of its fault, to the words.
fn gather_one(
    alloc: Global,
    task: &Task<'_>,
    over: &BlockContext<'_>,
    place: u64,
    candidate: &Candidate,
    room: &mut ChunkRoom,
    words: &Words,
    seat: &mut WordSeat,
) -> Result<(), OutOfMemory>
    requires within { IsWithin (length over.now.vertices) candidate.now }
    requires words { AreWords (length over.now.vertices) words.now }
    requires own { marked.IsSeatOf words.now seat.old }
    ensures same { marked.IsSameSeat seat.old seat.new }
    ensures count { OnOk result (length room.new.batches ≡ length room.old.batches) }
    ensures gathers { OnOk result (GathersOne (task_job gregorian over.now task.now (length room.old.batches)) place candidate.now room.old.batches room.new.batches (marked.view_of seat.old) (marked.view_of seat.new)) }
{
    let tried = outcome_of(
        alloc,
        task.block,
        over,
        task.ends,
        task.edge,
        candidate,
        &mut room.room,
        &mut room.batches,
    )?;
    match tried {
        Outcome::Fault(_) => words.feed_min(seat, 0, place),
        Outcome::Filtered => {}
        Outcome::Passed => mark_ends(over, candidate, words, seat),
    }
    Ok(())
}

/// Feeds the bits of a match's ends to the words.
fn mark_ends(over: &BlockContext<'_>, candidate: &Candidate, words: &Words, seat: &mut WordSeat)
    requires within { IsWithin (length over.now.vertices) candidate.now }
    requires words { AreWords (length over.now.vertices) words.now }
    requires own { marked.IsSeatOf words.now seat.old }
    ensures same { marked.IsSameSeat seat.old seat.new }
    ensures fed { marked.view_of seat.new ≡ with_feeds (marked.view_of seat.old) (mark_of 1 candidate.now.source ∷ mark_in (1 + marks (length over.now.vertices)) candidate.now.target) }
{
    let count = over.graph.store.vertices.len() as usize;
    feed_mark(words, seat, 1, candidate.source, count);
    match candidate.target {
        Some(target) => feed_mark(words, seat, 1 + count.div_ceil(64), target, count),
        None => {}
    }
}

/// Feeds the bit of a vertex to the words from `first` on, which are those of the sources or of the targets.
fn feed_mark(words: &Words, seat: &mut WordSeat, first: usize, vertex: u32, count: usize)
    requires words { AreWords count words.now }
    requires first { IsFirst count first }
    requires below { vertex < count }
    requires own { marked.IsSeatOf words.now seat.old }
    ensures same { marked.IsSameSeat seat.old seat.new }
    ensures fed { marked.view_of seat.new ≡ with_feeds (marked.view_of seat.old) (mark_of first vertex ∷ []) }
{
    let bit = 1u64 << (vertex % 64);
    words.feed_or(seat, first + vertex as usize / 64, bit);
}
