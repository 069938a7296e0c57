// The run of a block.
ghost use Rattle.std.specs.Prelude.{◌≡◌, ◌<◌, length, IfOk};
ghost use Rattle.gq_rules_calendar.specs.Gregorian.{gregorian};
ghost use Rattle.gq_exec_source.specs.Ends.{HasEnds};
ghost use Rattle.gq_exec_source.specs.Starts.{AreCandidates};
ghost use Rattle.gq_workers.specs.Results.{Answers, IsWorkOf, Leaves, RanTo, stop_fault};
ghost use Rattle.gq_workers.specs.Running.{IsWork, HasRun, Steps};

use crate::chunk::try_chunk;
use crate::rounds::Work;
use crate::run::{BlockProgress, feed, judged};
use crate::wanted::wanted_by;
use crate::workers::try_rounds;
use gq_base::OutOfMemory;
use gq_eval_context::{After, BlockContext, BlockFault};
use gq_exec_contribute::{Stop, column_of, filter_of, leaves_of};
use gq_exec_source::Ends;
use gq_index::Candidates;
use gq_io::{Gate, Shape};
use gq_plan_ir::Block;
use std::alloc::Global;
use std::thread::Threads;

/// The result of a run: all candidates are done, or one of them faults.
#[derive(Drop)]
pub(crate) enum Ran {
    Done(BlockProgress),

    /// The place of the first one that has no value, and why.
    Fault(u64, Stop),
}

/// Evaluates WHERE and ACCUM of a block with these ends and candidates. Returns the accumulators after all
/// contributions, and the distinct matched vertices, by number.
///
/// Up to `shape.workers` workers, at most 64, draw chunks of `shape.chunk` candidates; a chunk of 0 counts as 1. The
/// caller runs a worker that can't be started. Contributions are fed in the order of the candidates, so the answer is
/// the same for each shape. The fault is that of the first candidate in order that has one; sums are checked after all
/// inputs are fed. Each worker passes the gate after it draws a chunk. Returns `OutOfMemory` past 2^60 inputs. The
/// frame is borrowed and not changed.
#[tactic(auto, using(crate::proofs::RunLemmas::end_laws))]
pub fn run_block<R: Threads + Sync, G: Gate>(
    rt: &R,
    alloc: Global,
    block: &Block,
    over: &BlockContext<'_>,
    ends: &Ends,
    candidates: Candidates<'_>,
    shape: &Shape,
    gate: &G,
) -> Result<After, BlockFault>
    requires ends { HasEnds over.now.schema over.now.plan over.now.frame.things block.now ends.now }
    requires candidates { AreCandidates over.now block.now candidates }
    ensures answered { Answers gregorian over.now block.now result }
    ensures left { IfOk result (Leaves over.now) }
{
    match run_all(rt, alloc, block, over, ends, candidates, shape, gate) {
        Err(OutOfMemory) => Err(BlockFault::OutOfMemory),
        Ok(Ran::Fault(at, stop)) => Err(stop_fault(at, stop)),
        Ok(Ran::Done(run)) => judged(alloc, run),
    }
}

/// Returns the fault of a block whose candidate at a place has no value.
fn stop_fault(at: u64, stop: Stop) -> BlockFault
    ensures { result ≡ stop_fault at stop }
{
    match stop {
        Stop::Wrong(fault) => BlockFault::Eval { at, fault },
        Stop::Stuck => BlockFault::Stuck,
    }
}

/// Tries the candidates of a block.
fn run_all<R: Threads + Sync, G: Gate>(
    rt: &R,
    alloc: Global,
    block: &Block,
    over: &BlockContext<'_>,
    ends: &Ends,
    candidates: Candidates<'_>,
    shape: &Shape,
    gate: &G,
) -> Result<Ran, OutOfMemory>
    requires ends { HasEnds over.now.schema over.now.plan over.now.frame.things block.now ends.now }
    requires candidates { AreCandidates over.now block.now candidates }
    ensures { IfOk result (RanTo gregorian over.now block.now) }
{
    let work = work_of(alloc, block, over, ends, candidates, shape)?;
    through(rt, alloc, &work, over, shape.workers, gate)
}

/// Returns the work of a block: its candidates, and what they are tried with.
fn work_of<'b>(
    alloc: Global,
    block: &'b Block,
    over: &BlockContext<'_>,
    ends: &'b Ends,
    candidates: Candidates<'b>,
    shape: &Shape,
) -> Result<Work<'b>, OutOfMemory>
    requires ends { HasEnds over.now.schema over.now.plan over.now.frame.things block.now ends.now }
    requires candidates { AreCandidates over.now block.now candidates }
    ensures { IfOk result (IsWorkOf over.now block.entry.now) }
{
    let leaves = leaves_of(alloc, &over.frame.accums.slots, &block.walk, ends)?;
    let filter = filter_of(&block.filter, &leaves);
    let column = column_of(alloc, &filter, over, &leaves, candidates.count())?;
    let wanted = wanted_by(alloc, block, &leaves, &column, over.graph)?;
    Ok(Work {
        block,
        leaves,
        filter,
        column,
        wanted,
        candidates,
        size: shape.chunk.max(1),
    })
}

/// Tries the candidates, chunk by chunk on this thread or round by round with several workers, up to the first that
/// faults.
fn through<R: Threads + Sync, G: Gate>(
    rt: &R,
    alloc: Global,
    work: &Work<'_>,
    over: &BlockContext<'_>,
    workers: u32,
    gate: &G,
) -> Result<Ran, OutOfMemory>
    requires { IsWork over.now work.now }
    ensures { IfOk result (RanTo gregorian over.now work.now.block.now) }
{
    let run = BlockProgress::open(alloc, over)?;
    if workers <= 1 || work.size >= work.candidates.count() {
        in_chunks(alloc, work, over, gate, run)
    } else {
        in_rounds(rt, alloc, work, over, workers.min(64), gate, run)
    }
}

/// Tries the candidates with several workers.
fn in_rounds<R: Threads + Sync, G: Gate>(
    rt: &R,
    alloc: Global,
    work: &Work<'_>,
    over: &BlockContext<'_>,
    workers: u32,
    gate: &G,
    mut run: BlockProgress,
) -> Result<Ran, OutOfMemory>
    requires work { IsWork over.now work.now }
    requires run { HasRun gregorian over.now work.now run }
    ensures { IfOk result (RanTo gregorian over.now work.now.block.now) }
{
    match try_rounds(rt, alloc, work, over, workers, gate, &mut run)? {
        Some((at, fault)) => Ok(Ran::Fault(at, fault)),
        // Nothing is left: each chunk was drawn by one worker. That isn't proved, so what is left would be tried here.
        None => in_chunks(alloc, work, over, gate, run),
    }
}

/// Tries the candidates on this thread.
fn in_chunks<G: Gate>(
    alloc: Global,
    work: &Work<'_>,
    over: &BlockContext<'_>,
    gate: &G,
    mut run: BlockProgress,
) -> Result<Ran, OutOfMemory>
    requires work { IsWork over.now work.now }
    requires run { HasRun gregorian over.now work.now run }
    ensures { IfOk result (RanTo gregorian over.now work.now.block.now) }
{
    while run.at < work.candidates.count() {
        match next_chunk(alloc, work, over, gate, &mut run)? {
            Some((at, fault)) => return Ok(Ran::Fault(at, fault)),
            None => {}
        }
    }
    Ok(Ran::Done(run))
}

/// Tries the next chunk on this thread, and feeds its contributions. The gate is passed as worker 0.
fn next_chunk<G: Gate>(
    alloc: Global,
    work: &Work<'_>,
    over: &BlockContext<'_>,
    gate: &G,
    run: &mut BlockProgress,
) -> Result<Option<(u64, Stop)>, OutOfMemory>
    requires work { IsWork over.now work.now }
    requires run { HasRun gregorian over.now work.now run.old }
    requires more { run.old.at < length work.now.candidates }
    ensures { IfOk result (Steps gregorian over.now work.now run.old run.new) }
{
    let start = run.at;
    let end = start.saturating_add(work.size).min(work.candidates.count());
    gate.pass(0, start / work.size);
    match try_chunk(alloc, work, over, start, end, &mut run.room, &mut run.found)? {
        Some(fault) => return Ok(Some(fault)),
        None => {}
    }
    let found = &mut run.found;
    run.fed = feed(
        alloc,
        &mut run.accums,
        run.fed,
        &found.batches,
        &found.inputs,
    )?;
    found.batches.clear();
    found.inputs.truncate(0);
    run.at = end;
    Ok(None)
}
