// Several workers.
ghost use Rattle.std.specs.Prelude.{◌≡◌, ◌<◌, ◌≤◌, length, All, IfOk, Ok};
ghost use Rattle.gq_rules_calendar.specs.Gregorian.{gregorian};
ghost use Rattle.gq_workers.specs.Running.{HasRun, IsEmpty, IsShaped, IsWork};
ghost use Rattle.gq_workers.specs.Rounds.{CanWork, FeedsRound, GoesOn, IsAhead, IsPart, IsRoundPart, LeavesChunk, StandsOr};

use crate::chunk::try_chunk;
use crate::found::MatchBuffer;
use crate::joining::feed_round;
use crate::rounds::{ChunkOutput, Round, RoundOutput, Turn, Work, WorkerOutput};
use crate::run::BlockProgress;
use gq_base::{List, OutOfMemory};
use gq_core::Batches;
use gq_eval_context::BlockContext;
use gq_exec_contribute::Stop;
use gq_io::Gate;
use std::alloc::Global;
use std::sync::atomic::{AtomicU64, Ordering};
use std::thread::{Threads, join_mut};
use std::{mem, thread};

/// About how many candidates the first round of a block has, so that feeding begins soon.
const FIRST: u64 = 1 << 16;

/// With many workers the first round has more candidates, at least so many for each: starting a thread takes as long as
/// some hundred of them.
const FOR_A_WORKER: u64 = 1 << 12;

/// Rounds grow until half of so many contributions wait to be fed, some 6 MB at one INT each, since the start and end
/// of a round take a millisecond or more where threads wake late. Those of two rounds may wait.
const WAITING: u64 = 1 << 19;

/// The most candidates of a round, however few of them contribute.
const MOST_CANDIDATES: u64 = 1 << 20;

/// Tries all candidates with several workers, at most 64 of them, round by round. While they try those of a round, the
/// contributions of the round before are fed, in order, as far as they follow one another.
pub(crate) fn try_rounds<R: Threads + Sync, G: Gate>(
    rt: &R,
    alloc: Global,
    work: &Work<'_>,
    over: &BlockContext<'_>,
    workers: u32,
    gate: &G,
    run: &mut BlockProgress,
) -> Result<Option<(u64, Stop)>, OutOfMemory>
    requires work { IsWork over.now work.now }
    requires run { HasRun gregorian over.now work.now run.old }
    ensures { IfOk result (StandsOr gregorian over.now work.now run.new) }
{
    let mut size = FOR_A_WORKER.saturating_mul(u64::from(workers)).max(FIRST);
    let mut ahead = RoundOutput {
        first: run.at,
        last: run.at,
        parts: Vec::new(alloc),
    };
    while ahead.last < work.candidates.count() {
        match next_round(rt, alloc, work, over, size, workers, gate, run, &mut ahead)? {
            Some(fault) => return Ok(Some(fault)),
            None => {}
        }
        size = next_size(size, ahead.waiting());
    }
    feed_round(alloc, &ahead, work.size, run)
}

/// The number of candidates of the next round: more than of the last one if few contributions wait, and fewer if many do.
fn next_size(size: u64, waiting: u64) -> u64 {
    if waiting < WAITING / 2 {
        size.saturating_mul(2).min(MOST_CANDIDATES)
    } else if waiting / 2 > WAITING {
        size / 2
    } else {
        size
    }
}

/// Tries the candidates of the next round, about `size` of them, while the contributions of the round before are fed.
fn next_round<R: Threads + Sync, G: Gate>(
    rt: &R,
    alloc: Global,
    work: &Work<'_>,
    over: &BlockContext<'_>,
    size: u64,
    workers: u32,
    gate: &G,
    run: &mut BlockProgress,
    ahead: &mut RoundOutput,
) -> Result<Option<(u64, Stop)>, OutOfMemory>
    requires work { IsWork over.now work.now }
    requires run { HasRun gregorian over.now work.now run.old }
    requires ahead { IsAhead gregorian over.now work.now ahead.old }
    requires more { ahead.old.last < length work.now.candidates }
    ensures { IfOk result (GoesOn gregorian over.now work.now ahead.old.last run.new ahead.new) }
{
    let first = ahead.last;
    // At least a chunk for each worker, also if chunks are large.
    let most = (size / work.size).max(u64::from(workers));
    let round = work.size.saturating_mul(most).max(work.size);
    let last = first.saturating_add(round).min(work.candidates.count());
    let shared = Round {
        graph: over.graph,
        plan: over.plan,
        tuples: over.tuples,
        frame: over.frame,
        work,
        first,
        last,
    };
    let turn = one_turn::<R, G>(rt, alloc, &shared, workers, gate, ahead, run)?;
    match turn.fault {
        Some(fault) => return Ok(Some(fault)),
        None => {}
    }
    *ahead = RoundOutput {
        first,
        last,
        parts: turn.parts,
    };
    Ok(None)
}

/// Returns the outputs of the workers of a round, and what feeding what waits gave.
fn one_turn<R: Threads + Sync, G: Gate>(
    rt: &R,
    alloc: Global,
    round: &Round<'_>,
    workers: u32,
    gate: &G,
    ahead: &RoundOutput,
    run: &mut BlockProgress,
) -> Result<Turn, OutOfMemory>
    requires { CanWork round.now }
    ensures { IfOk result (λ turn. All (λ part. IfOk part (IsRoundPart gregorian round.now)) turn.parts.items × FeedsRound ahead.now run.old run.new turn.fault) }
{
    joined(gather_and_feed::<R, G>(rt, alloc, round, workers, gate, ahead, run))
}

/// Returns what both gave.
fn joined(
    both: (
        Result<Vec<Result<WorkerOutput, OutOfMemory>>, OutOfMemory>,
        Result<Option<(u64, Stop)>, OutOfMemory>,
    ),
) -> Result<Turn, OutOfMemory>
    ensures { IfOk result (λ turn. (both.0 ≡ Ok turn.parts) × (both.1 ≡ Ok turn.fault)) }
{
    let (parts, fed) = both;
    match parts {
        Err(OutOfMemory) => Err(OutOfMemory),
        Ok(parts) => match fed {
            Err(OutOfMemory) => Err(OutOfMemory),
            Ok(fault) => Ok(Turn { parts, fault }),
        },
    }
}

/// Returns the outputs of the workers of a round. Meanwhile this thread feeds what waits.
fn gather_and_feed<R: Threads + Sync, G: Gate>(
    rt: &R,
    alloc: Global,
    round: &Round<'_>,
    workers: u32,
    gate: &G,
    ahead: &RoundOutput,
    run: &mut BlockProgress,
) -> (
    Result<Vec<Result<WorkerOutput, OutOfMemory>>, OutOfMemory>,
    Result<Option<(u64, Stop)>, OutOfMemory>,
)
    requires { CanWork round.now }
    ensures parts { IfOk result.0 (λ parts. All (λ part. IfOk part (IsRoundPart gregorian round.now)) parts.items) }
    ensures fed { IfOk result.1 (FeedsRound ahead.now run.old run.new) }
{
    let size = round.work.size;
    if ahead.first >= ahead.last {
        // Nothing waits before the first round.
        let fed = feed_round(alloc, ahead, size, run);
        return (gathered::<R, G>(rt, alloc, round, workers, gate), fed);
    }
    let mut gather = || -> Result<Vec<Result<WorkerOutput, OutOfMemory>>, OutOfMemory>
        requires { CanWork round.now }
        ensures { IfOk result (λ parts. All (λ part. IfOk part (IsRoundPart gregorian round.entry.now)) parts.items) }
    { gathered::<R, G>(rt, alloc, round, workers, gate) };
    let mut feed = || feed_round(alloc, ahead, size, run);
    join_mut(rt, &mut gather, &mut feed)
}

/// Returns the outputs of the workers of a round: each draws chunk after chunk.
fn gathered<R: Threads + Sync, G: Gate>(
    rt: &R,
    alloc: Global,
    round: &Round<'_>,
    workers: u32,
    gate: &G,
) -> Result<Vec<Result<WorkerOutput, OutOfMemory>>, OutOfMemory>
    requires { CanWork round.now }
    ensures { IfOk result (λ parts. All (λ part. IfOk part (IsRoundPart gregorian round.now)) parts.items) }
{
    let chunks = round
        .last
        .saturating_sub(round.first)
        .div_ceil(round.work.size.max(1));
    let workers = u64::from(workers).min(chunks);
    let next = AtomicU64::new(0);
    let draws = &next;
    let part = |worker: usize| -> Result<WorkerOutput, OutOfMemory>
        requires { CanWork round.now }
        ensures { IfOk result (IsRoundPart gregorian round.entry.now) }
    { part_of_round::<G>(alloc, round, draws, worker, gate) };
    let parts = thread::map_indices(rt, alloc, workers as usize, &part)?;
    Ok(parts)
}

/// Returns a worker's output for a round.
fn part_of_round<G: Gate>(
    alloc: Global,
    round: &Round<'_>,
    draws: &AtomicU64,
    worker: usize,
    gate: &G,
) -> Result<WorkerOutput, OutOfMemory>
    requires { CanWork round.now }
    ensures { IfOk result (IsRoundPart gregorian round.now) }
{
    let over: BlockContext<'_> = BlockContext {
        graph: round.graph,
        plan: round.plan,
        tuples: round.tuples,
        frame: round.frame,
    };
    work_part(
        alloc,
        round.work,
        &over,
        round.first,
        round.last,
        draws,
        worker,
        gate,
    )
}

/// Returns a worker's output: it draws one chunk after another, passes the gate, and tries the chunk's candidates.
fn work_part<G: Gate>(
    alloc: Global,
    work: &Work<'_>,
    over: &BlockContext<'_>,
    first: u64,
    last: u64,
    draws: &AtomicU64,
    worker: usize,
    gate: &G,
) -> Result<WorkerOutput, OutOfMemory>
    requires work { IsWork over.now work.now }
    requires within { last ≤ length work.now.candidates }
    ensures { IfOk result (IsPart gregorian over.now work.now first last) }
{
    let mut found = MatchBuffer::open(alloc, over.graph.store.vertices.len())?;
    let mut lefts = List::new(alloc);
    let mut room = List::new(alloc);
    // There are no more chunks than candidates, so this bound never ends the loop.
    for _ in first..last {
        let chunk = draws.fetch_add(1, Ordering::SeqCst);
        let start = first.saturating_add(chunk.saturating_mul(work.size));
        if start >= last {
            break;
        }
        // There are at most 64 workers, so this is the worker's own number.
        gate.pass(worker.min(63) as u32, start / work.size);
        let end = start.saturating_add(work.size).min(last);
        lefts.push(work_chunk(alloc, work, over, start, end, &mut room, &mut found)?)?;
    }
    Ok(WorkerOutput {
        lefts,
        sources: found.sources,
        targets: found.targets,
    })
}

/// Returns the output of a chunk. Its matches are marked, and nothing waits afterwards.
fn work_chunk(
    alloc: Global,
    work: &Work<'_>,
    over: &BlockContext<'_>,
    start: u64,
    end: u64,
    room: &mut List<u32>,
    found: &mut MatchBuffer,
) -> Result<ChunkOutput, OutOfMemory>
    requires forward { start ≤ end }
    requires within { end ≤ length work.now.candidates }
    requires work { IsWork over.now work.now }
    requires empty { IsEmpty found.old }
    requires shaped { IsShaped (length over.now.vertices) found.old }
    ensures { IfOk result (LeavesChunk gregorian over.now work.now start end found.old found.new) }
{
    let fault = try_chunk(alloc, work, over, start, end, room, found)?;
    let none = Batches::new(alloc, 1)?;
    let batches = mem::replace(&mut found.batches, none);
    // The buffer keeps its room for the next chunk, and what waits takes no more than it needs.
    let inputs = found.inputs.copied(alloc)?;
    found.inputs.truncate(0);
    Ok(ChunkOutput {
        start,
        end,
        batches,
        inputs,
        fault,
    })
}
