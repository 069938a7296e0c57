// Combines the outputs of workers.
ghost use Rattle.std.specs.Prelude.{◌≡◌, ◌≤◌, IfOk, OnOk, length, true};
ghost use Rattle.gq_workers.specs.Rounds.{AllFit, FeedsLeft, FeedsParts, FeedsRound, Fits, Joins, MarksPart, MarksParts};

use crate::found::MatchBuffer;
use crate::order::{Spot, in_order, left_at};
use crate::rounds::{ChunkOutput, RoundOutput, WorkerOutput};
use crate::run::{BlockProgress, feed};
use gq_base::{List, OutOfMemory};
use gq_exec_contribute::Stop;
use std::alloc::Global;

/// Sets the marks of a round and feeds its contributions in order, as far as they follow what was fed before, or returns
/// its first fault. Feeds nothing of a round whose marks are longer than the run's, which no worker leaves.
pub(crate) fn feed_round(
    alloc: Global,
    round: &RoundOutput,
    size: u64,
    run: &mut BlockProgress,
) -> Result<Option<(u64, Stop)>, OutOfMemory>
    ensures { IfOk result (FeedsRound round.now run.old run.new) }
{
    let parts = round.parts.as_slice();
    if !all_fit(parts, &run.found) {
        return Ok(None);
    }
    let order = in_order(alloc, parts, round.first, round.last, size)?;
    mark_parts(parts, &mut run.found)?;
    feed_parts(alloc, parts, order.as_slice(), run)
}

/// Whether no worker has more words of marks than the run.
#[tactic(auto, using(crate::proofs::RoundLemmas::fit_laws))]
fn all_fit(parts: &[Result<WorkerOutput, OutOfMemory>], found: &MatchBuffer) -> bool
    ensures { result ≡ true → AllFit parts.now found.now }
{
    for part in parts {
        if !fits(part, found) {
            return false;
        }
    }
    true
}

/// Whether a worker has no more words of marks than the run, or none at all.
#[tactic(auto, using(crate::proofs::RoundLemmas::fits_laws))]
fn fits(part: &Result<WorkerOutput, OutOfMemory>, found: &MatchBuffer) -> bool
    ensures { result ≡ true → IfOk part.now (Fits found.now) }
{
    match part {
        Err(OutOfMemory) => true,
        Ok(part) => part.sources.len() <= found.sources.len()
            && part.targets.len() <= found.targets.len(),
    }
}

/// Sets the marks of all workers.
#[tactic(auto, using(crate::proofs::RoundLemmas::marks_laws))]
fn mark_parts(
    parts: &[Result<WorkerOutput, OutOfMemory>],
    found: &mut MatchBuffer,
) -> Result<(), OutOfMemory>
    requires { AllFit parts.now found.old }
    ensures { OnOk result (MarksParts parts.now found.old found.new) }
{
    for part in parts {
        match part {
            Err(OutOfMemory) => return Err(OutOfMemory),
            Ok(part) => mark_part(part, found),
        }
    }
    Ok(())
}

/// Sets the marks of one worker.
fn mark_part(part: &WorkerOutput, found: &mut MatchBuffer)
    requires { Fits found.old part.now }
    ensures { MarksPart part.now found.old found.new }
{
    join(&mut found.sources, part.sources.as_slice());
    join(&mut found.targets, part.targets.as_slice());
}

/// Joins marks with other words, of which there aren't more.
#[tactic(auto, using(crate::proofs::RoundLemmas::join_laws))]
fn join(words: &mut List<u64>, other: &[u64])
    requires { length other.now ≤ length words.old }
    ensures { Joins words.old other.now words.new }
{
    for (place, word) in other.iter().enumerate() {
        let both = words.as_slice()[place] | *word;
        words.set(place, both);
    }
}

/// Feeds the outputs of the chunks, in order, up to the first that has a fault.
#[tactic(auto, using(crate::proofs::RoundLemmas::feeds_laws))]
fn feed_parts(
    alloc: Global,
    parts: &[Result<WorkerOutput, OutOfMemory>],
    order: &[Option<Spot>],
    run: &mut BlockProgress,
) -> Result<Option<(u64, Stop)>, OutOfMemory>
    ensures { IfOk result (FeedsParts parts.now run.old run.new) }
{
    for spot in order {
        match left_at(parts, spot) {
            None => {}
            Some(left) => match feed_left(alloc, left, run)? {
                Some(fault) => return Ok(Some(fault)),
                None => {}
            },
        }
    }
    Ok(None)
}

/// Feeds the output of a chunk, or returns its fault, if it is the next one. Feeds nothing of more than one batch, which
/// no worker leaves.
#[tactic(auto, using(crate::proofs::RoundLemmas::left_laws))]
fn feed_left(
    alloc: Global,
    left: &ChunkOutput,
    run: &mut BlockProgress,
) -> Result<Option<(u64, Stop)>, OutOfMemory>
    ensures { IfOk result (FeedsLeft left.now run.old run.new) }
{
    if left.start != run.at {
        return Ok(None);
    }
    if left.batches.stripes() != 1 {
        return Ok(None);
    }
    match left.fault {
        Some(fault) => return Ok(Some(fault)),
        None => {}
    }
    run.fed = feed(alloc, &mut run.accums, run.fed, &left.batches, &left.inputs)?;
    run.at = left.end;
    Ok(None)
}
