// A whole SELECT.
ghost use Rattle.std.specs.Prelude.{◌≡◌, IfOk};
ghost use Rattle.gq_rules_calendar.specs.Gregorian.{gregorian};
ghost use Rattle.gq_frame.specs.Slots.{AreSound};
ghost use Rattle.gq_exec_source.specs.Ends.{HasEnds, end_at};
ghost use Rattle.gq_exec_source.specs.Starts.{AreCandidates};
ghost use Rattle.gq_workers.specs.Results.{Leaves};
ghost use Rattle.gq_flow.specs.Selecting.{Chooses, Posts, Selects};

use gq_after::tail;
use gq_base::{List, OutOfMemory};
use gq_eval_context::{After, BlockContext, BlockFault};
use gq_exec_control::{RunFault, block_fault};
use gq_exec_post::post;
use gq_exec_source::{Ends, PathsFault, candidates_of, ends_of, selects_target};
use gq_frame::Accums;
use gq_index::{Candidates, VertexList};
use gq_io::{AnyGate, Shape};
use gq_plan_ir::Block;
use gq_workers::run_block;
use std::alloc::Global;
use std::thread::Threads;

/// How blocks are executed: the runtime with the threads, the division of the work, and the gate that workers pass.
#[derive(Drop)]
pub struct Workers<'a, R> {
    pub rt: &'a R,
    pub shape: Shape,
    pub gate: AnyGate<'a>,
}

/// The result of a SELECT: the accumulators after it, and the selected vertices with the types that they may have.
#[derive(Drop)]
pub struct Selected {
    pub accums: Accums,
    pub types: List<u32>,
    pub vertices: VertexList,
}

/// Runs a whole SELECT: WHERE and ACCUM of all candidates, then POST-ACCUM, then HAVING, ORDER BY and LIMIT. The frame
/// isn't changed.
///
/// The candidates are listed first, and along a path they are counted: returns `PathBound` if the path has more than
/// 4,194,304 bindings, however many of them WHERE would keep.
pub fn select<R: Threads + Sync>(
    workers: &Workers<'_, R>,
    alloc: Global,
    block: &Block,
    over: &BlockContext<'_>,
) -> Result<Selected, RunFault>
    ensures selects { Selects gregorian over.now block.now result }
    ensures sound { IfOk result (λ selected. AreSound selected.accums) }
{
    match ends_over(alloc, block, over) {
        Err(_) => Err(RunFault::OutOfMemory),
        Ok(ends) => match candidates_of(alloc, block, over, &ends) {
            Err(PathsFault::TooMany) => Err(RunFault::PathBound),
            Err(PathsFault::OutOfMemory) => Err(RunFault::OutOfMemory),
            Ok(candidates) => match select_among(workers, alloc, block, over, ends, candidates) {
                Err(fault) => Err(block_fault(fault)),
                Ok(selected) => Ok(selected),
            },
        },
    }
}

/// Runs a SELECT of a block with these ends and candidates.
fn select_among<R: Threads + Sync>(
    workers: &Workers<'_, R>,
    alloc: Global,
    block: &Block,
    over: &BlockContext<'_>,
    ends: Ends,
    candidates: Candidates<'_>,
) -> Result<Selected, BlockFault>
    requires ends { HasEnds over.now.schema over.now.plan over.now.frame.things block.now ends }
    requires candidates { AreCandidates over.now block.now candidates }
    ensures chooses { Chooses gregorian over.now block.now result }
    ensures sound { IfOk result (λ selected. AreSound selected.accums) }
{
    match run_block(
        workers.rt,
        alloc,
        block,
        over,
        &ends,
        candidates,
        &workers.shape,
        &workers.gate,
    ) {
        Err(fault) => Err(fault),
        Ok(after) => posted(alloc, block, over, ends, after),
    }
}

/// Runs POST-ACCUM and the tail, given the result of the block.
fn posted(
    alloc: Global,
    block: &Block,
    over: &BlockContext<'_>,
    ends: Ends,
    after: After,
) -> Result<Selected, BlockFault>
    requires left { Leaves over.now after }
    requires ends { HasEnds over.now.schema over.now.plan over.now.frame.things block.now ends }
    ensures posts { Posts gregorian over.now block.now after result }
    ensures sound { IfOk result (λ selected. AreSound selected.accums) }
{
    match post(alloc, block, over, &ends, after) {
        Err(fault) => Err(fault),
        Ok(after) => match tail(alloc, block, over, &ends, &after) {
            Err(fault) => Err(fault),
            Ok(vertices) => {
                let types = types_of(ends, selects_target(block));
                Ok(with_vertices(after, types, vertices))
            }
        },
    }
}

fn with_vertices(after: After, types: List<u32>, vertices: VertexList) -> Selected
    ensures { result ≡ record { accums = after.accums; types = types; vertices = vertices } }
{
    let After {
        accums,
        sources: _,
        targets: _,
    } = after;
    Selected {
        accums,
        types,
        vertices,
    }
}

/// Returns the ends of a block's candidates.
fn ends_over(alloc: Global, block: &Block, over: &BlockContext<'_>) -> Result<Ends, OutOfMemory>
    ensures { IfOk result (HasEnds over.now.schema over.now.plan over.now.frame.things block.now) }
{
    let things = over.frame.things.as_slice();
    ends_of(alloc, block, over.graph.catalog, over.plan, things)
}

/// Returns the types of the target, or of the source.
fn types_of(ends: Ends, target: bool) -> List<u32>
    ensures { result ≡ (end_at ends target).types }
{
    let Ends {
        source,
        target: other,
    } = ends;
    if target { other.types } else { source.types }
}
