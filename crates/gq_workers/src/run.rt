// The progress of a run.
ghost use Rattle.std.specs.Prelude.{◌≡◌, IfOk, IfSome, length};
ghost use Rattle.gq_workers.specs.Running.{FedFrom, IsShort};
ghost use Rattle.gq_workers.specs.Results.{AreListed, IsJudged, IsBegun};

use crate::found::MatchBuffer;
use gq_base::{List, OutOfMemory, within};
use gq_core::Batches;
use gq_eval_context::{After, BlockContext, BlockFault};
use gq_exec_contribute::{WaitingInputs, feed_scalars};
use gq_exec_feed::{feed_all, first_unfit};
use gq_exec_source::listed;
use gq_frame::Accums;
use gq_index::VertexList;
use std::alloc::Global;

/// The progress of a run: the candidates before a place are done, and their contributions are fed.
#[derive(Drop)]
pub(crate) struct BlockProgress {
    pub at: u64,
    pub accums: Accums,

    /// The number of inputs that are fed.
    pub fed: u64,

    /// Marks of the matched vertices, and room for a chunk's inputs.
    pub found: MatchBuffer,

    /// Room for numbers of what is read ahead.
    pub room: List<u32>,
}

impl BlockProgress {
    /// Starts before the first candidate, with a copy of the frame's accumulators.
    pub fn open(alloc: Global, over: &BlockContext<'_>) -> Result<BlockProgress, OutOfMemory>
        ensures { IfOk result (IsBegun over.now) }
    {
        Ok(BlockProgress {
            at: 0,
            accums: over.frame.accums.share(alloc)?,
            fed: 0,
            found: MatchBuffer::open(alloc, over.graph.store.vertices.len())?,
            room: List::new(alloc),
        })
    }
}

/// The most inputs that a block may feed: 2^60 - 1.
const MOST_INPUTS: usize = 1_152_921_504_606_846_975;

/// Feeds the inputs that wait, in the batch and after it, in order, and returns the new number of fed inputs.
#[tactic(auto, using(crate::proofs::FeedLemmas::feed_laws))]
pub(crate) fn feed(
    alloc: Global,
    accums: &mut Accums,
    fed: u64,
    batches: &Batches,
    inputs: &WaitingInputs,
) -> Result<u64, OutOfMemory>
    requires { length batches.now ≡ 1 }
    ensures { IfOk result (FedFrom accums.old accums.new fed batches.now inputs.now) }
{
    let batch = batches.at(0);
    within(fed as usize, MOST_INPUTS)?;
    within(batch.len(), MOST_INPUTS)?;
    within(inputs.len(), MOST_INPUTS)?;
    feed_all(alloc, accums, batch)?;
    feed_scalars(alloc, accums, inputs)?;
    Ok(fed + batch.len() as u64 + inputs.len() as u64)
}

/// Returns the result of the block after all is fed, or the first accumulator with a sum out of range.
#[tactic(auto, using(crate::proofs::EndLemmas::judge_laws))]
pub(crate) fn judged(alloc: Global, mut run: BlockProgress) -> Result<After, BlockFault>
    requires { IsShort run.found }
    ensures { IsJudged run result }
{
    match first_unfit(alloc, &mut run.accums) {
        Some(slot) => Err(BlockFault::SumRange { slot }),
        None => match lists(alloc, &run.found) {
            Ok((sources, targets)) => {
                let accums = run.accums;
                Ok(After {
                    accums,
                    sources,
                    targets,
                })
            }
            Err(OutOfMemory) => Err(BlockFault::OutOfMemory),
        },
    }
}

/// Returns the matched sources and targets, by number.
fn lists(alloc: Global, found: &MatchBuffer) -> Result<(VertexList, VertexList), OutOfMemory>
    requires { IsShort found.now }
    ensures { IfOk result (AreListed found.now) }
{
    let sources = listed(alloc, found.sources.as_slice())?;
    let targets = listed(alloc, found.targets.as_slice())?;
    Ok((sources, targets))
}
