// Feeds the waiting inputs at the end of a phase.
ghost use Rattle.std.specs.Prelude.{IfOk, OnOk};
ghost use Rattle.gq_rules_meaning.specs.Blocks.{fed_together};
ghost use Rattle.gq_eval_operand.specs.Meant.{itself};
ghost use Rattle.gq_frame.specs.Slots.{AreSound, slots_are};
ghost use Rattle.gq_eval_context.specs.Answered.{Answered};
ghost use Rattle.gq_exec_post.specs.Feeding.{AreAllFed, IsJudged};
ghost use Rattle.gq_exec_post.specs.Waiting.{waiting_are};
ghost use Rattle.gq_exec_post.specs.Writing.{AreTaken, KeepsTo};

use crate::waiting::Waiting;
use crate::writing::Writing;
use gq_base::{OutOfMemory, within};
use gq_eval_context::BlockFault;
use gq_exec_contribute::feed_scalars;
use gq_exec_feed::{feed_all, first_unfit};
use gq_frame::Accums;
use std::alloc::Global;

/// The most inputs of either form that may wait.
const MOST_WAITING: usize = (1 << 60) - 1;

/// Feeds all waiting inputs. Fails with the first accumulator whose sum is out of range.
pub(crate) fn fed(alloc: Global, writing: Writing) -> Result<Accums, BlockFault>
    requires sound { AreSound writing.accums }
    requires taken { AreTaken writing }
    ensures told { Answered slots_are (fed_together (waiting_are writing.accums.slots writing.waiting) (slots_are writing.accums)) result }
    ensures sound { IfOk result (KeepsTo writing.accums) }
{
    let mut accums = writing.accums;
    match feed_waiting(alloc, &mut accums, &writing.waiting) {
        Err(_) => Err(BlockFault::OutOfMemory),
        Ok(()) => judged(alloc, accums),
    }
}

/// Feeds the waiting inputs in order. After an error some may have been fed.
fn feed_waiting(alloc: Global, accums: &mut Accums, waiting: &Waiting) -> Result<(), OutOfMemory>
    ensures { OnOk result (AreAllFed accums.old accums.new waiting.now) }
{
    within(waiting.ints.len(), MOST_WAITING)?;
    within(waiting.others.len(), MOST_WAITING)?;
    feed_scalars(alloc, accums, &waiting.ints)?;
    feed_all(alloc, accums, waiting.others.as_slice())?;
    Ok(())
}

/// The accumulators, if all contents fit.
#[tactic(auto, using(crate::proofs::FeedingLemmas::judged_laws))]
fn judged(alloc: Global, mut accums: Accums) -> Result<Accums, BlockFault>
    ensures { IsJudged accums result }
{
    match first_unfit(alloc, &mut accums) {
        None => Ok(accums),
        Some(slot) => Err(BlockFault::SumRange { slot }),
    }
}
