// Feeds batches.
ghost use Rattle.std.specs.Prelude.{OnOk};
ghost use Rattle.gq_value.specs.AccumViews.{given};
ghost use Rattle.gq_exec_feed.specs.Feeding.{TakesBatch};
ghost use Rattle.gq_exec_feed.specs.Steps.{TakesOne};

use gq_base::OutOfMemory;
use gq_frame::Accums;
use gq_value::Input;
use std::alloc::Global;

/// Feeds a batch in order, each input to the target with its number. After `OutOfMemory` some inputs may have been fed.
#[tactic(auto, using(crate::proofs::FeedLemmas::so_far_laws))]
pub fn feed_all(
    alloc: Global,
    accums: &mut Accums,
    batch: &[(u64, Input)],
) -> Result<(), OutOfMemory>
    ensures { OnOk result (TakesBatch accums.old accums.new batch.now) }
{
    for (target, input) in batch {
        feed_one(alloc, accums, *target, input)?;
    }
    Ok(())
}

/// Feeds an input to the target with this number, if there is one.
pub fn feed_one(
    alloc: Global,
    accums: &mut Accums,
    target: u64,
    input: &Input,
) -> Result<(), OutOfMemory>
    ensures { OnOk result (TakesOne accums.old accums.new target (given input.now)) }
{
    if target >= accums.contents.len() as u64 {
        return Ok(());
    }
    accums.contents.feed(alloc, target as usize, input)
}
