// Feeds batches of INTs.
ghost use Rattle.std.specs.Prelude.{OnOk};
ghost use Rattle.gq_value.specs.Accums.{One};
ghost use Rattle.gq_value.specs.Val.{Int};
ghost use Rattle.gq_exec_feed.specs.Feeding.{TakesBatch};
ghost use Rattle.gq_exec_feed.specs.Steps.{TakesOne};
ghost use Rattle.gq_exec_feed.specs.Ints.{as_inputs};

use gq_base::OutOfMemory;
use gq_frame::Accums;
use std::alloc::Global;

/// Feeds INTs in order, each to the target with its number, if there is one. For a number, truth or average it allocates
/// only if the target's page is shared by copies. After an error some inputs may have been fed.
#[tactic(auto, using(crate::proofs::BatchLemmas::ints_laws))]
pub fn feed_ints(
    alloc: Global,
    accums: &mut Accums,
    inputs: &[(u64, i64)],
) -> Result<(), OutOfMemory>
    ensures { OnOk result (TakesBatch accums.old accums.new (as_inputs inputs.now)) }
{
    for (target, x) in inputs {
        feed_int(alloc, accums, *target, *x)?;
    }
    Ok(())
}

/// Feeds an INT to the target with this number, if there is one.
fn feed_int(alloc: Global, accums: &mut Accums, target: u64, x: i64) -> Result<(), OutOfMemory>
    ensures { OnOk result (TakesOne accums.old accums.new target (One (Int x))) }
{
    if target >= accums.contents.len() as u64 {
        return Ok(());
    }
    accums.contents.feed_int(alloc, target as usize, x)
}
