// Reads accumulators by slot and vertex.
ghost use Rattle.std.specs.Prelude.{IfSome};
ghost use Rattle.gq_rules_calendar.specs.Gregorian.{gregorian};
ghost use Rattle.gq_exec_contribute.specs.Prepared.{AreIn, ReadsInt, ReadsTruth, StandsAt};

use crate::cells::{content_in, int_in, truth_in};
use crate::leaves::Leaves;
use gq_eval_context::BlockContext;
use gq_frame::Accums;
use gq_nest::Content;

/// The content of the accumulator of a slot at a vertex, which is 0 for a global one.
pub(crate) fn content_at<'a>(
    accums: &'a Accums,
    leaves: &Leaves<'_>,
    slot: u32,
    vertex: u32,
) -> Option<&'a Content>
    requires { AreIn accums.now leaves.now }
    ensures { IfSome result (λ content. StandsAt accums.entry.now slot vertex content.now) }
{
    content_in(accums, &leaves.cells, slot, vertex)
}

/// The INT that an accumulator reads as.
#[tactic(auto, using(crate::proofs::CellLemmas::held_laws))]
pub(crate) fn held_int(
    over: &BlockContext<'_>,
    leaves: &Leaves<'_>,
    accums: &Accums,
    slot: u32,
    vertex: u32,
) -> Option<i64>
    requires { AreIn accums.now leaves.now }
    ensures { IfSome result (ReadsInt gregorian over.now accums.now slot vertex) }
{
    match content_at(accums, leaves, slot, vertex) {
        Some(content) => int_in(content),
        None => None,
    }
}

/// The truth that an accumulator reads as.
#[tactic(auto, using(crate::proofs::CellLemmas::held_laws))]
pub(crate) fn held_truth(
    over: &BlockContext<'_>,
    leaves: &Leaves<'_>,
    accums: &Accums,
    slot: u32,
    vertex: u32,
) -> Option<bool>
    requires { AreIn accums.now leaves.now }
    ensures { IfSome result (ReadsTruth gregorian over.now accums.now slot vertex) }
{
    match content_at(accums, leaves, slot, vertex) {
        Some(content) => truth_in(content),
        None => None,
    }
}
