// The values that FOREACH iterates over.
ghost use Rattle.gq_rules_meaning.specs.Answers.{blaming};
ghost use Rattle.gq_rules_meaning.specs.States.{seen};
ghost use Rattle.gq_rules_meaning.specs.Statements.{Evaluation, gone_over};
ghost use Rattle.gq_rules_calendar.specs.Gregorian.{gregorian};
ghost use Rattle.gq_plan_ir.specs.PlanView.{view_over};
ghost use Rattle.gq_eval_operand.specs.Meant.{Tells};
ghost use Rattle.gq_frame.specs.Slots.{AreSound};
ghost use Rattle.gq_exec_control.specs.Changes.{Reads};
ghost use Rattle.gq_exec_control.specs.Contexts.{look_on, world_on};
ghost use Rattle.gq_exec_control.specs.Values.{rounds_in};

use crate::elements::elements;
use crate::faults::or_fault;
use crate::range::range;
use crate::run_context::RunContext;
use crate::running::{Rounds, RunFault};
use gq_eval_operand::{Halt, Sees};
use gq_frame::Frame;
use gq_plan_ir::Over;
use std::alloc::Global;

/// Returns what FOREACH iterates over, with its type: the elements of a collection, or a range with both ends.
pub fn rounds(
    alloc: Global,
    context: &RunContext<'_>,
    over: &Over,
    frame: &Frame,
) -> Result<Rounds, RunFault>
    requires { AreSound frame.now.accums }
    ensures { Reads rounds_in (λ s. blaming Evaluation (gone_over (seen (world_on gregorian context.now) s) (view_over over.now))) frame.now result }
{
    or_fault(rounds_over(alloc, context, over, frame))
}

fn rounds_over(
    alloc: Global,
    context: &RunContext<'_>,
    over: &Over,
    frame: &Frame,
) -> Result<Rounds, Halt>
    requires { AreSound frame.now.accums }
    ensures { Tells rounds_in (gone_over (look_on gregorian context.now frame.now) (view_over over.now)) result }
{
    let sight = context.eval_context(frame);
    rounds_seen(over, alloc, &sight)
}

fn rounds_seen<V: Sees>(over: &Over, alloc: Global, sight: &V) -> Result<Rounds, Halt>
    ensures { Tells rounds_in (gone_over (V.look sight.now) (view_over over.now)) result }
{
    match over {
        Over::Elements(expr) => elements(expr, alloc, sight),
        Over::Range(first, last) => range(first, last, alloc, sight),
    }
}
