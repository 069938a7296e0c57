// Conditions.
ghost use Rattle.gq_rules_meaning.specs.Answers.{blaming};
ghost use Rattle.gq_rules_meaning.specs.Expressions.{truth_of};
ghost use Rattle.gq_rules_meaning.specs.States.{seen};
ghost use Rattle.gq_rules_meaning.specs.Statements.{Evaluation};
ghost use Rattle.gq_rules_calendar.specs.Gregorian.{gregorian};
ghost use Rattle.gq_plan_ir.specs.ExprView.{view};
ghost use Rattle.gq_eval_operand.specs.Meant.{Tells, itself};
ghost use Rattle.gq_frame.specs.Slots.{AreSound};
ghost use Rattle.gq_exec_control.specs.Changes.{Reads};
ghost use Rattle.gq_exec_control.specs.Contexts.{look_on, world_on};

use crate::faults::or_fault;
use crate::run_context::RunContext;
use crate::running::RunFault;
use gq_eval::run_truth;
use gq_eval_operand::Halt;
use gq_frame::Frame;
use gq_plan_ir::Expr;
use std::alloc::Global;

/// Evaluates a condition.
pub fn truth(
    alloc: Global,
    context: &RunContext<'_>,
    condition: &Expr,
    frame: &Frame,
) -> Result<bool, RunFault>
    requires { AreSound frame.now.accums }
    ensures { Reads itself (λ s. blaming Evaluation (truth_of (seen (world_on gregorian context.now) s) (view condition.now))) frame.now result }
{
    or_fault(truth_over(alloc, context, condition, frame))
}

fn truth_over(
    alloc: Global,
    context: &RunContext<'_>,
    condition: &Expr,
    frame: &Frame,
) -> Result<bool, Halt>
    requires { AreSound frame.now.accums }
    ensures { Tells itself (truth_of (look_on gregorian context.now frame.now) (view condition.now)) result }
{
    let sight = context.eval_context(frame);
    run_truth(condition, alloc, &sight)
}
