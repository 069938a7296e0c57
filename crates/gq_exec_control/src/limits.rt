// LIMIT of WHILE.
ghost use Rattle.std.specs.Prelude.{Some};
ghost use Rattle.gq_rules_meaning.specs.Answers.{blaming};
ghost use Rattle.gq_rules_meaning.specs.Expressions.{number_of};
ghost use Rattle.gq_rules_meaning.specs.Runs.{limit_of};
ghost use Rattle.gq_rules_meaning.specs.Statements.{Evaluation};
ghost use Rattle.gq_rules_calendar.specs.Gregorian.{gregorian};
ghost use Rattle.gq_plan_ir.specs.ExprView.{view};
ghost use Rattle.gq_eval_operand.specs.Meant.{Tells, itself};
ghost use Rattle.gq_frame.specs.Slots.{AreSound};
ghost use Rattle.gq_eval_context.specs.Limits.{most_of};
ghost use Rattle.gq_exec_control.specs.Changes.{Reads};
ghost use Rattle.gq_exec_control.specs.Contexts.{look_on, world_on};

use crate::faults::or_fault;
use crate::run_context::RunContext;
use crate::running::RunFault;
use gq_eval::run_value;
use gq_eval_context::limit_count;
use gq_eval_operand::{Halt, Sees};
use gq_frame::Frame;
use gq_plan_ir::Expr;
use std::alloc::Global;

/// Returns how often a body may run under LIMIT; a negative number counts as 0.
pub fn limit(
    alloc: Global,
    context: &RunContext<'_>,
    limit: &Expr,
    frame: &Frame,
) -> Result<u64, RunFault>
    requires { AreSound frame.now.accums }
    ensures { Reads Some (λ s. blaming Evaluation (limit_of (world_on gregorian context.now) s (Some (view limit.now)))) frame.now result }
{
    or_fault(limit_over(alloc, context, limit, frame))
}

fn limit_over(
    alloc: Global,
    context: &RunContext<'_>,
    limit: &Expr,
    frame: &Frame,
) -> Result<u64, Halt>
    requires { AreSound frame.now.accums }
    ensures { Tells itself (most_of (number_of (look_on gregorian context.now frame.now) (view limit.now))) result }
{
    let sight = context.eval_context(frame);
    limit_seen(limit, alloc, &sight)
}

#[tactic(auto, using(crate::proofs::LimitLemmas::limit_laws))]
fn limit_seen<V: Sees>(limit: &Expr, alloc: Global, sight: &V) -> Result<u64, Halt>
    ensures { Tells itself (most_of (number_of (V.look sight.now) (view limit.now))) result }
{
    let value = run_value(limit, alloc, sight)?;
    limit_count(&value)
}
