// The effects of single statements.
ghost use Rattle.std.specs.Prelude.{◌≡◌, OnOk};
ghost use Rattle.gq_rules_meaning.specs.Runs.{run, condition_of};
ghost use Rattle.gq_rules_calendar.specs.Gregorian.{gregorian};
ghost use Rattle.gq_plan_ir.specs.ExprView.{view};
ghost use Rattle.gq_plan_ir.specs.PlanView.{view_over, view_step};
ghost use Rattle.gq_frame.specs.Slots.{AreSound};
ghost use Rattle.gq_exec_control.specs.Contexts.{world_on};
ghost use Rattle.gq_exec_control.specs.Standing.{Does, Tests, Limits, GoesOver};
ghost use Rattle.gq_flow.specs.Steps.{IsSimple};

use crate::change::change;
use crate::print::print_more;
use crate::rights::assign;
use crate::selects::Workers;
use gq_exec_control::{Rounds, RunContext, RunFault, Running, declare, limit, rounds, truth};
use gq_plan_ir::{Expr, Over, Step};
use std::alloc::Global;
use std::thread::Threads;

/// A plan over a graph, with the workers of its blocks.
#[derive(Drop)]
pub struct Program<'a, R> {
    pub workers: &'a Workers<'a, R>,
    pub alloc: Global,
    pub context: RunContext<'a>,
}

impl<'a, R: Threads + Sync> Program<'a, R> {
    /// Runs a declaration, an assignment, a change of a global accumulator, or PRINT.
    #[tactic(auto, using(crate::proofs::ProgramLemmas::simple_laws))]
    pub(crate) fn act(&self, step: &Step, r: &mut Running) -> Result<(), RunFault>
        requires simple { IsSimple (view_step step.now) }
        requires sound { AreSound r.old.live.frame.accums }
        ensures does { Does (run (world_on gregorian self.now.context) (view_step step.now)) r.old r.new result }
        ensures sound { OnOk result (AreSound r.new.live.frame.accums) }
        ensures turns { r.new.turns ≡ r.old.turns }
    {
        match step {
            Step::Local(declared, locals) => declare(
                &self.context,
                self.alloc,
                *declared,
                locals.as_slice(),
                &mut r.live,
            ),
            Step::Assign(place, types, right) => assign(
                self.workers,
                self.alloc,
                &self.context,
                *place,
                *types,
                right,
                &mut r.live,
            ),
            Step::Global(slot, made) => {
                change(self.alloc, &self.context, *slot, made, &mut r.live)
            }
            Step::Print(items) => print_more(self.alloc, &self.context, items.as_slice(), r),
            Step::If(_, _) | Step::While(_, _, _) | Step::Foreach(_, _, _) => unreachable!(),
        }
    }

    /// Evaluates a condition.
    pub(crate) fn truth(&self, condition: &Expr, r: &Running) -> Result<bool, RunFault>
        requires sound { AreSound r.now.live.frame.accums }
        ensures { Tests (condition_of (world_on gregorian self.now.context) (view condition.now)) r.now result }
    {
        truth(self.alloc, &self.context, condition, &r.live.frame)
    }

    /// Returns how often a body may run under LIMIT; a negative number counts as 0.
    pub(crate) fn limit(&self, most: &Expr, r: &Running) -> Result<u64, RunFault>
        requires sound { AreSound r.now.live.frame.accums }
        ensures { Limits (world_on gregorian self.now.context) (view most.now) r.now result }
    {
        limit(self.alloc, &self.context, most, &r.live.frame)
    }

    /// Returns what FOREACH iterates over.
    pub(crate) fn rounds(&self, over: &Over, r: &Running) -> Result<Rounds, RunFault>
        requires sound { AreSound r.now.live.frame.accums }
        ensures { GoesOver (world_on gregorian self.now.context) (view_over over.now) r.now result }
    {
        rounds(self.alloc, &self.context, over, &r.live.frame)
    }
}
