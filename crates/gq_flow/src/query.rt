// The run of a plan.
ghost use Rattle.std.specs.Prelude.{◌≡◌, ◌≤◌, length, map};
ghost use Rattle.gq_graph.specs.Catalog.{most_types};
ghost use Rattle.gq_value.specs.Views.{val};
ghost use Rattle.gq_index.specs.Sights.{sight_of};
ghost use Rattle.gq_index.specs.Walks.{adjacency};
ghost use Rattle.gq_index.specs.Rows.{HaveAttributes, HaveEnds};
ghost use Rattle.gq_rules_meaning.specs.Queries.{run_plan};
ghost use Rattle.gq_rules_calendar.specs.Gregorian.{gregorian};
ghost use Rattle.gq_plan_ir.specs.PlanView.{view_plan};
ghost use Rattle.gq_frame.specs.Slots.{AreSound};
ghost use Rattle.gq_plan_ir.specs.Numbered.{AreNumbered};
ghost use Rattle.gq_flow.specs.Plans.{Prints, RunsFrom, plan_world};

use crate::program::Program;
use crate::run::run_steps;
use crate::selects::Workers;
use gq_base::List;
use gq_exec_control::{RunContext, RunFault, Running, run_fault};
use gq_exec_vars::{Opened, open};
use gq_index::Graph;
use gq_json::Printed;
use gq_plan_ir::Plan;
use gq_value::Row;
use std::alloc::Global;
use std::thread::Threads;

/// Runs a plan over its arguments, with a limit on turns, and returns the object of each PRINT, in order. Each
/// iteration of a loop takes a turn.
///
/// A plan that isn't that of a checked query may get stuck.
pub fn run_query<'x, R: Threads + Sync>(
    workers: &'x Workers<'x, R>,
    alloc: Global,
    graph: Graph<'x>,
    plan: &'x Plan,
    arguments: &Row,
    turns: u64,
) -> Result<List<Printed>, RunFault>
    requires indexed { graph.index.now ≡ adjacency (sight_of graph.catalog.now graph.store.now.vertices graph.store.now.edges) }
    requires attributes { HaveAttributes graph.catalog.now graph.store.now.vertices }
    requires ends { HaveEnds graph.store.now.vertices graph.store.now.edges.rows }
    requires few { length plan.now.edges ≤ most_types }
    requires numbered { AreNumbered plan.now.definitions }
    ensures { Prints (run_plan (plan_world gregorian graph.entry plan.now) (view_plan plan.now) (map val arguments.now) turns) result }
{
    match open(alloc, graph, plan, arguments) {
        Err(halt) => Err(run_fault(halt)),
        Ok(opened) => run_opened(workers, alloc, graph, plan, opened, turns),
    }
}

/// Runs the statements of a plan from its initial values.
fn run_opened<'x, R: Threads + Sync>(
    workers: &'x Workers<'x, R>,
    alloc: Global,
    graph: Graph<'x>,
    plan: &'x Plan,
    opened: Opened,
    turns: u64,
) -> Result<List<Printed>, RunFault>
    requires indexed { graph.index.now ≡ adjacency (sight_of graph.catalog.now graph.store.now.vertices graph.store.now.edges) }
    requires attributes { HaveAttributes graph.catalog.now graph.store.now.vertices }
    requires ends { HaveEnds graph.store.now.vertices graph.store.now.edges.rows }
    requires few { length plan.now.edges ≤ most_types }
    requires sound { AreSound opened.live.frame.accums }
    ensures { RunsFrom gregorian graph.entry plan.now opened turns result }
{
    let Opened { live, tuples } = opened;
    let context = RunContext {
        graph,
        plan,
        tuples: tuples.as_slice(),
    };
    let program = Program {
        workers,
        alloc,
        context,
    };
    let mut r = Running {
        live,
        turns,
        printed: List::new(alloc),
    };
    match run_steps(plan.steps.as_slice(), &program, &mut r) {
        Err(fault) => Err(fault),
        Ok(()) => Ok(printed_of(r)),
    }
}

fn printed_of(r: Running) -> List<Printed>
    ensures { result ≡ r.printed }
{
    let Running {
        live: _,
        turns: _,
        printed,
    } = r;
    printed
}
