// The machine that runs queries.
ghost use Rattle.std.specs.Prelude.{◌<◌, ◌≤◌, IfOk, length, map};
ghost use Rattle.std.specs.Option.{ForSome};
ghost use Rattle.gq_graph.specs.Catalog.{most_types};
ghost use Rattle.gq_value.specs.Views.{val};
ghost use Rattle.gq_rules_typing.specs.StatementViews.{view_query};
ghost use Rattle.gq_rules_meaning.specs.Answers.{Answer};
ghost use Rattle.gq_rules_meaning.specs.Statements.{Fault};
ghost use Rattle.gq_rules_calendar.specs.Gregorian.{gregorian};
ghost use Rattle.gq_flow.specs.Plans.{Objects, Prints};
ghost use Rattle.gq_plan_ir.specs.Numbered.{AreNumbered};
ghost use Rattle.gq_query_run.specs.Indexed.{IsIndexed};
ghost use Rattle.gq_query_run.specs.Judging.{IsTyped};
ghost use Rattle.gq_query_run.specs.Runs.{Runs};
ghost use Rattle.gq_engine.specs.Engines.{IsPlanOf, plan_over};

use gq_base::{List, OutOfMemory};
use gq_exec_control::RunFault;
use gq_flow::{Workers, run_query};
use gq_index::{Graph, Index, Store};
use gq_io::{AnyGate, Shape};
use gq_json::Printed;
use gq_plan::plan;
use gq_plan_expr::PlanFault;
use gq_plan_ir::Plan;
use gq_query_run::{QueryFault, RunsQueries};
use gq_schema::Catalog;
use gq_tree::QueryTree;
use gq_value::Row;
use std::alloc::Global;
use std::thread::Threads;

/// Runs queries, whose workers pass a gate. No gate changes an answer.
#[derive(Clone, Copy, Debug)]
pub struct Engine<'g> {
    pub gate: AnyGate<'g>,
}

impl<'g> RunsQueries for Engine<'g> {
    type Prepared = Plan;

    ghost is_of = { λ plan schema graph query. IsPlanOf schema graph query plan };

    fn prepare(
        &self,
        alloc: Global,
        catalog: &Catalog,
        graph: Option<u32>,
        query: &QueryTree,
    ) -> Result<Plan, OutOfMemory> {
        planned(alloc, catalog, graph, query)
    }

    fn run<R: Threads + Sync>(
        &self,
        rt: &R,
        alloc: Global,
        catalog: &Catalog,
        store: &Store,
        index: &Index,
        prepared: &Plan,
        arguments: &Row,
        shape: &Shape,
        turns: u64,
    ) -> Result<List<Printed>, QueryFault> {
        let workers = Workers {
            rt,
            shape: *shape,
            gate: self.gate,
        };
        run_plan(
            &workers, alloc, catalog, store, index, prepared, arguments, turns,
        )
    }
}

/// Plans a query. A typed one has a plan.
#[tactic(auto, using(crate::proofs::EngineLemmas::planned_laws))]
fn planned(
    alloc: Global,
    catalog: &Catalog,
    graph: Option<u32>,
    query: &QueryTree,
) -> Result<Plan, OutOfMemory>
    requires there { ForSome graph (λ g. g < length catalog.now.graphs) }
    requires typed { IsTyped catalog.now graph query.now }
    ensures { IfOk result (IsPlanOf catalog.now graph (view_query query.now)) }
{
    match plan(alloc, catalog, graph, query) {
        Ok(plan) => Ok(plan),
        Err(fault) => match fault {
            PlanFault::OutOfMemory => Err(OutOfMemory),
            PlanFault::Unknown => unreachable!(),
        },
    }
}

/// Runs a plan over a store with its index, with so many turns of loops in all. It answers what the plan prints, or why the
/// run ended. The plan's tuple types and slots are numbered in order, as those of each plan of a query are.
pub fn run_plan<'x, R: Threads + Sync>(
    workers: &'x Workers<'x, R>,
    alloc: Global,
    catalog: &'x Catalog,
    store: &'x Store,
    index: &'x Index,
    plan: &'x Plan,
    arguments: &Row,
    turns: u64,
) -> Result<List<Printed>, QueryFault>
    requires indexed { IsIndexed catalog.now store.now index.now }
    requires few { length plan.now.edges ≤ most_types }
    requires numbered { AreNumbered plan.now.definitions }
    ensures { Runs (plan_over catalog.now store.now gregorian plan.now (map val arguments.now) turns) result }
{
    let graph = Graph {
        catalog,
        store,
        index,
    };
    told(run_query(workers, alloc, graph, plan, arguments, turns))
}

/// Converts the result of a plan's run to that of a query's run.
fn told(answer: Result<List<Printed>, RunFault>) -> Result<List<Printed>, QueryFault>
    ensures { (o : Answer Fault Objects) → Prints o answer → Runs o result }
{
    match answer {
        Ok(printed) => Ok(printed),
        Err(RunFault::Eval(wrong)) => Err(QueryFault::Wrong(wrong)),
        Err(RunFault::SumRange(slot)) => Err(QueryFault::SumRange(slot)),
        Err(RunFault::LoopBound) => Err(QueryFault::LoopBound),
        Err(RunFault::PathBound) => Err(QueryFault::PathBound),
        Err(RunFault::Stuck) => Err(QueryFault::Stuck),
        Err(RunFault::OutOfMemory) => Err(QueryFault::OutOfMemory),
    }
}
