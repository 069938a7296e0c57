// The line of a query, or the refusal.
ghost use Rattle.std.specs.Prelude.{◌≡◌, ◌≢◌, map, Ok, Err};
ghost use Rattle.gq_value.specs.Views.{val};
ghost use Rattle.gq_rules_typing.specs.StatementViews.{view_query};
ghost use Rattle.gq_rules_meaning.specs.Answers.{Answer, Stuck};
ghost use Rattle.gq_rules_meaning.specs.Messages.{answer_of_run, name_at, slot_names, wrong_message};
ghost use Rattle.gq_rules_meaning.specs.Built.{built_print};
ghost use Rattle.gq_rules_meaning.specs.Queries.{run_query};
ghost use Rattle.gq_rules_calendar.specs.Gregorian.{gregorian};
ghost use Rattle.gq_json.specs.declared.out.Printed.{Printed as JsonPrinted};
ghost use Rattle.gq_arguments.specs.Rows.{Tells as Due};
ghost use Rattle.gq_rules_meaning.specs.Statements.{Fault};
ghost use Rattle.gq_diagnostics.specs.Messages.{message_of};
ghost use Rattle.gq_query_run.specs.Answers.{Objects, Tells};
ghost use Rattle.gq_query_run.specs.Indexed.{IsIndexed};
ghost use Rattle.gq_query_run.specs.Runs.{Runs, answer_over};
ghost use Rattle.gq_query_run.specs.Sessions.{graph_read};

use crate::runner::{QueryFault, Runner, RunsQueries};
use crate::slot::slot_name;
use gq_base::OutOfMemory;
use gq_diagnostics::{Refusal, StatementFault};
use gq_index::{Index, Store};
use gq_json::{Printed, json_line};
use gq_schema::Catalog;
use gq_tree::QueryTree;
use gq_value::{Row, Txt, Wrong};
use std::alloc::Global;
use std::thread::Threads;

/// Returns the line that a query prints, which is prepared for the graph with this number, over a store with its index
/// and values of its parameters.
pub(crate) fn line_over<R: Threads + Sync, M: RunsQueries>(
    rt: &R,
    alloc: Global,
    runner: &Runner<'_, M>,
    catalog: &Catalog,
    graph: Option<u32>,
    store: &Store,
    index: &Index,
    query: &QueryTree,
    prepared: &M::Prepared,
    arguments: &Row,
) -> Result<Vec<u8>, StatementFault>
    requires indexed { IsIndexed catalog.now store.now index.now }
    requires prepared { M.is_of prepared.now catalog.now graph (view_query query.now) }
    requires runs { run_query (graph_read catalog.now graph store.now) gregorian (view_query query.now) (map val arguments.now) runner.now.turns ≢ Stuck }
    ensures { Tells (answer_over (graph_read catalog.now graph store.now) gregorian runner.now.turns (view_query query.now) (map val arguments.now)) result }
{
    let turns = runner.turns;
    match runner.machine.run(
        rt,
        alloc,
        catalog,
        store,
        index,
        prepared,
        arguments,
        &runner.shape,
        turns,
    ) {
        Ok(printed) => line_of(alloc, printed.as_slice()),
        Err(fault) => Err(refused(alloc, query, turns, fault)),
    }
}

// Returns the line of the output.
fn line_of(alloc: Global, printed: &[Printed]) -> Result<Vec<u8>, StatementFault>
    ensures { (objects : Objects) → map (λ (p : JsonPrinted). p.members) printed.now ≡ map built_print objects → Tells (Ok objects) result }
{
    match json_line(alloc, printed) {
        Ok(line) => Ok(line),
        Err(OutOfMemory) => Err(StatementFault::OutOfMemory),
    }
}

// Returns the refusal for a fault.
fn refused(alloc: Global, query: &QueryTree, turns: u64, fault: QueryFault) -> StatementFault
    requires { fault ≢ QueryFault.Stuck }
    ensures { (answer : Answer Fault Objects) → Runs answer (Err fault) → Tells (answer_of_run (slot_names (view_query query.now).definitions) turns answer) (Err result) }
{
    match fault {
        QueryFault::Wrong(wrong) => StatementFault::Refused(wrong_refusal(wrong)),
        QueryFault::SumRange(slot) => sum_range(alloc, query, slot),
        QueryFault::LoopBound => StatementFault::Refused(Refusal::LoopBound(turns)),
        QueryFault::PathBound => StatementFault::Refused(Refusal::PathBound),
        QueryFault::Stuck => unreachable!(),
        QueryFault::OutOfMemory => StatementFault::OutOfMemory,
    }
}

fn wrong_refusal(wrong: Wrong) -> Refusal
    ensures { message_of result ≡ wrong_message wrong }
{
    match wrong {
        Wrong::Range => Refusal::OutOfRange,
        Wrong::Zero => Refusal::ZeroDivisor,
    }
}

fn sum_range(alloc: Global, query: &QueryTree, slot: usize) -> StatementFault
    ensures { Due (Refusal.SumOutOfRange (name_at (slot_names (view_query query.now).definitions) slot)) result }
{
    let name = slot_name(query.body.definitions.as_slice(), slot);
    match Txt::of(alloc, name) {
        Ok(name) => StatementFault::Refused(Refusal::SumOutOfRange(name)),
        Err(OutOfMemory) => StatementFault::OutOfMemory,
    }
}
