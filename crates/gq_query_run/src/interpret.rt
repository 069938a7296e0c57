// INTERPRET QUERY.
ghost use Rattle.std.specs.Prelude.{◌<◌, List, length};
ghost use Rattle.std.specs.Option.{ForSome};
ghost use Rattle.gq_rules_typing.specs.StatementViews.{view_query};
ghost use Rattle.gq_rules_meaning.specs.Sessions.{interpreted};
ghost use Rattle.gq_rules_calendar.specs.Gregorian.{gregorian};
ghost use Rattle.gq_query_run.specs.Kept.{Kept};
ghost use Rattle.gq_query_run.specs.Answers.{NotStuck, Says};
ghost use Rattle.gq_query_run.specs.Indexed.{IsIndexed};
ghost use Rattle.gq_query_run.specs.Sessions.{session_of};

use crate::judge::{graph_of, judge_interpreted};
use crate::line::line_over;
use crate::runner::{Runner, RunsQueries};
use gq_base::{List, OutOfMemory};
use gq_diagnostics::StatementFault;
use gq_index::{Index, Store};
use gq_schema::Catalog;
use gq_tree::QueryTree;
use std::alloc::Global;
use std::thread::Threads;

/// Executes INTERPRET QUERY over a store with its index, with the graph in use, given by number. Returns the line that
/// the query prints. The session isn't changed.
///
/// Refused for its modes, else for a graph that doesn't exist, else by the first rule on queries that fails, else for
/// the fault of its run.
pub fn interpret_query<R: Threads + Sync, M: RunsQueries>(
    rt: &R,
    alloc: Global,
    runner: &Runner<'_, M>,
    catalog: &Catalog,
    store: &Store,
    index: &Index,
    in_use: Option<u32>,
    tree: &QueryTree,
) -> Result<Vec<u8>, StatementFault>
    requires there { ForSome in_use (λ g. g < length catalog.now.graphs) }
    requires indexed { IsIndexed catalog.now store.now index.now }
    // The query isn't stuck, beside some other queries; which ones doesn't matter.
    requires runs { (queries : List Kept) × NotStuck
        (interpreted (session_of catalog.now in_use queries store.now) gregorian runner.now.turns tree.now.graph tree.now.modes (view_query tree.now)) }
    ensures { (queries : List Kept) → Says (session_of catalog.now in_use queries store.now)
        (interpreted (session_of catalog.now in_use queries store.now) gregorian runner.now.turns tree.now.graph tree.now.modes (view_query tree.now)) result }
{
    match judge_interpreted(alloc, catalog, in_use, tree) {
        Ok(()) => {
            let graph = graph_of(catalog, in_use, tree);
            let none = List::new(alloc);
            match runner.machine.prepare(alloc, catalog, graph, tree) {
                Ok(prepared) => line_over(
                    rt, alloc, runner, catalog, graph, store, index, tree, &prepared, &none,
                ),
                Err(OutOfMemory) => Err(StatementFault::OutOfMemory),
            }
        }
        Err(fault) => Err(fault),
    }
}
