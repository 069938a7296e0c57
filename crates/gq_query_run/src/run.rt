// RUN QUERY.
ghost use Rattle.std.specs.Prelude.{◌≡◌, ◌≢◌, ℕ, List, [], All, Option, OnOk, Err, is_some, true, map, option_map};
ghost use Rattle.gq_graph.specs.declared.rows.VertexRow.{VertexRow};
ghost use Rattle.gq_rules_typing.specs.Statements.{Bytes, Parameter};
ghost use Rattle.gq_rules_typing.specs.Sorts.{Sorts, sorts_of};
ghost use Rattle.gq_rules_typing.specs.StatementViews.{view_parameter, view_query};
ghost use Rattle.gq_scope.specs.Held.{graph_in};
ghost use Rattle.gq_rules_meaning.specs.Sessions.{ran};
ghost use Rattle.gq_rules_calendar.specs.Gregorian.{gregorian};
ghost use Rattle.gq_arguments.specs.Holds.{held};
ghost use Rattle.gq_arguments.specs.Given.{view_argument};
ghost use Rattle.gq_arguments.specs.Members.{members_for};
ghost use Rattle.gq_arguments.specs.Rows.{values_given, Tells as Due};
ghost use Rattle.gq_query_run.specs.Kept.{Kept};
ghost use Rattle.gq_query_run.specs.Answers.{NotStuck, Says, Tells};
ghost use Rattle.gq_query_run.specs.Indexed.{IsIndexed};
ghost use Rattle.gq_query_run.specs.Queries.{QueryFits};
ghost use Rattle.gq_query_run.specs.Ready.{AreReady, IsReadyFor, OthersStay, ready_at};
ghost use Rattle.gq_query_run.specs.Runs.{answer_found, answer_given, values_run};
ghost use Rattle.gq_query_run.specs.Sessions.{graph_read, session_of};

use crate::line::line_over;
use crate::queries::Queries;
use crate::ready::Ready;
use crate::runner::{Runner, RunsQueries};
use crate::stored::Stored;
use gq_arguments::{Args, Arguments, argument_row};
use gq_base::OutOfMemory;
use gq_diagnostics::{Refusal, StatementFault};
use gq_index::{Index, Store};
use gq_schema::Catalog;
use gq_tree::RunTree;
use gq_value::Txt;
use std::alloc::Global;
use std::thread::Threads;

/// Executes RUN QUERY over a store with its index. Returns the line that the query prints. The session isn't changed,
/// but for what is prepared of its queries: a query is prepared when it is first run.
///
/// Refused if there is no query with the name, else if it isn't installed, else for its arguments, else for the fault
/// of its run.
pub fn run_query<R: Threads + Sync, M: RunsQueries>(
    rt: &R,
    alloc: Global,
    runner: &Runner<'_, M>,
    catalog: &Catalog,
    store: &Store,
    index: &Index,
    queries: &Queries<'_>,
    ready: &mut Ready<M::Prepared>,
    file: &Args,
    tree: &RunTree,
) -> Result<Vec<u8>, StatementFault>
    requires indexed { IsIndexed catalog.now store.now index.now }
    requires ready { AreReady M.is_of catalog.now queries.now ready.old.plans }
    requires fits { All (QueryFits catalog.now) queries.now }
    // The query isn't stuck, with some graph in use; which one doesn't matter.
    requires runs { (in_use : Option ℕ) × NotStuck
        (ran (session_of catalog.now in_use queries.now store.now) gregorian runner.now.turns tree.now.name (option_map (map view_argument) tree.now.arguments) (members_for (held file.now) tree.now.name)) }
    ensures says { (in_use : Option ℕ) → Says (session_of catalog.now in_use queries.now store.now)
        (ran (session_of catalog.now in_use queries.now store.now) gregorian runner.now.turns tree.now.name (option_map (map view_argument) tree.now.arguments) (members_for (held file.now) tree.now.name)) result }
    ensures ready { AreReady M.is_of catalog.now queries.now ready.new.plans }
{
    let name = tree.name.as_str();
    match queries.place_of(name) {
        Some(place) => {
            let query = queries.at(place);
            run_found(
                rt, alloc, runner, catalog, store, index, query, place, ready, file, tree,
            )
        }
        None => Err(unknown(alloc, name)),
    }
}

/// Runs the query at a place, if it is installed.
fn run_found<R: Threads + Sync, M: RunsQueries>(
    rt: &R,
    alloc: Global,
    runner: &Runner<'_, M>,
    catalog: &Catalog,
    store: &Store,
    index: &Index,
    query: &Stored<'_>,
    place: usize,
    ready: &mut Ready<M::Prepared>,
    file: &Args,
    tree: &RunTree,
) -> Result<Vec<u8>, StatementFault>
    requires indexed { IsIndexed catalog.now store.now index.now }
    requires ready { IsReadyFor M.is_of catalog.now ready.old.plans place query.now }
    requires fits { QueryFits catalog.now query.now }
    requires runs { answer_found catalog.now store.now gregorian runner.now.turns query.now tree.now (held file.now) ≢ Err [] }
    ensures tells { Tells (answer_found catalog.now store.now gregorian runner.now.turns query.now tree.now (held file.now)) result }
    ensures ready { IsReadyFor M.is_of catalog.now ready.new.plans place query.now }
    ensures others { OthersStay ready.old.plans ready.new.plans place }
{
    if query.is_installed() {
        let arguments = arguments_of(tree, file);
        run_at(
            rt, alloc, runner, catalog, store, index, query, place, ready, arguments,
        )
    } else {
        Err(not_installed(alloc, tree.name.as_str()))
    }
}

// Returns the arguments in parentheses, or else those that the file has for the query.
fn arguments_of<'a>(tree: &'a RunTree, file: &'a Args) -> Arguments<'a>
    ensures { (sorts : Sorts) (rows : List VertexRow) (ps : List (Parameter Bytes))
        → values_given sorts rows ps result ≡ values_run sorts rows ps (option_map (map view_argument) tree.now.arguments) (members_for (held file.now) tree.now.name) }
{
    match &tree.arguments {
        Some(listed) => Arguments::Listed(listed.as_slice()),
        None => Arguments::Named(file.of_query(tree.name.as_str())),
    }
}

/// Only the first queries are kept ready, so that a statement that clears them, and the next run after it, take no more
/// time in a script of many queries.
const MOST_READY: usize = 1 << 10;

/// Runs the query at a place with these arguments. It isn't kept ready if its place is too high.
fn run_at<R: Threads + Sync, M: RunsQueries>(
    rt: &R,
    alloc: Global,
    runner: &Runner<'_, M>,
    catalog: &Catalog,
    store: &Store,
    index: &Index,
    query: &Stored<'_>,
    place: usize,
    ready: &mut Ready<M::Prepared>,
    arguments: Arguments<'_>,
) -> Result<Vec<u8>, StatementFault>
    requires indexed { IsIndexed catalog.now store.now index.now }
    requires ready { IsReadyFor M.is_of catalog.now ready.old.plans place query.now }
    requires fits { QueryFits catalog.now query.now }
    requires runs { answer_given (graph_read catalog.now query.now.graph store.now) gregorian runner.now.turns (view_query query.now.tree)
        (values_given (sorts_of catalog.now (graph_in catalog.now query.now.graph)) store.now.vertices (map view_parameter query.now.tree.parameters) arguments) ≢ Err [] }
    ensures tells { Tells (answer_given (graph_read catalog.now query.now.graph store.now) gregorian runner.now.turns (view_query query.now.tree)
        (values_given (sorts_of catalog.now (graph_in catalog.now query.now.graph)) store.now.vertices (map view_parameter query.now.tree.parameters) arguments.entry)) result }
    ensures ready { IsReadyFor M.is_of catalog.now ready.new.plans place query.now }
    ensures others { OthersStay ready.old.plans ready.new.plans place }
{
    if place < MOST_READY {
        return run_with(
            rt, alloc, runner, catalog, store, index, query, place, ready, arguments,
        );
    }
    let mut own = Ready::new(alloc);
    run_with(
        rt, alloc, runner, catalog, store, index, query, 0, &mut own, arguments,
    )
}

/// Runs the query at a place with these arguments. It is prepared if it wasn't yet.
fn run_with<R: Threads + Sync, M: RunsQueries>(
    rt: &R,
    alloc: Global,
    runner: &Runner<'_, M>,
    catalog: &Catalog,
    store: &Store,
    index: &Index,
    query: &Stored<'_>,
    place: usize,
    ready: &mut Ready<M::Prepared>,
    arguments: Arguments<'_>,
) -> Result<Vec<u8>, StatementFault>
    requires indexed { IsIndexed catalog.now store.now index.now }
    requires ready { IsReadyFor M.is_of catalog.now ready.old.plans place query.now }
    requires fits { QueryFits catalog.now query.now }
    requires runs { answer_given (graph_read catalog.now query.now.graph store.now) gregorian runner.now.turns (view_query query.now.tree)
        (values_given (sorts_of catalog.now (graph_in catalog.now query.now.graph)) store.now.vertices (map view_parameter query.now.tree.parameters) arguments) ≢ Err [] }
    ensures tells { Tells (answer_given (graph_read catalog.now query.now.graph store.now) gregorian runner.now.turns (view_query query.now.tree)
        (values_given (sorts_of catalog.now (graph_in catalog.now query.now.graph)) store.now.vertices (map view_parameter query.now.tree.parameters) arguments.entry)) result }
    ensures ready { IsReadyFor M.is_of catalog.now ready.new.plans place query.now }
    ensures others { OthersStay ready.old.plans ready.new.plans place }
{
    let (graph, tree) = (query.graph(), query.tree());
    let (vertices, parameters) = (&store.vertices, tree.parameters.as_slice());
    let row = match argument_row(alloc, catalog, graph, vertices, parameters, arguments) {
        Ok(row) => row,
        Err(fault) => return Err(fault),
    };
    match prepare_at(alloc, runner.machine, catalog, query, place, ready) {
        Ok(()) => {
            let prepared = ready.at(place);
            line_over(
                rt, alloc, runner, catalog, graph, store, index, tree, prepared, &row,
            )
        }
        Err(OutOfMemory) => Err(StatementFault::OutOfMemory),
    }
}

/// Prepares the query at a place, if it isn't prepared.
fn prepare_at<M: RunsQueries>(
    alloc: Global,
    machine: &M,
    catalog: &Catalog,
    query: &Stored<'_>,
    place: usize,
    ready: &mut Ready<M::Prepared>,
) -> Result<(), OutOfMemory>
    requires ready { IsReadyFor M.is_of catalog.now ready.old.plans place query.now }
    requires fits { QueryFits catalog.now query.now }
    ensures there { OnOk result (is_some (ready_at ready.new.plans place) ≡ true) }
    ensures ready { IsReadyFor M.is_of catalog.now ready.new.plans place query.now }
    ensures others { OthersStay ready.old.plans ready.new.plans place }
{
    if ready.has(place) {
        return Ok(());
    }
    let prepared = machine.prepare(alloc, catalog, query.graph(), query.tree())?;
    ready.put(place, prepared)
}

fn unknown(alloc: Global, name: &str) -> StatementFault
    ensures { Due (Refusal.UnknownName name.now) result }
{
    match Txt::of(alloc, name) {
        Ok(name) => StatementFault::Refused(Refusal::UnknownName(name)),
        Err(OutOfMemory) => StatementFault::OutOfMemory,
    }
}

fn not_installed(alloc: Global, name: &str) -> StatementFault
    ensures { Due (Refusal.NotInstalled name.now) result }
{
    match Txt::of(alloc, name) {
        Ok(name) => StatementFault::Refused(Refusal::NotInstalled(name)),
        Err(OutOfMemory) => StatementFault::OutOfMemory,
    }
}
