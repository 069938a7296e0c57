// Refusals of queries for their modes, their graph or their rules.
ghost use Rattle.std.specs.Prelude.{◌≡◌, ◌<◌, length};
ghost use Rattle.std.specs.Option.{ForSome};
ghost use Rattle.gq_query_run.specs.Judging.{Judges, graph_refusal, interpret_refusal, rules_refusal};
ghost use Rattle.gq_query_run.specs.Queries.{graph_fixed};

use crate::fault::{statement_fault, unknown};
use crate::modes::are_good;
use gq_check::check;
use gq_diagnostics::{Refusal, StatementFault};
use gq_schema::Catalog;
use gq_tree::QueryTree;
use std::alloc::Global;

/// Checks whether INTERPRET QUERY is refused, with the graph in use, given by number: for its modes, else for a graph
/// that doesn't exist, else by the first rule on queries that fails.
pub(crate) fn judge_interpreted(
    alloc: Global,
    catalog: &Catalog,
    in_use: Option<u32>,
    tree: &QueryTree,
) -> Result<(), StatementFault>
    requires { ForSome in_use (λ g. g < length catalog.now.graphs) }
    ensures { Judges (interpret_refusal catalog.now in_use tree.now) result }
{
    if !are_good(tree.modes.as_slice()) {
        return Err(StatementFault::Refused(Refusal::BadOption));
    }
    judge_graph(alloc, catalog, in_use, tree)
}

/// Returns the number of a query's graph: of the one that is named, else of the one in use, else None.
pub fn graph_of(catalog: &Catalog, in_use: Option<u32>, tree: &QueryTree) -> Option<u32>
    ensures { result ≡ graph_fixed catalog.now in_use tree.now }
{
    match &tree.graph {
        None => in_use,
        Some(name) => catalog.graph(name.as_str()),
    }
}

/// The same for a query whose modes are valid.
pub(crate) fn judge_graph(
    alloc: Global,
    catalog: &Catalog,
    in_use: Option<u32>,
    tree: &QueryTree,
) -> Result<(), StatementFault>
    requires { ForSome in_use (λ g. g < length catalog.now.graphs) }
    ensures { Judges (graph_refusal catalog.now in_use tree.now) result }
{
    match &tree.graph {
        None => judge_rules(alloc, catalog, in_use, tree),
        Some(name) => match catalog.graph(name.as_str()) {
            Some(graph) => judge_rules(alloc, catalog, Some(graph), tree),
            None => Err(unknown(alloc, name.as_str())),
        },
    }
}

fn judge_rules(
    alloc: Global,
    catalog: &Catalog,
    graph: Option<u32>,
    tree: &QueryTree,
) -> Result<(), StatementFault>
    requires { ForSome graph (λ g. g < length catalog.now.graphs) }
    ensures { Judges (rules_refusal catalog.now graph tree.now) result }
{
    match check(alloc, catalog, graph, tree) {
        Ok(()) => Ok(()),
        Err(fault) => Err(statement_fault(fault)),
    }
}
