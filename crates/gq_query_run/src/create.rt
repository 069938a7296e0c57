// CREATE QUERY.
ghost use Rattle.std.specs.Prelude.{◌<◌, length};
ghost use Rattle.std.specs.Option.{ForSome};
ghost use Rattle.gq_diagnostics.specs.Answers.{Answers};
ghost use Rattle.gq_query_run.specs.Judging.{Judges};
ghost use Rattle.gq_query_run.specs.Queries.{create_refusal, query_created};

use crate::fault::taken;
use crate::judge::{graph_of, judge_graph};
use crate::modes::are_good;
use crate::queries::Queries;
use gq_base::OutOfMemory;
use gq_diagnostics::{Refusal, StatementFault};
use gq_schema::Catalog;
use gq_tree::QueryTree;
use std::alloc::Global;

/// Executes CREATE QUERY, with the graph in use, given by number. The queries gain the one with the name, not
/// installed, or are unchanged. With `replace` a query with the same name is replaced.
///
/// Refused for its modes, else if there is a query with the name, else for a graph that doesn't exist, else by the
/// first rule on queries that fails.
pub fn create_query<'s>(
    alloc: Global,
    catalog: &Catalog,
    in_use: Option<u32>,
    queries: &mut Queries<'s>,
    replace: bool,
    name: &'s str,
    tree: &'s QueryTree,
) -> Result<(), StatementFault>
    requires { ForSome in_use (λ g. g < length catalog.now.graphs) }
    ensures { Answers (query_created catalog.now in_use queries.old replace name.now tree.now) queries.old queries.new result }
{
    match judge(alloc, catalog, in_use, queries, replace, name, tree) {
        Ok(()) => {}
        Err(fault) => return Err(fault),
    }
    let graph = graph_of(catalog, in_use, tree);
    match queries.put(alloc, name, tree, graph) {
        Ok(()) => Ok(()),
        Err(OutOfMemory) => Err(StatementFault::OutOfMemory),
    }
}

fn judge(
    alloc: Global,
    catalog: &Catalog,
    in_use: Option<u32>,
    queries: &Queries<'_>,
    replace: bool,
    name: &str,
    tree: &QueryTree,
) -> Result<(), StatementFault>
    requires { ForSome in_use (λ g. g < length catalog.now.graphs) }
    ensures { Judges (create_refusal catalog.now in_use queries.now replace name.now tree.now) result }
{
    if !are_good(tree.modes.as_slice()) {
        return Err(StatementFault::Refused(Refusal::BadOption));
    }
    if !replace && queries.has(name) {
        return Err(taken(alloc, name));
    }
    judge_graph(alloc, catalog, in_use, tree)
}
