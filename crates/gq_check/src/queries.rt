// Whole queries.
ghost use Rattle.std.specs.Prelude.{◌≡◌, ◌<◌, length, map};
ghost use Rattle.std.specs.Option.{ForSome};
ghost use Rattle.gq_rules_typing.specs.Sorts.{sorts_of};
ghost use Rattle.gq_rules_typing.specs.Scopes as typing;
ghost use Rattle.gq_rules_typing.specs.QueryTypes.{typing_query};
ghost use Rattle.gq_rules_typing.specs.StatementViews.{view_parameter, view_definition, view_stmts, view_query};
ghost use Rattle.gq_scope.specs.Held.{graph_in, scope_in};
ghost use Rattle.gq_check_from.specs.Faults.{Judges};
ghost use Rattle.gq_check_decls.specs.Counts.{accum_count};
ghost use Rattle.gq_check.specs.Checks.{Checks, ChecksQuery};
ghost use Rattle.gq_check.specs.Rules as spec;

use crate::bodies::statements;
use gq_check_decls::{definitions, parameters};
use gq_check_from::CheckFault;
use gq_schema::Catalog;
use gq_scope::{Scope, allows_paths};
use gq_tree::QueryTree;
use std::alloc::Global;

/// Checks that a query is well typed. It sees the types of a graph of the catalog, given by the graph's number; a query
/// without a graph sees none. A fault is that of the first rule that fails, in the order of the text. May return
/// OutOfMemory at any time.
///
/// An accepted query is never stuck, given arguments of its parameters' types, in any store of the catalog or of one
/// into which it grows: it prints something, or ends with a fault.
pub fn check<'q>(
    alloc: Global,
    catalog: &'q Catalog,
    graph: Option<u32>,
    query: &'q QueryTree,
) -> Result<(), CheckFault>
    requires { ForSome graph (λ g. g < length catalog.now.graphs) }
    ensures { ChecksQuery catalog.now (graph_in catalog.now graph) (view_query query.now) result }
{
    well_typed(alloc, catalog, graph, query)
}

/// Checks the rules on a query, in the order of the text.
fn well_typed<'q>(
    alloc: Global,
    catalog: &'q Catalog,
    graph: Option<u32>,
    query: &'q QueryTree,
) -> Result<(), CheckFault>
    requires { ForSome graph (λ g. g < length catalog.now.graphs) }
    ensures { Checks (typing_query (sorts_of catalog.now (graph_in catalog.now graph)) (view_query query.now)) result }
{
    let mut scope = Scope::new(alloc, catalog, graph);
    scope.allow_paths(allows_paths(query.modes.as_slice()));
    all_of(alloc, &mut scope, query)?;
    Ok(())
}

/// Checks parameters, definitions and statements.
#[tactic(auto, using(gq_check_from::proofs::GrowLemmas::grow_laws))]
fn all_of<'q>(alloc: Global, scope: &mut Scope<'q>, query: &'q QueryTree) -> Result<(), CheckFault>
    requires place { scope.old.place ≡ typing.InStatement }
    requires none { accum_count (scope_in scope.old) ≡ 0 }
    ensures { Judges (λ _. scope_in scope.new) (spec.query (scope_in scope.old) (map view_parameter query.now.parameters)
        (map view_definition query.now.body.definitions) (view_stmts query.now.body.statements)) result }
{
    parameters(alloc, scope, query.parameters.as_slice())?;
    definitions(alloc, scope, query.body.definitions.as_slice())?;
    statements(query.body.statements.as_slice(), alloc, scope)
}
