// Whole queries.
ghost use Rattle.std.specs.Prelude.{◌≡◌, ◌≢◌, ◌<◌, ◌≤◌, IfOk, IfErr, true, false, [], length};
ghost use Rattle.std.specs.Option.{ForSome};
ghost use Rattle.gq_graph.specs.Catalog.{most_types};
ghost use Rattle.gq_rules_typing.specs.Sorts.{sorts_of};
ghost use Rattle.gq_rules_typing.specs.StatementViews.{view_query};
ghost use Rattle.gq_scope.specs.Held.{graph_in, sorts_in};
ghost use Rattle.gq_plan_laws.specs.PlannedLaws.{IsPlanned};
ghost use Rattle.gq_plan.specs.Heading.{IsScoped};
ghost use Rattle.gq_plan_expr.specs.declared.fault.PlanFault.TheVariants as fault;
ghost use Rattle.gq_plan.specs.Prints.{PrintsAs};
ghost use Rattle.gq_plan.specs.Safe.{NeverStuck};
ghost use Rattle.gq_plan.specs.Unplanned.{NotTyped};

use crate::definitions::definitions;
use crate::parameters::parameters;
use gq_base::{List, within};
use gq_plan_expr::{CatalogNames, PlanFault};
use gq_plan_ir::Plan;
use gq_plan_stmt::plan_steps;
use gq_schema::Catalog;
use gq_scope::{Places, Scope, allows_paths};
use gq_tree::QueryTree;
use std::alloc::Global;

/// Plans a query in a scope without declarations.
///
/// Returns `Unknown` if something isn't found: then no plan can be made.
#[tactic(auto, using(crate::proofs::PrintLaws::plan_laws))]
fn planned(alloc: Global, scope: &mut Scope<'_>, query: &QueryTree) -> Result<Plan, PlanFault>
    requires { IsScoped (sorts_in scope.old) [] scope.old }
    ensures planned { IfOk result (λ p. IsPlanned (sorts_in scope.old) (view_query query.now) p) }
    ensures few { IfOk result (λ p. length p.edges ≤ most_types) }
    ensures unknown { IfErr result (λ e. e ≢ fault.OutOfMemory → NotTyped (sorts_in scope.old) (view_query query.now)) }
{
    let vertices = List::from_slice(alloc, scope.own_vertices())?;
    let edges = List::from_slice(alloc, scope.own_edges())?;
    within(edges.len(), 256)?;
    let mut places = Places::new(alloc);
    let mut tuples = List::new(alloc);
    let mut slots = Places::new(alloc);
    let parameters = parameters(alloc, scope, &mut places, query.parameters.as_slice())?;
    let trees = query.body.definitions.as_slice();
    let definitions = definitions(alloc, scope, &mut tuples, &mut slots, &places, trees)?;
    let found = CatalogNames {
        scope: &*scope,
        tuples: tuples.as_slice(),
        slots: &slots,
    };
    let steps = plan_steps(alloc, &found, &mut places, query.body.statements.as_slice())?;
    Ok(Plan {
        parameters,
        with_paths: allows_paths(query.modes.as_slice()),
        definitions,
        steps,
        vertices,
        edges,
    })
}

/// Whether the catalog has a graph with this number.
fn has_graph(catalog: &Catalog, graph: Option<u32>) -> bool
    ensures there { result ≡ true → ForSome graph (λ g. g < length catalog.now.graphs) }
    ensures lacking { result ≡ false → ForSome graph (λ g. g < length catalog.now.graphs) → ⊥ }
{
    match graph {
        None => true,
        Some(number) => (number as usize) < catalog.graph_count(),
    }
}

/// Plans a query for a graph of the catalog, given by number; the query was accepted by `check` of gq_check. It takes
/// some stack frames for each level of the query's trees.
///
/// Returns `Unknown` only for a graph that doesn't exist or a query that isn't well typed. Such a query may also give
/// `OutOfMemory`.
#[tactic(auto, using(crate::proofs::PrintLaws::plan_laws))]
pub fn plan(
    alloc: Global,
    catalog: &Catalog,
    graph: Option<u32>,
    query: &QueryTree,
) -> Result<Plan, PlanFault>
    ensures there { IfOk result (λ _. ForSome graph (λ g. g < length catalog.now.graphs)) }
    ensures planned { IfOk result (λ p. IsPlanned (sorts_of catalog.now (graph_in catalog.now graph)) (view_query query.now) p) }
    ensures prints { IfOk result (λ p. PrintsAs catalog.now (graph_in catalog.now graph) (view_query query.now) p) }
    ensures safe { IfOk result (λ p. NeverStuck catalog.now (graph_in catalog.now graph) (view_query query.now) p) }
    ensures few { IfOk result (λ p. length p.edges ≤ most_types) }
    ensures unknown { IfErr result (λ e. e ≢ fault.OutOfMemory → ForSome graph (λ g. g < length catalog.now.graphs)
        → NotTyped (sorts_of catalog.now (graph_in catalog.now graph)) (view_query query.now)) }
{
    if !has_graph(catalog, graph) {
        return Err(PlanFault::Unknown);
    }
    let mut scope = Scope::new(alloc, catalog, graph);
    let plan = planned(alloc, &mut scope, query)?;
    Ok(plan)
}
