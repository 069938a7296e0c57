// The statements.
ghost use Rattle.std.specs.Prelude.{◌≡◌, IfOk, length, true, false, None};
ghost use Rattle.std.specs.Option.{option_copied};
ghost use Rattle.gq_diagnostics.specs.Answers.{Answers};
ghost use Rattle.gq_ddl.specs.Declarations.{edge_created, ends_created, graph_created, members_of, vertex_created};

use crate::attributes::{attributes_of, discriminators_of, id_of};
use crate::fault::statement_fault;
use gq_diagnostics::StatementFault;
use gq_graph::Names;
use gq_schema::Catalog;
use gq_tree::{EdgeTree, EndsTree, GraphTree, MembersTree, VertexTree};
use gq_value::Txt;
use std::alloc::Global;

/// Executes CREATE VERTEX. The catalog gains the type, or is unchanged.
pub fn create_vertex(
    alloc: Global,
    catalog: &mut Catalog,
    tree: &VertexTree,
) -> Result<(), StatementFault>
    ensures { Answers (vertex_created catalog.old tree.now) catalog.old catalog.new result }
{
    let id = id_of(alloc, tree)?;
    let attributes = attributes_of(alloc, tree.attributes.as_slice())?;
    match catalog.add_vertex_type(tree.name.as_str(), &id, &attributes) {
        Ok(_) => Ok(()),
        Err(fault) => Err(statement_fault(fault)),
    }
}

/// Executes CREATE EDGE. The catalog gains the type and its reverse type, or is unchanged.
pub fn create_edge(
    alloc: Global,
    catalog: &mut Catalog,
    tree: &EdgeTree,
) -> Result<(), StatementFault>
    ensures { Answers (edge_created catalog.old tree.now) catalog.old catalog.new result }
{
    match tree {
        EdgeTree::Directed(ends, reverse) => create_ends(alloc, catalog, true, ends, text(reverse)),
        EdgeTree::Undirected(ends) => create_ends(alloc, catalog, false, ends, None),
    }
}

/// Executes CREATE GRAPH. The catalog gains the graph, whose number is returned, or is unchanged.
pub fn create_graph(catalog: &mut Catalog, tree: &GraphTree) -> Result<u32, StatementFault>
    ensures created { Answers (graph_created catalog.old tree.now) catalog.old catalog.new result }
    ensures number { IfOk result (λ number. number ≡ length catalog.old.graphs) }
{
    match catalog.add_graph(tree.name.as_str(), names(&tree.members)) {
        Ok(number) => Ok(number),
        Err(fault) => Err(statement_fault(fault)),
    }
}

fn create_ends(
    alloc: Global,
    catalog: &mut Catalog,
    directed: bool,
    ends: &EndsTree,
    reverse: Option<&str>,
) -> Result<(), StatementFault>
    ensures { Answers (ends_created catalog.old directed ends.now (option_copied reverse.entry)) catalog.old catalog.new result }
{
    let key = discriminators_of(alloc, ends.discriminators.as_slice())?;
    let attributes = attributes_of(alloc, ends.attributes.as_slice())?;
    let (name, from, to) = (ends.name.as_str(), ends.from.as_str(), ends.to.as_str());
    match catalog.add_edge_type(name, directed, from, to, reverse, &key, &attributes) {
        Ok(_) => Ok(()),
        Err(fault) => Err(statement_fault(fault)),
    }
}

fn text(text: &Option<Txt>) -> Option<&str>
    ensures { option_copied result ≡ text.now }
{
    match text {
        Some(text) => Some(text.as_str()),
        None => None,
    }
}

fn names(members: &MembersTree) -> Option<&Names>
    ensures { option_copied result ≡ members_of members.now }
{
    match members {
        MembersTree::All => None,
        MembersTree::Named(names) => Some(names),
    }
}
