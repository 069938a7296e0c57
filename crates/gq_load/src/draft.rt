// Rows as read, before any row of their record is put.
ghost use Rattle.std.specs.Prelude.{◌≡◌, ◌≤◌, ◌<◌, ℕ, ℤ, List, Option, Some, None, length, true, IfOk};
ghost use Rattle.gq_load_csv.specs.Fields.{TellsTimes};
ghost use Rattle.gq_load_check.specs.Targets.{HasTarget, attributes_of, vertex_type_at, edge_type_at};
ghost use Rattle.gq_index.specs.Steps.{Puts};
ghost use Rattle.gq_index.specs.Namings.{naming_in, AreNamedBy};
ghost use Rattle.gq_index.specs.Ends.{edge_steps};
ghost use Rattle.gq_graph.specs.Edges.{Agrees};
ghost use Rattle.gq_graph.specs.Vertices.{vertex_number};
ghost use Rattle.gq_graph.specs.declared.rows.VertexRow.{VertexRow};
ghost use Rattle.gq_graph.specs.declared.types.EdgeType.{EdgeType};
ghost use Rattle.gq_load.specs.declared.route.Route.{Route};
ghost use Rattle.gq_load.specs.Rows.{steps_along, steps_by};
ghost use Rattle.gq_load.specs.Found.{IsFound};
ghost use Rattle.gq_load.specs.Drafts.{drafted, drafted_as, if_read, IsSized};
ghost use Rattle.gq_load.specs.Records.{HasEnds, AllHaveEnds};

use crate::ahead::FoundEnds;
use crate::route::Route;
use crate::value::{read_name, read_values};
use gq_base::{List, OutOfMemory};
use gq_graph::{EdgeType, Naming, StoreFault, VertexType};
use gq_index::{EndpointRef, Store, put_edge, put_vertex};
use gq_load_check::Target;
use gq_load_csv::{Id, Record};
use gq_schema::Catalog;
use gq_value::Row;
use std::alloc::Global;

/// The values of one row: a vertex's id or both ids of an edge, and the attributes. Its memory is reused.
#[derive(Drop)]
pub struct Draft<'a> {
    /// A vertex's id, or that of an edge's FROM vertex.
    pub from: Id<'a>,
    /// The id of an edge's TO vertex.
    pub to: Id<'a>,
    pub row: Row,
}

/// Returns `count` empty drafts.
pub fn drafts<'a>(alloc: Global, count: usize) -> Result<Vec<Draft<'a>>, OutOfMemory>
    ensures { IfOk result (λ drafts. length drafts.items ≡ count) }
{
    let mut drafts = Vec::with_capacity(alloc, count)?;
    for _ in 0..count {
        drafts.push(Draft {
            from: Id::new(alloc),
            to: Id::new(alloc),
            row: List::new(alloc),
        })?;
    }
    Ok(drafts)
}

/// Reads the row of a route from a record. Returns false if a value can't be read.
pub(crate) fn read_draft<'a>(
    alloc: Global,
    catalog: &Catalog,
    route: &Route,
    row: &Record<'a>,
    draft: &mut Draft<'a>,
) -> Result<bool, OutOfMemory>
    requires there { HasTarget catalog.now route.now.target }
    requires ends { AllHaveEnds catalog.now }
    ensures reads { IfOk result (λ ok. (read : List ℕ → Option ℤ) → TellsTimes read →
        steps_along read catalog.now route.now row.now ≡ if_read ok (drafted catalog.now route.now draft.new)) }
    ensures sized { IfOk result (λ ok. ok ≡ true → length draft.new.row ≡ length (attributes_of catalog.now route.now.target)) }
{
    match route.target {
        Target::Vertex(kind) => read_vertex(
            alloc,
            catalog,
            kind,
            route.fields.as_slice(),
            row,
            draft,
        ),
        Target::Edge(kind) => read_edge(alloc, catalog, kind, route.fields.as_slice(), row, draft),
    }
}

fn read_vertex<'a>(
    alloc: Global,
    catalog: &Catalog,
    kind: u32,
    sources: &[Option<u64>],
    row: &Record<'a>,
    draft: &mut Draft<'a>,
) -> Result<bool, OutOfMemory>
    requires there { HasTarget catalog.now (Target.Vertex kind) }
    ensures reads { IfOk result (λ ok. (read : List ℕ → Option ℤ) (route : Route) → TellsTimes read →
        steps_by read catalog.now route (Target.Vertex kind) sources.now row.now ≡
        if_read ok (drafted_as catalog.now (Target.Vertex kind) route draft.new)) }
    ensures sized { IfOk result (λ ok. ok ≡ true → length draft.new.row ≡ length (attributes_of catalog.now (Target.Vertex kind))) }
{
    let (id, sources) = match sources {
        [id, sources @ ..] => (*id, sources),
        [] => return Ok(false),
    };
    let shape = vertex_at(catalog, kind);
    match read_name(&mut draft.from, shape.id.kind, id, row) {
        Ok(true) => {}
        Ok(false) => return Ok(false),
        Err(OutOfMemory) => return Err(OutOfMemory),
    }
    read_values(
        alloc,
        0,
        shape.attributes.as_slice(),
        sources,
        row,
        &mut draft.row,
    )
}

fn read_edge<'a>(
    alloc: Global,
    catalog: &Catalog,
    kind: u32,
    sources: &[Option<u64>],
    row: &Record<'a>,
    draft: &mut Draft<'a>,
) -> Result<bool, OutOfMemory>
    requires there { HasTarget catalog.now (Target.Edge kind) }
    requires ends { HasEnds catalog.now kind }
    ensures reads { IfOk result (λ ok. (read : List ℕ → Option ℤ) (route : Route) → TellsTimes read →
        steps_by read catalog.now route (Target.Edge kind) sources.now row.now ≡
        if_read ok (drafted_as catalog.now (Target.Edge kind) route draft.new)) }
    ensures sized { IfOk result (λ ok. ok ≡ true → length draft.new.row ≡ length (attributes_of catalog.now (Target.Edge kind))) }
{
    let (from, to, sources) = match sources {
        [from, to, sources @ ..] => (*from, *to, sources),
        [] | [_] => return Ok(false),
    };
    let edge = edge_at(catalog, kind);
    match read_name(
        &mut draft.from,
        vertex_at(catalog, edge.from).id.kind,
        from,
        row,
    ) {
        Ok(true) => {}
        Ok(false) => return Ok(false),
        Err(OutOfMemory) => return Err(OutOfMemory),
    }
    match read_name(&mut draft.to, vertex_at(catalog, edge.to).id.kind, to, row) {
        Ok(true) => {}
        Ok(false) => return Ok(false),
        Err(OutOfMemory) => return Err(OutOfMemory),
    }
    read_values(
        alloc,
        edge.discriminators,
        edge.attributes.as_slice(),
        sources,
        row,
        &mut draft.row,
    )
}

/// Returns a vertex type by number.
pub(crate) fn vertex_at(catalog: &Catalog, kind: u32) -> &VertexType
    requires { kind < length catalog.now.vertex_types }
    ensures { result.now ≡ vertex_type_at catalog.now kind }
{
    catalog.vertex_at(kind)
}

/// Returns an edge type by number.
pub(crate) fn edge_at(catalog: &Catalog, kind: u32) -> &EdgeType
    requires { kind < length catalog.now.edge_types }
    ensures { result.now ≡ edge_type_at catalog.now kind }
{
    catalog.edge_at(kind)
}

/// Puts the row of a draft into the store. The naming of each type's edges stays the same. `ends` were found before.
pub(crate) fn put_draft(
    alloc: Global,
    catalog: &Catalog,
    route: &Route,
    draft: &mut Draft<'_>,
    ends: FoundEnds,
    store: &mut Store,
) -> Result<(), StoreFault>
    requires there { HasTarget catalog.now route.now.target }
    requires ends { AllHaveEnds catalog.now }
    requires sized { IsSized catalog.now route.now draft.old }
    requires named { AreNamedBy (edge_type_at catalog.now) store.old.edges.namings }
    requires found { IsFound catalog.now store.old.vertices route.now.target draft.old ends }
    ensures puts { Puts store.old (drafted catalog.now route.now draft.old) store.new result }
    ensures named { AreNamedBy (edge_type_at catalog.now) store.new.edges.namings }
{
    match route.target {
        Target::Vertex(kind) => put_vertex(store, kind, draft.from.as_str(), &mut draft.row),
        Target::Edge(kind) => {
            let edge = edge_at(catalog, kind);
            let naming = Naming {
                kind,
                directed: edge.directed,
                key: edge.discriminators,
            };
            if let (Some(from), Some(to)) = (ends.from, ends.to) {
                return put_between(store, naming, from, to, &mut draft.row);
            }
            let from = EndpointRef {
                kind: edge.from,
                id: draft.from.as_str(),
                at: ends.from,
                missing: route.from.as_slice(),
            };
            let to = EndpointRef {
                kind: edge.to,
                id: draft.to.as_str(),
                at: ends.to,
                missing: route.to.as_slice(),
            };
            put_edge(alloc, store, naming, from, to, &mut draft.row)
        }
    }
}

/// Puts an edge between two vertices, by their numbers. Moves the values out of the row.
#[inline(always)]
fn put_between(
    store: &mut Store,
    naming: Naming,
    from: u32,
    to: u32,
    attributes: &mut Row,
) -> Result<(), StoreFault>
    requires within { naming.key ≤ length attributes.old }
    requires agrees { Agrees store.old.edges.namings naming }
    ensures puts { (a b : VertexRow) → vertex_number store.old.vertices a.kind a.id ≡ Some from →
        vertex_number store.old.vertices b.kind b.id ≡ Some to →
        Puts store.old (edge_steps naming a b attributes.old) store.new result }
    ensures named { (type_at : ℕ → EdgeType) → naming ≡ naming_in type_at naming.kind →
        AreNamedBy type_at store.old.edges.namings → AreNamedBy type_at store.new.edges.namings }
{
    let Naming {
        kind,
        directed,
        key,
    } = naming;
    match store
        .edges
        .upsert(kind, directed, from, to, key, attributes)
    {
        Ok(_) => Ok(()),
        Err(fault) => Err(fault),
    }
}
