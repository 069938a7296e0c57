// Prefetches what the puts of a batch of records will look up.
ghost use Rattle.std.specs.Prelude.{◌<◌, ◌≡◌, ◌+◌, ◌*◌, ℕ, length, slice_get, slice_index_or, Some, All, IfOk, IfSome};
ghost use Rattle.gq_load_check.specs.Targets.{edge_type_at};
ghost use Rattle.gq_load.specs.Records.{IsThere};
ghost use Rattle.gq_load.specs.declared.draft.Draft.{Draft};
ghost use Rattle.gq_load.specs.declared.record.ReadRecord.{ReadRecord};
ghost use Rattle.gq_load.specs.Found.{AreFound, EndsAreFound, no_ends, KeepsThose, TellsOf};

use crate::draft::edge_at;
use crate::record::ReadRecord;
use crate::route::Route;
use gq_base::{List, OutOfMemory};
use gq_index::Store;
use gq_load_check::Target;
use gq_schema::Catalog;

/// The number of records that are read before the first of them is put.
pub(crate) const AHEAD: usize = 256;

/// The numbers of the vertices at an edge's ends, if they were found. A vertex keeps its number.
#[derive(Clone, Copy)]
pub(crate) struct FoundEnds {
    pub from: Option<u32>,
    pub to: Option<u32>,
}

/// Nothing was found.
const NO_ENDS: FoundEnds = FoundEnds {
    from: None,
    to: None,
};

/// Reads ahead what the puts of these records will look up, and lists the ends that were found: `AHEAD` of them for
/// each route, in order of record.
///
/// The lookups of one record wait for memory several times in a row. Here the processor waits for those of many records
/// at once: each loop is short, and none of its reads depends on the result of another one. `places` is a buffer with
/// room for each record.
pub(crate) fn look_ahead(
    catalog: &Catalog,
    routes: &[Route],
    batch: &[ReadRecord<'_>],
    store: &Store,
    places: &mut [u32],
    found: &mut List<FoundEnds>,
) -> Result<(), OutOfMemory>
    requires there { All (IsThere catalog.now) routes.now }
    requires room { length batch.now ≡ 256 }
    ensures found { IfOk result (λ _. AreFound catalog.now routes.now batch.now store.now.vertices found.new) }
{
    found.truncate(0);
    for place in 0..routes.len() {
        match routes[place].target {
            Target::Vertex(kind) => {
                list_ids(kind, place, batch, store, places);
                touch_vertices(store, places);
                list_no_ends(batch, found)?;
            }
            Target::Edge(kind) => edges_ahead(catalog, kind, place, batch, store, places, found)?,
        }
    }
    Ok(())
}

/// The same for edges. Their ends are needed to find them; the searches for these overlap without a loop of their own.
/// Edges are listed in a loop of their own: within that of the searches few of their reads would overlap.
fn edges_ahead(
    catalog: &Catalog,
    kind: u32,
    place: usize,
    batch: &[ReadRecord<'_>],
    store: &Store,
    places: &mut [u32],
    found: &mut List<FoundEnds>,
) -> Result<(), OutOfMemory>
    requires { kind < length catalog.now.edge_types }
    ensures long { IfOk result (λ _. length found.new ≡ length found.old + length batch.now) }
    ensures others { IfOk result (λ _. KeepsThose found.old found.new) }
    ensures ends { IfOk result (λ _. (k : ℕ) (r : ReadRecord) (draft : Draft) →
        slice_get batch.now k ≡ Some r → slice_get r.drafts.items place ≡ Some draft →
        EndsAreFound store.now.vertices (edge_type_at catalog.now kind).from (edge_type_at catalog.now kind).to draft
        (slice_index_or found.new (length found.old + k) no_ends)) }
{
    let edge = edge_at(catalog, kind);
    let first = found.len();
    find_ends(edge.from, edge.to, place, batch, store, found)?;
    list_edges(
        kind,
        edge.directed,
        &found.as_slice()[first..],
        store,
        places,
    );
    touch_edges(store, places);
    // Once more, since what was read says what follows in the same bucket.
    touch_edges(store, places);
    Ok(())
}

/// Lists where the lookups of the vertices of a route begin.
fn list_ids(kind: u32, place: usize, batch: &[ReadRecord<'_>], store: &Store, places: &mut [u32]) {
    for (at, record) in places.iter_mut().zip(batch) {
        if let Some(draft) = record.drafts.get(place) {
            *at = store.vertices.first(kind, draft.from.as_str());
        }
    }
}

/// Lists no ends, once for each record.
fn list_no_ends(batch: &[ReadRecord<'_>], found: &mut List<FoundEnds>) -> Result<(), OutOfMemory>
    ensures long { IfOk result (λ _. length found.new ≡ length found.old + length batch.now) }
    ensures others { IfOk result (λ _. KeepsThose found.old found.new) }
{
    for _ in 0..batch.len() {
        found.push(NO_ENDS)?;
    }
    Ok(())
}

/// Finds the ends of the edges of a route.
fn find_ends(
    from: u32,
    to: u32,
    place: usize,
    batch: &[ReadRecord<'_>],
    store: &Store,
    found: &mut List<FoundEnds>,
) -> Result<(), OutOfMemory>
    ensures long { IfOk result (λ _. length found.new ≡ length found.old + length batch.now) }
    ensures others { IfOk result (λ _. KeepsThose found.old found.new) }
    ensures ends { IfOk result (λ _. (k : ℕ) (r : ReadRecord) (draft : Draft) →
        slice_get batch.now k ≡ Some r → slice_get r.drafts.items place ≡ Some draft →
        EndsAreFound store.now.vertices from to draft (slice_index_or found.new (length found.old + k) no_ends)) }
{
    for record in batch {
        found.push(ends_of(from, to, place, record, store))?;
    }
    Ok(())
}

/// Lists where the lookups begin for the edges whose ends exist.
fn list_edges(kind: u32, directed: bool, found: &[FoundEnds], store: &Store, places: &mut [u32]) {
    for (at, ends) in places.iter_mut().zip(found) {
        if let (Some(from), Some(to)) = (ends.from, ends.to) {
            *at = store.edges.first(kind, directed, from, to);
        }
    }
}

/// Returns the ends of the edge that a record has along a route.
fn ends_of(from: u32, to: u32, place: usize, read: &ReadRecord<'_>, store: &Store) -> FoundEnds
    ensures { (draft : Draft) → slice_get read.now.drafts.items place ≡ Some draft →
        EndsAreFound store.now.vertices from to draft result }
{
    match read.drafts.get(place) {
        Some(draft) => FoundEnds {
            from: store.vertices.find(from, draft.from.as_str()),
            to: store.vertices.find(to, draft.to.as_str()),
        },
        None => NO_ENDS,
    }
}

/// Reads these places of the vertex table. The results are stored in the buffer so that the compiler keeps the reads.
fn touch_vertices(store: &Store, places: &mut [u32]) {
    for place in places.iter_mut() {
        *place = store.vertices.touch(*place);
    }
}

/// The same for the edge table.
fn touch_edges(store: &Store, places: &mut [u32]) {
    for place in places.iter_mut() {
        *place = store.edges.touch(*place);
    }
}

/// Returns the ends that were found for the edge of the nth record along a route.
pub(crate) fn ends_at(found: &[FoundEnds], route: usize, nth: usize) -> FoundEnds
    ensures { TellsOf (slice_index_or found.now (route * 256 + nth) no_ends) result }
{
    match place_of(route, nth) {
        Some(place) => match found.get(place) {
            Some(ends) => *ends,
            None => NO_ENDS,
        },
        None => NO_ENDS,
    }
}

/// Returns their index, if it fits.
fn place_of(route: usize, nth: usize) -> Option<usize>
    ensures { IfSome result (λ place. place ≡ route * 256 + nth) }
{
    match route.checked_mul(AHEAD) {
        Some(first) => first.checked_add(nth),
        None => None,
    }
}
