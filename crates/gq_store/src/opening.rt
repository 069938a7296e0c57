// A store is shared.
ghost use Rattle.std.specs.Prelude.{◌≡◌, ◌<◌, ◌≤◌, ◌↔◌, ◌⊎◌, [], length, drop, replicate, true, Err, IfOk};
ghost use Rattle.std.specs.Arc.{arc_value};
ghost use Rattle.gq_insert.specs.Fits.{IsSound};
ghost use Rattle.gq_load.specs.Keeping.{StoreFits};
ghost use Rattle.gq_store.specs.Lists.{listed_of, most_base_edges, most_base_vertices, none_listed, nothing_known};

use crate::book::{News, Opened, StoreName};
use crate::reader::SharedReader;
use crate::rule::WriteSide;
use crate::store_copy::StoreCopy;
use crate::writer::{Kept, Writer, WriterOver};
use gq_base::OutOfMemory;
use gq_index::Store;
use gq_schema::Catalog;
use left_right::writer::Writer as Sides;
use std::alloc::Global;
use std::sync::{Arc, Wait};
use thiserror::Error;

/// How many vertices and edges a store may hold when it is shared, so that all inserts find room.
const MOST_VERTICES: u32 = 2_097_152;

const MOST_EDGES: u32 = 15_728_640;

/// Why a store isn't shared.
#[derive(Clone, Copy, Debug, PartialEq, Eq, Error)]
pub enum OpenFault {
    /// It holds more vertices or edges than a shared store may begin with.
    #[error("store too big")]
    Big,
    #[error("out of memory")]
    OutOfMemory,
}

fn is_big(base: &Store) -> bool
    ensures { (result ≡ true) ↔ ((most_base_vertices < length base.now.vertices) ⊎ (most_base_edges < length base.now.edges.rows)) }
{
    base.vertices.len() > MOST_VERTICES || base.edges.len() > MOST_EDGES
}

fn duplicate(store: &Store) -> Result<Store, OutOfMemory>
    ensures { IfOk result (λ copy. copy ≡ store.now) }
{
    Ok(Store {
        vertices: store.vertices.duplicate()?,
        edges: store.edges.duplicate()?,
    })
}

/// The writer's part of two copies of the base.
fn copies<N: StoreName>(
    alloc: Global,
    catalog: Arc<Catalog>,
    base: Store,
    none: &News<N>,
    readers: u32,
) -> Result<WriteSide<N>, OutOfMemory>
    requires base { base ≡ N.base }
    requires schema { arc_value catalog ≡ N.schema }
    requires sound { IsSound N.schema }
    requires fits { StoreFits N.schema N.base }
    requires none { none.now ≡ [] }
    requires readers { (0 < readers) × (readers ≤ 64) }
    ensures rows { IfOk result (λ side. side.desk.shown.value.rows ≡ []) }
    ensures pending { IfOk result (λ side. drop side.behind side.log.items ≡ []) }
{
    let same = duplicate(&base)?;
    let first = StoreCopy::new(alloc, Arc::try_clone(&catalog)?, base, none.again())?;
    let second = StoreCopy::new(alloc, catalog, same, none.again())?;
    let side: WriteSide<N> = Sides::new(alloc, first, second, readers as usize)?;
    Ok(side)
}

/// A reader, which has seen nothing.
fn newcomer<N: StoreName>(
    side: &WriteSide<N>,
    none: &News<N>,
    vertices: u32,
) -> Result<SharedReader<N>, OutOfMemory>
    requires none { none.now ≡ [] }
    requires vertices { vertices ≡ length N.base.vertices }
    ensures { IfOk result (λ reader. reader ≡ nothing_known) }
{
    let side = side.factory().reader()?;
    Ok(SharedReader {
        side,
        seen: none.again(),
        told: none.again(),
        vertices,
    })
}

/// So many readers.
fn newcomers<N: StoreName>(
    alloc: Global,
    side: &WriteSide<N>,
    none: &News<N>,
    vertices: u32,
    readers: u32,
) -> Result<Vec<SharedReader<N>>, OutOfMemory>
    requires none { none.now ≡ [] }
    requires vertices { vertices ≡ length N.base.vertices }
    ensures { IfOk result (λ all. all.items ≡ replicate readers nothing_known) }
{
    let mut all = Vec::with_capacity(alloc, readers as usize)?;
    for _ in 0..readers {
        all.push(newcomer(side, none, vertices)?)?;
    }
    Ok(all)
}

/// Shares a store among a writer and `readers` readers, from 1 to 64. The store, its catalog and the history, which is new, are
/// those that the name says. It takes memory for a second copy, and for an index of each.
///
/// Returns `Big` exactly if the store holds more than 2,097,152 vertices or 15,728,640 edges. After a refusal the store is gone.
pub fn open<N: StoreName, R: Wait + Drop>(
    rt: R,
    alloc: Global,
    history: Opened,
    catalog: Arc<Catalog>,
    base: Store,
    readers: u32,
) -> Result<(Writer<N, R>, Vec<SharedReader<N>>), OpenFault>
    requires history { history.seen.book ≡ N.book }
    requires base { base ≡ N.base }
    requires schema { arc_value catalog ≡ N.schema }
    requires sound { IsSound N.schema }
    requires fits { StoreFits N.schema N.base }
    requires readers { (0 < readers) × (readers ≤ 64) }
    ensures writer { IfOk result (λ opened. listed_of opened.0.side.desk.shown.value.rows (drop opened.0.side.behind opened.0.side.log.items) opened.0.kept.held ≡ none_listed) }
    ensures all { IfOk result (λ opened. opened.0.kept.all ≡ []) }
    ensures readers { IfOk result (λ opened. opened.1.items ≡ replicate readers nothing_known) }
    ensures big { (result ≡ Err OpenFault.Big) ↔ ((most_base_vertices < length base.vertices) ⊎ (most_base_edges < length base.edges.rows)) }
{
    if is_big(&base) {
        return Err(OpenFault::Big);
    }
    match shared(rt, alloc, history, catalog, base, readers) {
        Ok(opened) => Ok(opened),
        Err(OutOfMemory) => Err(OpenFault::OutOfMemory),
    }
}

/// Shares a store that isn't too big.
fn shared<N: StoreName, R: Wait + Drop>(
    rt: R,
    alloc: Global,
    history: Opened,
    catalog: Arc<Catalog>,
    base: Store,
    readers: u32,
) -> Result<(Writer<N, R>, Vec<SharedReader<N>>), OutOfMemory>
    requires history { history.seen.book ≡ N.book }
    requires base { base ≡ N.base }
    requires schema { arc_value catalog ≡ N.schema }
    requires sound { IsSound N.schema }
    requires fits { StoreFits N.schema N.base }
    requires readers { (0 < readers) × (readers ≤ 64) }
    ensures writer { IfOk result (λ opened. listed_of opened.0.side.desk.shown.value.rows (drop opened.0.side.behind opened.0.side.log.items) opened.0.kept.held ≡ none_listed) }
    ensures all { IfOk result (λ opened. opened.0.kept.all ≡ []) }
    ensures readers { IfOk result (λ opened. opened.1.items ≡ replicate readers nothing_known) }
{
    let (book, none) = history.named::<N>();
    let vertices = base.vertices.len();
    let side = copies(alloc, catalog, base, &none, readers)?;
    let kept = Kept {
        alloc,
        book,
        all: none.again(),
        held: None,
    };
    let writer = WriterOver { rt, side, kept };
    let all = newcomers(alloc, &writer.side, &none, vertices, readers)?;
    Ok((writer, all))
}
