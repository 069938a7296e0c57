// A copy of the store.
ghost use Rattle.std.specs.Prelude.{◌≡◌, ◌≤◌, [], length, true, map, IfOk, MatchResult, Some, None};
ghost use Rattle.std.specs.Arc.{arc_value};
ghost use Rattle.gq_value.specs.Views.{val};
ghost use Rattle.gq_graph.specs.Catalog.{most_types};
ghost use Rattle.gq_index.specs.Kept.{IsKept};
ghost use Rattle.gq_index.specs.Sights.{sight_of};
ghost use Rattle.gq_index.specs.Walks.{adjacency};
ghost use Rattle.gq_load.specs.Keeping.{StoreFits};
ghost use Rattle.gq_load_check.specs.Fits.{HasGrown};
ghost use Rattle.gq_insert.specs.Fits.{IsSound};
ghost use Rattle.gq_plan_ir.specs.Numbered.{AreNumbered};
ghost use Rattle.gq_store.specs.Answering.{RanOver};
ghost use Rattle.gq_store.specs.Shows.{taken};

use crate::book::{News, StoreName};
use crate::entry::{Change, Entry};
use crate::view::Shown;
use gq_base::{List, OutOfMemory};
use gq_engine::run_plan;
use gq_flow::Workers;
use gq_index::{Index, KeptIndex, Store};
use gq_json::Printed;
use gq_load::insert;
use gq_plan_ir::Plan;
use gq_query_run::QueryFault;
use gq_schema::Catalog;
use gq_value::Row;
use left_right::Absorb;
use std::alloc::{AllocError, Global};
use std::marker::Model;
use std::sync::Arc;
use std::thread::Threads;

/// One of the two copies: the store after a list of inserts, with its index. Contracts see the list, and whether the index is up
/// to date.
#[derive(Drop)]
pub struct StoreCopy<N: StoreName> {
    alloc: Global,
    catalog: Arc<Catalog>,
    store: Store,
    index: KeptIndex,
    sealed: bool,
    rows: News<N>,
}

impl<N: StoreName> Model for StoreCopy<N> {
    ghost use Rattle.std.specs.Coded.{codes};
    ghost use Rattle.std.specs.Arc.{arc_value};
    ghost use Rattle.gq_value.specs.contracts.value.Value as value;
    ghost use Rattle.gq_store.specs.declared.view.Shown.{Shown};
    ghost use Rattle.gq_store.specs.Copies.{IsCopy};

    ghost Value = { Shown };

    ghost coded = { Prim.hlevel (codes, value.the_row.coded) };

    ghost view = { λ c. record { rows = c.rows; sealed = c.sealed } };

    ghost invariant = { λ c. IsCopy N.base N.schema (arc_value c.catalog) c.store c.index c.sealed c.rows };
}

/// Brings an index up to date.
fn catch_up(
    alloc: Global,
    index: &mut KeptIndex,
    catalog: &Arc<Catalog>,
    store: &Store,
) -> Result<(), OutOfMemory>
    requires { IsKept index.old (arc_value catalog.now) store.now }
    ensures index { IfOk result (λ _. index.new.index ≡ adjacency (sight_of (arc_value catalog.now) store.now.vertices store.now.edges)) }
    ensures kept { IsKept index.new (arc_value catalog.now) store.now }
{
    index.catch_up(alloc, catalog, store)
}

/// Whether a catalog has as many edge types as another.
fn has_as_many(catalog: &Catalog, own: &Arc<Catalog>) -> bool
    ensures { result ≡ true → length catalog.now.edge_types ≡ length (arc_value own.now).edge_types }
{
    catalog.edge_types().len() == own.edge_types().len()
}

impl<N: StoreName> StoreCopy<N> {
    /// A copy of the base, which has taken in nothing, with its index.
    pub fn new(
        alloc: Global,
        catalog: Arc<Catalog>,
        store: Store,
        rows: News<N>,
    ) -> Result<StoreCopy<N>, OutOfMemory>
        requires schema { arc_value catalog ≡ N.schema }
        requires sound { IsSound N.schema }
        requires base { store ≡ N.base }
        requires fits { StoreFits N.schema N.base }
        requires none { rows ≡ [] }
        ensures { IfOk result (λ copy. copy ≡ record { rows = []; sealed = true }) }
    {
        let mut index = KeptIndex::new(alloc);
        catch_up(alloc, &mut index, &catalog, &store)?;
        Ok(StoreCopy {
            alloc,
            catalog,
            store,
            index,
            sealed: true,
            rows,
        })
    }

    /// The inserts that it has taken in.
    pub fn news(&self) -> News<N>
        ensures { result ≡ self.now.rows }
    {
        self.rows.again()
    }

    /// Takes in an insert, after all that it has. If there is no memory for it, nothing changes.
    fn put(&mut self, entry: &Entry<N>) -> Result<(), AllocError>
        ensures { MatchResult result (λ _. self.new ≡ taken self.old (Some entry.now)) (λ _. self.new ≡ self.old) }
    {
        if !entry.after.is_next(&self.rows) {
            return Err(AllocError);
        }
        match insert(self.alloc, &entry.row, &mut self.store) {
            Ok(()) => {
                self.rows = entry.after.again();
                self.sealed = false;
                Ok(())
            }
            Err(_) => Err(AllocError),
        }
    }

    /// Brings the index up to date.
    fn seal(&mut self) -> Result<(), AllocError>
        ensures { MatchResult result (λ _. self.new ≡ taken self.old None) (λ _. self.new ≡ self.old) }
    {
        if self.sealed {
            return Ok(());
        }
        match catch_up(self.alloc, &mut self.index, &self.catalog, &self.store) {
            Ok(()) => {
                self.sealed = true;
                Ok(())
            }
            Err(OutOfMemory) => Err(AllocError),
        }
    }

    /// Runs a plan over it. Where the catalog has more edge types than the base had, an index is built for that.
    pub fn run<R: Threads + Sync>(
        &self,
        workers: &Workers<'_, R>,
        alloc: Global,
        catalog: &Catalog,
        plan: &Plan,
        arguments: &Row,
        turns: u64,
    ) -> Result<List<Printed>, QueryFault>
        requires sealed { self.now.sealed ≡ true }
        requires grown { HasGrown N.schema catalog.now }
        requires few { length plan.now.edges ≤ most_types }
        requires numbered { AreNumbered plan.now.definitions }
        ensures { RanOver N.base catalog.now plan.now (map val arguments.now) turns self.now.rows result }
    {
        let store = &self.store;
        if has_as_many(catalog, &self.catalog) {
            let index = self.index.index();
            return run_plan(
                workers, alloc, catalog, store, index, plan, arguments, turns,
            );
        }
        match Index::build(alloc, catalog, store) {
            Ok(index) => run_plan(
                workers, alloc, catalog, store, &index, plan, arguments, turns,
            ),
            Err(OutOfMemory) => Err(QueryFault::OutOfMemory),
        }
    }
}

impl<N: StoreName> Absorb<Change<N>> for StoreCopy<N> {
    ghost use Rattle.gq_store.specs.Shows.{taken};

    type State = Shown;

    ghost state = { λ copy. copy };

    ghost applied = { taken };

    fn absorb_first(
        &mut self,
        operation: &Change<N>,
        _other: &StoreCopy<N>,
    ) -> Result<(), AllocError> {
        match operation {
            Some(entry) => self.put(entry),
            None => self.seal(),
        }
    }
}
