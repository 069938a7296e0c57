// INSERT INTO.
ghost use Rattle.std.specs.Prelude.{◌≡◌};
ghost use Rattle.gq_diagnostics.specs.Answers.{Answers};
ghost use Rattle.gq_insert.specs.Fits.{InsertFits, IsSound};
ghost use Rattle.gq_index.specs.Kept.{StoreGrown};
ghost use Rattle.gq_load.specs.Keeping.{StoreFits};
ghost use Rattle.gq_insert.specs.Inserting.{row_inserted, row_put};

use crate::check::check_insert;
use crate::fault::statement_fault;
use gq_diagnostics::{Refusal, StatementFault};
use gq_graph::StoreFault;
use gq_index::Store;
use gq_load::insert;
use gq_load_check::Insert;
use gq_schema::Catalog;
use gq_tree::InsertTree;
use std::alloc::Global;

/// Executes INSERT INTO. The store gains the row, an edge after those of its ends that don't exist, or is unchanged.
///
/// Refused for the first rule that the row violates, or else if its table is full.
pub fn insert_row(
    alloc: Global,
    catalog: &Catalog,
    store: &mut Store,
    tree: &InsertTree,
) -> Result<(), StatementFault>
    requires sound { IsSound catalog.now }
    requires store { StoreFits catalog.now store.old }
    ensures inserted { Answers (row_inserted catalog.now store.old tree.now) store.old store.new result }
    // The store keeps to its catalog and only grows at its end.
    ensures fits { StoreFits catalog.now store.new }
    ensures grown { StoreGrown store.old store.new }
{
    match check_insert(alloc, catalog, tree) {
        Ok(row) => put_row(alloc, catalog, store, &row),
        Err(fault) => Err(statement_fault(fault)),
    }
}

fn put_row(
    alloc: Global,
    catalog: &Catalog,
    store: &mut Store,
    row: &Insert,
) -> Result<(), StatementFault>
    requires sound { IsSound catalog.now }
    requires row { InsertFits catalog.now row.now }
    requires store { StoreFits catalog.now store.old }
    ensures put { Answers (row_put store.old row.now) store.old store.new result }
    ensures fits { StoreFits catalog.now store.new }
    ensures grown { StoreGrown store.old store.new }
{
    match insert(alloc, row, store) {
        Ok(()) => Ok(()),
        Err(StoreFault::Full) => Err(StatementFault::Refused(Refusal::StoreFull)),
        Err(StoreFault::OutOfMemory) => Err(StatementFault::OutOfMemory),
    }
}
