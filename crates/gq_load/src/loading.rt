// Files loaded into a store.
ghost use Rattle.std.specs.Prelude.{◌≡◌, ℕ, ℤ, List, Option, All};
ghost use Rattle.std.specs.Option.{option_copied};
ghost use Rattle.gq_load_csv.specs.Fields.{TellsTimes};
ghost use Rattle.gq_load_check.specs.Fits.{LineFits};
ghost use Rattle.gq_load_check.specs.Targets.{edge_type_at};
ghost use Rattle.gq_index.specs.Namings.{AreNamedBy};
ghost use Rattle.gq_load.specs.Records.{AllHaveEnds, IsThere};
ghost use Rattle.gq_load.specs.Straight.{IsComplete};
ghost use Rattle.gq_load.specs.Loads.{Loads, LoadsBy, LoadsAlong, records_in};

use crate::ahead::{AHEAD, look_ahead};
use crate::batch::{batch, put_batch, read_batch};
use crate::fault::LoadFault;
use crate::report::Report;
use crate::route::{Route, routes};
use crate::straight::are_rising;
use gq_base::{List, OutOfMemory};
use gq_graph::StoreFault;
use gq_index::Store;
use gq_load_check::LoadLine;
use gq_load_csv::{Record, Records};
use gq_schema::Catalog;
use std::alloc::Global;

/// Loads a file with these bytes into the store, as the line says, and returns a report on its records.
///
/// The catalog is the one that the line was checked for, or an extension of it, and the store's edges are named as
/// their types say. `NoColumn` leaves the store unchanged. After `Full` and `OutOfMemory` the upserts before remain.
pub fn load(
    alloc: Global,
    catalog: &Catalog,
    line: &LoadLine,
    bytes: &[u8],
    store: &mut Store,
) -> Result<Report, LoadFault>
    requires fits { LineFits catalog.now line.now }
    requires ends { AllHaveEnds catalog.now }
    requires named { AreNamedBy (edge_type_at catalog.now) store.old.edges.namings }
    ensures loads { (read : List ℕ → Option ℤ) → TellsTimes read →
        Loads read catalog.now line.now (records_in line.now bytes.now) store.old store.new result }
    ensures named { AreNamedBy (edge_type_at catalog.now) store.new.edges.namings }
{
    let mut records = Records::open(alloc, line.separator, line.quote, bytes);
    if !line.header {
        return load_by(alloc, catalog, line, None, &mut records, store);
    }
    let mut header = Record::new(alloc);
    match records.next(&mut header) {
        Ok(true) => load_by(alloc, catalog, line, Some(&header), &mut records, store),
        Ok(false) => {
            let mut none = Records::open(alloc, line.separator, line.quote, &[]);
            load_by(alloc, catalog, line, None, &mut none, store)
        }
        Err(OutOfMemory) => Err(LoadFault::OutOfMemory),
    }
}

/// Loads the records after the header.
fn load_by(
    alloc: Global,
    catalog: &Catalog,
    line: &LoadLine,
    header: Option<&Record<'_>>,
    records: &mut Records<'_>,
    store: &mut Store,
) -> Result<Report, LoadFault>
    requires fits { LineFits catalog.now line.now }
    requires ends { AllHaveEnds catalog.now }
    requires named { AreNamedBy (edge_type_at catalog.now) store.old.edges.namings }
    ensures loads { (read : List ℕ → Option ℤ) → TellsTimes read →
        LoadsBy read catalog.now line.now (option_copied header.entry) records.old store.old store.new result }
    ensures named { AreNamedBy (edge_type_at catalog.now) store.new.edges.namings }
{
    let routes = match routes(alloc, catalog, header, line.destinations.as_slice()) {
        Ok(routes) => routes,
        Err(fault) => return Err(fault),
    };
    match load_records(alloc, catalog, &routes, records, store) {
        Ok(report) => Ok(report),
        Err(StoreFault::Full) => Err(LoadFault::Full),
        Err(StoreFault::OutOfMemory) => Err(LoadFault::OutOfMemory),
    }
}

/// Loads records along routes.
fn load_records(
    alloc: Global,
    catalog: &Catalog,
    routes: &[Route],
    records: &mut Records<'_>,
    store: &mut Store,
) -> Result<Report, StoreFault>
    requires there { All (IsThere catalog.now) routes.now }
    requires complete { All (IsComplete catalog.now) routes.now }
    requires ends { AllHaveEnds catalog.now }
    requires named { AreNamedBy (edge_type_at catalog.now) store.old.edges.namings }
    ensures loads { (read : List ℕ → Option ℤ) → TellsTimes read →
        LoadsAlong read catalog.now routes.now records.old store.old store.new result }
    ensures named { AreNamedBy (edge_type_at catalog.now) store.new.edges.namings }
{
    let mut batch = match batch(alloc, AHEAD, routes) {
        Ok(batch) => batch,
        Err(OutOfMemory) => return Err(StoreFault::OutOfMemory),
    };
    let straight = are_rising(routes);
    let mut row = Record::new(alloc);
    let mut places = [0; AHEAD];
    let mut found = List::new(alloc);
    let mut report = Report::none();
    'reading: loop {
        let count = match read_batch(
            alloc, catalog, routes, straight, records, &mut row, &mut batch,
        ) {
            Ok(count) => count,
            Err(OutOfMemory) => return Err(StoreFault::OutOfMemory),
        };
        match look_ahead(catalog, routes, &batch, store, &mut places, &mut found) {
            Ok(()) => {}
            Err(OutOfMemory) => return Err(StoreFault::OutOfMemory),
        }
        let ends = found.as_slice();
        report = match put_batch(
            alloc, catalog, routes, &mut batch, count, ends, store, report,
        ) {
            Ok(report) => report,
            Err(fault) => return Err(fault),
        };
        if count < AHEAD {
            return Ok(report);
        }
    }
}
