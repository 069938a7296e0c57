// Judgements of records.
ghost use Rattle.std.specs.Prelude.{◌≡◌, ◌≤◌, ◌<◌, ℕ, ℤ, List, Option, length, true, All, IfOk};
ghost use Rattle.gq_load_csv.specs.Fields.{TellsTimes};
ghost use Rattle.gq_load_check.specs.Targets.{edge_type_at};
ghost use Rattle.gq_index.specs.Steps.{Puts};
ghost use Rattle.gq_index.specs.Namings.{AreNamedBy};
ghost use Rattle.std.specs.List.{list_any};
ghost use Rattle.gq_load.specs.declared.route.Route.{Route};
ghost use Rattle.gq_load.specs.Rows as spec;
ghost use Rattle.gq_load.specs.Drafts.{all_drafted, if_read, AreSized};
ghost use Rattle.gq_load.specs.Records.{AllHaveEnds, IsThere, judged, steps_from};
ghost use Rattle.gq_load.specs.Found.{AreFoundFor};
ghost use Rattle.gq_load.specs.Batches.{judged_by, IsWhole};

use crate::ahead::{FoundEnds, ends_at};
use crate::draft::{Draft, put_draft, read_draft};
use crate::route::Route;
use gq_base::OutOfMemory;
use gq_graph::StoreFault;
use gq_index::Store;
use gq_load_csv::Record;
use gq_schema::Catalog;
use std::alloc::Global;

/// The judgement of a record.
#[derive(Clone, Copy, Debug, PartialEq, Eq)]
pub enum Verdict {
    /// It lacks the field of a value.
    Short,
    /// A value can't be read.
    Unreadable,
    Loaded,
}

/// A record as read, before any row of it is put: its verdict, and a draft for each route, whose memory is reused.
#[derive(Drop)]
pub(crate) struct ReadRecord<'a> {
    pub verdict: Verdict,
    pub drafts: Vec<Draft<'a>>,
}

/// Judges a record, and reads its rows if it is loaded. There is a draft for each route.
pub(crate) fn judge<'a>(
    alloc: Global,
    catalog: &Catalog,
    routes: &[Route],
    drafts: &mut [Draft<'a>],
    row: &Record<'a>,
) -> Result<Verdict, OutOfMemory>
    requires there { All (IsThere catalog.now) routes.now }
    requires ends { AllHaveEnds catalog.now }
    requires count { length drafts.old ≡ length routes.now }
    ensures judged { IfOk result (λ verdict. (read : List ℕ → Option ℤ) → TellsTimes read →
        judged_by catalog.now routes.now verdict drafts.new ≡ judged read catalog.now routes.now row.now) }
    ensures whole { IfOk result (λ verdict. IsWhole catalog.now routes.now verdict drafts.new) }
{
    if is_short(routes, row.len()) {
        return Ok(Verdict::Short);
    }
    match read_drafts(alloc, catalog, routes, drafts, row) {
        Ok(true) => Ok(Verdict::Loaded),
        Ok(false) => Ok(Verdict::Unreadable),
        Err(OutOfMemory) => Err(OutOfMemory),
    }
}

/// Puts the rows of a record that was read, along all routes in order. A record that isn't loaded changes nothing.
/// After a refusal the upserts before it remain.
///
/// There is a draft for each route. The naming of each type's edges stays the same. `found` holds the ends that were
/// found for the records of the batch, of which this is the nth.
pub(crate) fn put_record(
    alloc: Global,
    catalog: &Catalog,
    routes: &[Route],
    verdict: Verdict,
    drafts: &mut [Draft<'_>],
    found: &[FoundEnds],
    nth: usize,
    store: &mut Store,
) -> Result<(), StoreFault>
    requires there { All (IsThere catalog.now) routes.now }
    requires ends { AllHaveEnds catalog.now }
    requires count { length drafts.old ≡ length routes.now }
    requires whole { IsWhole catalog.now routes.now verdict drafts.old }
    requires named { AreNamedBy (edge_type_at catalog.now) store.old.edges.namings }
    requires found { AreFoundFor catalog.now routes.now drafts.old nth store.old.vertices found.now }
    ensures puts { Puts store.old (steps_from (judged_by catalog.now routes.now verdict drafts.old)) store.new result }
    ensures named { AreNamedBy (edge_type_at catalog.now) store.new.edges.namings }
{
    match verdict {
        Verdict::Short | Verdict::Unreadable => Ok(()),
        Verdict::Loaded => put_drafts(alloc, catalog, routes, drafts, found, nth, store),
    }
}

fn is_short(routes: &[Route], count: usize) -> bool
    ensures { result ≡ list_any (λ (route : Route). spec.lacks_any count route.fields) routes.now }
{
    routes
        .iter()
        .any(|route| lacks_any(route.fields.as_slice(), count))
}

fn lacks_any(sources: &[Option<u64>], count: usize) -> bool
    ensures { result ≡ spec.lacks_any count sources.now }
{
    sources.iter().any(|source| lacks(*source, count))
}

/// Whether a record with `count` fields lacks this one.
fn lacks(source: Option<u64>, count: usize) -> bool
    ensures { result ≡ spec.lacks count source }
{
    match source {
        Some(number) => count as u64 <= number,
        None => false,
    }
}

/// Reads the rows of all routes. Returns false if a value can't be read.
fn read_drafts<'a>(
    alloc: Global,
    catalog: &Catalog,
    routes: &[Route],
    drafts: &mut [Draft<'a>],
    row: &Record<'a>,
) -> Result<bool, OutOfMemory>
    requires there { All (IsThere catalog.now) routes.now }
    requires ends { AllHaveEnds catalog.now }
    requires count { length drafts.old ≡ length routes.now }
    ensures reads { IfOk result (λ ok. (read : List ℕ → Option ℤ) → TellsTimes read →
        spec.steps_of read catalog.now routes.now row.now ≡
        if_read ok (all_drafted catalog.now routes.now drafts.new)) }
    ensures sized { IfOk result (λ ok. ok ≡ true → AreSized catalog.now routes.now drafts.new) }
{
    for place in 0..routes.len() {
        match read_draft(alloc, catalog, &routes[place], row, &mut drafts[place]) {
            Ok(true) => {}
            Ok(false) => return Ok(false),
            Err(OutOfMemory) => return Err(OutOfMemory),
        }
    }
    Ok(true)
}

/// Puts the rows of all drafts, in order.
fn put_drafts(
    alloc: Global,
    catalog: &Catalog,
    routes: &[Route],
    drafts: &mut [Draft<'_>],
    found: &[FoundEnds],
    nth: usize,
    store: &mut Store,
) -> Result<(), StoreFault>
    requires there { All (IsThere catalog.now) routes.now }
    requires ends { AllHaveEnds catalog.now }
    requires count { length drafts.old ≡ length routes.now }
    requires sized { AreSized catalog.now routes.now drafts.old }
    requires named { AreNamedBy (edge_type_at catalog.now) store.old.edges.namings }
    requires found { AreFoundFor catalog.now routes.now drafts.old nth store.old.vertices found.now }
    ensures puts { Puts store.old (all_drafted catalog.now routes.now drafts.old) store.new result }
    ensures named { AreNamedBy (edge_type_at catalog.now) store.new.edges.namings }
{
    for place in 0..routes.len() {
        let ends = ends_at(found, place, nth);
        match put_draft(
            alloc,
            catalog,
            &routes[place],
            &mut drafts[place],
            ends,
            store,
        ) {
            Ok(()) => {}
            Err(fault) => return Err(fault),
        }
    }
    Ok(())
}
