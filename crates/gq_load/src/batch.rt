// Batches of records: all of them are read first, and then put in order.
ghost use Rattle.std.specs.Prelude.{◌≡◌, ◌++◌, ◌≤◌, List, length, map, take, true, All, IfOk};
ghost use Rattle.gq_load_check.specs.Targets.{edge_type_at};
ghost use Rattle.gq_index.specs.Steps.{Puts};
ghost use Rattle.gq_index.specs.Namings.{AreNamedBy};
ghost use Rattle.gq_load.specs.Records.{AllHaveEnds, IsThere, Judged};
ghost use Rattle.gq_load.specs.Found.{AreFound};
ghost use Rattle.gq_load.specs.Reports.{report_of};
ghost use Rattle.gq_load.specs.Straight.{IsComplete};
ghost use Rattle.gq_load.specs.Batches.{judged_of, left_behind, steps_in, AreWhole, HaveDrafts, IsWhole, ReadsOn, ReadsOne};

use crate::ahead::FoundEnds;
use crate::draft::drafts;
use crate::record::{ReadRecord, Verdict, judge, put_record};
use crate::report::{Report, with_record};
use crate::route::Route;
use crate::straight::read_line;
use gq_base::OutOfMemory;
use gq_graph::StoreFault;
use gq_index::Store;
use gq_load_csv::{Record, Records};
use gq_schema::Catalog;
use std::alloc::Global;

/// Allocates room for `count` records, with a draft for each route.
pub(crate) fn batch<'a>(
    alloc: Global,
    count: usize,
    routes: &[Route],
) -> Result<Vec<ReadRecord<'a>>, OutOfMemory>
    ensures count { IfOk result (λ batch. length batch.items ≡ count) }
    ensures drafts { IfOk result (λ batch. HaveDrafts routes.now batch.items) }
{
    let mut batch = Vec::with_capacity(alloc, count)?;
    for _ in 0..count {
        batch.push(ReadRecord {
            verdict: Verdict::Short,
            drafts: drafts(alloc, routes.len())?,
        })?;
    }
    Ok(batch)
}

/// Reads the next records, as many as there is room for, and returns how many. If that is less than the room, none are
/// left.
///
/// `straight` says whether to try to read rows straight from lines, and `row` is a buffer. Nothing is put.
pub(crate) fn read_batch<'a>(
    alloc: Global,
    catalog: &Catalog,
    routes: &[Route],
    straight: bool,
    records: &mut Records<'a>,
    row: &mut Record<'a>,
    batch: &mut [ReadRecord<'a>],
) -> Result<usize, OutOfMemory>
    requires there { All (IsThere catalog.now) routes.now }
    requires ends { AllHaveEnds catalog.now }
    requires complete { All (IsComplete catalog.now) routes.now }
    requires drafts { HaveDrafts routes.now batch.old }
    ensures within { IfOk result (λ count. count ≤ length batch.new) }
    ensures reads { IfOk result (λ count.
        ReadsOn catalog.now routes.now records.old (left_behind count (length batch.new) records.new) (take count batch.new)) }
    ensures drafts { IfOk result (λ _. HaveDrafts routes.now batch.new) }
    ensures whole { IfOk result (λ count. AreWhole catalog.now routes.now count batch.new) }
    ensures room { length batch.new ≡ length batch.old }
{
    for place in 0..batch.len() {
        match read_record(
            alloc,
            catalog,
            routes,
            straight,
            records,
            row,
            &mut batch[place],
        ) {
            Ok(true) => {}
            Ok(false) => return Ok(place),
            Err(OutOfMemory) => return Err(OutOfMemory),
        }
    }
    Ok(batch.len())
}

/// Reads the next record into `into`, if there is one. There is a draft for each route.
#[inline(always)]
fn read_record<'a>(
    alloc: Global,
    catalog: &Catalog,
    routes: &[Route],
    straight: bool,
    records: &mut Records<'a>,
    row: &mut Record<'a>,
    into: &mut ReadRecord<'a>,
) -> Result<bool, OutOfMemory>
    requires there { All (IsThere catalog.now) routes.now }
    requires ends { AllHaveEnds catalog.now }
    requires complete { All (IsComplete catalog.now) routes.now }
    requires count { length into.old.drafts.items ≡ length routes.now }
    ensures reads { IfOk result (ReadsOne catalog.now routes.now records.old records.new into.new) }
    ensures count { IfOk result (λ _. length into.new.drafts.items ≡ length routes.now) }
    ensures whole { IfOk result (λ found. found ≡ true → IsWhole catalog.now routes.now into.new.verdict into.new.drafts.items) }
{
    if !straight {
        return cut_record(alloc, catalog, routes, records, row, into);
    }
    match read_line(alloc, catalog, routes, records, &mut into.drafts) {
        Ok(true) => {
            into.verdict = Verdict::Loaded;
            Ok(true)
        }
        Ok(false) => cut_record(alloc, catalog, routes, records, row, into),
        Err(OutOfMemory) => Err(OutOfMemory),
    }
}

/// The same: cuts the record into fields, and judges it.
#[inline(never)]
fn cut_record<'a>(
    alloc: Global,
    catalog: &Catalog,
    routes: &[Route],
    records: &mut Records<'a>,
    row: &mut Record<'a>,
    into: &mut ReadRecord<'a>,
) -> Result<bool, OutOfMemory>
    requires there { All (IsThere catalog.now) routes.now }
    requires ends { AllHaveEnds catalog.now }
    requires count { length into.old.drafts.items ≡ length routes.now }
    ensures reads { IfOk result (ReadsOne catalog.now routes.now records.old records.new into.new) }
    ensures count { IfOk result (λ _. length into.new.drafts.items ≡ length routes.now) }
    ensures whole { IfOk result (λ found. found ≡ true → IsWhole catalog.now routes.now into.new.verdict into.new.drafts.items) }
{
    match records.next(row) {
        Ok(true) => {}
        Ok(false) => return Ok(false),
        Err(OutOfMemory) => return Err(OutOfMemory),
    }
    match judge(alloc, catalog, routes, &mut into.drafts, row) {
        Ok(verdict) => into.verdict = verdict,
        Err(OutOfMemory) => return Err(OutOfMemory),
    }
    Ok(true)
}

/// Puts the rows of the first `count` records in order, and counts the records in the report. After a refusal the
/// upserts before it remain.
///
/// `found` holds the ends that `look_ahead` found for these records.
pub(crate) fn put_batch(
    alloc: Global,
    catalog: &Catalog,
    routes: &[Route],
    batch: &mut [ReadRecord<'_>],
    count: usize,
    found: &[FoundEnds],
    store: &mut Store,
    report: Report,
) -> Result<Report, StoreFault>
    requires there { All (IsThere catalog.now) routes.now }
    requires ends { AllHaveEnds catalog.now }
    requires within { count ≤ length batch.old }
    requires drafts { HaveDrafts routes.now batch.old }
    requires whole { AreWhole catalog.now routes.now count batch.old }
    requires named { AreNamedBy (edge_type_at catalog.now) store.old.edges.namings }
    requires found { AreFound catalog.now routes.now batch.old store.old.vertices found.now }
    ensures puts { Puts store.old (steps_in (map (judged_of catalog.now routes.now) (take count batch.old))) store.new result }
    ensures counts { IfOk result (λ more. (judgements : List Judged) → report ≡ report_of judgements →
        more ≡ report_of (judgements ++ map (judged_of catalog.now routes.now) (take count batch.old))) }
    ensures named { AreNamedBy (edge_type_at catalog.now) store.new.edges.namings }
    ensures drafts { IfOk result (λ _. HaveDrafts routes.now batch.new) }
    ensures room { length batch.new ≡ length batch.old }
{
    let mut report = report;
    for place in 0..count {
        let record = &mut batch[place];
        let verdict = record.verdict;
        match put_record(
            alloc,
            catalog,
            routes,
            verdict,
            &mut record.drafts,
            found,
            place,
            store,
        ) {
            Ok(()) => {}
            Err(fault) => return Err(fault),
        }
        report = match with_record(report, verdict) {
            Ok(report) => report,
            Err(OutOfMemory) => return Err(StoreFault::OutOfMemory),
        };
    }
    Ok(report)
}
