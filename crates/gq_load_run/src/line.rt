// One LOAD.
ghost use Rattle.std.specs.Prelude.{◌≡◌, ◌<◌, length, All, Err, IfOk, IfErr};
ghost use Rattle.gq_diagnostics.specs.declared.refusal.Refusal.{Refusal};
ghost use Rattle.gq_load_check.specs.Fits.{LineFits};
ghost use Rattle.gq_load.specs.Records.{AllHaveEnds};
ghost use Rattle.gq_load.specs.Loads.{records_in};
ghost use Rattle.gq_load_run.specs.Loads.{Fails, Loads};
ghost use Rattle.gq_index.specs.Kept.{StoreGrown};
ghost use Rattle.gq_load.specs.Keeping.{StoreFits};
ghost use Rattle.gq_load_run.specs.Loadings.{Leaves, LineLeaves, line_loaded, loaded_by};

use gq_diagnostics::{Refusal, StatementFault};
use gq_index::Store;
use gq_load::{LoadFault, Report, load};
use gq_load_check::{Job, LoadLine};
use gq_schema::Catalog;
use std::alloc::Global;

/// Runs the LOAD with this number on the bytes of its file. LOADs are counted from 0.
#[tactic(auto, unfolding(crate::specs::Loadings::loaded_by))]
pub(crate) fn load_numbered(
    alloc: Global,
    catalog: &Catalog,
    job: &Job,
    number: usize,
    bytes: &[u8],
    store: &mut Store,
) -> Result<Report, StatementFault>
    requires number { number < length job.now.lines }
    requires ends { AllHaveEnds catalog.now }
    requires lines { All (LineFits catalog.now) job.now.lines }
    requires store { StoreFits catalog.now store.old }
    ensures done { IfOk result (λ report. loaded_by catalog.now job.now store.old number bytes.now ≡ Loads store.new report) }
    ensures refused { (refusal : Refusal) → result ≡ Err (StatementFault.Refused refusal) → loaded_by catalog.now job.now store.old number bytes.now ≡ Fails refusal }
    ensures read_fault { result ≡ Err StatementFault.ReadFault → ⊥ }
    ensures left { IfErr result (λ fault. Leaves catalog.now job.now store.old number bytes.now fault store.new) }
    ensures fits { StoreFits catalog.now store.new }
    ensures grown { StoreGrown store.old store.new }
{
    load_line(alloc, catalog, job.lines.at(number), bytes, store)
}

// Loads the bytes of a file as the line says.
fn load_line(
    alloc: Global,
    catalog: &Catalog,
    line: &LoadLine,
    bytes: &[u8],
    store: &mut Store,
) -> Result<Report, StatementFault>
    requires line { LineFits catalog.now line.now }
    requires ends { AllHaveEnds catalog.now }
    requires store { StoreFits catalog.now store.old }
    ensures done { IfOk result (λ report. line_loaded catalog.now line.now (records_in line.now bytes.now) store.old ≡ Loads store.new report) }
    ensures refused { (refusal : Refusal) → result ≡ Err (StatementFault.Refused refusal)
        → line_loaded catalog.now line.now (records_in line.now bytes.now) store.old ≡ Fails refusal }
    ensures read_fault { result ≡ Err StatementFault.ReadFault → ⊥ }
    ensures left { IfErr result (λ fault. LineLeaves catalog.now line.now (records_in line.now bytes.now) store.old fault store.new) }
    ensures fits { StoreFits catalog.now store.new }
    ensures grown { StoreGrown store.old store.new }
{
    match load(alloc, catalog, line, bytes, store) {
        Ok(report) => Ok(report),
        Err(LoadFault::NoColumn(name)) => Err(StatementFault::Refused(Refusal::NoColumn(name))),
        Err(LoadFault::Full) => Err(StatementFault::Refused(Refusal::StoreFull)),
        Err(LoadFault::OutOfMemory) => Err(StatementFault::OutOfMemory),
    }
}
