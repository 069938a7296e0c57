// Runs the LOADs of a job, one after another.
ghost use Rattle.std.specs.Prelude.{◌≡◌, ◌≤◌, ◌<◌, ◌++◌, ◌∷◌, [], ◌+◌, ℕ, suc, List, length, All, Err, IfOk, IfErr, IsErrOf};
ghost use Rattle.gq_io.specs.Counts.{Rose};
ghost use Rattle.gq_diagnostics.specs.declared.refusal.Refusal.{Refusal};
ghost use Rattle.gq_diagnostics.specs.Messages.{message_of};
ghost use Rattle.gq_index.specs.declared.store.Store.{Store};
ghost use Rattle.gq_load_run.specs.declared.lines.FileReport.{FileReport};
ghost use Rattle.gq_diagnostics.specs.Effects.{Effect, Becomes, Refused};
ghost use Rattle.gq_io.specs.Known.{known_of};
ghost use Rattle.gq_load_check.specs.Fits.{LineFits};
ghost use Rattle.gq_load.specs.Records.{AllHaveEnds};
ghost use Rattle.gq_index.specs.Kept.{StoreGrown};
ghost use Rattle.gq_load.specs.Keeping.{StoreFits};
ghost use Rattle.gq_load_run.specs.Loadings.{Leaves, loaded_by, place_of};
ghost use Rattle.gq_load_run.specs.Loads.{LoadsMean};
ghost use Rattle.gq_load_run.specs.JobRuns.{LoadsDo, LoadsLeave};
ghost use Rattle.gq_load_run.specs.Remains.{BreaksOff, Ends};

use crate::line::load_numbered;
use crate::lines::{FileReport, report_line};
use crate::place::{LoadPath, place};
use gq_base::OutOfMemory;
use gq_diagnostics::{Refusal, StatementFault};
use gq_index::Store;
use gq_io::{FileFault, Files, ask};
use gq_load_check::{GivenPaths, Job};
use gq_schema::Catalog;
use std::alloc::Global;

/// Runs the LOADs of a job in a run that supplies these paths, and returns the line of their reports. Each reads its
/// file after the LOADs before it.
pub(crate) fn run_loads<F: Files>(
    alloc: Global,
    catalog: &Catalog,
    job: &Job,
    given: &GivenPaths<'_>,
    store: &mut Store,
    files: &mut F,
) -> Result<Vec<u8>, StatementFault>
    requires ends { AllHaveEnds catalog.now }
    requires lines { All (LineFits catalog.now) job.now.lines }
    requires store { StoreFits catalog.now store.old }
    // A job that succeeds got bytes for each file that it asked for, so that no count is needed.
    ensures done { (before now met : ℕ) → IfOk result (λ line.
        LoadsDo (known_of (F.held files.old) before now met) catalog.now job.now given.now store.old (Becomes store.new (line.items ∷ []))) }
    ensures refused { (refusal : Refusal) → result ≡ Err (StatementFault.Refused refusal) → (before : ℕ) → before ≤ F.absences files.old
        → LoadsDo (known_of (F.held files.old) before (F.absences files.new) (F.length_met files.new)) catalog.now job.now given.now store.old (Refused (message_of refusal)) }

    // The LOADs that ended remain, and the next one leaves what it leaves by its fault: nothing is rolled back.
    ensures left { (before : ℕ) → before ≤ F.absences files.old → IfErr result (λ fault.
        LoadsLeave (known_of (F.held files.old) before (F.absences files.new) (F.length_met files.new)) catalog.now job.now given.now store.old fault store.new) }
    ensures fits { StoreFits catalog.now store.new }
    ensures grown { StoreGrown store.old store.new }
    ensures read_fault { IsErrOf result StatementFault.ReadFault → Rose (F.faults files.old) (F.faults files.new) }
    ensures held { F.held files.new ≡ F.held files.old }
    ensures faults_stay { F.faults files.old ≤ F.faults files.new }
    ensures absences_stay { F.absences files.old ≤ F.absences files.new }
{
    let mut reports = Vec::new(alloc);
    for number in 0..job.lines.len() {
        match load_one(alloc, catalog, job, given, number, store, files) {
            Ok(report) => match reports.push(report) {
                Ok(()) => {}
                Err(_) => return Err(StatementFault::OutOfMemory),
            },
            Err(fault) => return Err(fault),
        }
    }
    match report_line(alloc, &reports) {
        Ok(line) => Ok(line),
        Err(OutOfMemory) => Err(StatementFault::OutOfMemory),
    }
}

// Reads the file of the LOAD with this number, and loads it.
#[tactic(auto, using(gq_index::proofs::KeptLemmas::store_same))]
fn load_one<F: Files>(
    alloc: Global,
    catalog: &Catalog,
    job: &Job,
    given: &GivenPaths<'_>,
    number: usize,
    store: &mut Store,
    files: &mut F,
) -> Result<FileReport, StatementFault>
    requires number { number < length job.now.lines }
    requires ends { AllHaveEnds catalog.now }
    requires lines { All (LineFits catalog.now) job.now.lines }
    requires store { StoreFits catalog.now store.old }
    ensures done { (before now met : ℕ) → IfOk result (λ report. (left : ℕ) (reports : List FileReport) (effect : Effect Store)
        → LoadsMean (place_of job.now given.now) (loaded_by catalog.now job.now) (known_of (F.held files.old) before now met) store.new (number + 1) left (reports ++ report ∷ []) effect
        → LoadsMean (place_of job.now given.now) (loaded_by catalog.now job.now) (known_of (F.held files.old) before now met) store.old number (suc left) reports effect) }
    ensures refused { (refusal : Refusal) → result ≡ Err (StatementFault.Refused refusal) → (before : ℕ) → before ≤ F.absences files.old
        → (left : ℕ) (reports : List FileReport)
        → LoadsMean (place_of job.now given.now) (loaded_by catalog.now job.now) (known_of (F.held files.old) before (F.absences files.new) (F.length_met files.new)) store.old number (suc left) reports (Refused (message_of refusal)) }
    ensures ended { (before now met : ℕ) → IfOk result (λ _. Ends (place_of job.now given.now) (loaded_by catalog.now job.now) (known_of (F.held files.old) before now met) store.old number store.new) }
    ensures left { (before : ℕ) → before ≤ F.absences files.old → IfErr result (λ fault.
        BreaksOff (place_of job.now given.now) (loaded_by catalog.now job.now) (Leaves catalog.now job.now) (known_of (F.held files.old) before (F.absences files.new) (F.length_met files.new)) store.old number fault store.new) }
    ensures fits { StoreFits catalog.now store.new }
    ensures grown { StoreGrown store.old store.new }
    ensures read_fault { IsErrOf result StatementFault.ReadFault → Rose (F.faults files.old) (F.faults files.new) }
    ensures held { F.held files.new ≡ F.held files.old }
    ensures faults_stay { F.faults files.old ≤ F.faults files.new }
    ensures absences_stay { F.absences files.old ≤ F.absences files.new }
{
    let path = match place(alloc, job, given, number) {
        Ok(LoadPath::At(path)) => path,
        Ok(LoadPath::Nowhere(name)) => return Err(StatementFault::Refused(Refusal::NoPath(name))),
        Err(OutOfMemory) => return Err(StatementFault::OutOfMemory),
    };
    match ask(alloc, files, path.as_str()) {
        Ok(bytes) => match load_numbered(alloc, catalog, job, number, &bytes, store) {
            Ok(report) => Ok(FileReport {
                file: path,
                lines: report.lines,
                loaded: report.loaded,
                short: report.short,
                unreadable: report.unreadable,
            }),
            Err(fault) => Err(fault),
        },
        Err(FileFault::Missing) => Err(StatementFault::Refused(Refusal::MissingFile(path))),
        Err(FileFault::TooLarge) => Err(StatementFault::Refused(Refusal::TooLarge(path))),
        Err(FileFault::Failed) => Err(StatementFault::ReadFault),
        Err(FileFault::OutOfMemory) => Err(StatementFault::OutOfMemory),
    }
}
