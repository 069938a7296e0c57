// RUN LOADING JOB.
ghost use Rattle.std.specs.Prelude.{◌≡◌, ◌≤◌, ◌∷◌, [], ℕ, All, Some, Err, IfOk, IfErr, IsErrOf};
ghost use Rattle.gq_io.specs.Counts.{Rose};
ghost use Rattle.gq_diagnostics.specs.declared.refusal.Refusal.{Refusal};
ghost use Rattle.gq_diagnostics.specs.Messages.{message_of};
ghost use Rattle.gq_load_check.specs.Fits.{LineFits};
ghost use Rattle.gq_load.specs.Records.{AllHaveEnds};
ghost use Rattle.gq_diagnostics.specs.Effects.{Becomes, Refused};
ghost use Rattle.gq_io.specs.Known.{known_of};
ghost use Rattle.gq_index.specs.Kept.{StoreGrown};
ghost use Rattle.gq_load.specs.Keeping.{StoreFits};
ghost use Rattle.gq_ddl.specs.Fitting.{JobsFit};
ghost use Rattle.gq_ddl.specs.Tells.{Tells};
ghost use Rattle.gq_load_run.specs.JobRuns.{FoundDoes, FoundLeaves, JobDoes, JobLeaves};

use crate::job::run_loads;
use gq_base::OutOfMemory;
use gq_ddl::Jobs;
use gq_diagnostics::{Refusal, StatementFault};
use gq_index::Store;
use gq_io::Files;
use gq_load_check::{GivenPaths, Job, undefined};
use gq_schema::Catalog;
use gq_tree::RunJobTree;
use gq_value::Txt;
use std::alloc::Global;

/// Executes RUN LOADING JOB, and returns the line of its reports. The store gains the upserts of its LOADs, one after
/// another.
///
/// Refused if no job has the name, else if the run supplies a path for a name although the job has no such file, else
/// by the first LOAD that is refused. After a refusal the store has the upserts of the LOADs that ended, and of the
/// refused one those before the upsert that found no room; a missing column loads nothing. After `OutOfMemory` a prefix
/// of a LOAD's upserts was put.
#[tactic(auto, using(gq_index::proofs::KeptLemmas::store_same))]
pub fn run_job<F: Files>(
    alloc: Global,
    catalog: &Catalog,
    jobs: &Jobs,
    store: &mut Store,
    files: &mut F,
    tree: &RunJobTree,
) -> Result<Vec<u8>, StatementFault>
    requires ends { AllHaveEnds catalog.now }
    requires jobs { JobsFit catalog.now jobs.now }
    requires store { StoreFits catalog.now store.old }
    // A job that succeeds got bytes for each file that it asked for, so that no count is needed.
    ensures done { (before now met : ℕ) → IfOk result (λ line.
        JobDoes (known_of (F.held files.old) before now met) catalog.now jobs.now store.old tree.now (Becomes store.new (line.items ∷ []))) }
    ensures refused { (refusal : Refusal) → result ≡ Err (StatementFault.Refused refusal) → (before : ℕ) → before ≤ F.absences files.old
        → JobDoes (known_of (F.held files.old) before (F.absences files.new) (F.length_met files.new)) catalog.now jobs.now store.old tree.now (Refused (message_of refusal)) }
    ensures left { (before : ℕ) → before ≤ F.absences files.old → IfErr result (λ fault.
        JobLeaves (known_of (F.held files.old) before (F.absences files.new) (F.length_met files.new)) catalog.now jobs.now store.old tree.now fault store.new) }
    ensures fits { StoreFits catalog.now store.new }
    ensures grown { StoreGrown store.old store.new }
    ensures read_fault { IsErrOf result StatementFault.ReadFault → Rose (F.faults files.old) (F.faults files.new) }
    ensures held { F.held files.new ≡ F.held files.old }
    ensures faults_stay { F.faults files.old ≤ F.faults files.new }
    ensures absences_stay { F.absences files.old ≤ F.absences files.new }
{
    match jobs.find(tree.name.as_str()) {
        Some(job) => run_found(alloc, catalog, job, store, files, tree),
        None => Err(unknown_name(alloc, tree.name.as_str())),
    }
}

#[tactic(auto, using(gq_index::proofs::KeptLemmas::store_same))]
fn run_found<F: Files>(
    alloc: Global,
    catalog: &Catalog,
    job: &Job,
    store: &mut Store,
    files: &mut F,
    tree: &RunJobTree,
) -> Result<Vec<u8>, StatementFault>
    requires ends { AllHaveEnds catalog.now }
    requires lines { All (LineFits catalog.now) job.now.lines }
    requires store { StoreFits catalog.now store.old }
    ensures done { (before now met : ℕ) → IfOk result (λ line.
        FoundDoes (known_of (F.held files.old) before now met) catalog.now store.old tree.now (Some job.now) (Becomes store.new (line.items ∷ []))) }
    ensures refused { (refusal : Refusal) → result ≡ Err (StatementFault.Refused refusal) → (before : ℕ) → before ≤ F.absences files.old
        → FoundDoes (known_of (F.held files.old) before (F.absences files.new) (F.length_met files.new)) catalog.now store.old tree.now (Some job.now) (Refused (message_of refusal)) }
    ensures left { (before : ℕ) → before ≤ F.absences files.old → IfErr result (λ fault.
        FoundLeaves (known_of (F.held files.old) before (F.absences files.new) (F.length_met files.new)) catalog.now store.old tree.now (Some job.now) fault store.new) }
    ensures fits { StoreFits catalog.now store.new }
    ensures grown { StoreGrown store.old store.new }
    ensures read_fault { IsErrOf result StatementFault.ReadFault → Rose (F.faults files.old) (F.faults files.new) }
    ensures held { F.held files.new ≡ F.held files.old }
    ensures faults_stay { F.faults files.old ≤ F.faults files.new }
    ensures absences_stay { F.absences files.old ≤ F.absences files.new }
{
    match undefined(&job.files, tree.paths.as_slice()) {
        Some(name) => return Err(unknown_name(alloc, name)),
        None => {}
    }
    let given = match GivenPaths::of(alloc, tree.paths.as_slice()) {
        Ok(given) => given,
        Err(OutOfMemory) => return Err(StatementFault::OutOfMemory),
    };
    run_loads(alloc, catalog, job, &given, store, files)
}

// Returns `UnknownName`, or `OutOfMemory` if the name can't be copied.
fn unknown_name(alloc: Global, name: &str) -> StatementFault
    ensures { Tells (Refusal.UnknownName name.now) result }
{
    match Txt::of(alloc, name) {
        Ok(name) => StatementFault::Refused(Refusal::UnknownName(name)),
        Err(OutOfMemory) => StatementFault::OutOfMemory,
    }
}
