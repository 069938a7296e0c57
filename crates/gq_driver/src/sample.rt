// Samples, which need no file.
ghost use Rattle.std.specs.Prelude.{◌≡◌, ◌≤◌, IfOk};
ghost use Rattle.gq_io.specs.Counts.{Rose};
ghost use Rattle.gq_diagnostics.specs.Outcome.{Outcome, Ends, IsFinal, KeepsTo, OnlyWrites};
ghost use Rattle.gq_driver.specs.CommandLine.{SampleMeans, sample_files};

use crate::script::run_script;
use gq_base::OutOfMemory;
use gq_command::{knows_csv, people_csv, sample_script};
use gq_diagnostics::Status;
use gq_io::{Sink, SureFiles};
use gq_query_run::{Runner, RunsQueries};
use std::alloc::Global;
use std::thread::Threads;

/// Runs the sample with this number of people, whose script and files are functions of the number.
pub fn run_sample<R: Threads + Sync, M: RunsQueries, K: Sink>(
    rt: &R,
    alloc: Global,
    people: u32,
    runner: &Runner<'_, M>,
    out: &mut K,
) -> Status
    requires { (1 ≤ people) × (people ≤ 1000000) }
    ensures keeps { (outcome : Outcome) → SampleMeans runner.now.turns people outcome → KeepsTo outcome result (K.written out.old) (K.written out.new) ⊥ (Rose (K.faults out.old) (K.faults out.new)) }
    ensures is_meant { IsFinal result → (outcome : Outcome) × SampleMeans runner.now.turns people outcome × Ends outcome result (K.written out.old) (K.written out.new) }
    ensures only_writes { OnlyWrites result (Rose (K.faults out.old) (K.faults out.new)) }
{
    let script = match sample_script(alloc, people) {
        Ok(script) => script,
        Err(OutOfMemory) => return Status::OutOfMemory,
    };
    match files_of(alloc, people) {
        Ok(mut files) => run_script(rt, alloc, &script, None, runner, &mut files, out),
        Err(OutOfMemory) => Status::OutOfMemory,
    }
}

fn files_of(alloc: Global, people: u32) -> Result<SureFiles, OutOfMemory>
    requires { (1 ≤ people) × (people ≤ 1000000) }
    ensures { IfOk result (λ files. files ≡ sample_files people) }
{
    let mut files = SureFiles::new(alloc);
    files.add("people.csv", &people_csv(alloc, people)?)?;
    files.add("knows.csv", &knows_csv(alloc, people)?)?;
    Ok(files)
}
