// Scripts and their arguments, by file name.
ghost use Rattle.std.specs.Prelude.{◌≡◌, ◌≤◌, ◌++◌, ℕ, Some, None, codes, IfOk, IfErr, OnOk};
ghost use Rattle.gq_io.specs.Counts.{Rose};
ghost use Rattle.gq_io.specs.Listing.{Listing};
ghost use Rattle.gq_diagnostics.specs.Outcome.{Outcome, Ends, IsFinal, KeepsTo, OnlyRuns};
ghost use Rattle.gq_io.specs.Known.{Bytes, MayAnswer, Told, known_of};
ghost use Rattle.gq_driver.specs.CommandLine.{Asks, BytesMean, Never, Whatever};

use crate::script::run_script;
use gq_diagnostics::{Status, refuse_file};
use gq_io::{FileFault, Files, Sink, ask};
use gq_query_run::{Runner, RunsQueries};
use gq_value::Txt;
use std::alloc::Global;
use std::thread::Threads;

/// Runs the script in this file, with the arguments for its queries in that one, if any.
pub fn run_file<R: Threads + Sync, M: RunsQueries, F: Files, K: Sink>(
    rt: &R,
    alloc: Global,
    path: &str,
    arguments: &Option<Txt>,
    runner: &Runner<'_, M>,
    files: &mut F,
    out: &mut K,
) -> Status
    ensures keeps { (pairs : Listing) → F.held files.old ≡ Some pairs → (outcome : Outcome) → Asks (Told pairs) path.now (BytesMean (Told pairs) runner.now.turns arguments.now) outcome
        → KeepsTo outcome result (K.written out.old) (K.written out.new) (Rose (F.faults files.old) (F.faults files.new)) (Rose (K.faults out.old) (K.faults out.new)) }
    ensures is_meant { IsFinal result → (before : ℕ) → before ≤ F.absences files.old → (outcome : Outcome)
        × Asks (known_of (F.held files.old) before (F.absences files.new) (F.length_met files.new)) path.now
        (BytesMean (known_of (F.held files.old) before (F.absences files.new) (F.length_met files.new)) runner.now.turns arguments.now) outcome
        × Ends outcome result (K.written out.old) (K.written out.new) }
    ensures only_runs { OnlyRuns result (Rose (F.faults files.old) (F.faults files.new)) (Rose (K.faults out.old) (K.faults out.new)) }
{
    match file_of(alloc, path, files, out) {
        Ok(bytes) => run_bytes(rt, alloc, &bytes, arguments, runner, files, out),
        Err(status) => status,
    }
}

fn run_bytes<R: Threads + Sync, M: RunsQueries, F: Files, K: Sink>(
    rt: &R,
    alloc: Global,
    bytes: &[u8],
    arguments: &Option<Txt>,
    runner: &Runner<'_, M>,
    files: &mut F,
    out: &mut K,
) -> Status
    ensures keeps { (pairs : Listing) → F.held files.old ≡ Some pairs → (outcome : Outcome) → BytesMean (Told pairs) runner.now.turns arguments.now bytes.now outcome
        → KeepsTo outcome result (K.written out.old) (K.written out.new) (Rose (F.faults files.old) (F.faults files.new)) (Rose (K.faults out.old) (K.faults out.new)) }
    ensures is_meant { IsFinal result → (before : ℕ) → before ≤ F.absences files.old → (outcome : Outcome)
        × BytesMean (known_of (F.held files.old) before (F.absences files.new) (F.length_met files.new)) runner.now.turns arguments.now bytes.now outcome
        × Ends outcome result (K.written out.old) (K.written out.new) }
    ensures only_runs { OnlyRuns result (Rose (F.faults files.old) (F.faults files.new)) (Rose (K.faults out.old) (K.faults out.new)) }
{
    match arguments {
        None => run_script(rt, alloc, bytes, None, runner, files, out),
        Some(name) => run_with_arguments(rt, alloc, bytes, name.as_str(), runner, files, out),
    }
}

fn run_with_arguments<R: Threads + Sync, M: RunsQueries, F: Files, K: Sink>(
    rt: &R,
    alloc: Global,
    bytes: &[u8],
    arguments: &str,
    runner: &Runner<'_, M>,
    files: &mut F,
    out: &mut K,
) -> Status
    ensures keeps { (pairs : Listing) → F.held files.old ≡ Some pairs → (outcome : Outcome) → BytesMean (Told pairs) runner.now.turns (Some arguments.now) bytes.now outcome
        → KeepsTo outcome result (K.written out.old) (K.written out.new) (Rose (F.faults files.old) (F.faults files.new)) (Rose (K.faults out.old) (K.faults out.new)) }
    ensures is_meant { IsFinal result → (before : ℕ) → before ≤ F.absences files.old → (outcome : Outcome)
        × BytesMean (known_of (F.held files.old) before (F.absences files.new) (F.length_met files.new)) runner.now.turns (Some arguments.now) bytes.now outcome
        × Ends outcome result (K.written out.old) (K.written out.new) }
    ensures only_runs { OnlyRuns result (Rose (F.faults files.old) (F.faults files.new)) (Rose (K.faults out.old) (K.faults out.new)) }
{
    match file_of(alloc, arguments, files, out) {
        Ok(file) => run_script(rt, alloc, bytes, Some(&file), runner, files, out),
        Err(status) => status,
    }
}

// Returns all bytes of a file, or how the run ends without them: a file that doesn't exist or is too large refuses the
// run.
fn file_of<F: Files, K: Sink>(
    alloc: Global,
    name: &str,
    files: &mut F,
    out: &mut K,
) -> Result<Vec<u8>, Status>
    ensures bytes { (before now met : ℕ) → IfOk result (λ bytes. MayAnswer (known_of (F.held files.old) before now met) name.now (Bytes bytes.items)) }
    ensures unwritten { OnOk result (out.new ≡ out.old) }
    ensures keeps { IfErr result (λ status. (pairs : Listing) → F.held files.old ≡ Some pairs → (outcome : Outcome) → Asks (Told pairs) name.now Whatever outcome
        → KeepsTo outcome status (K.written out.old) (K.written out.new) (Rose (F.faults files.old) (F.faults files.new)) (Rose (K.faults out.old) (K.faults out.new))) }
    ensures is_meant { IfErr result (λ status. IsFinal status → (before : ℕ) → before ≤ F.absences files.old → (outcome : Outcome)
        × Asks (known_of (F.held files.old) before (F.absences files.new) (F.length_met files.new)) name.now Never outcome
        × Ends outcome status (K.written out.old) (K.written out.new)) }
    ensures only_runs { IfErr result (λ status. OnlyRuns status (Rose (F.faults files.old) (F.faults files.new)) (Rose (K.faults out.old) (K.faults out.new))) }
    ensures held { F.held files.new ≡ F.held files.old }
    ensures faults_stay { F.faults files.old ≤ F.faults files.new }
    ensures absences_stay { F.absences files.old ≤ F.absences files.new }
{
    match ask(alloc, files, name) {
        Ok(bytes) => Ok(bytes),
        Err(FileFault::Missing) => Err(refuse_file(alloc, "missing file ", name, out)),
        Err(FileFault::TooLarge) => Err(refuse_file(alloc, "file too large ", name, out)),
        Err(FileFault::Failed) => Err(Status::ReadFault),
        Err(FileFault::OutOfMemory) => Err(Status::OutOfMemory),
    }
}
