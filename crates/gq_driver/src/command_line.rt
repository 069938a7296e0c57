// The top-level call.
ghost use Rattle.std.specs.Prelude.{◌≡◌, ◌≢◌, ◌⊎◌, ◌≤◌, ℕ, Some, None, false, map, string_bytes};
ghost use Rattle.gq_io.specs.Counts.{Rose};
ghost use Rattle.gq_io.specs.Listing.{Listing};
ghost use Rattle.gq_command.specs.Ranges.{InRange, TaskInRange};
ghost use Rattle.gq_command.specs.Words.{command_of};
ghost use Rattle.gq_diagnostics.specs.Outcome.{Outcome, Ends, IsFinal, KeepsTo, OnlyRuns};
ghost use Rattle.gq_io.specs.Known.{Told, known_of};
ghost use Rattle.gq_driver.specs.CommandLine.{CommandMeans, Means, TaskMeans, asks_for_files, command_asks_for_files};

use crate::file::run_file;
use crate::sample::run_sample;
use gq_command::{Command, Task, WordsFault, read_words};
use gq_diagnostics::Status;
use gq_io::{Files, Sink};
use gq_query_run::{Runner, RunsQueries};
use std::alloc::Global;
use std::thread::Threads;

/// Runs the command of the arguments after the program's name, over these files, and writes its lines to the sink. Its
/// queries run on this machine, on threads of this runtime.
///
/// The command line is read first, then the script's file, then that of the queries' arguments, if one is named. The
/// whole script is parsed before its first statement runs, and each line is written when its statement has ended. A
/// sample has its own script and files.
pub fn run<R: Threads + Sync, M: RunsQueries, F: Files, K: Sink>(
    rt: &R,
    machine: &M,
    alloc: Global,
    words: &[String],
    files: &mut F,
    out: &mut K,
) -> Status
    // If the listing of the files is given: the lines and the status are those that the command line means, or a
    // counted fault or `OutOfMemory` ended the run sooner: after a failed read with whole lines, else with a prefix of
    // the bytes.
    ensures told { (pairs : Listing) → F.held files.old ≡ Some pairs → (outcome : Outcome) → Means (Told pairs) (map string_bytes words.now) outcome
        → KeepsTo outcome result (K.written out.old) (K.written out.new) (Rose (F.faults files.old) (F.faults files.new)) (Rose (K.faults out.old) (K.faults out.new)) }

    // Over any files: a run that isn't cut short is one that the command line may have. If the listing isn't given, a
    // file that is missing or too large is accounted for in the counts.
    ensures is_meant { IsFinal result → (outcome : Outcome)
        × Means (known_of (F.held files.old) (F.absences files.old) (F.absences files.new) (F.length_met files.new)) (map string_bytes words.now) outcome
        × Ends outcome result (K.written out.old) (K.written out.new) }

    // Only an invalid command line ends with `Usage`, and then files and sink are not used.
    ensures usage { result ≡ Status.Usage → command_of (map string_bytes words.now) ≡ None }
    ensures no_use { command_of (map string_bytes words.now) ≡ None → (result ≡ Status.Usage) ⊎ (result ≡ Status.OutOfMemory) }
    ensures silent { command_of (map string_bytes words.now) ≡ None → out.new ≡ out.old }

    // A sample requests no file, so that none can fail.
    ensures untouched { command_asks_for_files (command_of (map string_bytes words.now)) ≡ false → files.new ≡ files.old }
    ensures sure { command_asks_for_files (command_of (map string_bytes words.now)) ≡ false → result ≢ Status.ReadFault }

    ensures read_fault { result ≡ Status.ReadFault → Rose (F.faults files.old) (F.faults files.new) }
    ensures write_fault { result ≡ Status.WriteFault → Rose (K.faults out.old) (K.faults out.new) }

    // If no device failed, the run comes to its end or memory runs out.
    ensures steady { (Rose (F.faults files.old) (F.faults files.new) → ⊥) → (Rose (K.faults out.old) (K.faults out.new) → ⊥) → IsFinal result ⊎ (result ≡ Status.OutOfMemory) }
{
    match read_words(alloc, words) {
        Ok(command) => run_command(rt, machine, alloc, &command, files, out),
        Err(WordsFault::Usage) => Status::Usage,
        Err(WordsFault::OutOfMemory) => Status::OutOfMemory,
    }
}

fn run_command<R: Threads + Sync, M: RunsQueries, F: Files, K: Sink>(
    rt: &R,
    machine: &M,
    alloc: Global,
    command: &Command,
    files: &mut F,
    out: &mut K,
) -> Status
    requires { InRange command.now }
    ensures keeps { (pairs : Listing) → F.held files.old ≡ Some pairs → (outcome : Outcome) → CommandMeans (Told pairs) (Some command.now) outcome
        → KeepsTo outcome result (K.written out.old) (K.written out.new) (Rose (F.faults files.old) (F.faults files.new)) (Rose (K.faults out.old) (K.faults out.new)) }
    ensures is_meant { IsFinal result → (before : ℕ) → before ≤ F.absences files.old → (outcome : Outcome)
        × CommandMeans (known_of (F.held files.old) before (F.absences files.new) (F.length_met files.new)) (Some command.now) outcome
        × Ends outcome result (K.written out.old) (K.written out.new) }
    ensures only_runs { OnlyRuns result (Rose (F.faults files.old) (F.faults files.new)) (Rose (K.faults out.old) (K.faults out.new)) }
    ensures untouched { asks_for_files command.now.task ≡ false → files.new ≡ files.old }
    ensures sure { asks_for_files command.now.task ≡ false → result ≢ Status.ReadFault }
{
    let runner = Runner {
        machine,
        shape: command.shape,
        turns: command.turns,
    };
    run_task(rt, alloc, &command.task, &runner, files, out)
}

fn run_task<R: Threads + Sync, M: RunsQueries, F: Files, K: Sink>(
    rt: &R,
    alloc: Global,
    task: &Task,
    runner: &Runner<'_, M>,
    files: &mut F,
    out: &mut K,
) -> Status
    requires { TaskInRange task.now }
    ensures keeps { (pairs : Listing) → F.held files.old ≡ Some pairs → (outcome : Outcome) → TaskMeans (Told pairs) runner.now.turns task.now outcome
        → KeepsTo outcome result (K.written out.old) (K.written out.new) (Rose (F.faults files.old) (F.faults files.new)) (Rose (K.faults out.old) (K.faults out.new)) }
    ensures is_meant { IsFinal result → (before : ℕ) → before ≤ F.absences files.old → (outcome : Outcome)
        × TaskMeans (known_of (F.held files.old) before (F.absences files.new) (F.length_met files.new)) runner.now.turns task.now outcome
        × Ends outcome result (K.written out.old) (K.written out.new) }
    ensures only_runs { OnlyRuns result (Rose (F.faults files.old) (F.faults files.new)) (Rose (K.faults out.old) (K.faults out.new)) }
    ensures untouched { asks_for_files task.now ≡ false → files.new ≡ files.old }
    ensures sure { asks_for_files task.now ≡ false → result ≢ Status.ReadFault }
{
    match task {
        Task::Script { path, arguments } => run_file(
            rt,
            alloc,
            path.as_str(),
            arguments,
            runner,
            files,
            out,
        ),
        Task::Sample(people) => run_sample(rt, alloc, *people, runner, out),
    }
}
