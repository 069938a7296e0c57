// Runs the bytes of a script.
ghost use Rattle.std.specs.Prelude.{◌≡◌, ◌≤◌, ℕ, All, Some, length};
ghost use Rattle.std.specs.Option.{option_copied};
ghost use Rattle.gq_io.specs.Counts.{Rose};
ghost use Rattle.gq_io.specs.Listing.{Listing};
ghost use Rattle.gq_token.specs.Cut.{IsSpelledIn};
ghost use Rattle.gq_diagnostics.specs.Outcome.{Outcome, Ends, IsFinal, KeepsTo, OnlyRuns};
ghost use Rattle.gq_io.specs.Known.{Told, known_of};
ghost use Rattle.gq_session.specs.Safe.{IsWritten};
ghost use Rattle.gq_driver.specs.Scripts.{ArgumentsMean, ScriptMeans, StatementsMean, TokensMean};

use crate::refusals::{refuse_at, refuse_cut, refuse_syntax};
use gq_arguments::{Args, ArgsFault};
use gq_diagnostics::{Status, refuse};
use gq_io::{Files, Sink};
use gq_query_run::{Runner, RunsQueries};
use gq_session::{ArgsFile, Session, run_statements};
use gq_stmt_read::{ScriptFault, read_script};
use gq_token::{LexFault, Token, tokens};
use gq_tree::Placed;
use std::alloc::Global;
use std::thread::Threads;

/// Runs the script with these bytes; the file of arguments, if one is named, has those bytes. Its queries run on the
/// given machine, on threads of this runtime.
pub fn run_script<R: Threads + Sync, M: RunsQueries, F: Files, K: Sink>(
    rt: &R,
    alloc: Global,
    bytes: &[u8],
    arguments: Option<&[u8]>,
    runner: &Runner<'_, M>,
    files: &mut F,
    out: &mut K,
) -> Status
    ensures keeps { (pairs : Listing) → F.held files.old ≡ Some pairs → (outcome : Outcome) → ScriptMeans bytes.now (Told pairs) runner.now.turns (option_copied arguments.entry) outcome
        → KeepsTo outcome result (K.written out.old) (K.written out.new) (Rose (F.faults files.old) (F.faults files.new)) (Rose (K.faults out.old) (K.faults out.new)) }
    ensures is_meant { IsFinal result → (before : ℕ) → before ≤ F.absences files.old → (outcome : Outcome)
        × ScriptMeans bytes.now (known_of (F.held files.old) before (F.absences files.new) (F.length_met files.new)) runner.now.turns (option_copied arguments.entry) outcome
        × Ends outcome result (K.written out.old) (K.written out.new) }
    ensures only_runs { OnlyRuns result (Rose (F.faults files.old) (F.faults files.new)) (Rose (K.faults out.old) (K.faults out.new)) }
{
    match tokens(alloc, bytes) {
        Ok(tokens) => run_tokens(rt, alloc, bytes, &tokens, arguments, runner, files, out),
        Err(fault) => {
            if fault == LexFault::OutOfMemory {
                return Status::OutOfMemory;
            }
            refuse_cut(alloc, bytes, fault, out)
        }
    }
}

fn run_tokens<R: Threads + Sync, M: RunsQueries, F: Files, K: Sink>(
    rt: &R,
    alloc: Global,
    bytes: &[u8],
    tokens: &[Token],
    arguments: Option<&[u8]>,
    runner: &Runner<'_, M>,
    files: &mut F,
    out: &mut K,
) -> Status
    requires tokens { All (IsSpelledIn bytes.now) tokens.now }
    ensures keeps { (pairs : Listing) → F.held files.old ≡ Some pairs → (outcome : Outcome) → TokensMean bytes.now (Told pairs) runner.now.turns (option_copied arguments.entry) tokens.now outcome
        → KeepsTo outcome result (K.written out.old) (K.written out.new) (Rose (F.faults files.old) (F.faults files.new)) (Rose (K.faults out.old) (K.faults out.new)) }
    ensures is_meant { IsFinal result → (before : ℕ) → before ≤ F.absences files.old → (outcome : Outcome)
        × TokensMean bytes.now (known_of (F.held files.old) before (F.absences files.new) (F.length_met files.new)) runner.now.turns (option_copied arguments.entry) tokens.now outcome
        × Ends outcome result (K.written out.old) (K.written out.new) }
    ensures only_runs { OnlyRuns result (Rose (F.faults files.old) (F.faults files.new)) (Rose (K.faults out.old) (K.faults out.new)) }
{
    match read_script(alloc, bytes, tokens) {
        Ok(statements) => run_read(rt, alloc, bytes, &statements, arguments, runner, files, out),
        Err(ScriptFault::Syntax { statement, at }) => refuse_syntax(
            alloc, bytes, statement, at, out,
        ),
        Err(ScriptFault::TooDeep { at }) => refuse_at(alloc, bytes, "nested too deep", at, out),
        Err(ScriptFault::OutOfMemory) => Status::OutOfMemory,
    }
}

fn run_read<R: Threads + Sync, M: RunsQueries, F: Files, K: Sink>(
    rt: &R,
    alloc: Global,
    bytes: &[u8],
    statements: &[Placed],
    arguments: Option<&[u8]>,
    runner: &Runner<'_, M>,
    files: &mut F,
    out: &mut K,
) -> Status
    requires within { All (λ p. p.from ≤ length bytes.now) statements.now }
    requires written { All (λ p. IsWritten p.statement) statements.now }
    ensures keeps { (pairs : Listing) → F.held files.old ≡ Some pairs → (outcome : Outcome) → ArgumentsMean bytes.now (Told pairs) runner.now.turns (option_copied arguments.entry) statements.now outcome
        → KeepsTo outcome result (K.written out.old) (K.written out.new) (Rose (F.faults files.old) (F.faults files.new)) (Rose (K.faults out.old) (K.faults out.new)) }
    ensures is_meant { IsFinal result → (before : ℕ) → before ≤ F.absences files.old → (outcome : Outcome)
        × ArgumentsMean bytes.now (known_of (F.held files.old) before (F.absences files.new) (F.length_met files.new)) runner.now.turns (option_copied arguments.entry) statements.now outcome
        × Ends outcome result (K.written out.old) (K.written out.new) }
    ensures only_runs { OnlyRuns result (Rose (F.faults files.old) (F.faults files.new)) (Rose (K.faults out.old) (K.faults out.new)) }
{
    match arguments {
        None => {
            let args = Args::none();
            let file = ArgsFile::none(&args);
            run_opened(rt, alloc, bytes, statements, file, runner, files, out)
        }
        Some(file) => run_with_file(rt, alloc, bytes, file, statements, runner, files, out),
    }
}

fn run_with_file<R: Threads + Sync, M: RunsQueries, F: Files, K: Sink>(
    rt: &R,
    alloc: Global,
    bytes: &[u8],
    file: &[u8],
    statements: &[Placed],
    runner: &Runner<'_, M>,
    files: &mut F,
    out: &mut K,
) -> Status
    requires within { All (λ p. p.from ≤ length bytes.now) statements.now }
    requires written { All (λ p. IsWritten p.statement) statements.now }
    ensures keeps { (pairs : Listing) → F.held files.old ≡ Some pairs → (outcome : Outcome) → ArgumentsMean bytes.now (Told pairs) runner.now.turns (Some file.now) statements.now outcome
        → KeepsTo outcome result (K.written out.old) (K.written out.new) (Rose (F.faults files.old) (F.faults files.new)) (Rose (K.faults out.old) (K.faults out.new)) }
    ensures is_meant { IsFinal result → (before : ℕ) → before ≤ F.absences files.old → (outcome : Outcome)
        × ArgumentsMean bytes.now (known_of (F.held files.old) before (F.absences files.new) (F.length_met files.new)) runner.now.turns (Some file.now) statements.now outcome
        × Ends outcome result (K.written out.old) (K.written out.new) }
    ensures only_runs { OnlyRuns result (Rose (F.faults files.old) (F.faults files.new)) (Rose (K.faults out.old) (K.faults out.new)) }
{
    match Args::read(alloc, file) {
        Ok(args) => {
            let file = ArgsFile::read(&args, file);
            run_opened(rt, alloc, bytes, statements, file, runner, files, out)
        }
        Err(ArgsFault::Unreadable) => refuse(alloc, "arguments unreadable", out),
        Err(ArgsFault::OutOfMemory) => Status::OutOfMemory,
    }
}

fn run_opened<R: Threads + Sync, M: RunsQueries, F: Files, K: Sink>(
    rt: &R,
    alloc: Global,
    bytes: &[u8],
    statements: &[Placed],
    file: ArgsFile<'_>,
    runner: &Runner<'_, M>,
    files: &mut F,
    out: &mut K,
) -> Status
    requires within { All (λ p. p.from ≤ length bytes.now) statements.now }
    requires written { All (λ p. IsWritten p.statement) statements.now }
    ensures keeps { (pairs : Listing) → F.held files.old ≡ Some pairs → (outcome : Outcome) → StatementsMean bytes.now (Told pairs) runner.now.turns file.entry statements.now outcome
        → KeepsTo outcome result (K.written out.old) (K.written out.new) (Rose (F.faults files.old) (F.faults files.new)) (Rose (K.faults out.old) (K.faults out.new)) }
    ensures is_meant { IsFinal result → (before : ℕ) → before ≤ F.absences files.old → (outcome : Outcome)
        × StatementsMean bytes.now (known_of (F.held files.old) before (F.absences files.new) (F.length_met files.new)) runner.now.turns file.entry statements.now outcome
        × Ends outcome result (K.written out.old) (K.written out.new) }
    ensures only_runs { OnlyRuns result (Rose (F.faults files.old) (F.faults files.new)) (Rose (K.faults out.old) (K.faults out.new)) }
{
    let mut session = Session::new(alloc, file, runner);
    run_statements(rt, alloc, bytes, statements, &mut session, files, out)
}
