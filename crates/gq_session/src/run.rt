// Runs one statement after another.
ghost use Rattle.std.specs.Prelude.{◌≡◌, ◌≤◌, ◌∷◌, ℕ, List, Some, All, length, IfOk, IfSome, IfNone, OnOk, OnErr, IsErrOf};
ghost use Rattle.std.specs.List.{concat};
ghost use Rattle.gq_io.specs.Counts.{Rose};
ghost use Rattle.gq_io.specs.Listing.{Listing};
ghost use Rattle.gq_io.specs.Sink.{Appends, AppendsPrefix};
ghost use Rattle.gq_tree.specs.declared.statement.Placed.{Placed};
ghost use Rattle.gq_diagnostics.specs.Outcome.{Outcome, KeepsTo, OnlyRuns, IsFinal, Ends};
ghost use Rattle.gq_io.specs.Known.{Told, known_of};
ghost use Rattle.gq_diagnostics.specs.Effects.{Becomes, lines_of};
ghost use Rattle.gq_session.specs.Runs.{Runs};
ghost use Rattle.gq_session.specs.Safe.{IsWritten};
ghost use Rattle.gq_session.specs.Statements.{Does};

use crate::session::Session;
use gq_diagnostics::{StatementFault, Status, refuse_statement};
use gq_io::{Files, Sink, SinkFault, write_all};
use gq_query_run::RunsQueries;
use gq_token::line_of;
use gq_tree::Placed;
use std::alloc::Global;
use std::thread::Threads;

/// Runs the statements of the script with these bytes, starting from the session's state, and writes the line of each
/// before the next begins. A refusal is the last line.
pub fn run_statements<'s, R: Threads + Sync, M: RunsQueries, F: Files, K: Sink>(
    rt: &R,
    alloc: Global,
    bytes: &[u8],
    statements: &'s [Placed],
    session: &mut Session<'s, M>,
    files: &mut F,
    out: &mut K,
) -> Status
    requires within { All (λ p. p.from ≤ length bytes.now) statements.now }
    requires written { All (λ p. IsWritten p.statement) statements.now }

    // If the listing of the files is given: the lines and the status are the script's, or a counted fault or
    // `OutOfMemory` ended it sooner.
    ensures keeps { (pairs : Listing) → F.held files.old ≡ Some pairs → (outcome : Outcome)
        → Runs bytes.now (Told pairs) session.old statements.now outcome
        → KeepsTo outcome result (K.written out.old) (K.written out.new) (Rose (F.faults files.old) (F.faults files.new)) (Rose (K.faults out.old) (K.faults out.new)) }

    // A run that isn't cut short is one that the statements may have, over any files.
    ensures is_meant { IsFinal result → (before : ℕ) → before ≤ F.absences files.old → (outcome : Outcome)
        × Runs bytes.now (known_of (F.held files.old) before (F.absences files.new) (F.length_met files.new)) session.old statements.now outcome
        × Ends outcome result (K.written out.old) (K.written out.new) }
    ensures only_runs { OnlyRuns result (Rose (F.faults files.old) (F.faults files.new)) (Rose (K.faults out.old) (K.faults out.new)) }
{
    for placed in statements {
        match run_one(rt, alloc, bytes, placed, session, files, out) {
            None => {}
            Some(status) => return status,
        }
    }
    Status::Done
}

// Runs a statement, and returns how the run ends, if it ends there.
fn run_one<'s, R: Threads + Sync, M: RunsQueries, F: Files, K: Sink>(
    rt: &R,
    alloc: Global,
    bytes: &[u8],
    placed: &'s Placed,
    session: &mut Session<'s, M>,
    files: &mut F,
    out: &mut K,
) -> Option<Status>
    requires within { placed.now.from ≤ length bytes.now }
    requires written { IsWritten placed.now.statement }
    ensures keeps { IfSome result (λ status. (pairs : Listing) → F.held files.old ≡ Some pairs → (others : List Placed) (outcome : Outcome)
        → Runs bytes.now (Told pairs) session.old (placed.now ∷ others) outcome
        → KeepsTo outcome status (K.written out.old) (K.written out.new) (Rose (F.faults files.old) (F.faults files.new)) (Rose (K.faults out.old) (K.faults out.new))) }
    ensures is_meant { IfSome result (λ status. IsFinal status → (before : ℕ) → before ≤ F.absences files.old → (others : List Placed) → (outcome : Outcome)
        × Runs bytes.now (known_of (F.held files.old) before (F.absences files.new) (F.length_met files.new)) session.old (placed.now ∷ others) outcome
        × Ends outcome status (K.written out.old) (K.written out.new)) }
    ensures only_runs { IfSome result (λ status. OnlyRuns status (Rose (F.faults files.old) (F.faults files.new)) (Rose (K.faults out.old) (K.faults out.new))) }
    ensures goes_on { IfNone result ((lines : List (List ℕ))
        × ((before now met : ℕ) → Does (known_of (F.held files.old) before now met) session.old placed.now.statement (Becomes session.new lines))
        × Appends (K.written out.old) (K.written out.new) (concat lines)) }
    ensures held { F.held files.new ≡ F.held files.old }
    ensures faults_stay { F.faults files.old ≤ F.faults files.new }
    ensures absences_stay { F.absences files.old ≤ F.absences files.new }
    ensures sink_stays { IfNone result (K.faults out.old ≤ K.faults out.new) }
{
    match session.run(rt, files, &placed.statement) {
        Ok(line) => match print(&line, out) {
            Ok(()) => None,
            Err(SinkFault::Failed) => Some(Status::WriteFault),
            Err(SinkFault::OutOfMemory) => Some(Status::OutOfMemory),
        },
        Err(StatementFault::Refused(refusal)) => {
            let line = line_of(bytes, placed.from);
            Some(refuse_statement(alloc, line, &refusal, out))
        }
        Err(StatementFault::ReadFault) => Some(Status::ReadFault),
        Err(StatementFault::OutOfMemory) => Some(Status::OutOfMemory),
    }
}

fn print<K: Sink>(line: &Option<Vec<u8>>, out: &mut K) -> Result<(), SinkFault>
    ensures all { OnOk result (Appends (K.written out.old) (K.written out.new) (concat (lines_of line.now))) }
    ensures prefix { OnErr result (AppendsPrefix (K.written out.old) (K.written out.new) (concat (lines_of line.now))) }
    ensures failed { IsErrOf result SinkFault.Failed → Rose (K.faults out.old) (K.faults out.new) }
    ensures faults_stay { K.faults out.old ≤ K.faults out.new }
{
    match line {
        Some(line) => write_all(out, line),
        None => Ok(()),
    }
}
