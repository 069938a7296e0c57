// Lines of a run, each passed to the sink once.
ghost use Rattle.std.specs.Prelude.{◌≡◌, ◌++◌, ◌≢◌, ◌∷◌, []};
ghost use Rattle.gq_io.specs.Counts.{Rose};
ghost use Rattle.gq_diagnostics.specs.Outcome.{Outcome, done, ended_by, lines_then, refused_with, KeepsTo, OnlyWrites};
ghost use Rattle.gq_diagnostics.specs.Messages.{message_of, refusal_text};

use crate::refusal::{Refusal, refusal_line};
use crate::status::Status;
use gq_base::OutOfMemory;
use gq_io::{Sink, SinkFault, write_all};
use gq_json::error_line;
use std::alloc::Global;

/// Ends a run with a refusal.
pub fn refuse<K: Sink>(alloc: Global, message: &str, out: &mut K) -> Status
    ensures keeps { KeepsTo (refused_with message.now) result (K.written out.old) (K.written out.new) ⊥ (Rose (K.faults out.old) (K.faults out.new)) }
    ensures only_writes { OnlyWrites result (Rose (K.faults out.old) (K.faults out.new)) }
{
    match error_line(alloc, message) {
        Ok(line) => end_by(&line, out),
        Err(OutOfMemory) => Status::OutOfMemory,
    }
}

/// Ends a run with the refusal of a file: the reason, and its name.
pub fn refuse_file<K: Sink>(alloc: Global, what: &str, name: &str, out: &mut K) -> Status
    ensures keeps { KeepsTo (refused_with (what.now ++ name.now)) result (K.written out.old) (K.written out.new) ⊥ (Rose (K.faults out.old) (K.faults out.new)) }
    ensures only_writes { OnlyWrites result (Rose (K.faults out.old) (K.faults out.new)) }
{
    match format!(in alloc; "{what}{name}") {
        Ok(message) => refuse(alloc, message.as_str(), out),
        Err(_) => Status::OutOfMemory,
    }
}

/// Ends a run with the refusal of a statement that begins on this line.
pub fn refuse_statement<K: Sink>(alloc: Global, line: u64, refusal: &Refusal, out: &mut K) -> Status
    ensures keeps { KeepsTo (ended_by (refusal_text line (message_of refusal.now))) result (K.written out.old) (K.written out.new) ⊥ (Rose (K.faults out.old) (K.faults out.new)) }
    ensures only_writes { OnlyWrites result (Rose (K.faults out.old) (K.faults out.new)) }
{
    match refusal_line(alloc, line, refusal) {
        Ok(line) => end_by(&line, out),
        Err(OutOfMemory) => Status::OutOfMemory,
    }
}

fn end_by<K: Sink>(line: &[u8], out: &mut K) -> Status
    ensures keeps { KeepsTo (ended_by line.now) result (K.written out.old) (K.written out.new) ⊥ (Rose (K.faults out.old) (K.faults out.new)) }
    ensures only_writes { OnlyWrites result (Rose (K.faults out.old) (K.faults out.new)) }
{
    match write_all(out, line) {
        Ok(()) => Status::Refused,
        Err(SinkFault::Failed) => Status::WriteFault,
        Err(SinkFault::OutOfMemory) => Status::OutOfMemory,
    }
}
