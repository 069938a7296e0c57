// Refusals of scripts that can't be parsed.
ghost use Rattle.std.specs.Prelude.{◌≡◌, ◌≤◌, IfOk, length};
ghost use Rattle.gq_io.specs.Counts.{Rose};
ghost use Rattle.gq_token.specs.Faults.{place_of};
ghost use Rattle.gq_diagnostics.specs.Outcome.{refused_with, KeepsTo, OnlyWrites};
ghost use Rattle.gq_token.specs.Lines.{line_of};
ghost use Rattle.gq_diagnostics.specs.Messages.{placed_message};
ghost use Rattle.gq_driver.specs.Messages.{fault_message, message_at, name_of, syntax_message};

use gq_base::OutOfMemory;
use gq_diagnostics::{Status, placed, refuse};
use gq_io::Sink;
use gq_stmt_read::ScriptFault;
use gq_token::{LexFault, line_of};
use gq_value::Txt;
use std::alloc::Global;

/// Refuses a script that can't be split into tokens.
pub fn refuse_cut<K: Sink>(alloc: Global, bytes: &[u8], fault: LexFault, out: &mut K) -> Status
    requires within { place_of fault ≤ length bytes.now }
    ensures keeps { KeepsTo (refused_with (message_at bytes.now (name_of fault) (place_of fault))) result (K.written out.old) (K.written out.new) ⊥ (Rose (K.faults out.old) (K.faults out.new)) }
    ensures only_writes { OnlyWrites result (Rose (K.faults out.old) (K.faults out.new)) }
{
    match fault {
        LexFault::NotUtf8 { at } => refuse_at(alloc, bytes, "not UTF-8", at, out),
        LexFault::BadToken { at } => refuse_at(alloc, bytes, "bad token", at, out),
        LexFault::OpenComment { at } => refuse_at(alloc, bytes, "open comment", at, out),
        LexFault::OpenText { at } => refuse_at(alloc, bytes, "open text", at, out),
        LexFault::TooBig { at } => refuse_at(alloc, bytes, "number too big", at, out),
        LexFault::OutOfMemory => Status::OutOfMemory,
    }
}

/// Refuses a script with a statement that can't be parsed.
pub fn refuse_syntax<K: Sink>(
    alloc: Global,
    bytes: &[u8],
    number: u64,
    at: usize,
    out: &mut K,
) -> Status
    requires { at ≤ length bytes.now }
    ensures keeps { KeepsTo (refused_with (fault_message bytes.now (ScriptFault.Syntax number at))) result (K.written out.old) (K.written out.new) ⊥ (Rose (K.faults out.old) (K.faults out.new)) }
    ensures only_writes { OnlyWrites result (Rose (K.faults out.old) (K.faults out.new)) }
{
    match syntax_text(alloc, number) {
        Ok(what) => refuse_placed(alloc, bytes, what.as_str(), at, out),
        Err(OutOfMemory) => Status::OutOfMemory,
    }
}

fn syntax_text(alloc: Global, number: u64) -> Result<Txt, OutOfMemory>
    ensures { IfOk result (λ text. text ≡ syntax_message number) }
{
    let text = format!(in alloc; "syntax error in statement {number}")?;
    Ok(Txt::from_string(text))
}

// Refuses a script with the line number of a place in front of the message.
fn refuse_placed<K: Sink>(alloc: Global, bytes: &[u8], what: &str, at: usize, out: &mut K) -> Status
    requires { at ≤ length bytes.now }
    ensures keeps { KeepsTo (refused_with (placed_message (line_of bytes.now at) what.now)) result (K.written out.old) (K.written out.new) ⊥ (Rose (K.faults out.old) (K.faults out.new)) }
    ensures only_writes { OnlyWrites result (Rose (K.faults out.old) (K.faults out.new)) }
{
    match placed(alloc, line_of(bytes, at), what) {
        Ok(message) => refuse(alloc, message.as_str(), out),
        Err(OutOfMemory) => Status::OutOfMemory,
    }
}

/// Refuses a script for one of its bytes, with its line number.
pub fn refuse_at<K: Sink>(alloc: Global, bytes: &[u8], what: &str, at: usize, out: &mut K) -> Status
    requires { at ≤ length bytes.now }
    ensures keeps { KeepsTo (refused_with (message_at bytes.now what.now at)) result (K.written out.old) (K.written out.new) ⊥ (Rose (K.faults out.old) (K.faults out.new)) }
    ensures only_writes { OnlyWrites result (Rose (K.faults out.old) (K.faults out.new)) }
{
    match format!(in alloc; "{what} at byte {at}") {
        Ok(what) => refuse_placed(alloc, bytes, what.as_str(), at, out),
        Err(_) => Status::OutOfMemory,
    }
}
