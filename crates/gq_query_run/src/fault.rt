// Faults of the checker as faults of a statement.
ghost use Rattle.std.specs.Prelude.{◌≡◌, ◌≢◌, Err};
ghost use Rattle.gq_rules_typing.specs.Statements.{Bytes};
ghost use Rattle.gq_rules_typing.specs.Judging.{Judged};
ghost use Rattle.gq_rules_typing.specs.Scopes.{Scope};
ghost use Rattle.gq_check_from.specs.Faults.{fault_of};
ghost use Rattle.gq_query_run.specs.Judging.{Judges, Tells, refusal_in};

use gq_base::OutOfMemory;
use gq_check_from::CheckFault;
use gq_diagnostics::{Refusal, StatementFault};
use gq_value::Txt;
use std::alloc::Global;

/// Returns the fault of a statement for a fault of its query.
pub(crate) fn statement_fault(fault: CheckFault) -> StatementFault
    // If the rules give this fault, the statement's fault corresponds to it.
    ensures { (judged : Judged (Scope Bytes)) → (fault ≢ CheckFault.OutOfMemory → judged ≡ Err (fault_of fault)) → Judges (refusal_in judged) (Err result) }
{
    match fault {
        CheckFault::Mismatch => StatementFault::Refused(Refusal::Mismatch),
        CheckFault::UnknownName(name) => StatementFault::Refused(Refusal::UnknownName(name)),
        CheckFault::NoAttribute(name) => StatementFault::Refused(Refusal::NoAttribute(name)),
        CheckFault::NotAllowedHere => StatementFault::Refused(Refusal::NotAllowed),
        CheckFault::OrderDependent(name) => StatementFault::Refused(Refusal::OrderDependent(name)),
        CheckFault::WiderSet(name) => StatementFault::Refused(Refusal::WiderSet(name)),
        CheckFault::TwoAliases => StatementFault::Refused(Refusal::TwoAliases),
        CheckFault::BadKind(name) => StatementFault::Refused(Refusal::BadAccumulator(name)),
        CheckFault::NameTwice(name) => StatementFault::Refused(Refusal::NameTwice(name)),
        CheckFault::TooMany => StatementFault::Refused(Refusal::TooMany),
        CheckFault::OutOfMemory => StatementFault::OutOfMemory,
    }
}

/// Returns `UnknownName`, or `OutOfMemory` if the name can't be copied.
pub(crate) fn unknown(alloc: Global, name: &str) -> StatementFault
    ensures { Tells (Refusal.UnknownName name.now) result }
{
    match Txt::of(alloc, name) {
        Ok(name) => StatementFault::Refused(Refusal::UnknownName(name)),
        Err(OutOfMemory) => StatementFault::OutOfMemory,
    }
}

/// Returns `NameTaken`, or `OutOfMemory` if the name can't be copied.
pub(crate) fn taken(alloc: Global, name: &str) -> StatementFault
    ensures { Tells (Refusal.NameTaken name.now) result }
{
    match Txt::of(alloc, name) {
        Ok(name) => StatementFault::Refused(Refusal::NameTaken(name)),
        Err(OutOfMemory) => StatementFault::OutOfMemory,
    }
}
