// Refusals of jobs.
ghost use Rattle.std.specs.Prelude.{◌≡◌, ◌≢◌, Some, Option, List};
ghost use Rattle.gq_diagnostics.specs.Answers.{Denies};
ghost use Rattle.gq_load_check.specs.declared.fault.JobFault.{JobFault};
ghost use Rattle.gq_ddl.specs.declared.named.NamedJob.{NamedJob};
ghost use Rattle.gq_ddl.specs.Jobs.{unless_refused};

use gq_diagnostics::{Refusal, StatementFault};
use gq_load_check::JobFault;

/// The refusal of a statement whose job is refused.
pub(crate) fn statement_fault(fault: JobFault) -> StatementFault
    ensures { (due : Option JobFault) (jobs old new : List NamedJob) → (fault ≢ JobFault.OutOfMemory → due ≡ Some fault) → new ≡ old
        → Denies (unless_refused due jobs) old new result }
{
    match fault {
        JobFault::NoSuchType(name) => StatementFault::Refused(Refusal::NoSuchType(name)),
        JobFault::WrongCount(name) => StatementFault::Refused(Refusal::WrongCount(name)),
        JobFault::IdMissing(_) => StatementFault::Refused(Refusal::NotAllowed),
        JobFault::UnknownFile(name) => StatementFault::Refused(Refusal::UnknownName(name)),
        JobFault::BadOption => StatementFault::Refused(Refusal::BadOption),
        JobFault::OutOfMemory => StatementFault::OutOfMemory,
    }
}
