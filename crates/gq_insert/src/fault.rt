// Refusals of rows.
ghost use Rattle.std.specs.Prelude.{◌≡◌, ◌≢◌, Some, Option, Result};
ghost use Rattle.gq_index.specs.declared.store.Store.{Store};
ghost use Rattle.gq_diagnostics.specs.declared.refusal.Refusal.{Refusal};
ghost use Rattle.gq_diagnostics.specs.Answers.{Denies};
ghost use Rattle.gq_insert.specs.Inserting.{unless_refused};

use gq_diagnostics::{Refusal, StatementFault};
use gq_load_check::InsertFault;

/// Returns the refusal of a statement for the fault of its row.
pub(crate) fn statement_fault(fault: InsertFault) -> StatementFault
    ensures { (due : Option InsertFault) (put : Result Store Refusal) (old new : Store) → (fault ≢ InsertFault.OutOfMemory → due ≡ Some fault) → new ≡ old
        → Denies (unless_refused due put) old new result }
{
    match fault {
        InsertFault::NoSuchType(name) => StatementFault::Refused(Refusal::NoSuchType(name)),
        InsertFault::WrongCount(name) => StatementFault::Refused(Refusal::WrongCount(name)),
        InsertFault::NotAllowed => StatementFault::Refused(Refusal::NotAllowed),
        InsertFault::Mismatch => StatementFault::Refused(Refusal::Mismatch),
        InsertFault::OutOfMemory => StatementFault::OutOfMemory,
    }
}
