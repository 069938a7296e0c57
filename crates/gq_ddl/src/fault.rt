// Refusals of declarations.
ghost use Rattle.std.specs.Prelude.{◌≡◌, ◌≢◌, Some, Option};
ghost use Rattle.gq_graph.specs.Catalog.{Schema};
ghost use Rattle.gq_diagnostics.specs.Answers.{Denies};
ghost use Rattle.gq_ddl.specs.Declarations.{unless_refused};

use gq_diagnostics::{Refusal, StatementFault};
use gq_schema::SchemaFault;

/// The refusal of a statement whose declaration is refused.
pub(crate) fn statement_fault(fault: SchemaFault) -> StatementFault
    ensures { (due : Option SchemaFault) (schema old new : Schema) → (fault ≢ SchemaFault.OutOfMemory → due ≡ Some fault) → new ≡ old
        → Denies (unless_refused due schema) old new result }
{
    match fault {
        SchemaFault::NameTaken(name) => StatementFault::Refused(Refusal::NameTaken(name)),
        SchemaFault::NoSuchType(name) => StatementFault::Refused(Refusal::NoSuchType(name)),
        SchemaFault::AttributeTwice(name) => StatementFault::Refused(Refusal::AttributeTwice(name)),
        SchemaFault::GraphExists(name) => StatementFault::Refused(Refusal::GraphExists(name)),
        SchemaFault::TooMany => StatementFault::Refused(Refusal::TooMany),
        SchemaFault::OutOfMemory => StatementFault::OutOfMemory,
        SchemaFault::BadDefault(name) => StatementFault::Refused(Refusal::BadDefault(name)),
    }
}
