// Faults of typing.
ghost use Rattle.std.specs.Prelude.{◌≡◌, ◌≢◌, true};
ghost use Rattle.gq_rules_typing.specs.Judging as judging;
ghost use Rattle.gq_scope.specs.Views.{fault_is, Judges};
ghost use Rattle.gq_scope.specs.Views as spec;

use gq_base::OutOfMemory;
use gq_value::Txt;
use std::alloc::{AllocFailed, Global};
use thiserror::Error;

/// Why an expression has no type: the first rule that fails, in the order of the text.
#[derive(Debug, Drop, Error)]
pub enum TypeFault {
    #[error("type mismatch")]
    Mismatch,
    #[error("unknown name")]
    UnknownName(Txt),
    #[error("no attribute")]
    NoAttribute(Txt),
    #[error("not allowed here")]
    NotAllowedHere,
    #[error("out of memory")]
    OutOfMemory,
}

impl From<OutOfMemory> for TypeFault {
    ghost use Rattle.std.specs.Prelude.{◌≡◌};
    ghost use Rattle.gq_scope.specs.declared.fault.TypeFault.TheVariants.{OutOfMemory};

    ghost from_gives = { λ _ e. e ≡ OutOfMemory };

    fn from(_: OutOfMemory) -> Self {
        TypeFault::OutOfMemory
    }
}

impl<T: Drop> From<AllocFailed<T>> for TypeFault {
    ghost use Rattle.std.specs.Prelude.{◌≡◌};
    ghost use Rattle.gq_scope.specs.declared.fault.TypeFault.TheVariants.{OutOfMemory};

    ghost from_gives = { λ _ e. e ≡ OutOfMemory };

    fn from(_: AllocFailed<T>) -> Self {
        TypeFault::OutOfMemory
    }
}

/// Returns UnknownName, or OutOfMemory if the name can't be copied.
pub fn unknown(alloc: Global, name: &str) -> TypeFault
    ensures { result ≢ TypeFault.OutOfMemory → fault_is result ≡ judging.UnknownName name.now }
{
    match Txt::of(alloc, name) {
        Ok(name) => TypeFault::UnknownName(name),
        Err(OutOfMemory) => TypeFault::OutOfMemory,
    }
}

/// Returns NoAttribute, or OutOfMemory if the name can't be copied.
pub fn no_attribute(alloc: Global, name: &str) -> TypeFault
    ensures { result ≢ TypeFault.OutOfMemory → fault_is result ≡ judging.NoAttribute name.now }
{
    match Txt::of(alloc, name) {
        Ok(name) => TypeFault::NoAttribute(name),
        Err(OutOfMemory) => TypeFault::OutOfMemory,
    }
}

/// Returns type mismatch if a test fails.
pub fn matched(test: bool) -> Result<(), TypeFault>
    ensures { Judges (λ _. true) (spec.matched test) result }
{
    match test {
        true => Ok(()),
        false => Err(TypeFault::Mismatch),
    }
}

/// Returns not allowed here if a test fails.
pub fn allowed(test: bool) -> Result<(), TypeFault>
    ensures { Judges (λ _. true) (spec.allowed test) result }
{
    match test {
        true => Ok(()),
        false => Err(TypeFault::NotAllowedHere),
    }
}
