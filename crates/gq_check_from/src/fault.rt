// Faults of the checker.
ghost use Rattle.std.specs.Prelude.{◌≡◌, ◌≢◌};
ghost use Rattle.gq_rules_typing.specs.Judging as judging;
ghost use Rattle.gq_check_from.specs.Faults.{fault_of};

use gq_base::OutOfMemory;
use gq_scope::TypeFault;
use gq_value::Txt;
use std::alloc::{AllocFailed, Global};
use thiserror::Error;

/// Why a query isn't well typed: the first rule that fails, in the order of the text.
#[derive(Debug, Drop, Error)]
pub enum CheckFault {
    #[error("type mismatch")]
    Mismatch,

    /// No such name is visible, or it refers to something else.
    #[error("unknown name")]
    UnknownName(Txt),
    #[error("no attribute")]
    NoAttribute(Txt),
    #[error("not allowed here")]
    NotAllowedHere,

    /// The accumulator would depend on the order of its inputs.
    #[error("depends on order")]
    OrderDependent(Txt),

    /// What is assigned to the set variable may hold vertices of further types.
    #[error("wider set")]
    WiderSet(Txt),
    #[error("two aliases")]
    TwoAliases,

    /// The accumulator can't have the declared kind.
    #[error("bad kind")]
    BadKind(Txt),
    #[error("name twice")]
    NameTwice(Txt),

    /// A limit on fields, levels or accumulators is exceeded.
    #[error("too many")]
    TooMany,
    #[error("out of memory")]
    OutOfMemory,
}

impl From<OutOfMemory> for CheckFault {
    ghost use Rattle.std.specs.Prelude.{◌≡◌};
    ghost use Rattle.gq_check_from.specs.declared.fault.CheckFault.TheVariants.{OutOfMemory};

    ghost from_gives = { λ _ e. e ≡ OutOfMemory };

    fn from(_: OutOfMemory) -> Self {
        CheckFault::OutOfMemory
    }
}

impl<T: Drop> From<AllocFailed<T>> for CheckFault {
    ghost use Rattle.std.specs.Prelude.{◌≡◌};
    ghost use Rattle.gq_check_from.specs.declared.fault.CheckFault.TheVariants.{OutOfMemory};

    ghost from_gives = { λ _ e. e ≡ OutOfMemory };

    fn from(_: AllocFailed<T>) -> Self {
        CheckFault::OutOfMemory
    }
}

impl From<TypeFault> for CheckFault {
    ghost use Rattle.gq_check_from.specs.Faults.{SaysSame};

    ghost from_gives = { λ fault e. SaysSame fault e };

    fn from(fault: TypeFault) -> Self {
        match fault {
            TypeFault::Mismatch => CheckFault::Mismatch,
            TypeFault::UnknownName(name) => CheckFault::UnknownName(name),
            TypeFault::NoAttribute(name) => CheckFault::NoAttribute(name),
            TypeFault::NotAllowedHere => CheckFault::NotAllowedHere,
            TypeFault::OutOfMemory => CheckFault::OutOfMemory,
        }
    }
}

/// Returns UnknownName, or OutOfMemory if the name can't be copied. The other functions do likewise.
pub fn unknown(alloc: Global, name: &str) -> CheckFault
    ensures { result ≢ CheckFault.OutOfMemory → fault_of result ≡ judging.UnknownName name.now }
{
    match Txt::of(alloc, name) {
        Ok(name) => CheckFault::UnknownName(name),
        Err(OutOfMemory) => CheckFault::OutOfMemory,
    }
}

pub fn order_dependent(alloc: Global, name: &str) -> CheckFault
    ensures { result ≢ CheckFault.OutOfMemory → fault_of result ≡ judging.OrderDependent name.now }
{
    match Txt::of(alloc, name) {
        Ok(name) => CheckFault::OrderDependent(name),
        Err(OutOfMemory) => CheckFault::OutOfMemory,
    }
}

pub fn wider_set(alloc: Global, name: &str) -> CheckFault
    ensures { result ≢ CheckFault.OutOfMemory → fault_of result ≡ judging.WiderSet name.now }
{
    match Txt::of(alloc, name) {
        Ok(name) => CheckFault::WiderSet(name),
        Err(OutOfMemory) => CheckFault::OutOfMemory,
    }
}

pub fn bad_kind(alloc: Global, name: &str) -> CheckFault
    ensures { result ≢ CheckFault.OutOfMemory → fault_of result ≡ judging.BadKind name.now }
{
    match Txt::of(alloc, name) {
        Ok(name) => CheckFault::BadKind(name),
        Err(OutOfMemory) => CheckFault::OutOfMemory,
    }
}

pub fn name_twice(alloc: Global, name: &str) -> CheckFault
    ensures { result ≢ CheckFault.OutOfMemory → fault_of result ≡ judging.NameTwice name.now }
{
    match Txt::of(alloc, name) {
        Ok(name) => CheckFault::NameTwice(name),
        Err(OutOfMemory) => CheckFault::OutOfMemory,
    }
}
