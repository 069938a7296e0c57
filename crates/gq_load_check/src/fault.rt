// Refusals of loading jobs.
ghost use Rattle.gq_load_check.specs.Tells.{Tells};

use gq_base::OutOfMemory;
use gq_value::Txt;
use std::alloc::Global;
use thiserror::Error;

/// Why a loading job is refused.
#[derive(Debug, Drop, Error)]
pub enum JobFault {
    /// The graph has no vertex type or no edge type with this name, as the destination asks, or it is a reverse type.
    #[error("no such type")]
    NoSuchType(Txt),
    /// The number of columns isn't that of the ids and attributes. Holds the name of the destination.
    #[error("wrong number of values")]
    WrongCount(Txt),
    /// An id or a discriminator is `_`. Holds the name of the destination.
    #[error("not allowed here")]
    IdMissing(Txt),
    /// No line of the job defines this name.
    #[error("unknown file")]
    UnknownFile(Txt),
    /// QUOTE is neither `double` nor `single`, or SEPARATOR isn't one ASCII byte other than CR, LF and the quote.
    #[error("bad option")]
    BadOption,
    #[error("out of memory")]
    OutOfMemory,
}

impl From<OutOfMemory> for JobFault {
    ghost use Rattle.std.specs.Prelude.{◌≡◌};
    ghost use Rattle.gq_load_check.specs.declared.fault.JobFault.TheVariants.{OutOfMemory};

    ghost from_gives = { λ _ e. e ≡ OutOfMemory };

    fn from(_: OutOfMemory) -> Self {
        JobFault::OutOfMemory
    }
}

/// Returns `NoSuchType`, or `OutOfMemory` if the name can't be copied; the others likewise.
pub(crate) fn no_such_type(alloc: Global, name: &str) -> JobFault
    ensures { Tells (JobFault.NoSuchType name.now) result }
{
    match Txt::of(alloc, name) {
        Ok(name) => JobFault::NoSuchType(name),
        Err(OutOfMemory) => JobFault::OutOfMemory,
    }
}

pub(crate) fn wrong_count(alloc: Global, name: &str) -> JobFault
    ensures { Tells (JobFault.WrongCount name.now) result }
{
    match Txt::of(alloc, name) {
        Ok(name) => JobFault::WrongCount(name),
        Err(OutOfMemory) => JobFault::OutOfMemory,
    }
}

pub(crate) fn id_missing(alloc: Global, name: &str) -> JobFault
    ensures { Tells (JobFault.IdMissing name.now) result }
{
    match Txt::of(alloc, name) {
        Ok(name) => JobFault::IdMissing(name),
        Err(OutOfMemory) => JobFault::OutOfMemory,
    }
}

pub(crate) fn unknown_file(alloc: Global, name: &str) -> JobFault
    ensures { Tells (JobFault.UnknownFile name.now) result }
{
    match Txt::of(alloc, name) {
        Ok(name) => JobFault::UnknownFile(name),
        Err(OutOfMemory) => JobFault::OutOfMemory,
    }
}
