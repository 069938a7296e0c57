// Refusals of declarations.
ghost use Rattle.gq_schema.specs.Tells.{Tells};

use gq_base::OutOfMemory;
use gq_value::Txt;
use std::alloc::Global;
use thiserror::Error;

/// Why a declaration is refused.
#[derive(Debug, Drop, Error)]
pub enum SchemaFault {
    /// A vertex or edge type has the name, or a reverse type's name is its forward type's own.
    #[error("name taken")]
    NameTaken(Txt),
    /// No vertex type has the name of an end; or a graph's member isn't a type, or is an edge type without both its
    /// ends.
    #[error("no such type")]
    NoSuchType(Txt),
    /// An attribute has the name of an earlier one, or of an id that is an attribute too.
    #[error("attribute twice")]
    AttributeTwice(Txt),
    #[error("graph exists")]
    GraphExists(Txt),
    /// The new types would make more than 256 types, including reverse types.
    #[error("too many types")]
    TooMany,
    #[error("out of memory")]
    OutOfMemory,
    /// The attribute's default isn't a value of its type.
    #[error("bad default")]
    BadDefault(Txt),
}

impl From<OutOfMemory> for SchemaFault {
    ghost use Rattle.std.specs.Prelude.{◌≡◌};
    ghost use Rattle.gq_schema.specs.declared.fault.SchemaFault.TheVariants.{OutOfMemory};

    ghost from_gives = { λ _ e. e ≡ OutOfMemory };

    fn from(_: OutOfMemory) -> Self {
        SchemaFault::OutOfMemory
    }
}

/// Returns NameTaken, or OutOfMemory if the name can't be copied. The other functions do likewise.
pub(crate) fn name_taken(alloc: Global, name: &str) -> SchemaFault
    ensures { Tells (SchemaFault.NameTaken name.now) result }
{
    match Txt::of(alloc, name) {
        Ok(name) => SchemaFault::NameTaken(name),
        Err(OutOfMemory) => SchemaFault::OutOfMemory,
    }
}

pub(crate) fn no_such_type(alloc: Global, name: &str) -> SchemaFault
    ensures { Tells (SchemaFault.NoSuchType name.now) result }
{
    match Txt::of(alloc, name) {
        Ok(name) => SchemaFault::NoSuchType(name),
        Err(OutOfMemory) => SchemaFault::OutOfMemory,
    }
}

pub(crate) fn attribute_twice(alloc: Global, name: &str) -> SchemaFault
    ensures { Tells (SchemaFault.AttributeTwice name.now) result }
{
    match Txt::of(alloc, name) {
        Ok(name) => SchemaFault::AttributeTwice(name),
        Err(OutOfMemory) => SchemaFault::OutOfMemory,
    }
}

pub(crate) fn graph_exists(alloc: Global, name: &str) -> SchemaFault
    ensures { Tells (SchemaFault.GraphExists name.now) result }
{
    match Txt::of(alloc, name) {
        Ok(name) => SchemaFault::GraphExists(name),
        Err(OutOfMemory) => SchemaFault::OutOfMemory,
    }
}

pub(crate) fn bad_default(alloc: Global, name: &str) -> SchemaFault
    ensures { Tells (SchemaFault.BadDefault name.now) result }
{
    match Txt::of(alloc, name) {
        Ok(name) => SchemaFault::BadDefault(name),
        Err(OutOfMemory) => SchemaFault::OutOfMemory,
    }
}
