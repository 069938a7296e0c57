// Checked inserts: plain data, which contracts see unchanged.
use gq_base::OutOfMemory;
use gq_value::{Row, Txt};
use thiserror::Error;

/// An end of an edge: a vertex by type and id, and the row it gets if it doesn't exist yet.
#[derive(Drop)]
pub struct Endpoint {
    pub kind: u32,
    pub id: Txt,
    /// The defaults of the type's attributes.
    pub missing: Row,
}

/// A row to insert into a store.
#[derive(Drop)]
pub enum Insert {
    Vertex {
        kind: u32,
        id: Txt,
        attributes: Row,
    },
    Edge {
        kind: u32,
        directed: bool,
        /// The number of leading attributes that are part of the edge's key.
        key: u32,
        from: Endpoint,
        to: Endpoint,
        attributes: Row,
    },
}

/// Why an INSERT is refused.
#[derive(Debug, Drop, Error)]
pub enum InsertFault {
    /// The catalog has no vertex or edge type with this name, or it is a reverse type.
    #[error("no such type")]
    NoSuchType(Txt),
    /// The number of values isn't that of the ids and attributes.
    #[error("wrong number of values")]
    WrongCount(Txt),
    /// An id is `_` or the empty text, or a discriminator is `_`.
    #[error("not allowed here")]
    NotAllowed,
    /// A value doesn't have the type of its attribute.
    #[error("type mismatch")]
    Mismatch,
    #[error("out of memory")]
    OutOfMemory,
}

impl From<OutOfMemory> for InsertFault {
    ghost use Rattle.std.specs.Prelude.{◌≡◌};
    ghost use Rattle.gq_load_check.specs.declared.insert.InsertFault.TheVariants.{OutOfMemory};

    ghost from_gives = { λ _ e. e ≡ OutOfMemory };

    fn from(_: OutOfMemory) -> Self {
        InsertFault::OutOfMemory
    }
}
