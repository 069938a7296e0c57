// Copies of inserts.
ghost use Rattle.std.specs.Prelude.{◌≡◌, IfOk};

use gq_base::OutOfMemory;
use gq_load_check::{Endpoint, Insert};
use gq_value::{Txt, duplicate_row};
use std::alloc::Global;

fn duplicate_end(alloc: Global, end: &Endpoint) -> Result<Endpoint, OutOfMemory>
    ensures { IfOk result (λ copy. copy ≡ end.now) }
{
    Ok(Endpoint {
        kind: end.kind,
        id: Txt::of(alloc, end.id.as_str())?,
        missing: duplicate_row(alloc, end.missing.as_slice())?,
    })
}

/// An equal insert with memory of its own.
pub fn duplicate(alloc: Global, row: &Insert) -> Result<Insert, OutOfMemory>
    ensures { IfOk result (λ copy. copy ≡ row.now) }
{
    match row {
        Insert::Vertex {
            kind,
            id,
            attributes,
        } => Ok(Insert::Vertex {
            kind: *kind,
            id: Txt::of(alloc, id.as_str())?,
            attributes: duplicate_row(alloc, attributes.as_slice())?,
        }),
        Insert::Edge {
            kind,
            directed,
            key,
            from,
            to,
            attributes,
        } => Ok(Insert::Edge {
            kind: *kind,
            directed: *directed,
            key: *key,
            from: duplicate_end(alloc, from)?,
            to: duplicate_end(alloc, to)?,
            attributes: duplicate_row(alloc, attributes.as_slice())?,
        }),
    }
}
