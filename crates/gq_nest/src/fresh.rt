// Contents before any input.
ghost use Rattle.std.specs.Prelude.{◌≡◌, [], IfOk};
ghost use Rattle.gq_value.specs.AccumViews.{accum_of};
ghost use Rattle.gq_accum_laws.specs.After as model;
ghost use Rattle.gq_nest.specs.Shows.{Shows, AreFresh};

use crate::content::{Content, Heap, Parts};
use crate::map::SortedMap;
use crate::set::SortedSet;
use gq_accum::Scalar;
use gq_base::{Boxed, List, OutOfMemory};
use gq_value::{Kind, Txt};
use std::alloc::Global;

#[cycle(openings)]
#[tactic(auto, using(gq_value::proofs::AccumLemmas::accum_laws, crate::proofs::FreshSteps::fresh_scalar))]
/// The content of a kind before any input.
pub(crate) fn fresh(alloc: Global, kind: &Kind) -> Result<Content, OutOfMemory>
    ensures { IfOk result (λ c. Shows (accum_of kind.now) c (model.fresh (accum_of kind.now))) }
{
    match kind {
        Kind::Sum(_)
        | Kind::Min(_)
        | Kind::Max(_)
        | Kind::Or
        | Kind::And
        | Kind::BitOr
        | Kind::BitAnd
        | Kind::Avg => Ok(Content::Scalar(Scalar::fresh(kind))),
        Kind::Set(_) => Ok(Content::Set(SortedSet::new(alloc))),
        Kind::Bag(_) => Ok(Content::Bag(List::new(alloc))),
        Kind::List(_) => Ok(Content::List(List::new(alloc))),
        Kind::Heap(shape) => Ok(Content::Heap(Heap {
            capacity: shape.capacity,
            order: Boxed::new(alloc, List::from_slice(alloc, shape.order.as_slice())?)?,
            tuples: List::new(alloc),
        })),
        Kind::Map(_, values) => {
            let opening = fresh(alloc, values.get())?;
            Ok(Content::Map(Boxed::new(alloc, opening)?, SortedMap::new(alloc)))
        }
        Kind::Group(shape) => {
            let openings = fresh_parts(alloc, shape.parts.as_slice())?;
            Ok(Content::Group(Boxed::new(alloc, openings)?, SortedMap::new(alloc)))
        }
    }
}

/// The contents of a group's parts before any input.
#[cycle(openings)]
fn fresh_parts(alloc: Global, parts: &[(Txt, Kind)]) -> Result<Parts, OutOfMemory>
    ensures { IfOk result (AreFresh parts.now) }
{
    let mut contents = List::new(alloc);
    for (_, kind) in parts {
        contents.push(fresh(alloc, kind)?)?;
    }
    Ok(contents)
}
