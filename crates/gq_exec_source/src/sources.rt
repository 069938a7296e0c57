// The types that a SELECT begins from.
ghost use Rattle.std.specs.Prelude.{◌≡◌, IfOk};
ghost use Rattle.std.specs.Option.{option_to_list};
ghost use Rattle.gq_frame.specs.Names.{held_thing};
ghost use Rattle.gq_exec_source.specs.Seen.{own_of, set_types, types_from};

use crate::types::is_own;
use gq_base::{List, OutOfMemory};
use gq_frame::Thing;
use gq_graph::Numbers;
use gq_plan_ir::{Plan, SelectSource};
use std::alloc::Global;

/// The types of the set from which a SELECT begins, or its vertex type. A place without a set gives none.
#[tactic(auto, using(crate::proofs::StepLemmas::source_laws))]
pub(crate) fn types_from(
    alloc: Global,
    plan: &Plan,
    things: &[Option<Thing>],
    source: SelectSource,
) -> Result<Numbers, OutOfMemory>
    ensures { IfOk result (λ l. l ≡ types_from plan.now things.now source) }
{
    match source {
        SelectSource::Set(place) => match things.get(place as usize) {
            None => Ok(List::new(alloc)),
            Some(thing) => set_types(alloc, thing),
        },
        SelectSource::Type(t) => one_type(alloc, plan.vertices.as_slice(), t),
    }
}

/// A type, if it is among the graph's.
#[tactic(auto, using(crate::proofs::SortLemmas::own_type_laws))]
fn one_type(alloc: Global, own: &[u32], t: u32) -> Result<Numbers, OutOfMemory>
    ensures { IfOk result (λ l. l ≡ option_to_list (own_of own.now t)) }
{
    if is_own(own, t) {
        let mut types = List::new(alloc);
        types.push(t)?;
        Ok(types)
    } else {
        Ok(List::new(alloc))
    }
}

/// The types of the set at a place, if there is one.
fn set_types(alloc: Global, thing: &Option<Thing>) -> Result<Numbers, OutOfMemory>
    ensures { IfOk result (λ l. l ≡ set_types (held_thing (Some thing.now))) }
{
    match thing {
        None => Ok(List::new(alloc)),
        Some(thing) => match thing {
            Thing::Value(_, _) => Ok(List::new(alloc)),
            Thing::Set(types, _) => List::from_slice(alloc, types.as_slice()),
        },
    }
}
