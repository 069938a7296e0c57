// Set variables.
ghost use Rattle.std.specs.Prelude.{◌≡◌, List, IfOk, None, OnOk};
ghost use Rattle.std.specs.Option.{option_map};
ghost use Rattle.gq_graph.specs.declared.rows.VertexRow.{VertexRow};
ghost use Rattle.gq_rules_meaning.specs.Expressions.{World};
ghost use Rattle.gq_rules_meaning.specs.States.{State};
ghost use Rattle.gq_rules_meaning.specs.Sets.{set_assigned};
ghost use Rattle.gq_plan_ir.specs.Reference.{Reference, Place};
ghost use Rattle.gq_plan_ir.specs.PlanView.{view_set_types};
ghost use Rattle.gq_frame.specs.Names.{thing_in};
ghost use Rattle.gq_frame.specs.Lives.{Lives};
ghost use Rattle.gq_exec_vars.specs.Lookups.{IsOver};
ghost use Rattle.gq_exec_vars.specs.Written.{typed, Keeps};

use crate::typed::TypedSet;
use gq_base::{List, OutOfMemory};
use gq_frame::{Live, Thing, set_at};
use gq_plan_ir::SetTypes;
use std::alloc::Global;

/// Assigns a set to a set variable. Its types are fixed when it comes into view: those that it is declared with, or
/// else those of the set.
pub fn assign_set(
    alloc: Global,
    live: &mut Live,
    own: &[u32],
    place: u32,
    types: Option<SetTypes>,
    set: TypedSet,
) -> Result<(), OutOfMemory>
    ensures names { OnOk result ((vertices : List VertexRow) (world : World Reference) (s : State Reference) → IsOver vertices own.now world → Lives live.old s
        → Lives live.new (set_assigned world (Place place) (option_map view_set_types types) (typed set) s)) }
    ensures accums { live.new.frame.accums ≡ live.old.frame.accums }
{
    let kept = types_kept(alloc, live, own, place, types, set.types.as_slice())?;
    live.assign(place, Thing::Set(kept, set.vertices))
}

/// The types of a set variable that gets a set of these ones: those that it has, if it is in view.
#[tactic(auto, using(crate::proofs::SetLemmas::kept_laws))]
fn types_kept(
    alloc: Global,
    live: &Live,
    own: &[u32],
    place: u32,
    declared: Option<SetTypes>,
    types: &[u32],
) -> Result<List<u32>, OutOfMemory>
    ensures { IfOk result (Keeps own.now (option_map view_set_types declared) (thing_in live.now.frame.things place) types.now) }
{
    match set_at(live.frame.things.as_slice(), place) {
        Some((held, _)) => Ok(List::from_slice(alloc, held)?),
        None => Ok(types_fixed(alloc, own, declared, types)?),
    }
}

/// The types of a set variable that comes into view: those that it is declared with, or else those of its set.
#[tactic(auto, using(crate::proofs::SetLemmas::fixed_laws))]
fn types_fixed(
    alloc: Global,
    own: &[u32],
    declared: Option<SetTypes>,
    types: &[u32],
) -> Result<List<u32>, OutOfMemory>
    ensures { IfOk result (Keeps own.now (option_map view_set_types declared) None types.now) }
{
    match declared {
        None => Ok(List::from_slice(alloc, types)?),
        Some(SetTypes::Every) => Ok(List::from_slice(alloc, own)?),
        Some(SetTypes::Of(kind)) => {
            if own.contains(&kind) {
                Ok(List::from_slice(alloc, &[kind])?)
            } else {
                Ok(List::from_slice(alloc, types)?)
            }
        }
    }
}
