// Runs the statements of ACCUM.
ghost use Rattle.std.specs.Prelude.{◌≡◌, ◌++◌, ◌∷◌, [], IfOk};
ghost use Rattle.gq_rules_meaning.specs.Blocks.{contributions, of_act, contributed, vertex_named};
ghost use Rattle.gq_plan_ir.specs.BlockView.{view_acts, view_act, view_change};
ghost use Rattle.gq_plan_ir.specs.Reference.{Place, Slot};
ghost use Rattle.gq_plan_ir.specs.References.{same};
ghost use Rattle.gq_eval_operand.specs.Meant.{Tells, itself};
ghost use Rattle.gq_frame.specs.Slots.{slots_are};
ghost use Rattle.gq_exec_contribute.specs.Gathered.{shown, gathered_in, after};

use crate::feeding::Feeding;
use crate::inputs::run_feed;
use gq_base::OutOfMemory;
use gq_eval::run_truth;
use gq_eval_operand::{Halt, Sees, vertex};
use gq_frame::Accums;
use gq_plan_ir::{Act, Change};
use std::alloc::Global;

/// Evaluates the statements in order and appends their inputs to `before`.
#[cycle(act)]
#[tactic(auto, using(crate::proofs::ActLemmas::acts_laws))]
pub(crate) fn run_acts<V: Sees>(
    acts: &[Act],
    alloc: Global,
    sight: &V,
    accums: &Accums,
    before: Vec<Feeding>,
) -> Result<Vec<Feeding>, Halt>
    requires { (V.look sight.now).world.words.same ≡ same }
    ensures { Tells gathered_in (after (shown before.items) (contributions (V.look sight.now) (slots_are accums.now) (view_acts acts.now))) result }
{
    let mut gathered = before;
    for act in acts {
        gathered = run_act(act, alloc, sight, accums, gathered)?;
    }
    Ok(gathered)
}

/// Evaluates a statement and appends its inputs to `before`.
#[cycle(act)]
#[tactic(auto, using(gq_plan_ir::proofs::ViewLaws::step_laws, crate::proofs::ActLemmas::act_laws, crate::proofs::ActLemmas::choice_next))]
fn run_act<V: Sees>(
    act: &Act,
    alloc: Global,
    sight: &V,
    accums: &Accums,
    before: Vec<Feeding>,
) -> Result<Vec<Feeding>, Halt>
    requires { (V.look sight.now).world.words.same ≡ same }
    ensures { Tells gathered_in (after (shown before.items) (of_act (V.look sight.now) (slots_are accums.now) (view_act act.now))) result }
{
    match act {
        Act::Attached(place, slot, change) => {
            let vertex = vertex_at(*place, sight)?;
            run_change(change, alloc, sight, accums, (*slot, vertex), before)
        }
        Act::Global(slot, change) => run_change(change, alloc, sight, accums, (*slot, 0), before),
        Act::If(branches, others) => {
            for branch in branches.as_slice() {
                if run_truth(&branch.0, alloc, sight)? {
                    return run_acts(branch.1.as_slice(), alloc, sight, accums, before);
                }
            }
            match others {
                Some(others) => run_acts(others.as_slice(), alloc, sight, accums, before),
                None => Ok(before),
            }
        }
    }
}

/// The vertex that the alias at a place is bound to.
#[tactic(auto, using(crate::proofs::ActLemmas::vertex_laws))]
fn vertex_at<V: Sees>(place: u32, sight: &V) -> Result<u32, Halt>
    ensures { Tells itself (vertex_named (V.look sight.now) (Place place)) result }
{
    let alias = sight.named(place)?;
    vertex(&alias)
}

/// Evaluates the input of a `+=` to the accumulator of a slot at a vertex and appends it to `before`. ACCUM has no `=`.
#[tactic(auto, using(crate::proofs::ActLemmas::change_laws))]
fn run_change<V: Sees>(
    change: &Change,
    alloc: Global,
    sight: &V,
    accums: &Accums,
    to: (u32, u32),
    before: Vec<Feeding>,
) -> Result<Vec<Feeding>, Halt>
    requires { (V.look sight.now).world.words.same ≡ same }
    ensures { Tells gathered_in (after (shown before.items) (contributed (V.look sight.now) (slots_are accums.now) (Slot to.0) to.1 (view_change change.now))) result }
{
    match change {
        Change::Set(_) => Err(Halt::Stuck),
        Change::Feed(feed) => match accums.slots.declared.get(to.0 as usize) {
            None => Err(Halt::Stuck),
            Some(declared) => {
                let input = run_feed(feed, &declared.kind, alloc, sight)?;
                let feeding = Feeding {
                    slot: to.0,
                    vertex: to.1,
                    input,
                };
                Ok(with_one(before, feeding)?)
            }
        },
    }
}

/// Appends one input.
fn with_one(before: Vec<Feeding>, feeding: Feeding) -> Result<Vec<Feeding>, OutOfMemory>
    ensures { IfOk result (λ gathered. gathered.items ≡ before.items ++ feeding ∷ []) }
{
    let mut gathered = before;
    gathered.push(feeding)?;
    Ok(gathered)
}
