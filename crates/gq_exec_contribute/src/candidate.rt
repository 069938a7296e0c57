// Runs WHERE and ACCUM of one candidate.
ghost use Rattle.std.specs.Prelude.{◌≡◌, [], IfOk};
ghost use Rattle.std.specs.Option.{option_map};
ghost use Rattle.gq_graph.specs.declared.rows.Candidate.{Candidate};
ghost use Rattle.gq_rules_meaning.specs.Blocks.{match_of, passes};
ghost use Rattle.gq_plan_ir.specs.BlockView.{view_block};
ghost use Rattle.gq_plan_ir.specs.ExprView.{view};
ghost use Rattle.gq_plan_ir.specs.References.{same};
ghost use Rattle.gq_eval_operand.specs.Meant.{itself, Tells};
ghost use Rattle.gq_frame.specs.Slots.{slots_are};
ghost use Rattle.gq_exec_contribute.specs.Gathered.{shown};
ghost use Rattle.gq_exec_contribute.specs.Passing.{Comes, GainsMatch};

use crate::acts::run_acts;
use crate::feeding::{Feeding, Room};
use gq_base::OutOfMemory;
use gq_core::Batches;
use gq_eval::run_truth;
use gq_eval_operand::{Halt, Sees};
use gq_exec_feed::place;
use gq_frame::{Accums, Slots};
use gq_plan_ir::{Block, Expr};
use gq_value::Wrong;
use std::alloc::Global;
use std::mem;

/// The result of a candidate.
#[derive(Clone, Copy, Debug, PartialEq, Eq)]
pub enum Outcome {
    Passed,

    /// WHERE is false.
    Filtered,

    /// WHERE or ACCUM has no value.
    Fault(Stop),
}

/// Why the meaning of an expression or of contributions is no value.
#[derive(Clone, Copy, Debug, PartialEq, Eq)]
pub enum Stop {
    /// An operation has no value.
    Wrong(Wrong),

    /// It is stuck; never so in a well typed block.
    Stuck,
}

/// Adds the inputs of a match to batches; a candidate that WHERE filters, or that faults, adds nothing. `room` is
/// reused from candidate to candidate. After `OutOfMemory` the batches are unspecified.
#[tactic(auto, using(crate::proofs::PassLemmas::comes_laws))]
pub fn contribute<V: Sees>(
    alloc: Global,
    block: &Block,
    sight: &V,
    accums: &Accums,
    room: &mut Room,
    into: &mut Batches,
) -> Result<Outcome, OutOfMemory>
    requires { (V.look sight.now).world.words.same ≡ same }
    ensures { IfOk result (λ o. (c : Candidate) → Comes accums.now.slots c (match_of (view_block block.now) (slots_are accums.now) c (V.look sight.now)) into.old into.new o) }
{
    match passes(&block.filter, alloc, sight) {
        Ok(false) => Ok(Outcome::Filtered),
        Err(Halt::Wrong(wrong)) => Ok(Outcome::Fault(Stop::Wrong(wrong))),
        Err(Halt::Stuck) => Ok(Outcome::Fault(Stop::Stuck)),
        Err(Halt::OutOfMemory) => Err(OutOfMemory),
        Ok(true) => {
            let before = taken(alloc, room);
            match run_acts(block.accum.as_slice(), alloc, sight, accums, before) {
                Err(Halt::Wrong(wrong)) => Ok(Outcome::Fault(Stop::Wrong(wrong))),
                Err(Halt::Stuck) => Ok(Outcome::Fault(Stop::Stuck)),
                Err(Halt::OutOfMemory) => Err(OutOfMemory),
                Ok(gathered) => match put(gathered, &accums.slots, into) {
                    Ok(emptied) => {
                        room.gathered = emptied;
                        Ok(Outcome::Passed)
                    }
                    Err(OutOfMemory) => Err(OutOfMemory),
                },
            }
        }
    }
}

/// Evaluates WHERE.
fn passes<V: Sees>(filter: &Option<Expr>, alloc: Global, sight: &V) -> Result<bool, Halt>
    ensures { Tells itself (passes (V.look sight.now) (option_map view filter.now)) result }
{
    match filter {
        None => Ok(true),
        Some(expr) => run_truth(expr, alloc, sight),
    }
}

/// Takes the vector out of the room, emptied.
fn taken(alloc: Global, room: &mut Room) -> Vec<Feeding>
    ensures { result.items ≡ [] }
{
    let mut gathered = mem::replace(&mut room.gathered, Vec::new(alloc));
    gathered.clear();
    gathered
}

/// Moves the gathered inputs into batches, in order, and returns the emptied vector. Inputs of a well typed block
/// always have a target.
#[tactic(auto, using(crate::proofs::PassLemmas::put_laws))]
fn put(
    gathered: Vec<Feeding>,
    slots: &Slots,
    into: &mut Batches,
) -> Result<Vec<Feeding>, OutOfMemory>
    ensures { IfOk result (λ _. GainsMatch slots.now into.old into.new (shown gathered.items)) }
{
    let mut left = gathered;
    left.reverse();
    while let Some(feeding) = left.pop() {
        let target = place(slots, feeding.slot, feeding.vertex, &feeding.input)?;
        into.add(target, feeding.input)?;
    }
    Ok(left)
}
