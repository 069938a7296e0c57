// Reading accumulators.
ghost use Rattle.std.specs.Prelude.{IfOk};
ghost use Rattle.gq_eval_operand.specs.Sound.{Sound};
ghost use Rattle.gq_frame.specs.Slots.{AreSound, ReadsAs};

use crate::accums::Accums;
use gq_eval_operand::{Halt, Seen, read};

/// Reads an accumulator, by its slot and its vertex, which is 0 for a global one. Takes a step for each earlier slot.
/// Doesn't allocate.
#[tactic(auto, using(crate::proofs::SlotLemmas::slot_laws))]
pub fn read_target<'a>(accums: &'a Accums, slot: u32, vertex: u32) -> Result<Seen<'a>, Halt>
    requires { AreSound accums.now }
    ensures read { ReadsAs accums.entry.now slot vertex result }
    ensures sound { IfOk result Sound }
{
    match accums.slots.declared.get(slot as usize) {
        None => Err(Halt::Stuck),
        Some(declared) => {
            if vertex >= accums.slots.targets(declared) {
                return Err(Halt::Stuck);
            }
            let target = accums.slots.target(slot, vertex) as usize;
            match accums.contents.get(target) {
                None => Err(Halt::Stuck),
                Some(content) => read(&declared.kind, content),
            }
        }
    }
}
