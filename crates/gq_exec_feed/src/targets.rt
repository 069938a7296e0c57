// Finds the targets of inputs.
ghost use Rattle.std.specs.Prelude.{◌≡◌, IfSome, IfOk, OnErr, Some, None};
ghost use Rattle.gq_value.specs.AccumViews.{given};
ghost use Rattle.gq_frame.specs.Targets.{number_of};
ghost use Rattle.gq_exec_feed.specs.Taking.{MayTake};

use crate::inputs::suits;
use gq_base::OutOfMemory;
use gq_frame::Slots;
use gq_value::Input;

/// The target number of a slot at a vertex, whose kind takes the input. A global accumulator has its target at vertex 0.
/// Linear in the slot number; allocates nothing.
pub fn place(slots: &Slots, slot: u32, vertex: u32, input: &Input) -> Result<u64, OutOfMemory>
    ensures { IfOk result (λ target. (target ≡ number_of slots.now slot vertex) × MayTake slots.now (record { slot = slot; vertex = vertex; input = given input.now })) }
{
    needed(found(slots, slot, vertex, input))
}

/// A target that each input and each change of a well typed block has; `OutOfMemory` exactly if there is none.
pub fn needed(target: Option<u64>) -> Result<u64, OutOfMemory>
    ensures ok { IfOk result (λ number. target ≡ Some number) }
    ensures err { OnErr result (target ≡ None) }
{
    match target {
        Some(number) => Ok(number),
        None => Err(OutOfMemory),
    }
}

/// The target number, if there is such a target and its kind takes the input.
fn found(slots: &Slots, slot: u32, vertex: u32, input: &Input) -> Option<u64>
    ensures { IfSome result (λ target. (target ≡ number_of slots.now slot vertex) × MayTake slots.now (record { slot = slot; vertex = vertex; input = given input.now })) }
{
    match slots.declared.get(slot as usize) {
        None => None,
        Some(declared) => {
            if vertex < slots.targets(declared) && suits(input, &declared.kind) {
                Some(slots.target(slot, vertex))
            } else {
                None
            }
        }
    }
}
