// Slots and target numbers.
ghost use Rattle.std.specs.Prelude.{if◌then◌else◌, ◌≡◌, ◌<◌, length, IfOk};
ghost use Rattle.gq_frame.specs.Targets.{number_of, targets_of};

use gq_base::{List, OutOfMemory};
use gq_value::Slot;
use std::alloc::Global;

/// The accumulators that a query declares, in order, and the number of vertices of the store.
#[derive(Debug, Drop)]
pub struct Slots {
    pub declared: List<Slot>,
    pub vertices: u32,
}

/// The number of targets of an accumulator: one for each vertex if it is attached, and one if it is global.
pub fn targets(attached: bool, vertices: u32) -> u32
    ensures { result ≡ (if attached then vertices else 1) }
{
    if attached { vertices } else { 1 }
}

impl Slots {
    /// The index of a target in the array of all targets. The vertex is 0 for a slot that isn't attached.
    ///
    /// Takes a step for each earlier slot. The targets of one slot are in order of their vertices, so one call serves
    /// all of them. Doesn't allocate.
    pub fn target(&self, slot: u32, vertex: u32) -> u64
        requires { slot < length self.now.declared }
        ensures { result ≡ number_of self.now slot vertex }
    {
        let mut number = 0u64;
        for before in &self.declared.as_slice()[..slot as usize] {
            number += u64::from(self.targets(before));
        }
        number + u64::from(vertex)
    }

    /// The number of targets of a slot.
    pub fn targets(&self, slot: &Slot) -> u32
        ensures { result ≡ targets_of self.now.vertices slot.now }
    {
        targets(slot.attached, self.vertices)
    }

    /// Copies the slots.
    pub fn duplicate(&self, alloc: Global) -> Result<Slots, OutOfMemory>
        ensures { IfOk result (λ copy. copy ≡ self.now) }
    {
        let mut declared = List::new(alloc);
        for slot in self.declared.as_slice() {
            declared.push(Slot {
                kind: slot.kind.duplicate(alloc)?,
                attached: slot.attached,
            })?;
        }
        Ok(Slots {
            declared,
            vertices: self.vertices,
        })
    }
}
