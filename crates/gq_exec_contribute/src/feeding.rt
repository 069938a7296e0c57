// Inputs that a match contributes.
use gq_value::Input;
use std::alloc::Global;

/// An input for the accumulator of a slot at a vertex, which is 0 for a global one.
#[derive(Drop)]
pub struct Feeding {
    pub slot: u32,
    pub vertex: u32,
    pub input: Input,
}

/// A buffer for the inputs of one match. It is reused from candidate to candidate, which saves allocations.
#[derive(Drop)]
pub struct Room {
    pub(crate) gathered: Vec<Feeding>,
}

impl Room {
    /// An empty buffer. Allocates nothing.
    pub fn new(alloc: Global) -> Room {
        Room {
            gathered: Vec::new(alloc),
        }
    }
}
