// The result of a block.
use gq_frame::Accums;
use gq_index::VertexList;
use gq_value::Wrong;

/// The result of a block: the accumulators, and the distinct matched vertices by number.
#[derive(Drop)]
pub struct After {
    pub accums: Accums,
    pub sources: VertexList,
    pub targets: VertexList,
}

/// Why a block ends without a result.
#[derive(Clone, Copy, Debug, PartialEq, Eq)]
pub enum BlockFault {
    /// An expression's fault, with its place.
    Eval { at: u64, fault: Wrong },

    /// A sum out of range, in the accumulator of a slot.
    SumRange { slot: usize },

    /// The block's meaning is stuck; never so for a well typed block.
    Stuck,
    OutOfMemory,
}
