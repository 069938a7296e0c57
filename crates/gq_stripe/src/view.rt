// Ghost data of a book and of a seat. Only contracts mention both.
use crate::layout::Layout;
use gq_base::List;
use gq_core::Phase;
use gq_value::Input;

/// The data that a book is opened with.
#[derive(Drop)]
pub(crate) struct Plan {
    /// The kind of each target.
    pub layout: Layout,

    /// The number of chunks.
    pub chunks: u64,

    /// The number of stripes.
    pub stripes: u32,

    /// The maximum number of seats.
    pub seats: u32,
}

/// The stage of a seat between two calls.
#[derive(Clone, Copy)]
pub(crate) enum Stage {
    /// It may draw a chunk.
    Idle,

    /// Drew a number past the last chunk.
    Ended,

    /// Holds a chunk that is to be put.
    Holds(u64),
}

/// A chunk's batch that was put at a stripe.
pub(crate) struct Put {
    pub chunk: u64,
    pub stripe: u32,

    /// The put's ticket there.
    pub ticket: u64,

    /// The contributions of the chunk to this stripe.
    pub batch: List<(u64, Input)>,

    /// Whether the stripe was spoiled then, by this batch or by an earlier one.
    pub spoiled: bool,
}

/// The ghost view of a seat. No value of it is ever made.
pub(crate) struct View {
    /// The plan of the book, since a step can't read it elsewhere.
    pub of: Plan,

    /// The number of seats that it represents: itself, and those that were joined into it.
    pub stands: u32,

    /// The number of these that have ended.
    pub ended: u32,

    /// The number of seats that may still be split off.
    pub spare: u32,

    /// Its phase.
    pub phase: Phase,

    /// The batch that waits for its turn.
    pub batch: List<(u64, Input)>,

    /// The earlier puts at the stripe that it has away.
    pub base: List<Put>,

    /// The chunks that were drawn through these seats.
    pub draws: List<u64>,

    /// The puts that were made through them.
    pub puts: List<Put>,
}
