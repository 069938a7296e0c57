// Ghost data of words and of a seat. Only contracts mention both.
use crate::fold::Op;
use std::collections::LinkedList;

/// The data that words are opened with.
#[derive(Drop)]
pub(crate) struct Opening {
    /// Each word's operation and initial value.
    pub words: Vec<(Op, u64)>,

    /// The maximum number of seats.
    pub seats: u32,
}

/// The ghost view of a seat. No value of it is ever made.
pub(crate) struct View {
    /// The number of seats that it represents: itself, and those that were joined into it.
    pub stands: u32,

    /// The number of seats that may still be split off.
    pub spare: u32,

    /// The inputs that were fed through these seats: the word's place, and the input.
    pub feeds: LinkedList<(usize, u64)>,
}
