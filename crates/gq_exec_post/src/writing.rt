// State of a phase.
use crate::waiting::Waiting;
use gq_frame::Accums;

/// The accumulators with the writes of the vertices so far, and the inputs to global ones, which wait for the end of
/// the phase.
#[derive(Drop)]
pub(crate) struct Writing {
    pub accums: Accums,
    pub waiting: Waiting,
}
