// The work of a run, and the outputs of workers.
use crate::wanted::Wanted;
use gq_base::{List, OutOfMemory};
use gq_core::Batches;
use gq_eval_attributes::TupleType;
use gq_exec_contribute::{Column, Filter, Leaves, Stop, WaitingInputs};
use gq_frame::Frame;
use gq_index::{Candidates, Graph};
use gq_plan_ir::{Block, Plan};

/// The work of a run.
#[derive(Drop)]
pub(crate) struct Work<'b> {
    pub block: &'b Block,

    /// The names and accumulators of its expressions, resolved.
    pub leaves: Leaves<'b>,

    /// WHERE, if its accumulators could be resolved.
    pub filter: Option<Filter>,

    /// What the accumulators of a slot that WHERE reads are, side by side.
    pub column: Column,

    /// What the expressions read of targets and edges.
    pub wanted: Wanted,
    pub candidates: Candidates<'b>,

    /// The number of candidates per chunk, at least 1.
    pub size: u64,
}

/// The data that the workers of a round share: the candidates from `first` up to `last`, and the parts of a
/// `BlockContext`.
#[derive(Drop)]
pub(crate) struct Round<'a> {
    pub graph: Graph<'a>,
    pub plan: &'a Plan,
    pub tuples: &'a [TupleType],
    pub frame: &'a Frame,
    pub work: &'a Work<'a>,
    pub first: u64,
    pub last: u64,
}

/// A worker's output for the candidates from one place to another: inputs that wait to be fed, or the first fault and
/// its place.
#[derive(Drop)]
pub(crate) struct ChunkOutput {
    pub start: u64,
    pub end: u64,
    pub batches: Batches,

    /// They come after those in the batch.
    pub inputs: WaitingInputs,
    pub fault: Option<(u64, Stop)>,
}

/// A worker's output for all its chunks, with marks of the matched vertices.
#[derive(Drop)]
pub(crate) struct WorkerOutput {
    pub lefts: List<ChunkOutput>,
    pub sources: List<u64>,
    pub targets: List<u64>,
}

/// The output of the workers of a round, for the candidates from `first` up to `last`.
#[derive(Drop)]
pub(crate) struct RoundOutput {
    pub first: u64,
    pub last: u64,
    pub parts: Vec<Result<WorkerOutput, OutOfMemory>>,
}

impl RoundOutput {
    /// The number of contributions that wait to be fed.
    pub fn waiting(&self) -> u64 {
        let mut count = 0u64;
        for part in self.parts.as_slice() {
            match part {
                Ok(part) => count = count.saturating_add(waiting_in(part.lefts.as_slice())),
                Err(OutOfMemory) => {}
            }
        }
        count
    }
}

/// The number of contributions of these chunks.
fn waiting_in(lefts: &[ChunkOutput]) -> u64 {
    let mut count = 0u64;
    for left in lefts {
        if left.batches.stripes() > 0 {
            count = count.saturating_add(left.batches.at(0).len() as u64);
        }
        count = count.saturating_add(left.inputs.len() as u64);
    }
    count
}

/// The output of one round, which was tried, and the first fault of the round before, which was fed meanwhile.
#[derive(Drop)]
pub(crate) struct Turn {
    pub parts: Vec<Result<WorkerOutput, OutOfMemory>>,
    pub fault: Option<(u64, Stop)>,
}
