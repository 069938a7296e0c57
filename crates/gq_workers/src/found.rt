// The results collected so far.
ghost use Rattle.std.specs.Prelude.{◌≡◌, [], length, IfOk, OnOk};
ghost use Rattle.gq_workers.specs.Running.{AddsInputs, IsOpened, Settles};

use gq_base::{List, OutOfMemory};
use gq_core::Batches;
use gq_exec_contribute::{Room, WaitingInputs, input_of};
use gq_exec_source::unmarked;
use std::alloc::Global;

/// The effects of candidates: inputs that wait to be fed, and marks of the matched vertices.
#[derive(Drop)]
pub(crate) struct MatchBuffer {
    pub batches: Batches,

    /// Inputs that are INTs or truth values, each with the number of its target. They come after those in the batch.
    pub inputs: WaitingInputs,
    pub room: Room,
    pub sources: List<u64>,
    pub targets: List<u64>,
}

impl MatchBuffer {
    /// Returns an empty buffer, for this number of vertices.
    #[tactic(auto, using(crate::proofs::FoundLemmas::open_laws))]
    pub fn open(alloc: Global, vertices: u32) -> Result<MatchBuffer, OutOfMemory>
        ensures { IfOk result (IsOpened vertices) }
    {
        Ok(MatchBuffer {
            batches: Batches::new(alloc, 1)?,
            inputs: WaitingInputs::new(alloc),
            room: Room::new(alloc),
            sources: unmarked(alloc, vertices)?,
            targets: unmarked(alloc, vertices)?,
        })
    }

    /// Appends the inputs that wait after the batch to the batch, so that it can take more.
    #[tactic(auto, using(crate::proofs::FoundLemmas::settle_laws))]
    pub fn settle(&mut self, alloc: Global) -> Result<(), OutOfMemory>
        requires { length self.old.batches ≡ 1 }
        ensures kept { OnOk result (Settles self.old self.new) }
        ensures none { OnOk result (self.new.inputs ≡ []) }
    {
        if self.inputs.len() > 0 {
            add_inputs(alloc, &self.inputs, &mut self.batches)?;
            self.inputs.truncate(0);
        }
        Ok(())
    }
}

/// Appends INTs and truth values to the batch, as inputs.
#[tactic(auto, using(crate::proofs::FoundLemmas::ints_laws))]
fn add_inputs(alloc: Global, inputs: &WaitingInputs, into: &mut Batches) -> Result<(), OutOfMemory>
    requires { length into.old ≡ 1 }
    ensures { OnOk result (AddsInputs inputs.now into.old into.new) }
{
    for place in 0..inputs.len() {
        let (target, input) = inputs.at(place);
        into.add(target, input_of(alloc, &input)?)?;
    }
    Ok(())
}
