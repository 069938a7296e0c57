// Jobs.
ghost use Rattle.std.specs.Prelude.{◌≡◌, ◌<◌, [], ◌∷◌, ◌++◌, OnOk, OnErr};

use crate::copies::copy_of_all;
use gq_base::{List, OutOfMemory};
use gq_value::Input;
use std::alloc::Global;

/// The contributions of candidates: targets, each with an input.
pub type Contributions = List<(u64, Input)>;

/// What is to be fed: chunks of contributions, in order, and the number of stripes, at least 1.
#[derive(Debug, Drop)]
pub struct FeedJob {
    pub chunks: List<Contributions>,
    pub stripes: u32,
    ghost some: { 0 < stripes },
}

impl FeedJob {
    /// Returns a job without chunks; allocates nothing.
    pub fn new(alloc: Global, stripes: u32) -> FeedJob
        requires { 0 < stripes }
        ensures chunks { result.chunks ≡ [] }
        ensures stripes { result.stripes ≡ stripes }
    {
        FeedJob {
            chunks: List::new(alloc),
            stripes,
        }
    }

    /// Appends a copy of `inputs` as a chunk. After `OutOfMemory` the job is unchanged.
    pub fn add_chunk(&mut self, alloc: Global, inputs: &Contributions) -> Result<(), OutOfMemory>
        ensures ok { OnOk result (self.new.chunks ≡ self.old.chunks ++ inputs.now ∷ []) }
        ensures err { OnErr result (self.new.chunks ≡ self.old.chunks) }
        ensures stripes { self.new.stripes ≡ self.old.stripes }
    {
        self.chunks.push(copy_of_all(alloc, inputs.as_slice())?)?;
        Ok(())
    }
}
