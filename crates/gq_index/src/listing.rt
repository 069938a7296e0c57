// A growing list of candidates.
ghost use Rattle.std.specs.Prelude.{◌≡◌, ◌<◌, ◌^◌, ◌++◌, [], ◌∷◌, length, OnErr, OnOk};
ghost use Rattle.gq_index.specs.Segments.{of_walk};

use crate::candidates::Candidates;
use crate::runs::{Reached, Runs, Segment, push};
use crate::walks::Traversal;
use gq_base::OutOfMemory;
use std::alloc::Global;
use std::marker::Model;

/// A growing list of candidates along edges. Contracts see them as a list.
///
/// They take 12 bytes for each segment, which is one source with one edge type, and 8 for each candidate.
#[derive(Drop)]
pub struct Listing {
    segments: Vec<Segment>,
    reached: Vec<Reached>,
}

impl Model for Listing {
    ghost use Rattle.std.specs.Prelude.{List, map};
    ghost use Rattle.gq_graph.specs.declared.rows.Candidate.{Candidate};
    ghost use Rattle.gq_index.specs.Runs.{shown, Holds};
    ghost use Rattle.gq_index.specs.Segments.{of_walk};

    ghost Value = { List Candidate };

    ghost view = { λ l. map of_walk (shown l.segments.items l.reached.items) };

    ghost invariant = { λ l. Holds l.segments.items l.reached.items (shown l.segments.items l.reached.items) };
}

impl Listing {
    /// Returns an empty list; allocates nothing.
    pub fn new(alloc: Global) -> Listing
        ensures { result ≡ [] }
    {
        Listing {
            segments: Vec::new(alloc),
            reached: Vec::new(alloc),
        }
    }

    /// The number of candidates.
    pub fn len(&self) -> usize
        ensures { result ≡ length self.now }
    {
        self.reached.len()
    }

    /// Appends the candidate along a walk. After `OutOfMemory` the list is empty.
    pub fn push(&mut self, walk: Traversal) -> Result<(), OutOfMemory>
        requires { length self.old < 2 ^ 32 }
        ensures ok { OnOk result (self.new ≡ self.old ++ of_walk walk ∷ []) }
        ensures err { OnErr result (self.new ≡ []) }
    {
        match push(&mut self.segments, &mut self.reached, walk) {
            Ok(()) => Ok(()),
            Err(OutOfMemory) => {
                self.segments.clear();
                self.reached.clear();
                Err(OutOfMemory)
            }
        }
    }

    /// Returns the candidates.
    pub fn done<'g>(self) -> Candidates<'g>
        ensures { result ≡ self }
    {
        Candidates::along(Runs::of(self.segments, self.reached))
    }
}
