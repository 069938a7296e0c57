// Batches of contributions.
ghost use Rattle.std.specs.Prelude.{◌≡◌, ◌<◌, [], length, replicate, slice_get, Some, IfOk, OnOk, OnErr};
ghost use Rattle.gq_core.specs.Batches.{Gains};

use gq_base::OutOfMemory;
use gq_value::Input;
use std::alloc::Global;
use std::marker::Model;

/// The contributions of one chunk, grouped by stripe: a list for each, at least one. Contracts see the lists.
///
/// One worker fills them for one chunk after another, so clearing keeps the memory.
#[derive(Debug, Drop)]
pub struct Batches {
    lists: Vec<Vec<(u64, Input)>>,
}

impl Model for Batches {
    ghost use Rattle.std.specs.Prelude.{ℕ, ◌<◌, List, length, map};
    ghost use Rattle.std.specs.Coded.{codes};
    ghost use Rattle.gq_value.specs.declared.kind.Input.{Input};
    ghost use Rattle.gq_value.specs.contracts.kind.Input as input;

    ghost Value = { List (List (ℕ × Input)) };

    ghost coded = { Prim.hlevel (codes, input.the_row.coded) };

    ghost view = { λ b. map (λ list. list.items) b.lists.items };

    ghost invariant = { λ b. 0 < length b.lists.items };
}

impl Batches {
    /// Returns empty lists, one for each stripe.
    pub fn new(alloc: Global, stripes: u32) -> Result<Batches, OutOfMemory>
        requires { 0 < stripes }
        ensures { IfOk result (λ b. b ≡ replicate stripes []) }
    {
        let mut lists = Vec::with_capacity(alloc, stripes as usize)?;
        for _stripe in 0..stripes {
            lists.push(Vec::new(alloc))?;
        }
        Ok(Batches { lists })
    }

    /// The number of stripes.
    pub fn stripes(&self) -> usize
        ensures stripes { result ≡ length self.now }
        ensures some { 0 < result }
    {
        self.lists.len()
    }

    /// The contributions for a stripe, in the order in which they were added.
    pub fn at(&self, stripe: usize) -> &[(u64, Input)]
        requires { stripe < length self.now }
        ensures { slice_get self.now stripe ≡ Some result.now }
    {
        self.lists[stripe].as_slice()
    }

    /// Appends one contribution to the list of its stripe. After `OutOfMemory` the lists are unchanged, and the input
    /// is dropped.
    pub fn add(&mut self, target: u64, input: Input) -> Result<(), OutOfMemory>
        ensures ok { OnOk result (Gains self.old self.new target input) }
        ensures err { OnErr result (self.new ≡ self.old) }
    {
        let stripe = target % self.lists.len() as u64;
        self.lists[stripe as usize].push((target, input))?;
        Ok(())
    }

    /// Empties the list of each stripe and keeps the memory.
    pub fn clear(&mut self)
        ensures { self.new ≡ replicate (length self.old) [] }
    {
        for list in self.lists.iter_mut() {
            list.clear();
        }
    }
}
