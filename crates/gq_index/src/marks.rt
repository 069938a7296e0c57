// Which type numbers a pattern lists.
ghost use Rattle.std.specs.Prelude.{◌≡◌, IfOk, map};
ghost use Rattle.std.specs.List.{range_with_len};
ghost use Rattle.gq_graph.specs.Candidates.{among};

use gq_base::OutOfMemory;
use std::alloc::Global;
use std::marker::Model;

/// Flags, for each number below the count, whether it is listed.
fn flags(alloc: Global, listed: &[u32], count: u32) -> Result<Vec<bool>, OutOfMemory>
    ensures { IfOk result (λ f. f.items ≡ map (among listed.now) (range_with_len 0 count)) }
{
    Ok(
        (0..count)
            .map(|number| listed.contains(&number))
            .collect(alloc)?,
    )
}

/// A list of numbers with a constant-time membership test for low numbers. Contracts see the list.
#[derive(Drop)]
pub struct Marks<'a> {
    listed: &'a [u32],
    flags: Vec<bool>,
}

impl<'a> Model for Marks<'a> {
    ghost use Rattle.std.specs.Prelude.{◌≡◌, ℕ, List, length, map};
    ghost use Rattle.gq_graph.specs.Candidates.{among};
    ghost use Rattle.gq_index.specs.Places.{below};

    ghost Value = { List ℕ };

    ghost view = { λ m. m.listed.now };

    ghost invariant = { λ m. m.flags.items ≡ map (among m.listed.now) (below (length m.flags.items)) };
}

impl<'a> Marks<'a> {
    /// Marks a list, with a flag for each number below the count.
    pub fn of(alloc: Global, listed: &'a [u32], count: u32) -> Result<Marks<'a>, OutOfMemory>
        ensures { IfOk result (λ m. m ≡ listed.now) }
    {
        let flags = flags(alloc, listed, count)?;
        Ok(Marks { listed, flags })
    }

    /// Whether a number is listed.
    pub fn has(&self, number: u32) -> bool
        ensures { result ≡ among self.now number }
    {
        match self.flags.get(number as usize) {
            Some(flag) => *flag,
            None => self.listed.contains(&number),
        }
    }
}
