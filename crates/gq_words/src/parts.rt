// The initial words of a table, and those that are read after it is closed.
ghost use Rattle.std.specs.Prelude.{◌≡◌, ◌<◌, [], ◌∷◌, ◌++◌, map, take, IfOk};
ghost use Rattle.std.specs.Slots.{slots_items, slots_len, IsFull};

use crate::fold::Op;
use crate::view::Opening;
use atomic_table::Closed;
use gq_base::OutOfMemory;
use std::alloc::Global;

pub(crate) fn opening(
    alloc: Global,
    openings: &[(Op, u64)],
    seats: u32,
) -> Result<Opening, OutOfMemory>
    ensures { IfOk result (λ o. (o.words.items ≡ openings.now) × (o.seats ≡ seats)) }
{
    let words = Vec::from_slice(alloc, openings)?;
    Ok(Opening { words, seats })
}

// Returns the initial values, followed by the number of seats made, which is one.
pub(crate) fn first_words(alloc: Global, openings: &[(Op, u64)]) -> Result<Vec<u64>, OutOfMemory>
    ensures { IfOk result (λ v. v.items ≡ map (λ o. o.1) openings.now ++ 1 ∷ []) }
{
    let mut words = Vec::with_capacity(alloc, openings.len() + 1)?;
    for opening in openings {
        words.push(opening.1)?;
    }
    words.push(1)?;
    Ok(words)
}

// Returns the first words of a closed table.
pub(crate) fn first_of(
    alloc: Global,
    closed: &Closed<(), Global>,
    count: usize,
) -> Result<Vec<u64>, OutOfMemory>
    requires { IsFull closed.now.words × (count < slots_len closed.now.words) }
    ensures { IfOk result (λ v. v.items ≡ take count (slots_items closed.now.words)) }
{
    let mut words = Vec::with_capacity(alloc, count)?;
    for i in 0..count {
        words.push(closed.word(i))?;
    }
    Ok(words)
}
