// Closing a book.
ghost use Rattle.std.specs.Prelude.{◌≡◌, ◌+◌, ◌<◌, ◌≤◌, None, [], true, length, vec_len, vec_capacity, IfOk, IfErr};
ghost use Rattle.std.specs.Slots.{slots_items, slots_len, IsFull};
ghost use Rattle.gq_stripe.specs.declared.fault.CloseFault.TheVariants.{OutOfMemory};
ghost use Rattle.gq_stripe.specs.Ending.{AreTaken, IsTakenBehind};

use crate::book::Book;
use crate::fault::CloseFault;
use crate::partials::Partials;
use crate::rule::Count;
use crate::seat::Seat;
use crate::stripe::Stripe;
use atomic_table::Closed;
use gq_base::List;
use gq_nest::Content;
use std::alloc::Global;

impl Book {
    ghost use Rattle.gq_stripe.specs.Seats.{plan_of, view_of, IsSeatOf, chunk_held, IsWhole, HasContents, IsFault};

    /// Returns the contents after all chunks' inputs, if each chunk was put at each stripe through this seat or those
    /// that were joined into it. The book is consumed in any case.
    pub fn close(self, seat: Seat) -> Result<Partials, CloseFault>
        requires { IsSeatOf self seat }
        ensures whole { IfOk result (λ _. IsWhole (plan_of self) (view_of seat)) }
        ensures contents { IfOk result (HasContents (plan_of self) (view_of seat).puts) }
        ensures fault { IfErr result (IsFault self seat) }
        // If all seats are joined into this one and a draw has found no chunk, no put is missing.
        ensures finished { chunk_held (view_of seat).phase ≡ None → (view_of seat).stands ≡ (plan_of self).seats → 0 < (view_of seat).ended → IfErr result (λ e. e ≡ OutOfMemory) }
    {
        let Book {
            table,
            chunks,
            stripes,
            alloc,
        } = self;
        let Seat {
            mut place,
            stage: _,
            stands: _,
            spare: _,
            draws: _,
            puts,
        } = seat;
        let wanted = chunks * u64::from(stripes);
        table.shared.load::<Count>(&mut place, 0);
        if puts < wanted {
            return Err(CloseFault::Unfinished {
                put: puts,
                of: wanted,
            });
        }
        let Ok(taken) = Vec::with_capacity(alloc, stripes as usize) else {
            return Err(CloseFault::OutOfMemory);
        };
        let (taken, fine) = take_all(table.close_with(place), taken, stripes as usize);
        if fine {
            Ok(Partials { stripes: taken })
        } else {
            Err(CloseFault::OutOfMemory)
        }
    }
}

// Takes the contents of all stripes. Returns false if one is spoiled.
fn take_all(
    mut closed: Closed<Option<Stripe>, Global>,
    mut taken: Vec<List<Content>>,
    count: usize,
) -> (Vec<List<Content>>, bool)
    requires full { IsFull closed.slots × (slots_len closed.slots ≡ count) }
    requires room { (taken.items ≡ []) × (count ≤ vec_capacity taken) }
    ensures { result.1 ≡ true → AreTaken count (slots_items closed.slots) result.0.items }
{
    let mut fine = true;
    for j in 0..count {
        if !keep(&mut taken, closed.take(j)) {
            fine = false;
        }
    }
    closed.free();
    (taken, fine)
}

// Appends the contents of a slot. Returns false if the stripe is spoiled.
fn keep(taken: &mut Vec<List<Content>>, slot: Option<Stripe>) -> bool
    requires { vec_len taken.old < vec_capacity taken.old }
    ensures room { vec_capacity taken.new ≡ vec_capacity taken.old }
    ensures few { length taken.new.items ≤ length taken.old.items + 1 }
    ensures kept { result ≡ true → IsTakenBehind slot taken.old.items taken.new.items }
{
    match slot {
        Some(
            Stripe {
                contents,
                laid: _,
                spoiled,
            },
        ) => {
            taken.push_reserved(contents);
            !spoiled
        }
        None => false,
    }
}
