// A chunk's turn at each stripe: take a ticket, wait for it, lay the batch, and leave.
ghost use Rattle.std.specs.Prelude.{◌≡◌, ◌+◌, ◌<◌, [], true, false, Some, IsOk, MatchResult};

use crate::book::Book;
use crate::rule::{InHand, Leave, Look, Ticket};
use crate::seat::{Place, Seat};
use crate::view::Stage;
use gq_base::OutOfMemory;
use gq_core::{Batches, Turn};
use gq_value::Input;
use std::marker::Brand;
use std::sync::Wait;
use std::thread;

impl Book {
    ghost use Rattle.gq_core.specs.declared.worker.Phase.TheVariants.{Holds, Waits, Lifted};
    ghost use Rattle.gq_stripe.specs.Contents.{all_scalar};
    ghost use Rattle.gq_stripe.specs.Steps.{waiting, lifted, left};
    ghost use Rattle.gq_stripe.specs.Seats.{plan_of, view_of, IsSeatOf, IsSameSeat, chunk_held, FitBatches, HasPut};
    ghost use Rattle.gq_stripe.specs.Turns.{IsAt, IsSamePlace, HasAway, turn_at, FitsAt, HasLaid, CanLeave, HasPutAt};

    // Takes a ticket for the current batch.
    fn ticket<B: InHand>(
        &self,
        place: &mut Place,
        chunk: u64,
        j: u32,
        batch: &[(u64, Input)],
    ) -> u64
        requires at { IsAt self.now place.old j }
        requires holds { (place.old.me.0.phase ≡ Holds chunk j) × (place.old.me.1 ≡ []) }
        requires batch { batch.now ≡ B.batch }
        ensures same { IsSamePlace place.old place.new }
        ensures waits { (place.new.me.1 ≡ []) × (place.new.me.0 ≡ waiting place.old.me.0 chunk j result batch.now) }
    {
        let _ = batch;
        let _ = chunk;
        self.table
            .shared
            .fetch_add::<Ticket<B>>(place, 2 * j as usize + 1, 1)
    }

    // Waits until the ticket is served, and takes the stripe away.
    fn wait_for<R: Wait>(&self, rt: &R, place: &mut Place, chunk: u64, j: u32, ticket: u64)
        requires at { IsAt self.now place.old j }
        requires waits { (place.old.me.0.phase ≡ Waits (turn_at chunk j ticket)) × (place.old.me.1 ≡ []) }
        ensures same { IsSamePlace place.old place.new }
        ensures view { (base : _) × (place.new.me.0 ≡ lifted place.old.me.0 (turn_at chunk j ticket) base) }
        ensures away { HasAway (turn_at chunk j ticket) place.new }
    {
        let _ = chunk;
        for _ in rt.forever() {
            let served = self.table.shared.load::<Look>(place, 2 * j as usize + 2);
            if served == ticket {
                return;
            }
            thread::yield_now();
        }
        unreachable!()
    }

    // Lays the batch on the stripe that is away. Returns whether the stripe is spoiled then.
    fn lay(&self, place: &mut Place, turn: Turn, batch: &[(u64, Input)]) -> bool
        requires at { IsAt self.now place.old turn.stripe }
        requires away { HasAway turn place.old }
        requires fits { FitsAt place.old turn.stripe batch.now }
        ensures same { IsSamePlace place.old place.new × (place.new.me.0 ≡ place.old.me.0) }
        ensures laid { HasLaid turn batch.now result place.old place.new }
    {
        let shared = &self.table.shared;
        let slot = turn.stripe as usize;
        let Some(mut stripe) = shared.exchange(place, slot, None) else {
            unreachable!()
        };
        stripe.lay(self.alloc, self.stripes, batch);
        let spoiled = stripe.spoiled;
        shared.exchange(place, slot, Some(stripe));
        spoiled
    }

    // Brings the stripe back, and lets the next ticket be served.
    fn leave(&self, place: &mut Place, turn: Turn, spoiled: bool)
        requires at { IsAt self.now place.old turn.stripe }
        requires away { CanLeave turn spoiled place.old }
        ensures same { IsSamePlace place.old place.new }
        ensures left { (place.new.me.1 ≡ []) × (place.new.me.0 ≡ left place.old.me.0 turn spoiled) }
    {
        let _ = spoiled;
        self.table
            .shared
            .fetch_add::<Leave>(place, 2 * turn.stripe as usize + 2, 1);
    }

    // Puts one batch at its stripe. Returns whether the stripe is spoiled then.
    fn put_at<R: Wait>(
        &self,
        rt: &R,
        place: &mut Place,
        chunk: u64,
        j: u32,
        batch: &[(u64, Input)],
    ) -> bool
        requires at { IsAt self.now place.old j }
        requires holds { (place.old.me.0.phase ≡ Holds chunk j) × (place.old.me.1 ≡ []) }
        requires fits { FitsAt place.old j batch.now }
        ensures same { IsSamePlace place.old place.new }
        ensures put { (place.new.me.1 ≡ []) × HasPutAt chunk j batch.now result place.old.me.0 place.new.me.0 }
        ensures scalars { all_scalar place.old.me.0.of.layout ≡ true → result ≡ false }
    {
        let ticket = self.ticket::<Brand>(place, chunk, j, batch);
        self.wait_for(rt, place, chunk, j, ticket);
        let turn = Turn {
            chunk,
            stripe: j,
            ticket,
        };
        let spoiled = self.lay(place, turn, batch);
        self.leave(place, turn, spoiled);
        spoiled
    }

    // Puts a batch at each stripe in order. Returns whether one of them is spoiled then.
    fn put_all<R: Wait>(&self, rt: &R, place: &mut Place, chunk: u64, batches: &Batches) -> bool
        requires at { IsAt self.now place.old 0 }
        requires holds { (place.old.me.0.phase ≡ Holds chunk 0) × (place.old.me.1 ≡ []) }
        requires bare { (place.old.me.0.batch ≡ []) × (place.old.me.0.base ≡ []) }
        requires fit { FitBatches place.old.me.0.of batches.now }
        ensures same { IsSamePlace place.old place.new }
        ensures put { (place.new.me.1 ≡ []) × HasPut chunk batches.now result place.old.me.0 place.new.me.0 }
        ensures scalars { all_scalar place.old.me.0.of.layout ≡ true → result ≡ false }
    {
        let mut spoiled = false;
        for j in 0..self.stripes {
            spoiled = self.put_at(rt, place, chunk, j, batches.at(j as usize)) || spoiled;
        }
        spoiled
    }

    /// Waits for the chunk's turn at each stripe in order, and lays its batch there.
    ///
    /// The chunk is put at each stripe in any case. A batch that runs out of memory spoils its stripe; this put and
    /// each later one there then returns `OutOfMemory`, and the book can't be closed. On a layout of only numbers,
    /// truth values and averages it allocates nothing. A batch fits if it was made for this number of stripes, for
    /// targets of the layout whose kinds contain no ListAccum and take it; there are at most 2^35 contributions.
    pub fn put<R: Wait>(
        &self,
        rt: &R,
        seat: &mut Seat,
        chunk: u64,
        batches: &Batches,
    ) -> Result<(), OutOfMemory>
        requires own { IsSeatOf self.now seat.old }
        requires holds { chunk_held (view_of seat.old).phase ≡ Some chunk }
        requires fit { FitBatches (plan_of self.now) batches.now }
        ensures same { IsSameSeat seat.old seat.new }
        ensures put { MatchResult result (λ _. HasPut chunk batches.now false (view_of seat.old) (view_of seat.new)) (λ _. HasPut chunk batches.now true (view_of seat.old) (view_of seat.new)) }
        ensures scalars { all_scalar (plan_of self.now).layout ≡ true → IsOk result }
    {
        let spoiled = self.put_all(rt, &mut seat.place, chunk, batches);
        seat.stage = Stage::Idle;
        seat.puts += u64::from(self.stripes);
        if spoiled { Err(OutOfMemory) } else { Ok(()) }
    }
}
