// Seats, through which threads fill a book.
ghost use Rattle.std.specs.Prelude.{◌≡◌, ◌+◌, ◌*◌, ◌^◌, ◌≤◌, length};
ghost use Rattle.gq_stripe.specs.Phases.{phase_of, held_by};

use crate::stripe::Stripe;
use crate::view::{Stage, View};

/// The place of a thread, through which it takes steps.
pub(crate) type Place = atomic_table::Seat<Option<Stripe>, View>;

/// A thread's seat at some `Book`.
///
/// Seats move between threads and are joined at the end. What was put through a seat that is dropped stays in the
/// stripes, and the book can't be closed.
#[derive(Drop)]
pub struct Seat {
    pub(crate) place: Place,
    pub(crate) stage: Stage,
    pub(crate) stands: u32,
    pub(crate) spare: u32,
    pub(crate) draws: u64,
    pub(crate) puts: u64,
    ghost bare: { (length place.me.1 ≡ 0) × (length place.me.0.batch ≡ 0) × (length place.me.0.base ≡ 0) },
    ghost phase_is: { place.me.0.phase ≡ phase_of stage },
    ghost stands_is: { place.me.0.stands ≡ stands },
    ghost spare_is: { place.me.0.spare ≡ spare },
    ghost draws_is: { length place.me.0.draws ≡ draws },
    ghost puts_is: { length place.me.0.puts ≡ puts },
    ghost live: { 1 ≤ stands },
    ghost few: { stands + spare ≤ 1024 },
    ghost chunks: { draws ≤ 2 ^ 25 },
    ghost less: { puts + 256 * held_by stage ≤ 256 * draws },
}

impl Seat {
    ghost use Rattle.gq_stripe.specs.Seats.{view_of, chunk_held, has_ended};

    /// Returns the chunk that was drawn and is still to be put.
    pub fn holds(&self) -> Option<u64>
        ensures { result ≡ chunk_held (view_of self.now).phase }
    {
        match self.stage {
            Stage::Holds(chunk) => Some(chunk),
            Stage::Idle | Stage::Ended => None,
        }
    }

    /// Whether a draw has found no chunk.
    pub fn ended(&self) -> bool
        ensures { result ≡ has_ended (view_of self.now).phase }
    {
        matches!(self.stage, Stage::Ended)
    }

    /// Returns how many seats may still be split off this one.
    pub fn spare(&self) -> u32
        ensures { result ≡ (view_of self.now).spare }
    {
        self.spare
    }
}
