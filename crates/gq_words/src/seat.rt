// Seats, through which threads feed words.
ghost use Rattle.std.specs.Prelude.{◌≡◌, ◌+◌, ◌≤◌, []};

use crate::view::View;
use atomic_table::Seat;

/// A thread's seat at some `Words`.
///
/// Seats move between threads and are joined at the end. What was fed through a seat that is dropped stays in the
/// words, which then can't be closed.
#[derive(Drop)]
pub struct WordSeat {
    pub(crate) seat: Seat<(), View>,
    pub(crate) stands: u32,
    pub(crate) spare: u32,
    ghost stands_is: { seat.me.0.stands ≡ stands },
    ghost spare_is: { seat.me.0.spare ≡ spare },
    ghost bare: { seat.me.1 ≡ [] },
    ghost live: { 1 ≤ stands },
    ghost few: { stands + spare ≤ 1024 },
}

impl WordSeat {
    ghost use Rattle.gq_words.specs.Seats.{view_of};

    /// Returns how many seats may still be split off this one.
    pub fn spare(&self) -> u32
        ensures { result ≡ (view_of self.now).spare }
    {
        self.spare
    }
}
