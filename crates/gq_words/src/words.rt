// Words in their table, and the steps.
ghost use Rattle.std.specs.Prelude.{◌≡◌, ◌+◌, ◌-◌, ◌≤◌, [], length, IfOk, IfErr};
ghost use Rattle.gq_words.specs.Rule.{openings};

use crate::fault::WordFault;
use crate::fold::Op;
use crate::parts::{first_of, first_words, opening};
use crate::rule::{Count, Cut, Feed, Folds, Look, Merge};
use crate::seat::WordSeat;
use crate::view::{Opening, View};
use atomic_table::Table;
use gq_base::OutOfMemory;
use std::alloc::Global;

/// Words that threads feed by single atomic steps. They are shared by reference; each thread has a seat.
///
/// The words given to `open` come first in the table, followed by one that counts the seats made.
#[derive(Drop)]
pub struct Words {
    table: Table<(), View, Opening, Folds, Global>,
    count: usize,
    alloc: Global,
    ghost counted: { count ≡ length (openings table.shared.key) },
    ghost wide: { table.shared.table_id.words ≡ count + 1 },
    ghost bare: { table.shared.table_id.slots ≡ 0 },
}

impl Words {
    ghost use Rattle.gq_words.specs.Rule.{view, with_feed, joined};
    ghost use Rattle.gq_words.specs.Seats.{openings_of, seats_of, view_of, IsSeatOf, IsSameSeat, HasOp, AreFolds, IsWhole, IsFault};

    /// Opens words with these operations and initial values, for at most `seats` seats, of which there may be 1,024.
    ///
    /// The first seat is handed out; the others are split off it.
    pub fn open(
        alloc: Global,
        openings: &[(Op, u64)],
        seats: u32,
    ) -> Result<(Words, WordSeat), OutOfMemory>
        requires { (1 ≤ seats) × (seats ≤ 1024) }
        ensures words { IfOk result (λ r. (openings_of r.0 ≡ openings.now) × (seats_of r.0 ≡ seats)) }
        ensures seat { IfOk result (λ r. IsSeatOf r.0 r.1 × (view_of r.1 ≡ view 1 (seats - 1) [])) }
    {
        let key = opening(alloc, openings, seats)?;
        let words = first_words(alloc, openings)?;
        let (table, seat) = Table::of_words(alloc, words.as_slice(), &key)?;
        let words = Words {
            table,
            count: openings.len(),
            alloc,
        };
        let seat = WordSeat {
            seat,
            stands: 1,
            spare: seats - 1,
        };
        Ok((words, seat))
    }

    /// Raises word `i` to `x` if it is smaller. One atomic step; allocates nothing.
    pub fn feed_max(&self, seat: &mut WordSeat, i: usize, x: u64)
        requires own { IsSeatOf self.now seat.old }
        requires op { HasOp self.now i Op.Max }
        ensures same { IsSameSeat seat.old seat.new }
        ensures fed { view_of seat.new ≡ with_feed (view_of seat.old) i x }
    {
        self.table.shared.fetch_max::<Feed>(&mut seat.seat, i, x);
    }

    /// Lowers word `i` to `x` if it is greater. One atomic step; allocates nothing.
    pub fn feed_min(&self, seat: &mut WordSeat, i: usize, x: u64)
        requires own { IsSeatOf self.now seat.old }
        requires op { HasOp self.now i Op.Min }
        ensures same { IsSameSeat seat.old seat.new }
        ensures fed { view_of seat.new ≡ with_feed (view_of seat.old) i x }
    {
        self.table.shared.fetch_min::<Feed>(&mut seat.seat, i, x);
    }

    /// Sets the bits of `x` in word `i`. One atomic step; allocates nothing.
    pub fn feed_or(&self, seat: &mut WordSeat, i: usize, x: u64)
        requires own { IsSeatOf self.now seat.old }
        requires op { HasOp self.now i Op.Or }
        ensures same { IsSameSeat seat.old seat.new }
        ensures fed { view_of seat.new ≡ with_feed (view_of seat.old) i x }
    {
        self.table.shared.fetch_or::<Feed>(&mut seat.seat, i, x);
    }

    /// Clears the bits of word `i` that `x` doesn't have. One atomic step; allocates nothing.
    pub fn feed_and(&self, seat: &mut WordSeat, i: usize, x: u64)
        requires own { IsSeatOf self.now seat.old }
        requires op { HasOp self.now i Op.And }
        ensures same { IsSameSeat seat.old seat.new }
        ensures fed { view_of seat.new ≡ with_feed (view_of seat.old) i x }
    {
        self.table.shared.fetch_and::<Feed>(&mut seat.seat, i, x);
    }

    /// Splits off another seat, through which nothing was fed yet. Allocates nothing and never waits.
    pub fn split(&self, seat: &mut WordSeat) -> WordSeat
        requires own { IsSeatOf self.now seat.old }
        requires spare { 1 ≤ (view_of seat.old).spare }
        ensures same { IsSameSeat seat.old seat.new }
        ensures kept { view_of seat.new ≡ view (view_of seat.old).stands ((view_of seat.old).spare - 1) (view_of seat.old).feeds }
        ensures made { IsSeatOf self.now result × (view_of result ≡ view 1 0 []) }
    {
        let shared = &self.table.shared;
        shared.fetch_add::<Count>(&mut seat.seat, self.count, 1);
        seat.spare -= 1;
        let made = shared.split_seat::<Cut>(&mut seat.seat);
        WordSeat {
            seat: made,
            stands: 1,
            spare: 0,
        }
    }

    /// Joins another seat into this one: what was fed through it, the seats that it represents, and those that it may
    /// still make.
    ///
    /// Allocates nothing and never waits.
    pub fn join(&self, seat: &mut WordSeat, other: WordSeat)
        requires own { IsSeatOf self.now seat.old }
        requires other { IsSeatOf self.now other }
        ensures same { IsSameSeat seat.old seat.new }
        ensures both { view_of seat.new ≡ joined (view_of seat.old) (view_of other) }
    {
        let WordSeat {
            seat: theirs,
            stands,
            spare,
        } = other;
        let shared = &self.table.shared;
        shared.join_seat::<Merge>(&mut seat.seat, theirs);
        // The rule bounds the seats of one view, and a look at any word shows it: so the two sums are in range.
        shared.load::<Look>(&mut seat.seat, 0);
        seat.stands += stands;
        seat.spare += spare;
    }

    /// Returns the final words, in the order of the openings.
    ///
    /// All seats that were made have to be joined into this one: then it represents, or may still make, all the seats
    /// given to `open`, and otherwise fewer.
    pub fn close(self, seat: WordSeat) -> Result<Vec<u64>, WordFault>
        requires { IsSeatOf self seat }
        ensures folds { IfOk result (λ words. AreFolds (openings_of self) (view_of seat).feeds words.items) }
        ensures whole { IfOk result (λ _. IsWhole self seat) }
        ensures fault { IfErr result (IsFault self seat) }
    {
        let Words {
            table,
            count,
            alloc,
        } = self;
        let WordSeat {
            seat,
            stands,
            spare: _,
        } = seat;
        let closed = table.close_with(seat);
        let made = closed.word(count);
        if u64::from(stands) < made {
            closed.free();
            return Err(WordFault::Apart {
                joined: stands,
                made: made as u32,
            });
        }
        let words = first_of(alloc, &closed, count);
        closed.free();
        Ok(words?)
    }
}
