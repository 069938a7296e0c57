// A book in its table, and the steps that don't wait.
ghost use Rattle.std.specs.Prelude.{◌≡◌, ◌+◌, ◌*◌, ◌-◌, ◌^◌, ◌<◌, ◌≤◌, false, None, IfOk, IfSome, IfNone};

use crate::layout::Layout;
use crate::opening::{first_stripes, first_words};
use crate::rule::{Count, Cut, Draw, Merge, Shows};
use crate::seat::Seat;
use crate::stripe::Stripe;
use crate::view::{Plan, Stage, View};
use atomic_table::Table;
use gq_base::OutOfMemory;
use std::alloc::Global;

/// Contents for the targets of a layout, divided into stripes, which threads fill chunk by chunk. A book is shared by
/// reference; each thread has a seat.
///
/// Word 0 is the next number to draw. Each stripe has a word for its tickets, one for the ticket that is served, and a slot.
#[derive(Drop)]
pub struct Book {
    pub(crate) table: Table<Option<Stripe>, View, Plan, Shows, Global>,
    pub(crate) chunks: u64,
    pub(crate) stripes: u32,
    pub(crate) alloc: Global,
    ghost chunks_is: { table.shared.key.chunks ≡ chunks },
    ghost stripes_is: { table.shared.key.stripes ≡ stripes },
    ghost wide: { table.shared.table_id.words ≡ 2 * stripes + 1 },
    ghost deep: { table.shared.table_id.slots ≡ stripes },
    ghost some: { (1 ≤ stripes) × (stripes ≤ 256) },
    ghost few: { chunks ≤ 2 ^ 25 },
}

impl Book {
    ghost use Rattle.gq_core.specs.Accounts.{times};
    ghost use Rattle.gq_stripe.specs.Rule.{first, handed, fresh, joined};
    ghost use Rattle.gq_stripe.specs.Steps.{got, last};
    ghost use Rattle.gq_stripe.specs.Seats.{plan_of, view_of, IsSeatOf, IsSameSeat, chunk_held, has_ended, IsOpenedWith};

    /// Opens a book with a content before any input for each target, for at most `seats` seats.
    ///
    /// There are 1 to 256 stripes, 1 to 1,024 seats, and at most 2^25 chunks. The first seat is handed out; the others are
    /// split off it.
    pub fn open(
        alloc: Global,
        layout: &Layout,
        chunks: u64,
        stripes: u32,
        seats: u32,
    ) -> Result<(Book, Seat), OutOfMemory>
        requires stripes { (1 ≤ stripes) × (stripes ≤ 256) }
        requires seats { (1 ≤ seats) × (seats ≤ 1024) }
        requires chunks { chunks ≤ 2 ^ 25 }
        ensures book { IfOk result (λ r. IsOpenedWith layout.now chunks stripes seats (plan_of r.0)) }
        ensures seat { IfOk result (λ r. IsSeatOf r.0 r.1 × (view_of r.1 ≡ first (plan_of r.0))) }
    {
        let plan = Plan {
            layout: layout.duplicate(alloc)?,
            chunks,
            stripes,
            seats,
        };
        let words = first_words(alloc, stripes)?;
        let slots = first_stripes(alloc, layout, stripes)?;
        let made = Table::new(alloc, words.as_slice(), slots, &plan);
        let Ok((table, place)) = made else {
            return Err(OutOfMemory);
        };
        let book = Book {
            table,
            chunks,
            stripes,
            alloc,
        };
        let seat = Seat {
            place,
            stage: Stage::Idle,
            stands: 1,
            spare: seats - 1,
            draws: 0,
            puts: 0,
        };
        Ok((book, seat))
    }

    /// Draws the next chunk, which this seat then holds. Returns None if the number that was drawn is past the last
    /// chunk; the seat has then ended. One atomic step, which never waits; allocates nothing.
    pub fn draw(&self, seat: &mut Seat) -> Option<u64>
        requires own { IsSeatOf self.now seat.old }
        requires free { chunk_held (view_of seat.old).phase ≡ None }
        requires live { has_ended (view_of seat.old).phase ≡ false }
        ensures same { IsSameSeat seat.old seat.new }
        ensures some { IfSome result (λ chunk. (chunk < (plan_of self.now).chunks) × (view_of seat.new ≡ got (view_of seat.old) chunk)) }
        // Nobody whose draws this seat knows drew it before.
        ensures fresh { IfSome result (λ chunk. times chunk (view_of seat.old).draws ≡ 0) }
        ensures none { IfNone result (view_of seat.new ≡ last (view_of seat.old)) }
    {
        let number = self.table.shared.fetch_add::<Draw>(&mut seat.place, 0, 1);
        if number < self.chunks {
            seat.stage = Stage::Holds(number);
            seat.draws += 1;
            Some(number)
        } else {
            seat.stage = Stage::Ended;
            None
        }
    }

    /// Splits off another seat, which has drawn and put nothing. Allocates nothing and never waits.
    pub fn split(&self, seat: &mut Seat) -> Seat
        requires own { IsSeatOf self.now seat.old }
        requires spare { 1 ≤ (view_of seat.old).spare }
        ensures same { IsSameSeat seat.old seat.new }
        ensures kept { view_of seat.new ≡ handed (view_of seat.old) }
        ensures made { IsSeatOf self.now result × (view_of result ≡ fresh (view_of seat.old)) }
    {
        let place = self.table.shared.split_seat::<Cut>(&mut seat.place);
        seat.spare -= 1;
        Seat {
            place,
            stage: Stage::Idle,
            stands: 1,
            spare: 0,
            draws: 0,
            puts: 0,
        }
    }

    /// Joins another seat into this one: what it drew and put, the seats that it represents, and those that it may
    /// still make. Otherwise the seat is unchanged. Allocates nothing and never waits.
    pub fn join(&self, seat: &mut Seat, other: Seat)
        requires own { IsSeatOf self.now seat.old }
        requires other { IsSeatOf self.now other }
        requires free { chunk_held (view_of seat.old).phase ≡ None }
        requires other_free { chunk_held (view_of other).phase ≡ None }
        ensures same { IsSameSeat seat.old seat.new }
        ensures both { view_of seat.new ≡ joined (view_of seat.old) (view_of other) }
        // No number was drawn through both.
        ensures once { (chunk : _) → times chunk (view_of seat.new).draws ≤ 1 }
    {
        let Seat {
            place,
            stage: _,
            stands,
            spare,
            draws,
            puts,
        } = other;
        let shared = &self.table.shared;
        shared.join_seat::<Merge>(&mut seat.place, place);
        // The rule bounds the numbers of a view, and a look at any word shows it: so the sums are in range.
        shared.load::<Count>(&mut seat.place, 0);
        seat.stands += stands;
        seat.spare += spare;
        seat.draws += draws;
        seat.puts += puts;
    }
}
