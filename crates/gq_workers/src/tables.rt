// The tables that the workers of a block share: a book of stripes, and words.
ghost use Rattle.std.specs.Prelude.{◌≡◌, ◌-◌, ◌≤◌, ℕ, [], length, true, Option, IfOk};
ghost use Rattle.std.specs.List.{All};
ghost use Rattle.gq_value.specs.declared.kind.Slot.{Slot};
ghost use Rattle.gq_value.specs.AccumViews.{accum_of};
ghost use Rattle.gq_value.specs.Typed.{has_no_list};
ghost use Rattle.gq_rules_meaning.specs.Calendars.{Calendar};
ghost use Rattle.gq_plan_ir.specs.declared.block.Block.{Block};
ghost use Rattle.gq_exec_source.specs.declared.ends.Ends.{Ends};
ghost use Rattle.gq_stripe.specs.Rule.{first};
ghost use Rattle.gq_stripe.specs.Seats as stripes;
ghost use Rattle.gq_words.specs.Rule.{view};
ghost use Rattle.gq_words.specs.Seats as marked;
ghost use Rattle.gq_workers.specs.Working.{AreTables, job_of, kinds_of, word_openings};

use gq_base::{OutOfMemory, within};
use gq_eval_context::BlockContext;
use gq_frame::{Slots, targets};
use gq_index::Candidates;
use gq_io::Shape;
use gq_stripe::{Book, Layout, Seat};
use gq_words::{Op, WordSeat, Words};
use std::alloc::Global;

/// The most chunks of a book.
const MOST: usize = 33_554_432;

/// The tables of a block, with the first seat of each. The other seats are split off these, and joined in the end.
#[derive(Drop)]
pub struct Tables {
    pub book: Book,
    pub seat: Seat,
    pub words: Words,
    pub word_seat: WordSeat,
}

/// Opens the tables of a block with these candidates, for at most `seats` workers. No accumulator of the frame may be a
/// list at any level. Returns `OutOfMemory` past 2^25 chunks.
pub fn open_tables(
    alloc: Global,
    over: &BlockContext<'_>,
    candidates: &Candidates<'_>,
    shape: &Shape,
    seats: u32,
) -> Result<Tables, OutOfMemory>
    requires flat { All (λ (s : Slot). has_no_list (accum_of s.kind) ≡ true) over.now.frame.accums.slots.declared }
    requires stripes { (1 ≤ shape.now.stripes) × (shape.now.stripes ≤ 256) }
    requires seats { (1 ≤ seats) × (seats ≤ 1024) }
    ensures tables { IfOk result (λ t. (clock : Calendar) (block : Block) (ends : Ends) (edge : Option ℕ) →
        AreTables (job_of clock over.now block ends edge candidates.now shape.now) (stripes.plan_of t.book) (marked.openings_of t.words)) }
    ensures seat { IfOk result (λ t. stripes.IsIdle t.book t.seat × (stripes.view_of t.seat ≡ first (stripes.plan_of t.book))) }
    ensures seats { IfOk result (λ t. (stripes.plan_of t.book).seats ≡ seats) }
    ensures word_seat { IfOk result (λ t. marked.IsSeatOf t.words t.word_seat × (marked.view_of t.word_seat ≡ view 1 (seats - 1) [])) }
{
    let layout = layout_of(alloc, &over.frame.accums.slots)?;
    let chunks = candidates.count().div_ceil(shape.chunk.max(1));
    within(chunks as usize, MOST)?;
    let (book, seat) = Book::open(alloc, &layout, chunks, shape.stripes, seats)?;
    let openings = openings_of(alloc, over.graph.store.vertices.len() as usize)?;
    let (words, word_seat) = Words::open(alloc, &openings, seats)?;
    Ok(Tables {
        book,
        seat,
        words,
        word_seat,
    })
}

/// Returns the kind of each target.
fn layout_of(alloc: Global, slots: &Slots) -> Result<Layout, OutOfMemory>
    ensures { IfOk result (λ layout. layout ≡ kinds_of slots.now) }
{
    let mut layout = Layout::new(alloc);
    for slot in slots.declared.as_slice() {
        layout.push_all(
            slot.kind.duplicate(alloc)?,
            targets(slot.attached, slots.vertices),
        )?;
    }
    Ok(layout)
}

/// Returns the words before anything is fed.
fn openings_of(alloc: Global, vertices: usize) -> Result<Vec<(Op, u64)>, OutOfMemory>
    requires { vertices ≤ 4294967295 }
    ensures { IfOk result (λ openings. openings.items ≡ word_openings vertices) }
{
    let mut openings = Vec::new(alloc);
    openings.push((Op::Min, u64::MAX))?;
    for _ in 0..2 * vertices.div_ceil(64) {
        openings.push((Op::Or, 0))?;
    }
    Ok(openings)
}
