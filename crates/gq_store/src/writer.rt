// The writer.
ghost use Rattle.std.specs.Prelude.{◌≡◌, ◌+◌, ◌<◌, ◌≤◌, ◌↔◌, ◌++◌, [], ◌∷◌, ◌^◌, length, drop, true, Some, None, Err, IfOk, IfErr, IfSome, MatchResult};
ghost use Rattle.gq_insert.specs.Fits.{InsertFits};
ghost use Rattle.gq_store.specs.Entries.{rows_in};
ghost use Rattle.gq_store.specs.Lists.{EndsSealed, added, listed_of, most_inserts, pending_of, with_one};

use crate::book::{Book, News, StoreName};
use crate::entry::{Change, Entry};
use crate::row::duplicate;
use crate::rule::{Published, Sees, WriteSide};
use crate::store_copy::StoreCopy;
use crate::view::View;
use crossbeam_utils::rule::Protocol;
use gq_base::OutOfMemory;
use gq_load_check::Insert;
use left_right::Absorb;
use left_right::writer::Writer as Sides;
use std::alloc::{AllocError, Global};
use std::sync::Wait;
use thiserror::Error;

/// How many inserts a store takes once it is shared.
const MOST_INSERTS: u64 = 1_048_576;

/// Why an insert isn't added.
#[derive(Clone, Copy, Debug, PartialEq, Eq, Error)]
pub enum AddFault {
    /// The store has taken as many inserts as it may.
    #[error("too many inserts")]
    Spent,
    #[error("out of memory")]
    OutOfMemory,
}

/// What the writer keeps beside its part of the copies.
#[derive(Drop)]
pub struct Kept<N: StoreName> {
    pub(crate) alloc: Global,
    pub(crate) book: Book<N>,
    /// All inserts that were added.
    pub(crate) all: News<N>,
    /// An insert that was added when there was no memory to keep it with the others.
    pub(crate) held: Change<N>,
}

/// The writer over two copies `T`, which take in changes `O`, under a rule. It keeps the handle `R`, since its end waits for readers
/// that still read.
///
/// (The copies are a parameter, since a struct that names them would want a bound, beside the `impl` that meets it.)
pub struct WriterOver<
    N: StoreName,
    T: Absorb<O> + Drop,
    O: Drop,
    V,
    P: Protocol<T, V>,
    R: Wait + Drop,
> {
    pub(crate) rt: R,
    pub(crate) side: Sides<T, O, V, P>,
    pub(crate) kept: Kept<N>,
}

/// The one writer of a shared store. Contracts see the list of published inserts and that of pending ones (`listed_of`), and all that
/// were added (`kept.all`).
pub type Writer<N, R> = WriterOver<N, StoreCopy<N>, Change<N>, View, Published, R>;

impl<N: StoreName, T: Absorb<O> + Drop, O: Drop, V, P: Protocol<T, V>, R: Wait + Drop> Drop
    for WriterOver<N, T, O, V, P, R> {
    fn drop(self) {
        let Self {
            rt,
            side,
            kept: _kept,
        } = self;
        drop(side.take(&rt));
    }
}

/// Puts the insert that is held behind the others that are pending.
fn stow<N: StoreName>(side: &mut WriteSide<N>, held: &mut Change<N>) -> bool
    ensures same { listed_of side.new.desk.shown.value.rows (drop side.new.behind side.new.log.items) held.new ≡ listed_of side.old.desk.shown.value.rows (drop side.old.behind side.old.log.items) held.old }
    ensures none { result ≡ true → held.new ≡ None }
{
    match held.take() {
        None => true,
        Some(entry) => match side.append(Some(entry)) {
            Ok(()) => true,
            Err(back) => {
                *held = back;
                false
            }
        },
    }
}

/// Puts a seal behind all that is pending.
fn settle<N: StoreName>(side: &mut WriteSide<N>, held: &mut Change<N>) -> bool
    ensures same { listed_of side.new.desk.shown.value.rows (drop side.new.behind side.new.log.items) held.new ≡ listed_of side.old.desk.shown.value.rows (drop side.old.behind side.old.log.items) held.old }
    ensures none { result ≡ true → held.new ≡ None }
    ensures sealed { result ≡ true → EndsSealed (drop side.new.behind side.new.log.items) }
{
    if !stow(side, held) {
        return false;
    }
    match side.append(None) {
        Ok(()) => true,
        // (the seal, which is None)
        Err(back) => {
            *held = back;
            false
        }
    }
}

/// Shows readers all that the copies are still to take in, if it ends with a seal.
fn show<N: StoreName, R: Wait>(side: WriteSide<N>, rt: &R) -> (WriteSide<N>, Result<(), AllocError>)
    requires { EndsSealed (drop side.behind side.log.items) }
    ensures { MatchResult result.1
        (λ _. (result.0.desk.shown.value.rows ≡ side.desk.shown.value.rows ++ rows_in (drop side.behind side.log.items)) × (drop result.0.behind result.0.log.items ≡ []))
        (λ _. (result.0.desk.shown.value ≡ side.desk.shown.value) × (drop result.0.behind result.0.log.items ≡ drop side.behind side.log.items)) }
{
    side.publish_as::<Sees, R>(rt)
}

/// Shows readers all that is pending.
fn shown<N: StoreName, R: Wait>(
    side: WriteSide<N>,
    held: Change<N>,
    rt: &R,
) -> (WriteSide<N>, Change<N>, Result<(), OutOfMemory>)
    ensures rows { IfOk result.2 (λ _. result.0.desk.shown.value.rows ≡ side.desk.shown.value.rows ++ pending_of (drop side.behind side.log.items) held) }
    ensures none { IfOk result.2 (λ _. pending_of (drop result.0.behind result.0.log.items) result.1 ≡ []) }
    ensures same { IfErr result.2 (λ _. listed_of result.0.desk.shown.value.rows (drop result.0.behind result.0.log.items) result.1 ≡ listed_of side.desk.shown.value.rows (drop side.behind side.log.items) held) }
{
    let (mut side, mut held) = (side, held);
    if !settle(&mut side, &mut held) {
        return (side, held, Err(OutOfMemory));
    }
    let (side, outcome) = show(side, rt);
    match outcome {
        Ok(()) => (side, held, Ok(())),
        Err(AllocError) => (side, held, Err(OutOfMemory)),
    }
}

/// The entry of an insert, and all inserts with it. There is none if the history has others, which only the writer adds.
fn entered<N: StoreName>(book: &Book<N>, all: &News<N>, row: Insert) -> Option<(Entry<N>, News<N>)>
    requires room { length all.now < most_inserts }
    requires fits { InsertFits N.schema row }
    ensures row { IfSome result (λ made. made.0 ≡ row) }
    ensures all { IfSome result (λ made. made.1 ≡ all.now ++ row ∷ []) }
{
    let mut after = all.again();
    if !after.add(book, &row) {
        return None;
    }
    let all = after.again();
    Some((Entry { row, after }, all))
}

/// Adds an insert if there is room for it.
fn enter<N: StoreName>(
    side: &mut WriteSide<N>,
    kept: &mut Kept<N>,
    row: &Insert,
) -> Result<(), OutOfMemory>
    requires fits { InsertFits N.schema row.now }
    requires room { length kept.old.all < most_inserts }
    ensures last { IfOk result (λ _. listed_of side.new.desk.shown.value.rows (drop side.new.behind side.new.log.items) kept.new.held ≡ with_one (listed_of side.old.desk.shown.value.rows (drop side.old.behind side.old.log.items) kept.old.held) row.now) }
    ensures all { IfOk result (λ _. kept.new.all ≡ kept.old.all ++ row.now ∷ []) }
    ensures as_before { IfErr result (λ _. (listed_of side.new.desk.shown.value.rows (drop side.new.behind side.new.log.items) kept.new.held ≡ listed_of side.old.desk.shown.value.rows (drop side.old.behind side.old.log.items) kept.old.held) × (kept.new.all ≡ kept.old.all)) }
{
    let row = duplicate(kept.alloc, row)?;
    if !stow(side, &mut kept.held) {
        return Err(OutOfMemory);
    }
    match entered(&kept.book, &kept.all, row) {
        None => Err(OutOfMemory),
        Some((entry, all)) => {
            kept.all = all;
            kept.held = Some(entry);
            stow(side, &mut kept.held);
            Ok(())
        }
    }
}

impl<N: StoreName, R: Wait + Drop> WriterOver<N, StoreCopy<N>, Change<N>, View, Published, R> {
    /// Adds an insert behind all others that are pending. Readers don't see it before it is published.
    ///
    /// Returns `Spent` exactly if 1,048,576 inserts were added before. Unchanged after a refusal.
    pub fn add(&mut self, row: &Insert) -> Result<(), AddFault>
        requires { InsertFits N.schema row.now }
        ensures last { IfOk result (λ _. listed_of self.new.side.desk.shown.value.rows (drop self.new.side.behind self.new.side.log.items) self.new.kept.held ≡ with_one (listed_of self.old.side.desk.shown.value.rows (drop self.old.side.behind self.old.side.log.items) self.old.kept.held) row.now) }
        ensures all { IfOk result (λ _. self.new.kept.all ≡ self.old.kept.all ++ row.now ∷ []) }
        ensures spent { (result ≡ Err AddFault.Spent) ↔ (most_inserts ≤ length self.old.kept.all) }
        ensures as_before { IfErr result (λ _. (listed_of self.new.side.desk.shown.value.rows (drop self.new.side.behind self.new.side.log.items) self.new.kept.held ≡ listed_of self.old.side.desk.shown.value.rows (drop self.old.side.behind self.old.side.log.items) self.old.kept.held) × (self.new.kept.all ≡ self.old.kept.all)) }
    {
        if self.kept.all.len() >= MOST_INSERTS {
            return Err(AddFault::Spent);
        }
        match enter(&mut self.side, &mut self.kept, row) {
            Ok(()) => Ok(()),
            Err(OutOfMemory) => Err(AddFault::OutOfMemory),
        }
    }

    /// Shows readers all pending inserts, at once, and gives the writer back. It may wait for readers that still read what was published
    /// before the last call.
    ///
    /// After `OutOfMemory` readers see what they saw, and the inserts are pending.
    pub fn publish(self) -> (Writer<N, R>, Result<(), OutOfMemory>)
        ensures published { IfOk result.1 (λ _. result.0.side.desk.shown.value.rows ≡ added (listed_of self.side.desk.shown.value.rows (drop self.side.behind self.side.log.items) self.kept.held)) }
        ensures none_pending { IfOk result.1 (λ _. pending_of (drop result.0.side.behind result.0.side.log.items) result.0.kept.held ≡ []) }
        ensures as_before { IfErr result.1 (λ _. listed_of result.0.side.desk.shown.value.rows (drop result.0.side.behind result.0.side.log.items) result.0.kept.held ≡ listed_of self.side.desk.shown.value.rows (drop self.side.behind self.side.log.items) self.kept.held) }
        ensures all { result.0.kept.all ≡ self.kept.all }
    {
        let Self { rt, side, kept } = self;
        let Kept {
            alloc,
            book,
            all,
            held,
        } = kept;
        let (side, held, outcome) = shown(side, held, &rt);
        let kept = Kept {
            alloc,
            book,
            all,
            held,
        };
        (WriterOver { rt, side, kept }, outcome)
    }

    /// News of all that was published, for a reader to learn. It takes no memory.
    pub fn news(&self) -> News<N>
        ensures { result ≡ self.now.side.desk.shown.value.rows }
    {
        self.side.published().news()
    }

    /// Ends the writer, as its drop does. It may wait for readers, and what is pending is given up. Queries may answer out of memory
    /// from then on.
    pub fn finish(self) {
        let Self {
            rt,
            side,
            kept: _kept,
        } = self;
        drop(side.take(&rt));
    }
}
