// Locates and reads the contents of accumulators.
ghost use Rattle.std.specs.Prelude.{◌≡◌, IfOk, IfSome};
ghost use Rattle.gq_frame.specs.Slots.{AreSound};
ghost use Rattle.gq_exec_contribute.specs.Prepared.{AreAllCells, AreCells, HoldsInt, HoldsTruth, IsTarget, StandsAt};

use crate::takes::taken_by;
use gq_accum::Scalar;
use gq_base::{List, OutOfMemory};
use gq_exec_feed::slot_number;
use gq_frame::{Accums, Slots};
use gq_nest::Content;
use std::alloc::Global;
use std::sync::atomic::{AtomicU64, Ordering};

/// The inputs that a kind of accumulator takes.
#[derive(Clone, Copy, Debug, PartialEq, Eq)]
pub enum Taken {
    Int,
    Truth,

    /// An INT of a set, a bag or a list.
    Element,

    /// A tuple of INTs, by their number.
    Tuple(usize),

    /// INT keys and INT parts, by their numbers.
    Keyed(usize, usize),

    /// Inputs that are always evaluated.
    Other,
}

/// A slot's first target, the number of its targets, and the inputs that it takes.
#[derive(Clone, Copy, Debug)]
pub struct Cells {
    pub first: u64,
    pub targets: u32,
    pub takes: Taken,
}

/// The cells of every slot whose number has 32 bits, by slot number. What has no cells is evaluated.
#[tactic(auto, using(crate::proofs::CellLemmas::cells_laws))]
pub(crate) fn cells_of(alloc: Global, slots: &Slots) -> Result<List<Cells>, OutOfMemory>
    ensures { IfOk result (AreAllCells slots.now) }
{
    let mut cells = List::new(alloc);
    for number in 0..slots.declared.len() {
        match cells_at(slots, number) {
            None => return Ok(cells),
            Some(those) => cells.push(those)?,
        }
    }
    Ok(cells)
}

/// The cells of a slot.
fn cells_at(slots: &Slots, number: usize) -> Option<Cells>
    ensures { IfSome result (AreCells slots.now number) }
{
    match slot_number(number) {
        None => None,
        Some(slot) => match slots.declared.get(number) {
            None => None,
            Some(declared) => Some(Cells {
                first: slots.target(slot, 0),
                targets: slots.targets(declared),
                takes: taken_by(&declared.kind),
            }),
        },
    }
}

/// The content at the target of a slot and a vertex.
#[tactic(auto, using(crate::proofs::CellLemmas::target_laws))]
pub(crate) fn content_in<'a>(
    accums: &'a Accums,
    cells: &List<Cells>,
    slot: u32,
    vertex: u32,
) -> Option<&'a Content>
    requires sound { AreSound accums.now }
    requires cells { AreAllCells accums.now.slots cells.now }
    ensures { IfSome result (λ content. StandsAt accums.entry.now slot vertex content.now) }
{
    match cells.get(slot as usize) {
        None => None,
        Some(cells) => match target_in(cells, vertex) {
            None => None,
            Some(target) => match accums.contents.get(target as usize) {
                None => None,
                Some(content) => Some(content),
            },
        },
    }
}

/// The number of a vertex's target in these cells.
pub(crate) fn target_in(cells: &Cells, vertex: u32) -> Option<u64>
    ensures { IfSome result (IsTarget cells.now vertex) }
{
    if vertex >= cells.targets {
        return None;
    }
    cells.first.checked_add(u64::from(vertex))
}

/// The INT that a content reads as.
#[tactic(auto, using(crate::proofs::CellLemmas::int_laws))]
pub(crate) fn int_in(content: &Content) -> Option<i64>
    ensures { IfSome result (HoldsInt content.now) }
{
    match content {
        Content::Scalar(scalar) => match scalar {
            Scalar::MinInt(x) => Some(*x),
            Scalar::MaxInt(x) => Some(*x),
            Scalar::BitOr(x) => Some(*x),
            Scalar::BitAnd(x) => Some(*x),
            Scalar::SumInt(sum) => int_of(sum.get()),
            _ => None,
        },
        _ => None,
    }
}

fn int_of(sum: i128) -> Option<i64>
    ensures { IfSome result (λ x. x ≡ sum) }
{
    match i64::try_from(sum) {
        Ok(x) => Some(x),
        Err(_) => None,
    }
}

/// The truth that a content reads as.
#[tactic(auto, using(crate::proofs::CellLemmas::truth_laws))]
pub(crate) fn truth_in(content: &Content) -> Option<bool>
    ensures { IfSome result (HoldsTruth content.now) }
{
    match content {
        Content::Scalar(scalar) => match scalar {
            Scalar::Or(truth) => Some(*truth),
            Scalar::And(truth) => Some(*truth),
            _ => None,
        },
        _ => None,
    }
}

/// Reads the INT of a vertex's content, so that it is in the cache afterwards; 0 if it isn't an INT. What it gives is
/// for `keep` alone.
pub fn touch(accums: &Accums, cells: &Cells, vertex: u32) -> u64 {
    match target_in(cells, vertex) {
        Some(target) => touch_target(accums, target),
        None => 0,
    }
}

/// Reads the INT of the content at a target.
pub(crate) fn touch_target(accums: &Accums, target: u64) -> u64 {
    match accums.contents.get(target as usize) {
        Some(content) => match int_in(content) {
            Some(x) => u64::from(x > 0),
            None => 0,
        },
        None => 0,
    }
}

/// Keeps a number, so that the reads that it comes of aren't left out by the compiler.
pub fn keep(number: u64) {
    let kept = AtomicU64::new(0);
    kept.fetch_add(number, Ordering::SeqCst);
}
