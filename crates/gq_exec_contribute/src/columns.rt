// The INTs or truths of a slot's accumulators, side by side.
//
// WHERE of a block reads the accumulators from before the block, those of targets in no order, and most of them many
// times. A content takes 48 bytes, an INT 8, or 4 if all are short, and a truth 1: so a column has room in a cache where
// contents haven't.
ghost use Rattle.std.specs.Prelude.{◌≡◌, IfOk, IfSome};
ghost use Rattle.gq_frame.specs.Slots.{AreSound};
ghost use Rattle.gq_exec_contribute.specs.Columns.{AreInts, AreTruths, HasInt, IsColumn, ListsInt, ListsTruth, StandsInt, StandsTruth};
ghost use Rattle.gq_exec_contribute.specs.Prepared.{AreAllCells, AreFound};

use crate::cells::{Cells, content_in, int_in, truth_in};
use crate::filters::{EndCell, Filter, end_vertex};
use crate::leaves::Leaves;
use gq_base::{List, OutOfMemory};
use gq_eval_context::BlockContext;
use gq_frame::Accums;
use gq_graph::Candidate;
use std::alloc::Global;

/// What the accumulators of a slot are before a block, by number of vertex. At most one of the lists has anything.
#[derive(Drop)]
pub struct Column {
    pub slot: u32,
    pub ints: List<i64>,

    /// INTs that all have at most 32 bits.
    pub shorts: List<i32>,
    pub truths: List<bool>,
}

impl Column {
    /// Whether it has what the accumulators of these cells are.
    pub fn covers(&self, cells: &Cells) -> bool {
        let count = cells.targets as usize;
        self.ints.len() == count || self.shorts.len() == count || self.truths.len() == count
    }
}

/// The column of a slot that a condition reads, for a block with this many candidates. It is empty if there are more
/// vertices than candidates: to read the contents of all vertices wouldn't pay then.
pub fn column_of(
    alloc: Global,
    filter: &Option<Filter>,
    over: &BlockContext<'_>,
    leaves: &Leaves<'_>,
    candidates: u64,
) -> Result<Column, OutOfMemory>
    requires { AreFound over.now leaves.now }
    ensures { IfOk result (IsColumn over.now.frame.accums) }
{
    column_in(alloc, filter, &over.frame.accums, &leaves.cells, candidates)
}

/// The column of a slot of these accumulators.
fn column_in(
    alloc: Global,
    filter: &Option<Filter>,
    accums: &Accums,
    cells: &List<Cells>,
    candidates: u64,
) -> Result<Column, OutOfMemory>
    requires sound { AreSound accums.now }
    requires cells { AreAllCells accums.now.slots cells.now }
    ensures { IfOk result (IsColumn accums.now) }
{
    match filter {
        None => Ok(Column {
            slot: 0,
            ints: List::new(alloc),
            shorts: List::new(alloc),
            truths: List::new(alloc),
        }),
        Some(filter) => match filter {
            Filter::Compared(left, _, right) => {
                // Sources come in order, so their contents are near each other.
                let at = if left.is_target { left } else { right };
                ints_column(alloc, accums, cells, at, candidates)
            }
            Filter::Held(at) => truths_column(alloc, accums, cells, at, candidates),
            Filter::NotHeld(_, at) => truths_column(alloc, accums, cells, at, candidates),
        },
    }
}

/// The column of an accumulator that is an INT.
fn ints_column(
    alloc: Global,
    accums: &Accums,
    cells: &List<Cells>,
    at: &EndCell,
    candidates: u64,
) -> Result<Column, OutOfMemory>
    requires sound { AreSound accums.now }
    requires cells { AreAllCells accums.now.slots cells.now }
    ensures { IfOk result (IsColumn accums.now) }
{
    let ints = ints_of(alloc, accums, cells, at, candidates)?;
    match shortened(alloc, ints.as_slice())? {
        Some(shorts) => Ok(Column {
            slot: at.slot,
            ints: List::new(alloc),
            shorts,
            truths: List::new(alloc),
        }),
        None => Ok(Column {
            slot: at.slot,
            ints,
            shorts: List::new(alloc),
            truths: List::new(alloc),
        }),
    }
}

/// The column of an accumulator that is a truth.
fn truths_column(
    alloc: Global,
    accums: &Accums,
    cells: &List<Cells>,
    at: &EndCell,
    candidates: u64,
) -> Result<Column, OutOfMemory>
    requires sound { AreSound accums.now }
    requires cells { AreAllCells accums.now.slots cells.now }
    ensures { IfOk result (IsColumn accums.now) }
{
    Ok(Column {
        slot: at.slot,
        ints: List::new(alloc),
        shorts: List::new(alloc),
        truths: truths_of(alloc, accums, cells, at, candidates)?,
    })
}

/// The INTs of a slot's accumulators; none if one of them isn't an INT, or if there are fewer candidates.
fn ints_of(
    alloc: Global,
    accums: &Accums,
    cells: &List<Cells>,
    at: &EndCell,
    candidates: u64,
) -> Result<List<i64>, OutOfMemory>
    requires sound { AreSound accums.now }
    requires cells { AreAllCells accums.now.slots cells.now }
    ensures { IfOk result (AreInts accums.now at.now.slot) }
{
    let mut ints = List::new(alloc);
    if u64::from(at.cells.targets) > candidates {
        return Ok(ints);
    }
    for vertex in 0..at.cells.targets {
        match int_there(accums, cells, at.slot, vertex) {
            None => return Ok(List::new(alloc)),
            Some(x) => ints.push(x)?,
        }
    }
    Ok(ints)
}

/// The same INTs, if all have at most 32 bits.
fn shortened(alloc: Global, ints: &[i64]) -> Result<Option<List<i32>>, OutOfMemory>
    ensures { IfOk result (λ found. IfSome found (λ shorts. shorts ≡ ints.now)) }
{
    let mut shorts = List::new(alloc);
    for x in ints {
        match i32::try_from(*x) {
            Ok(x) => shorts.push(x)?,
            Err(_) => return Ok(None),
        }
    }
    Ok(Some(shorts))
}

/// The truths of a slot's accumulators; none if one of them isn't a truth, or if there are fewer candidates.
fn truths_of(
    alloc: Global,
    accums: &Accums,
    cells: &List<Cells>,
    at: &EndCell,
    candidates: u64,
) -> Result<List<bool>, OutOfMemory>
    requires sound { AreSound accums.now }
    requires cells { AreAllCells accums.now.slots cells.now }
    ensures { IfOk result (AreTruths accums.now at.now.slot) }
{
    let mut truths = List::new(alloc);
    if u64::from(at.cells.targets) > candidates {
        return Ok(truths);
    }
    for vertex in 0..at.cells.targets {
        match truth_there(accums, cells, at.slot, vertex) {
            None => return Ok(List::new(alloc)),
            Some(truth) => truths.push(truth)?,
        }
    }
    Ok(truths)
}

/// The INT that a slot's accumulator at a vertex is.
fn int_there(accums: &Accums, cells: &List<Cells>, slot: u32, vertex: u32) -> Option<i64>
    requires sound { AreSound accums.now }
    requires cells { AreAllCells accums.now.slots cells.now }
    ensures { IfSome result (StandsInt accums.now slot vertex) }
{
    match content_in(accums, cells, slot, vertex) {
        Some(content) => int_in(content),
        None => None,
    }
}

/// The truth that a slot's accumulator at a vertex is.
fn truth_there(accums: &Accums, cells: &List<Cells>, slot: u32, vertex: u32) -> Option<bool>
    requires sound { AreSound accums.now }
    requires cells { AreAllCells accums.now.slots cells.now }
    ensures { IfSome result (StandsTruth accums.now slot vertex) }
{
    match content_in(accums, cells, slot, vertex) {
        Some(content) => truth_in(content),
        None => None,
    }
}

/// The INT of an accumulator of an end, if the column has it.
pub(crate) fn listed_int(column: &Column, at: &EndCell, c: &Candidate) -> Option<i64>
    ensures { IfSome result (ListsInt column.now at.now c.now) }
{
    if column.slot != at.slot {
        return None;
    }
    match end_vertex(at.is_target, c) {
        None => None,
        Some(vertex) => int_of_vertex(column, vertex),
    }
}

/// The INT of a vertex.
fn int_of_vertex(column: &Column, vertex: u32) -> Option<i64>
    ensures { IfSome result (HasInt column.now vertex) }
{
    match column.shorts.get(vertex as usize) {
        Some(x) => Some(i64::from(*x)),
        None => match column.ints.get(vertex as usize) {
            Some(x) => Some(*x),
            None => None,
        },
    }
}

/// The truth of an accumulator of an end, if the column has it.
pub(crate) fn listed_truth(column: &Column, at: &EndCell, c: &Candidate) -> Option<bool>
    ensures { IfSome result (ListsTruth column.now at.now c.now) }
{
    if column.slot != at.slot {
        return None;
    }
    match end_vertex(at.is_target, c) {
        None => None,
        Some(vertex) => match column.truths.get(vertex as usize) {
            None => None,
            Some(truth) => Some(*truth),
        },
    }
}
