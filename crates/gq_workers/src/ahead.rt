// Reads ahead what a chunk's candidates need.
//
// Rows, ids and contents of targets are scattered in memory. These loops only read them, and do nothing else meanwhile:
// so the processor waits for many at once, and has them in the cache when the candidates are tried. Sources come in
// order, so theirs are near each other.
use crate::rounds::Work;
use gq_base::{List, OutOfMemory};
use gq_edge::Edges;
use gq_eval_context::BlockContext;
use gq_exec_contribute::{Cells, Column, keep, touch};
use gq_frame::Accums;
use gq_graph::Steps;
use gq_index::{Candidates, Cursor};
use gq_value::Value;
use gq_vertex::Vertices;

/// So many candidates are read ahead at once: what they need has room in a cache near the processor.
const AHEAD: u64 = 256;

/// Reads what the block wants of the candidates from `place` up to `end`, at most `AHEAD` of them, at every `AHEAD`th
/// place and at the first one, `start`. The room is for their numbers.
#[inline]
pub(crate) fn read_ahead(
    work: &Work<'_>,
    over: &BlockContext<'_>,
    start: u64,
    place: u64,
    end: u64,
    room: &mut List<u32>,
) -> Result<(), OutOfMemory> {
    if place == start || place % AHEAD == 0 {
        let next = (place / AHEAD).saturating_add(1).saturating_mul(AHEAD);
        return read_up_to(work, over, place, end.min(next), room);
    }
    Ok(())
}

/// Reads what the block wants of the candidates from `start` up to `end`.
fn read_up_to(
    work: &Work<'_>,
    over: &BlockContext<'_>,
    start: u64,
    end: u64,
    room: &mut List<u32>,
) -> Result<(), OutOfMemory> {
    let store = over.graph.store;
    if work.wanted.edge {
        list(&work.candidates, start, end, false, room)?;
        let edges = room.as_slice();
        keep(widths(&store.edges, edges).wrapping_add(attributes(&store.edges, edges)));
    }
    if work.wanted.target() {
        list(&work.candidates, start, end, true, room)?;
        let numbers = room.as_slice();
        keep(targets(work, &store.vertices, &over.frame.accums, numbers));
    }
    Ok(())
}

/// Lists the targets of these candidates, or their edges.
fn list(
    candidates: &Candidates<'_>,
    start: u64,
    end: u64,
    are_targets: bool,
    room: &mut List<u32>,
) -> Result<(), OutOfMemory> {
    room.truncate(0);
    let mut cursor = Cursor::new();
    for place in start..end.min(candidates.count()) {
        let candidate = candidates.near(place, &mut cursor, &mut Steps::new());
        let number = if are_targets {
            candidate.target
        } else {
            candidate.edge
        };
        match number {
            Some(number) => room.push(number)?,
            None => {}
        }
    }
    Ok(())
}

/// Reads where the attributes of edges are.
fn widths(edges: &Edges, numbers: &[u32]) -> u64 {
    let mut sum = 0u64;
    for edge in numbers {
        if *edge < edges.len() {
            sum = sum.wrapping_add(edges.attributes(*edge).len() as u64);
        }
    }
    sum
}

/// Reads the first attribute of each edge, and the last.
fn attributes(edges: &Edges, numbers: &[u32]) -> u64 {
    let mut sum = 0u64;
    for edge in numbers {
        if *edge < edges.len() {
            sum = sum.wrapping_add(ends_of(edges.attributes(*edge)));
        }
    }
    sum
}

/// Reads the first value of a row, and the last.
fn ends_of(row: &[Value]) -> u64 {
    match row {
        [] => 0,
        [value] => weight(value),
        [first, .., last] => weight(first).wrapping_add(weight(last)),
    }
}

fn weight(value: &Value) -> u64 {
    match value {
        Value::Int(_) => 1,
        _ => 0,
    }
}

/// Reads what a block wants of targets.
fn targets(work: &Work<'_>, vertices: &Vertices, accums: &Accums, numbers: &[u32]) -> u64 {
    let wanted = &work.wanted;
    let mut sum = 0u64;
    if wanted.row || wanted.id {
        sum = sum.wrapping_add(heads(vertices, numbers));
    }
    if wanted.row {
        sum = sum.wrapping_add(rows(vertices, numbers));
    }
    if wanted.id {
        sum = sum.wrapping_add(ids(vertices, numbers));
    }
    for cells in wanted.cells.as_slice() {
        sum = sum.wrapping_add(contents(accums, cells, numbers));
    }
    if wanted.column {
        sum = sum.wrapping_add(listed(&work.column, numbers));
    }
    sum
}

/// Reads the types of vertices, where their ids are, and where their attributes are.
fn heads(vertices: &Vertices, numbers: &[u32]) -> u64 {
    let mut sum = 0u64;
    for vertex in numbers {
        if *vertex < vertices.len() {
            sum = sum.wrapping_add(u64::from(vertices.kind(*vertex)));
            sum = sum.wrapping_add(vertices.id(*vertex).len() as u64);
            sum = sum.wrapping_add(vertices.width(*vertex) as u64);
        }
    }
    sum
}

/// Reads the first attribute of each vertex, and the last.
fn rows(vertices: &Vertices, numbers: &[u32]) -> u64 {
    let mut sum = 0u64;
    for vertex in numbers {
        if *vertex < vertices.len() {
            let width = vertices.width(*vertex);
            if width > 0 {
                sum = sum.wrapping_add(weight(vertices.value(*vertex, 0)));
                sum = sum.wrapping_add(weight(vertices.value(*vertex, width - 1)));
            }
        }
    }
    sum
}

/// Reads the first byte of each vertex's id.
fn ids(vertices: &Vertices, numbers: &[u32]) -> u64 {
    let mut sum = 0u64;
    for vertex in numbers {
        if *vertex < vertices.len() {
            match vertices.id(*vertex).as_bytes() {
                [byte, ..] => sum = sum.wrapping_add(u64::from(*byte)),
                [] => {}
            }
        }
    }
    sum
}

/// Reads the content of an accumulator at each vertex.
fn contents(accums: &Accums, cells: &Cells, numbers: &[u32]) -> u64 {
    let mut sum = 0u64;
    for vertex in numbers {
        sum = sum.wrapping_add(touch(accums, cells, *vertex));
    }
    sum
}

/// Reads what a column has for each vertex.
fn listed(column: &Column, numbers: &[u32]) -> u64 {
    let mut sum = 0u64;
    for vertex in numbers {
        sum = sum.wrapping_add(listed_at(column, *vertex as usize));
    }
    sum
}

/// Reads what a column has at a place.
fn listed_at(column: &Column, place: usize) -> u64 {
    match column.shorts.get(place) {
        Some(x) => u64::from(*x > 0),
        None => match column.ints.get(place) {
            Some(x) => u64::from(*x > 0),
            None => match column.truths.get(place) {
                Some(truth) => u64::from(*truth),
                None => 0,
            },
        },
    }
}
