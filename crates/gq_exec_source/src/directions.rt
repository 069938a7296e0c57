// In which directions a step walks rows, and from which vertices they lead to marked ones.
ghost use Rattle.std.specs.Prelude.{◌≡◌, ◌==◌, ◌<◌, ◌≤◌, ◌+◌, ◌*◌, ◌^◌, ◌&&◌, ◌||◌, ℕ, length, IfOk};
ghost use Rattle.std.specs.List.{list_any};
ghost use Rattle.gq_exec_source.specs.Directions.{goes_so, leads_from, walks_kind, AreDirections};
ghost use Rattle.gq_exec_source.specs.Marks as spec;
ghost use Rattle.gq_exec_source.specs.Ways.{step_of};

use crate::marks::{is_marked, mark, unmarked};
use crate::path_types::PathStep;
use gq_base::{List, OutOfMemory};
use gq_edge::EdgeEnds;
use gq_graph::EdgeType;
use gq_tree::Way;
use std::alloc::Global;

/// The edge types whose rows a step walks from FROM to TO, and those whose rows it walks back, as bits. All types that
/// don't exist share the bit after the last.
#[derive(Drop)]
pub(crate) struct Directions {
    types: u32,
    out: List<u64>,
    back: List<u64>,
}

/// Whether a way has a direction, if forward along the type is that direction, or else the other.
fn goes_so(way: Way, forward: bool) -> bool
    ensures { result ≡ goes_so way forward }
{
    match way {
        Way::Forward => forward,
        Way::Backward => !forward,
        Way::Both => true,
    }
}

/// Marks a number if `wanted`; one that has no bit isn't marked.
fn mark_if(words: &mut List<u64>, number: u32, wanted: bool)
    ensures len { length words.new ≡ length words.old }
    ensures marks { (v : ℕ) → v < length words.old * 64 → spec.is_marked words.new v ≡ (spec.is_marked words.old v || (wanted && (v == number))) }
{
    if wanted {
        if number as usize / 64 < words.len() {
            mark(words, number);
        }
    }
}

/// Marks the type whose rows are walked in one direction along a type in a way, if it has rows of that direction.
fn mark_kind(words: &mut List<u64>, types: &[EdgeType], way: Way, kind: u32, back: bool)
    requires long { length types.now < length words.old * 64 }
    requires limited { length types.now + 1 < 2 ^ 32 }
    ensures len { length words.new ≡ length words.old }
    ensures marks { (k : ℕ) → k ≤ length types.now → spec.is_marked words.new k ≡ (spec.is_marked words.old k || walks_kind types.now back k (way, kind)) }
{
    match types.get(kind as usize) {
        Some(edge_type) => {
            let base = edge_type.forward.unwrap_or(kind).min(types.len() as u32);
            mark_if(
                words,
                base,
                goes_so(way, edge_type.forward.is_some() == back),
            );
        }
        None => {}
    }
}

/// The types whose rows a step walks from FROM to TO, or back.
fn walked(
    alloc: Global,
    step: &PathStep,
    types: &[EdgeType],
    back: bool,
) -> Result<List<u64>, OutOfMemory>
    requires limited { length types.now + 1 < 2 ^ 32 }
    ensures { IfOk result (λ words. (k : ℕ) → k ≤ length types.now → spec.is_marked words k ≡ list_any (walks_kind types.now back k) step.now.edges) }
{
    let mut words = unmarked(alloc, types.len() as u32)?;
    for pair in step.edges.as_slice() {
        mark_kind(&mut words, types, pair.0, pair.1, back);
    }
    Ok(words)
}

/// In which directions a step walks the rows of each type.
pub(crate) fn directions_of(
    alloc: Global,
    step: &PathStep,
    types: &[EdgeType],
) -> Result<Directions, OutOfMemory>
    requires limited { length types.now + 1 < 2 ^ 32 }
    ensures { IfOk result (AreDirections (step_of step.now) types.now) }
{
    let out = walked(alloc, step, types, false)?;
    let back = walked(alloc, step, types, true)?;
    Ok(Directions {
        types: types.len() as u32,
        out,
        back,
    })
}

/// Marks those ends of a row from which it leads to a vertex marked in `targets`.
fn mark_row(directions: &Directions, targets: &[u64], row: &EdgeEnds, words: &mut List<u64>)
    ensures len { length words.new ≡ length words.old }
    ensures marks { (v : ℕ) → v < length words.old * 64 → spec.is_marked words.new v ≡ (spec.is_marked words.old v || leads_from directions.now targets.now row.now v) }
{
    let kind = row.kind().min(directions.types);
    let out = is_marked(directions.out.as_slice(), kind) && is_marked(targets, row.to());
    mark_if(words, row.from(), out);
    let back = is_marked(directions.back.as_slice(), kind) && is_marked(targets, row.from());
    mark_if(words, row.to(), back);
}

/// Marks all vertices from which one of these rows leads to a vertex marked in `targets`, in one pass.
pub(crate) fn mark_rows(
    directions: &Directions,
    targets: &[u64],
    rows: &[EdgeEnds],
    words: &mut List<u64>,
)
    ensures len { length words.new ≡ length words.old }
    ensures marks { (v : ℕ) → v < length words.old * 64 → spec.is_marked words.new v
        ≡ (spec.is_marked words.old v || list_any (λ row. leads_from directions.now targets.now row v) rows.now) }
{
    for row in rows {
        mark_row(directions, targets, row, words);
    }
}
