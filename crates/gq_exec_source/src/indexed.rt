// Steps with their index entries, and the vertices that lead nowhere along them.
ghost use Rattle.std.specs.Prelude.{◌≡◌, ◌<◌, List, [], ◌∷◌, false, length, map, Some, IfOk, IfSome};
ghost use Rattle.gq_index.specs.declared.walks.Traversal.{Traversal};
ghost use Rattle.gq_index.specs.Segments.{of_walk};
ghost use Rattle.gq_index.specs.Sights.{sight_of, vertex_kinds};
ghost use Rattle.gq_rules_meaning.specs.Paths.{steps_from};
ghost use Rattle.gq_exec_source.specs.declared.indexed.IndexedStep.{IndexedStep};
ghost use Rattle.gq_exec_source.specs.Indexed as spec;
ghost use Rattle.gq_exec_source.specs.Indexed.{plain, AreDead, AreKnown, AreReady, AreTargets};
ghost use Rattle.gq_exec_source.specs.Marks as marks;
ghost use Rattle.gq_exec_source.specs.Ways.{step_of};

use crate::directions::{directions_of, mark_rows};
use crate::entries::{Entry, entries_of};
use crate::hop::reaches;
use crate::marks::{is_marked, mark, unmarked};
use crate::path_types::PathStep;
use gq_base::{List, OutOfMemory};
use gq_index::Graph;
use std::alloc::Global;

/// The vertices from which a path may continue along a step and those after it, and the targets of the step from which
/// it may continue along those after it, as bits.
#[derive(Drop)]
pub(crate) struct Leading {
    from: List<u64>,
    to: List<u64>,
}

/// A step with the types under which the index has its walks, and the vertices that lead on, if these are known.
#[derive(Drop)]
pub(crate) struct IndexedStep<'a> {
    pub(crate) step: &'a PathStep,
    pub(crate) entries: Vec<Entry>,
    pub(crate) leading: Option<Leading>,
}

/// Whether it is known that no path continues from a vertex, by the marks of the step.
pub(crate) fn is_left_out(leading: &Option<Leading>, vertex: u32) -> bool
    ensures { result ≡ spec.is_left_out leading.now vertex }
{
    match leading {
        Some(known) => !is_marked(known.from.as_slice(), vertex),
        None => false,
    }
}

/// Whether it is known that no path continues from a vertex.
fn is_dead(steps: &[IndexedStep<'_>], vertex: u32) -> bool
    ensures { result ≡ spec.is_dead steps.now vertex }
{
    match steps {
        [] => false,
        [step, ..] => is_left_out(&step.leading, vertex),
    }
}

/// Whether a vertex is one of the targets from which a path may continue.
fn is_leading(graph: &Graph<'_>, targets: &[u32], rest: &[IndexedStep<'_>], vertex: u32) -> bool
    ensures { result ≡ spec.leads_on (vertex_kinds graph.now.store.now.vertices) targets.now rest.now vertex }
{
    !is_dead(rest, vertex) && reaches(&graph.store.vertices, targets, vertex)
}

/// Whether a vertex is a target of a step from which a path may continue: by its mark, if there are marks.
pub(crate) fn leads_on(
    graph: &Graph<'_>,
    step: &IndexedStep<'_>,
    rest: &[IndexedStep<'_>],
    vertex: u32,
) -> bool
    requires { AreKnown (vertex_kinds graph.now.store.now.vertices) step.now.step.now.targets rest.now step.now.leading }
    ensures { result ≡ spec.leads_on (vertex_kinds graph.now.store.now.vertices) step.now.step.now.targets rest.now vertex }
{
    match &step.leading {
        Some(known) => is_marked(known.to.as_slice(), vertex),
        None => is_leading(graph, step.step.targets.as_slice(), rest, vertex),
    }
}

/// The targets from which a path may continue.
fn targets_of(
    alloc: Global,
    graph: &Graph<'_>,
    targets: &[u32],
    rest: &[IndexedStep<'_>],
) -> Result<List<u64>, OutOfMemory>
    ensures { IfOk result (AreTargets (vertex_kinds graph.now.store.now.vertices) targets.now rest.now) }
{
    let vertices = graph.store.vertices.len();
    let mut words = unmarked(alloc, vertices)?;
    for vertex in 0..vertices {
        if is_leading(graph, targets, rest, vertex) {
            mark(&mut words, vertex);
        }
    }
    Ok(words)
}

/// The vertices from which a row of a step leads to one of these targets, in one pass over all rows.
fn sources_of(
    alloc: Global,
    graph: &Graph<'_>,
    step: &PathStep,
    targets: &[u64],
) -> Result<List<u64>, OutOfMemory>
    ensures { IfOk result (λ words. (rest : List IndexedStep) → AreReady (sight_of graph.now.catalog.now graph.now.store.now.vertices graph.now.store.now.edges) rest
        → AreTargets (vertex_kinds graph.now.store.now.vertices) step.now.targets rest targets.now → (walk : Traversal) → walk.target < length graph.now.store.now.vertices → marks.is_marked words walk.target ≡ false → steps_from (sight_of graph.now.catalog.now graph.now.store.now.vertices graph.now.store.now.edges) (step_of step.now ∷ map plain rest) (of_walk walk) ≡ []) }
{
    let directions = directions_of(alloc, step, graph.catalog.edge_types())?;
    let mut words = unmarked(alloc, graph.store.vertices.len())?;
    mark_rows(&directions, targets, graph.store.edges.ends(), &mut words);
    Ok(words)
}

/// The vertices that lead on along a step and those after it.
fn find_leading(
    alloc: Global,
    graph: &Graph<'_>,
    step: &PathStep,
    rest: &[IndexedStep<'_>],
) -> Result<Leading, OutOfMemory>
    requires ready { AreReady (sight_of graph.now.catalog.now graph.now.store.now.vertices graph.now.store.now.edges) rest.now }
    ensures dead { IfOk result (λ known. AreDead (sight_of graph.now.catalog.now graph.now.store.now.vertices graph.now.store.now.edges) (Some known) (step_of step.now ∷ map plain rest.now)) }
    ensures known { IfOk result (λ known. AreKnown (vertex_kinds graph.now.store.now.vertices) step.now.targets rest.now (Some known)) }
{
    let to = targets_of(alloc, graph, step.targets.as_slice(), rest)?;
    let from = sources_of(alloc, graph, step, to.as_slice())?;
    Ok(Leading { from, to })
}

/// The vertices that lead on along a step and those after it, if asked for.
fn leading_if(
    alloc: Global,
    graph: &Graph<'_>,
    step: &PathStep,
    rest: &[IndexedStep<'_>],
    marked: bool,
) -> Result<Option<Leading>, OutOfMemory>
    requires ready { AreReady (sight_of graph.now.catalog.now graph.now.store.now.vertices graph.now.store.now.edges) rest.now }
    ensures dead { IfOk result (λ leading. AreDead (sight_of graph.now.catalog.now graph.now.store.now.vertices graph.now.store.now.edges) leading (step_of step.now ∷ map plain rest.now)) }
    ensures known { IfOk result (AreKnown (vertex_kinds graph.now.store.now.vertices) step.now.targets rest.now) }
{
    if !marked {
        return Ok(None);
    }
    Ok(Some(find_leading(alloc, graph, step, rest)?))
}

/// A step before others; None if the index doesn't have all of its walks.
fn indexed_step<'a>(
    alloc: Global,
    graph: &Graph<'_>,
    step: &'a PathStep,
    rest: &[IndexedStep<'_>],
    marked: bool,
) -> Result<Option<IndexedStep<'a>>, OutOfMemory>
    requires ready { AreReady (sight_of graph.now.catalog.now graph.now.store.now.vertices graph.now.store.now.edges) rest.now }
    ensures same { IfOk result (λ found. IfSome found (λ it. plain it ≡ step_of step.now)) }
    ensures ready { IfOk result (λ found. IfSome found (λ it. spec.IsReady (sight_of graph.now.catalog.now graph.now.store.now.vertices graph.now.store.now.edges) it rest.now)) }
{
    match entries_of(alloc, step, graph.catalog.edge_types())? {
        Some(entries) => {
            let leading = leading_if(alloc, graph, step, rest, marked)?;
            Ok(Some(IndexedStep {
                step,
                entries,
                leading,
            }))
        }
        None => Ok(None),
    }
}

/// Steps with their index entries, made from the last one to the first; None if the index doesn't have all walks.
pub(crate) fn indexed_steps<'a>(
    steps: &'a [PathStep],
    alloc: Global,
    graph: &Graph<'_>,
    marked: bool,
) -> Result<Option<Vec<IndexedStep<'a>>>, OutOfMemory>
    ensures same { IfOk result (λ found. IfSome found (λ all. map plain all.items ≡ map step_of steps.now)) }
    ensures ready { IfOk result (λ found. IfSome found (λ all. AreReady (sight_of graph.now.catalog.now graph.now.store.now.vertices graph.now.store.now.edges) all.items)) }
{
    match steps {
        [] => Ok(Some(Vec::new(alloc))),
        [step, rest @ ..] => match indexed_steps(rest, alloc, graph, marked)? {
            Some(mut all) => match indexed_step(alloc, graph, step, &all, marked)? {
                Some(first) => {
                    all.insert(0, first)?;
                    Ok(Some(all))
                }
                None => Ok(None),
            },
            None => Ok(None),
        },
    }
}
