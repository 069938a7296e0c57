// Candidates.
ghost use Rattle.std.specs.Prelude.{◌≡◌, ◌<◌, ◌≤◌, length, map, IfOk, Err, Some};
ghost use Rattle.gq_graph.specs.Candidates.{candidates};
ghost use Rattle.gq_index.specs.Sights.{sight_of};
ghost use Rattle.gq_rules_typing.specs.Patterns.{path_step};
ghost use Rattle.gq_rules_meaning.specs.Paths.{bindings};
ghost use Rattle.gq_plan_ir.specs.BlockView.{view_path_step};
ghost use Rattle.gq_exec_source.specs.declared.path_types.PathsFault.TheVariants as fault;
ghost use Rattle.gq_exec_source.specs.Ends.{HasEnds};
ghost use Rattle.gq_exec_source.specs.Seen.{setting_for};
ghost use Rattle.gq_exec_source.specs.Starts.{types_in, AreCandidates, AreFrom, AreTooMany, FromTooMany};

use crate::ends::Ends;
use crate::path_types::PathsFault;
use crate::paths::Paths;
use crate::patterns::path_steps;
use crate::starts::vertices_of;
use crate::types::edge_types;
use gq_base::{List, OutOfMemory};
use gq_eval_context::BlockContext;
use gq_frame::set_at;
use gq_graph::Pattern;
use gq_index::{Candidates, VertexList};
use gq_plan_ir::{Block, Hop, PathStep, SelectSource, Walk};
use std::alloc::Global;

/// The candidates of a block with these ends: along a path its bindings. A set is walked in place; from a
/// type all of its vertices are listed. Only a path has too many: more than 4,194,304 bindings, which are counted before
/// conditions on them are evaluated.
pub fn candidates_of<'g>(
    alloc: Global,
    block: &Block,
    over: &BlockContext<'g>,
    ends: &Ends,
) -> Result<Candidates<'g>, PathsFault>
    requires { HasEnds over.now.schema over.now.plan over.now.frame.things block.now ends.now }
    ensures found { IfOk result (AreCandidates over.now block.now) }
    ensures many { result ≡ Err fault.TooMany → AreTooMany over.now block.now }
{
    match block.source {
        SelectSource::Set(place) => match set_at(over.frame.things.as_slice(), place) {
            Some((_, set)) => candidates_from(alloc, block, over, ends, set),
            None => candidates_from(alloc, block, over, ends, &VertexList::new(alloc)),
        },
        SelectSource::Type(kind) => {
            let vertices = &over.graph.store.vertices;
            match vertices_of(alloc, vertices, over.plan.vertices.as_slice(), kind) {
                Ok(all) => candidates_from(alloc, block, over, ends, &all),
                Err(OutOfMemory) => Err(PathsFault::OutOfMemory),
            }
        }
    }
}

/// The candidates along a path.
pub(crate) fn along_path<'g>(
    alloc: Global,
    over: &BlockContext<'g>,
    set: &VertexList,
    steps: &[PathStep],
) -> Result<Candidates<'g>, PathsFault>
    ensures listed { IfOk result (λ cs. cs ≡ bindings (sight_of over.now.schema over.now.vertices over.now.edges) set.now (map (path_step (setting_for over.now.schema over.now.plan)) (map view_path_step steps.now))) }
    ensures few { IfOk result (λ cs. length cs ≤ 4194304) }
    ensures many { result ≡ Err fault.TooMany → 4194304 < length (bindings (sight_of over.now.schema over.now.vertices over.now.edges) set.now (map (path_step (setting_for over.now.schema over.now.plan)) (map view_path_step steps.now))) }
{
    match path_steps(alloc, over.graph.catalog, over.plan, steps) {
        Ok(pattern) => match Paths::of(alloc, &over.graph, set, &pattern) {
            Ok(paths) => Ok(paths.into_candidates()),
            Err(fault) => Err(fault),
        },
        Err(OutOfMemory) => Err(PathsFault::OutOfMemory),
    }
}

/// The candidates along one hop.
fn along_hop<'g>(
    alloc: Global,
    over: &BlockContext<'g>,
    ends: &Ends,
    set: &VertexList,
    hop: &Hop,
) -> Result<Candidates<'g>, OutOfMemory>
    ensures { IfOk result (λ cs. cs ≡ candidates (sight_of over.now.schema over.now.vertices over.now.edges) set.now (Some (record { edges = types_in over.now.plan.edges hop.now.edges; targets = ends.now.target.types }))) }
{
    let pattern = Pattern {
        edges: edge_types(alloc, over.plan.edges.as_slice(), &hop.edges)?,
        targets: List::from_slice(alloc, ends.target.types.as_slice())?,
    };
    Candidates::of(alloc, &over.graph, set, Some(&pattern))
}

/// The candidates from a set.
fn candidates_from<'g>(
    alloc: Global,
    block: &Block,
    over: &BlockContext<'g>,
    ends: &Ends,
    set: &VertexList,
) -> Result<Candidates<'g>, PathsFault>
    requires { HasEnds over.now.schema over.now.plan over.now.frame.things block.now ends.now }
    ensures found { IfOk result (AreFrom over.now block.now set.now) }
    ensures many { result ≡ Err fault.TooMany → FromTooMany over.now block.now set.now }
{
    match &block.walk {
        Walk::Nowhere => match Candidates::of(alloc, &over.graph, set, None) {
            Ok(all) => Ok(all),
            Err(OutOfMemory) => Err(PathsFault::OutOfMemory),
        },
        Walk::Hop(hop) => match along_hop(alloc, over, ends, set, hop) {
            Ok(all) => Ok(all),
            Err(OutOfMemory) => Err(PathsFault::OutOfMemory),
        },
        Walk::Path(steps) => along_path(alloc, over, set, steps.as_slice()),
    }
}
