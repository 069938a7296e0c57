// The edge types that a walk takes, and the vertex types that it leads to.
ghost use Rattle.std.specs.Prelude.{◌≡◌, ◌++◌, map, IfOk, OnOk};
ghost use Rattle.std.specs.List.{filter_map, flat_map};
ghost use Rattle.std.specs.Option.{option_to_list};
ghost use Rattle.gq_rules_typing.specs.Patterns as spec;
ghost use Rattle.gq_plan_ir.specs.BlockView.{view_hop, view_path_step, view_types, view_walk};
ghost use Rattle.gq_plan_ir.specs.Reference as reference;
ghost use Rattle.gq_exec_source.specs.Ways.{step_of};
ghost use Rattle.gq_exec_source.specs.Seen.{own_of, own_way_of, setting_for, sorts_for};

use crate::path_types::{PathPattern, PathStep as WalkedStep};
use crate::types::is_own;
use gq_base::{List, OutOfMemory};
use gq_check_from::{by_number, hop_far, or_all, push_ends};
use gq_graph::Numbers;
use gq_plan_ir::{Hop, PathStep, Plan, Types, Walk};
use gq_schema::Catalog;
use gq_tree::Way;
use std::alloc::Global;

// ---- named types

/// Those types that are among the graph's.
#[tactic(auto, using(crate::proofs::SortLemmas::own_laws))]
fn own_only(alloc: Global, own: &[u32], types: &[u32]) -> Result<Vec<u32>, OutOfMemory>
    ensures { IfOk result (λ v. v.items ≡ filter_map (own_of own.now) types.now) }
{
    let mut named = Vec::new(alloc);
    for t in types {
        if is_own(own, *t) {
            named.push(*t)?;
        }
    }
    Ok(named)
}

/// The vertex types of these that are the graph's, in order.
#[tactic(auto, using(crate::proofs::StepLemmas::named_laws))]
fn named_vertices(
    alloc: Global,
    catalog: &Catalog,
    plan: &Plan,
    types: &[u32],
) -> Result<Numbers, OutOfMemory>
    ensures { IfOk result (λ l. l ≡ spec.by_number (filter_map (setting_for catalog.now plan.now).words.vertex_type (map reference.VertexType types.now))) }
{
    let _ = catalog;
    by_number(own_only(alloc, plan.vertices.as_slice(), types)?)
}

/// Edge types, or all of the graph.
#[tactic(auto, using(crate::proofs::StepLemmas::named_laws))]
fn edge_types(
    alloc: Global,
    catalog: &Catalog,
    plan: &Plan,
    types: &Types,
) -> Result<Numbers, OutOfMemory>
    ensures { IfOk result (λ l. l ≡ spec.edge_types (setting_for catalog.now plan.now) (view_types reference.EdgeType types.now)) }
{
    match types {
        Types::Every => List::from_slice(alloc, plan.edges.as_slice()),
        Types::These(types) => {
            let named = own_only(alloc, plan.edges.as_slice(), types.as_slice())?;
            Ok(List::from_vec(named))
        }
    }
}

// ---- far ends

/// Appends the types that an edge type leads to, if it is the graph's.
#[tactic(auto, using(crate::proofs::SortLemmas::named_way_laws))]
fn push_named(
    catalog: &Catalog,
    plan: &Plan,
    way: Way,
    t: u32,
    far: &mut Vec<u32>,
) -> Result<(), OutOfMemory>
    ensures { OnOk result (far.new.items ≡ far.old.items ++ flat_map (spec.ends_of (sorts_for catalog.now plan.now)) (option_to_list (spec.way_of (setting_for catalog.now plan.now) (way, reference.EdgeType t)))) }
{
    if is_own(plan.edges.as_slice(), t) {
        push_ends(catalog, way, t, far)
    } else {
        Ok(())
    }
}

/// The types that a step's edge types lead to, each in its way.
fn step_far(
    alloc: Global,
    catalog: &Catalog,
    plan: &Plan,
    ways: &[(Way, u32)],
) -> Result<Vec<u32>, OutOfMemory>
    ensures { IfOk result (λ v. v.items ≡ flat_map (spec.ends_of (sorts_for catalog.now plan.now)) (filter_map (spec.way_of (setting_for catalog.now plan.now)) (map (λ w. (w.0, reference.EdgeType w.1)) ways.now))) }
{
    let mut far = Vec::new(alloc);
    for way in ways {
        push_named(catalog, plan, way.0, way.1, &mut far)?;
    }
    Ok(far)
}

/// The types that a hop leads to.
#[tactic(auto, using(crate::proofs::StepLemmas::far_laws))]
fn hop_ends(
    alloc: Global,
    catalog: &Catalog,
    plan: &Plan,
    hop: &Hop,
) -> Result<Numbers, OutOfMemory>
    ensures { IfOk result (λ l. l ≡ (spec.hop_step (setting_for catalog.now plan.now) (view_hop hop.now)).targets) }
{
    match &hop.targets {
        Types::Every => {
            let edges = edge_types(alloc, catalog, plan, &hop.edges)?;
            let far = hop_far(alloc, catalog, edges.as_slice())?;
            or_all(alloc, plan.vertices.as_slice(), far)
        }
        Types::These(types) => named_vertices(alloc, catalog, plan, types.as_slice()),
    }
}

/// The types that a step leads to.
#[tactic(auto, using(crate::proofs::StepLemmas::far_laws))]
fn step_ends(
    alloc: Global,
    catalog: &Catalog,
    plan: &Plan,
    step: &PathStep,
) -> Result<Numbers, OutOfMemory>
    ensures { IfOk result (λ l. l ≡ (spec.path_step (setting_for catalog.now plan.now) (view_path_step step.now)).targets) }
{
    match &step.targets {
        Types::Every => {
            let far = step_far(alloc, catalog, plan, step.ways.as_slice())?;
            or_all(alloc, plan.vertices.as_slice(), far)
        }
        Types::These(types) => named_vertices(alloc, catalog, plan, types.as_slice()),
    }
}

/// The ways of a step whose types are among the graph's.
#[tactic(auto, using(crate::proofs::PathLemmas::way_laws))]
fn ways_named(
    alloc: Global,
    own: &[u32],
    ways: &[(Way, u32)],
) -> Result<Vec<(Way, u32)>, OutOfMemory>
    ensures { IfOk result (λ v. v.items ≡ filter_map (own_way_of own.now) ways.now) }
{
    let mut named = Vec::new(alloc);
    for way in ways {
        if is_own(own, way.1) {
            named.push(*way)?;
        }
    }
    Ok(named)
}

/// A step as walked: by the numbers of types.
fn walked_step(
    alloc: Global,
    catalog: &Catalog,
    plan: &Plan,
    step: &PathStep,
) -> Result<WalkedStep, OutOfMemory>
    ensures { IfOk result (λ s. step_of s ≡ spec.path_step (setting_for catalog.now plan.now) (view_path_step step.now)) }
{
    let edges = ways_named(alloc, plan.edges.as_slice(), step.ways.as_slice())?;
    let targets = step_ends(alloc, catalog, plan, step)?;
    Ok(WalkedStep {
        edges: List::from_vec(edges),
        targets,
    })
}

/// The steps of a path as walked.
#[tactic(auto, using(crate::proofs::PathLemmas::steps_more))]
pub(crate) fn path_steps(
    alloc: Global,
    catalog: &Catalog,
    plan: &Plan,
    steps: &[PathStep],
) -> Result<PathPattern, OutOfMemory>
    ensures { IfOk result (λ p. map step_of p ≡ map (spec.path_step (setting_for catalog.now plan.now)) (map view_path_step steps.now)) }
{
    let mut walked = List::new(alloc);
    for step in steps {
        walked.push(walked_step(alloc, catalog, plan, step)?)?;
    }
    Ok(walked)
}

/// The types that a path leads to: the end of its last step.
fn path_ends(
    alloc: Global,
    catalog: &Catalog,
    plan: &Plan,
    steps: &[PathStep],
) -> Result<Numbers, OutOfMemory>
    ensures { IfOk result (λ l. l ≡ spec.of_last (λ s. (spec.path_step (setting_for catalog.now plan.now) s).targets) (spec.last_step (map view_path_step steps.now))) }
{
    match steps.last() {
        None => Ok(List::new(alloc)),
        Some(step) => step_ends(alloc, catalog, plan, step),
    }
}

/// The types of the target alias: those that a hop or the last step of a path leads to.
pub(crate) fn end_types(
    alloc: Global,
    catalog: &Catalog,
    plan: &Plan,
    walk: &Walk,
) -> Result<Numbers, OutOfMemory>
    ensures { IfOk result (λ l. l ≡ spec.end_types (setting_for catalog.now plan.now) (view_walk walk.now)) }
{
    match walk {
        Walk::Nowhere => Ok(List::new(alloc)),
        Walk::Hop(hop) => hop_ends(alloc, catalog, plan, hop),
        Walk::Path(steps) => path_ends(alloc, catalog, plan, steps.as_slice()),
    }
}
