// The edge types of a walk, and the types to which it leads.
ghost use Rattle.std.specs.Prelude.{◌≡◌, ◌++◌, map, IfOk, OnOk};
ghost use Rattle.std.specs.List.{filter_map, flat_map};
ghost use Rattle.std.specs.Option.{option_copied, option_to_list};
ghost use Rattle.gq_rules_typing.specs.SelectViews.{view_types_if, view_hop, view_step, view_walk};
ghost use Rattle.gq_rules_typing.specs.Patterns as spec;
ghost use Rattle.gq_scope.specs.Held.{setting_in};
ghost use Rattle.gq_check_from.specs.Walks as walks;

use crate::ends::{hop_far, or_all, push_ends};
use crate::numbers::by_number;
use gq_base::{List, OutOfMemory};
use gq_graph::Numbers;
use gq_scope::Scope;
use gq_tree::{HopTree, PatternTree, StepTree, TypesTree, Way};
use gq_value::Txt;
use std::alloc::Global;

/// An optional name as a text.
pub fn text_of(name: &Option<Txt>) -> Option<&str>
    ensures { option_copied result ≡ name.now }
{
    match name {
        None => None,
        Some(name) => Some(name.as_str()),
    }
}

// ---- named types

/// The edge types with these names; unknown names are skipped.
fn named_edges(alloc: Global, scope: &Scope<'_>, names: &[Txt]) -> Result<Numbers, OutOfMemory>
    ensures { IfOk result (λ l. l ≡ filter_map (setting_in scope.now).words.edge_type names.now) }
{
    let mut types = List::new(alloc);
    for name in names {
        match scope.edge_type(name.as_str()) {
            None => {}
            Some(t) => types.push(t)?,
        }
    }
    Ok(types)
}

/// The vertex types with these names; unknown names are skipped.
fn named_vertices(alloc: Global, scope: &Scope<'_>, names: &[Txt]) -> Result<Vec<u32>, OutOfMemory>
    ensures { IfOk result (λ v. v.items ≡ filter_map (setting_in scope.now).words.vertex_type names.now) }
{
    let mut types = Vec::new(alloc);
    for name in names {
        match scope.vertex_type(name.as_str()) {
            None => {}
            Some(t) => types.push(t)?,
        }
    }
    Ok(types)
}

/// The named edge types, or all of the graph.
#[tactic(auto, using(crate::proofs::SortLemmas::own_laws))]
pub(crate) fn edge_types(
    alloc: Global,
    scope: &Scope<'_>,
    types: &Option<TypesTree>,
) -> Result<Numbers, OutOfMemory>
    ensures { IfOk result (λ l. l ≡ spec.edge_types (setting_in scope.now) (view_types_if types.now)) }
{
    match types {
        None => List::from_slice(alloc, scope.own_edges()),
        Some(types) => match types {
            TypesTree::Any => List::from_slice(alloc, scope.own_edges()),
            TypesTree::Named(names) => named_edges(alloc, scope, names.as_slice()),
        },
    }
}

// ---- far ends

/// Appends the types to which the edge type of a name leads, if there is one.
#[tactic(auto, using(crate::proofs::SortLemmas::named_way_laws))]
fn push_named(
    scope: &Scope<'_>,
    way: Way,
    name: &str,
    far: &mut Vec<u32>,
) -> Result<(), OutOfMemory>
    ensures { OnOk result (far.new.items ≡ far.old.items ++ flat_map (spec.ends_of (setting_in scope.now).sorts) (option_to_list (spec.way_of (setting_in scope.now) (way, name.now)))) }
{
    match scope.edge_type(name) {
        None => Ok(()),
        Some(t) => push_ends(scope.catalog(), way, t, far),
    }
}

/// The types to which a step's edge types lead, each in its direction.
fn step_far(alloc: Global, scope: &Scope<'_>, ways: &[(Way, Txt)]) -> Result<Vec<u32>, OutOfMemory>
    ensures { IfOk result (λ v. v.items ≡ flat_map (spec.ends_of (setting_in scope.now).sorts) (filter_map (spec.way_of (setting_in scope.now)) ways.now)) }
{
    let mut far = Vec::new(alloc);
    for way in ways {
        push_named(scope, way.0, way.1.as_str(), &mut far)?;
    }
    Ok(far)
}

/// The named vertex types, in order.
fn targets(alloc: Global, scope: &Scope<'_>, names: &[Txt]) -> Result<Numbers, OutOfMemory>
    ensures { IfOk result (λ l. l ≡ spec.by_number (filter_map (setting_in scope.now).words.vertex_type names.now)) }
{
    by_number(named_vertices(alloc, scope, names)?)
}

fn hop_open(alloc: Global, scope: &Scope<'_>, hop: &HopTree) -> Result<Numbers, OutOfMemory>
    ensures { IfOk result (λ l. l ≡ walks.open_ends (setting_in scope.now) (walks.own_ways (setting_in scope.now).sorts (spec.edge_types (setting_in scope.now) (view_types_if hop.now.edges)))) }
{
    let edges = edge_types(alloc, scope, &hop.edges)?;
    let far = hop_far(alloc, scope.catalog(), edges.as_slice())?;
    or_all(alloc, scope.own_vertices(), far)
}

fn step_open(alloc: Global, scope: &Scope<'_>, step: &StepTree) -> Result<Numbers, OutOfMemory>
    ensures { IfOk result (λ l. l ≡ walks.open_ends (setting_in scope.now) (filter_map (spec.way_of (setting_in scope.now)) step.now.ways)) }
{
    let far = step_far(alloc, scope, step.ways.as_slice())?;
    or_all(alloc, scope.own_vertices(), far)
}

/// The types to which a hop leads.
fn hop_ends(alloc: Global, scope: &Scope<'_>, hop: &HopTree) -> Result<Numbers, OutOfMemory>
    ensures { IfOk result (λ l. l ≡ (spec.hop_step (setting_in scope.now) (view_hop hop.now)).targets) }
{
    match &hop.targets {
        None => hop_open(alloc, scope, hop),
        Some(types) => match types {
            TypesTree::Any => hop_open(alloc, scope, hop),
            TypesTree::Named(names) => targets(alloc, scope, names.as_slice()),
        },
    }
}

/// The types to which a step leads.
fn step_ends(alloc: Global, scope: &Scope<'_>, step: &StepTree) -> Result<Numbers, OutOfMemory>
    ensures { IfOk result (λ l. l ≡ (spec.path_step (setting_in scope.now) (view_step step.now)).targets) }
{
    match &step.targets {
        TypesTree::Any => step_open(alloc, scope, step),
        TypesTree::Named(names) => targets(alloc, scope, names.as_slice()),
    }
}

/// The types to which a path leads: those of its last step.
fn path_ends(alloc: Global, scope: &Scope<'_>, steps: &[StepTree]) -> Result<Numbers, OutOfMemory>
    ensures { IfOk result (λ l. l ≡ spec.of_last (λ s. (spec.path_step (setting_in scope.now) s).targets) (spec.last_step (map view_step steps.now))) }
{
    match steps.last() {
        None => Ok(List::new(alloc)),
        Some(step) => step_ends(alloc, scope, step),
    }
}

/// The types of the target alias: those to which a hop or the last step of a path leads, as far as its names are known.
pub fn end_types(
    alloc: Global,
    scope: &Scope<'_>,
    walk: &Option<PatternTree>,
) -> Result<Numbers, OutOfMemory>
    ensures { IfOk result (λ l. l ≡ spec.end_types (setting_in scope.now) (view_walk walk.now)) }
{
    match walk {
        None => Ok(List::new(alloc)),
        Some(walk) => match walk {
            PatternTree::Hop(hop) => hop_ends(alloc, scope, hop),
            PatternTree::Path(steps) => path_ends(alloc, scope, steps.as_slice()),
        },
    }
}
