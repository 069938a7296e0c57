// Walks: a hop, or a path of one to three steps.
ghost use Rattle.std.specs.Prelude.{◌≡◌, map, true, IfOk, slice_get};
ghost use Rattle.std.specs.Option.{option_copied, option_map};
ghost use Rattle.gq_rules_typing.specs.Sorts.{edge_sort};
ghost use Rattle.gq_rules_typing.specs.Judging.{each_judged};
ghost use Rattle.gq_rules_typing.specs.SelectViews.{view_types, view_types_if, view_hop, view_step, view_walk};
ghost use Rattle.gq_rules_typing.specs.Patterns as patterns;
ghost use Rattle.gq_rules_typing.specs.SelectTypes as spec;
ghost use Rattle.gq_scope.specs.Held.{scope_in, setting_in};
ghost use Rattle.gq_check_from.specs.Faults.{Judges, Grows};
ghost use Rattle.gq_check_from.specs.Walks as walks;

use crate::aliases::{with_alias, with_edge_alias};
use crate::ends::edge_at;
use crate::fault::CheckFault;
use crate::names::{edge_type, vertex_type};
use crate::patterns::{edge_types, text_of};
use gq_base::List;
use gq_graph::{EdgeType, Numbers};
use gq_scope::{Scope, allowed, matched};
use gq_tree::{HopTree, PatternTree, StepTree, TypesTree, Way};
use gq_value::Txt;
use std::alloc::Global;

// ---- named types

/// Checks that names are edge types of the graph.
fn edges_known(alloc: Global, scope: &Scope<'_>, names: &[Txt]) -> Result<(), CheckFault>
    ensures { Judges (λ _. true) (walks.passes (each_judged (walks.edge_known (scope_in scope.now)) names.now)) result }
{
    for name in names {
        edge_type(alloc, scope, name.as_str())?;
    }
    Ok(())
}

/// Checks that names are vertex types of the graph.
fn vertices_known(alloc: Global, scope: &Scope<'_>, names: &[Txt]) -> Result<(), CheckFault>
    ensures { Judges (λ _. true) (walks.passes (each_judged (walks.vertex_known (scope_in scope.now)) names.now)) result }
{
    for name in names {
        vertex_type(alloc, scope, name.as_str())?;
    }
    Ok(())
}

fn known_edges(
    alloc: Global,
    scope: &Scope<'_>,
    types: &Option<TypesTree>,
) -> Result<(), CheckFault>
    ensures { Judges (λ _. true) (walks.known_edges (scope_in scope.now) (view_types_if types.now)) result }
{
    match types {
        None => Ok(()),
        Some(types) => match types {
            TypesTree::Any => Ok(()),
            TypesTree::Named(names) => edges_known(alloc, scope, names.as_slice()),
        },
    }
}

fn known_targets(alloc: Global, scope: &Scope<'_>, types: &TypesTree) -> Result<(), CheckFault>
    ensures { Judges (λ _. true) (walks.known_targets (scope_in scope.now) (view_types types.now)) result }
{
    match types {
        TypesTree::Any => Ok(()),
        TypesTree::Named(names) => vertices_known(alloc, scope, names.as_slice()),
    }
}

fn known_targets_if(
    alloc: Global,
    scope: &Scope<'_>,
    types: &Option<TypesTree>,
) -> Result<(), CheckFault>
    ensures { Judges (λ _. true) (walks.known_targets (scope_in scope.now) (view_types_if types.now)) result }
{
    match types {
        None => Ok(()),
        Some(types) => known_targets(alloc, scope, types),
    }
}

// ---- hops, which are in v1

/// Checks the parts of a hop, in order.
#[tactic(auto, using(crate::proofs::ScopeLemmas::walk_laws))]
fn hop_parts(
    alloc: Global,
    scope: &mut Scope<'_>,
    ends: &[u32],
    tree: &HopTree,
) -> Result<(), CheckFault>
    ensures judged { Judges (λ _. scope_in scope.new) (walks.hop_within (scope_in scope.old) ends.now (view_hop tree.now)) result }
    ensures grows { IfOk result (λ _. Grows scope.old scope.new) }
{
    allowed(!scope.with_paths())?;
    known_edges(alloc, scope, &tree.edges)?;
    let edges = edge_types(alloc, scope, &tree.edges)?;
    with_edge_alias(alloc, scope, &tree.edge_alias, edges.as_slice())?;
    known_targets_if(alloc, scope, &tree.targets)?;
    with_alias(alloc, scope, &tree.target_alias, ends)
}

/// Checks a hop with its aliases.
fn hop(alloc: Global, scope: &mut Scope<'_>, ends: &[u32], tree: &HopTree) -> Result<(), CheckFault>
    ensures judged { Judges (λ _. scope_in scope.new) (spec.typing_hop (scope_in scope.old) ends.now (view_hop tree.now)) result }
    ensures grows { IfOk result (λ _. Grows scope.old scope.new) }
{
    hop_parts(alloc, scope, ends, tree)
}

// ---- paths, which are in v2

fn is_both(way: Way) -> bool
    ensures { result ≡ spec.is_both way }
{
    match way {
        Way::Both => true,
        Way::Forward | Way::Backward => false,
    }
}

/// Whether a way suits a type: a directed type needs a `<` or `>`, an undirected one must have neither.
fn suits_way(edge: &EdgeType, way: Way) -> bool
    ensures { result ≡ spec.suits_way (edge_sort edge.now) way }
{
    if edge.directed {
        !is_both(way)
    } else {
        is_both(way)
    }
}

/// Finds an edge type of the graph that may be walked in this direction.
fn way_known(alloc: Global, scope: &Scope<'_>, way: Way, name: &str) -> Result<u32, CheckFault>
    ensures { Judges (λ t. t) (spec.way_known (scope_in scope.now) (way, name.now)) result }
{
    let t = edge_type(alloc, scope, name)?;
    walked(scope, way, t)
}

/// The edge type with a number, among those that the scope sees.
fn edge_of<'s>(scope: &'s Scope<'_>, t: u32) -> Option<&'s EdgeType>
    ensures { option_map edge_sort (option_copied result) ≡ slice_get (setting_in scope.now).sorts.edges t }
{
    edge_at(scope.catalog(), t)
}

/// Checks that the edge type with a number may be walked in this direction.
#[tactic(auto, using(crate::proofs::ScopeLemmas::walk_laws))]
fn walked(scope: &Scope<'_>, way: Way, t: u32) -> Result<u32, CheckFault>
    ensures { Judges (λ t. t) (walks.walked (scope_in scope.now) way t) result }
{
    match edge_of(scope, t) {
        None => Err(CheckFault::Mismatch),
        Some(edge) => {
            matched(suits_way(edge, way))?;
            Ok(t)
        }
    }
}

/// Finds the edge types of a step.
#[tactic(auto, using(crate::proofs::StepLemmas::all_laws))]
fn ways_known(alloc: Global, scope: &Scope<'_>, ways: &[(Way, Txt)]) -> Result<Numbers, CheckFault>
    ensures { Judges (λ l. l) (each_judged (spec.way_known (scope_in scope.now)) ways.now) result }
{
    let mut types = List::new(alloc);
    for way in ways {
        let t = way_known(alloc, scope, way.0, way.1.as_str())?;
        types.push(t)?;
    }
    Ok(types)
}

/// Checks that only the last step names its edge and its vertex.
fn nameless(is_last: bool, name: &Option<Txt>) -> Result<(), CheckFault>
    ensures { Judges (λ _. true) (spec.nameless is_last name.now) result }
{
    match is_last {
        true => Ok(()),
        false => Ok(allowed(!name.is_some())?),
    }
}

/// Checks a step, which is the last one or not.
#[tactic(auto, using(crate::proofs::ScopeLemmas::walk_laws))]
fn step(
    alloc: Global,
    scope: &mut Scope<'_>,
    ends: &[u32],
    is_last: bool,
    tree: &StepTree,
) -> Result<(), CheckFault>
    ensures judged { Judges (λ _. scope_in scope.new) (walks.step_within (scope_in scope.old) ends.now is_last (view_step tree.now)) result }
    ensures grows { IfOk result (λ _. Grows scope.old scope.new) }
{
    let edges = ways_known(alloc, scope, tree.ways.as_slice())?;
    nameless(is_last, &tree.edge_alias)?;
    with_edge_alias(alloc, scope, &tree.edge_alias, edges.as_slice())?;
    known_targets(alloc, scope, &tree.targets)?;
    nameless(is_last, &tree.target_alias)?;
    with_alias(alloc, scope, &tree.target_alias, ends)
}

fn steps(
    alloc: Global,
    scope: &mut Scope<'_>,
    ends: &[u32],
    list: &[StepTree],
) -> Result<(), CheckFault>
    ensures judged { Judges (λ _. scope_in scope.new) (spec.typing_steps (scope_in scope.old) ends.now (map view_step list.now)) result }
    ensures grows { IfOk result (λ _. Grows scope.old scope.new) }
{
    for (place, tree) in list.iter().enumerate() {
        step(alloc, scope, ends, place + 1 == list.len(), tree)?;
    }
    Ok(())
}

/// Checks that there are one to three steps.
fn is_path(list: &[StepTree]) -> bool
    ensures { result ≡ walks.is_path (map view_step list.now) }
{
    0 < list.len() && list.len() <= 3
}

#[tactic(auto, using(crate::proofs::ScopeLemmas::walk_laws))]
fn path(
    alloc: Global,
    scope: &mut Scope<'_>,
    ends: &[u32],
    list: &[StepTree],
) -> Result<(), CheckFault>
    ensures judged { Judges (λ _. scope_in scope.new) (walks.path_within (scope_in scope.old) ends.now (map view_step list.now)) result }
    ensures grows { IfOk result (λ _. Grows scope.old scope.new) }
{
    allowed(scope.with_paths())?;
    matched(is_path(list))?;
    steps(alloc, scope, ends, list)
}

// ---- walks

/// Checks the walk after a source, and declares its aliases; `ends` are the types of its target alias.
#[tactic(auto, using(crate::proofs::ScopeLemmas::grow_laws))]
pub fn walk(
    alloc: Global,
    scope: &mut Scope<'_>,
    ends: &[u32],
    tree: &Option<PatternTree>,
) -> Result<(), CheckFault>
    ensures judged { Judges (λ _. scope_in scope.new) (spec.typing_walk (scope_in scope.old) ends.now (view_walk tree.now)) result }
    ensures grows { IfOk result (λ _. Grows scope.old scope.new) }
{
    match tree {
        None => Ok(()),
        Some(tree) => match tree {
            PatternTree::Hop(tree) => hop(alloc, scope, ends, tree),
            PatternTree::Path(list) => path(alloc, scope, ends, list.as_slice()),
        },
    }
}

/// The target alias: that of a hop, or of the last step of a path.
pub fn target_alias(tree: &Option<PatternTree>) -> Option<&str>
    ensures { option_copied result ≡ patterns.target_alias (view_walk tree.now) }
{
    match tree {
        None => None,
        Some(tree) => match tree {
            PatternTree::Hop(tree) => text_of(&tree.target_alias),
            PatternTree::Path(list) => last_alias(list.as_slice()),
        },
    }
}

fn last_alias(list: &[StepTree]) -> Option<&str>
    ensures { option_copied result ≡ walks.last_alias (patterns.last_step (map view_step list.now)) }
{
    match list.last() {
        None => None,
        Some(tree) => text_of(&tree.target_alias),
    }
}
