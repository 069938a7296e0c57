// Patterns: edges and their targets.
ghost use Rattle.gq_rules_typing.specs.SelectViews.{view_types, view_types_if, view_hop, view_step, view_walk};
ghost use Rattle.gq_plan_expr.specs.Names.{known_of, sees_of};
ghost use Rattle.gq_plan_expr.specs.Resolved.{Answers};
ghost use Rattle.gq_plan_select.specs.Resolved.{if_there, each_resolved, resolved_types, resolved_hop, resolved_way, resolved_step, resolved_walk, view_steps};

use gq_base::List;
use gq_plan_expr::{NameResolver, PlanFault};
use gq_plan_ir::{Hop, PathStep, Types, Walk};
use gq_tree::{HopTree, StepTree, Way};
use gq_value::Txt;
use std::alloc::Global;

/// Returns the place of a variable, a set or an alias, or `Unknown` if it isn't visible.
pub fn plan_place(names: &NameResolver<'_>, name: &str) -> Result<u32, PlanFault>
    ensures { Answers ((known_of names.now).place name.now) result }
{
    match names.place(name) {
        None => Err(PlanFault::Unknown),
        Some(place) => Ok(place),
    }
}

/// Returns the place of an alias, if there is one.
pub(crate) fn alias(names: &NameResolver<'_>, name: &Option<Txt>) -> Result<Option<u32>, PlanFault>
    ensures { Answers (if_there (known_of names.now).place name.now) result }
{
    match name {
        None => Ok(None),
        Some(name) => {
            let place = plan_place(names, name.as_str())?;
            Ok(Some(place))
        }
    }
}

/// Returns the vertex type with a name.
pub(crate) fn vertex_type(names: &NameResolver<'_>, name: &str) -> Result<u32, PlanFault>
    ensures { Answers ((sees_of names.now).vertex_type name.now) result }
{
    match names.vertex_type(name) {
        None => Err(PlanFault::Unknown),
        Some(number) => Ok(number),
    }
}

/// Returns the edge type with a name.
fn edge_type(names: &NameResolver<'_>, name: &str) -> Result<u32, PlanFault>
    ensures { Answers ((sees_of names.now).edge_type name.now) result }
{
    match names.edge_type(name) {
        None => Err(PlanFault::Unknown),
        Some(number) => Ok(number),
    }
}

#[tactic(auto, using(gq_plan_expr::proofs::ListLemmas::list_laws))]
fn all_vertex_types(
    alloc: Global,
    names: &NameResolver<'_>,
    listed: &[Txt],
) -> Result<List<u32>, PlanFault>
    ensures { Answers (each_resolved (sees_of names.now).vertex_type listed.now) result }
{
    let mut planned = List::new(alloc);
    for name in listed {
        let one = vertex_type(names, name.as_str())?;
        planned.push(one)?;
    }
    Ok(planned)
}

#[tactic(auto, using(gq_plan_expr::proofs::ListLemmas::list_laws))]
fn all_edge_types(
    alloc: Global,
    names: &NameResolver<'_>,
    listed: &[Txt],
) -> Result<List<u32>, PlanFault>
    ensures { Answers (each_resolved (sees_of names.now).edge_type listed.now) result }
{
    let mut planned = List::new(alloc);
    for name in listed {
        let one = edge_type(names, name.as_str())?;
        planned.push(one)?;
    }
    Ok(planned)
}

fn targets(
    alloc: Global,
    names: &NameResolver<'_>,
    types: &gq_tree::TypesTree,
) -> Result<Types, PlanFault>
    ensures { Answers (resolved_types (sees_of names.now).vertex_type (view_types types.now)) result }
{
    match types {
        gq_tree::TypesTree::Any => Ok(Types::Every),
        gq_tree::TypesTree::Named(listed) => {
            let planned = all_vertex_types(alloc, names, listed.as_slice())?;
            Ok(Types::These(planned))
        }
    }
}

fn targets_if(
    alloc: Global,
    names: &NameResolver<'_>,
    types: &Option<gq_tree::TypesTree>,
) -> Result<Types, PlanFault>
    ensures { Answers (resolved_types (sees_of names.now).vertex_type (view_types_if types.now)) result }
{
    match types {
        None => Ok(Types::Every),
        Some(types) => targets(alloc, names, types),
    }
}

fn edges_if(
    alloc: Global,
    names: &NameResolver<'_>,
    types: &Option<gq_tree::TypesTree>,
) -> Result<Types, PlanFault>
    ensures { Answers (resolved_types (sees_of names.now).edge_type (view_types_if types.now)) result }
{
    match types {
        None => Ok(Types::Every),
        Some(gq_tree::TypesTree::Any) => Ok(Types::Every),
        Some(gq_tree::TypesTree::Named(listed)) => {
            let planned = all_edge_types(alloc, names, listed.as_slice())?;
            Ok(Types::These(planned))
        }
    }
}

fn hop(alloc: Global, names: &NameResolver<'_>, tree: &HopTree) -> Result<Hop, PlanFault>
    ensures { Answers (resolved_hop (known_of names.now) (sees_of names.now) (view_hop tree.now)) result }
{
    let edges = edges_if(alloc, names, &tree.edges)?;
    let edge_alias = alias(names, &tree.edge_alias)?;
    let targets = targets_if(alloc, names, &tree.targets)?;
    let target_alias = alias(names, &tree.target_alias)?;
    Ok(Hop {
        edges,
        edge_alias,
        targets,
        target_alias,
    })
}

#[tactic(auto, using(gq_plan_expr::proofs::ListLemmas::list_laws))]
fn ways(
    alloc: Global,
    names: &NameResolver<'_>,
    ways: &[(Way, Txt)],
) -> Result<List<(Way, u32)>, PlanFault>
    ensures { Answers (each_resolved (resolved_way (sees_of names.now)) ways.now) result }
{
    let mut planned = List::new(alloc);
    for way in ways {
        let one = edge_type(names, way.1.as_str())?;
        planned.push((way.0, one))?;
    }
    Ok(planned)
}

fn step(alloc: Global, names: &NameResolver<'_>, tree: &StepTree) -> Result<PathStep, PlanFault>
    ensures { Answers (resolved_step (known_of names.now) (sees_of names.now) (view_step tree.now)) result }
{
    let ways = ways(alloc, names, tree.ways.as_slice())?;
    let edge_alias = alias(names, &tree.edge_alias)?;
    let targets = targets(alloc, names, &tree.targets)?;
    let target_alias = alias(names, &tree.target_alias)?;
    Ok(PathStep {
        ways,
        edge_alias,
        targets,
        target_alias,
    })
}

#[tactic(auto, using(gq_plan_expr::proofs::ListLemmas::list_laws))]
fn steps(
    alloc: Global,
    names: &NameResolver<'_>,
    trees: &[StepTree],
) -> Result<List<PathStep>, PlanFault>
    ensures { Answers (each_resolved (resolved_step (known_of names.now) (sees_of names.now)) (view_steps trees.now)) result }
{
    let mut planned = List::new(alloc);
    for tree in trees {
        let one = step(alloc, names, tree)?;
        planned.push(one)?;
    }
    Ok(planned)
}

/// Plans the pattern after the source.
pub(crate) fn walk(
    alloc: Global,
    names: &NameResolver<'_>,
    tree: &Option<gq_tree::PatternTree>,
) -> Result<Walk, PlanFault>
    ensures { Answers (resolved_walk (known_of names.now) (sees_of names.now) (view_walk tree.now)) result }
{
    match tree {
        None => Ok(Walk::Nowhere),
        Some(gq_tree::PatternTree::Hop(tree)) => {
            let planned = hop(alloc, names, tree)?;
            Ok(Walk::Hop(planned))
        }
        Some(gq_tree::PatternTree::Path(trees)) => {
            let planned = steps(alloc, names, trees.as_slice())?;
            Ok(Walk::Path(planned))
        }
    }
}
