// Set expressions.
ghost use Rattle.gq_rules_typing.specs.StatementViews.{view_seed, view_term};
ghost use Rattle.gq_scope.specs.Named.{place_at};
ghost use Rattle.gq_plan_expr.specs.Names.{globals_in};
ghost use Rattle.gq_plan_expr.specs.Resolved.{Answers};
ghost use Rattle.gq_plan_select.specs.Resolved.{each_resolved};
ghost use Rattle.gq_plan_stmt.specs.Parts.{resolved_seed, resolved_term, resolved_operand, resolved_sets, view_seeds, view_operands};

use crate::names::{slot, vertex_type};
use gq_base::List;
use gq_plan_expr::{CatalogNames, PlanFault};
use gq_plan_ir::{Seed, SetTerm, Sets};
use gq_scope::Places;
use gq_tree::SetOp;
use std::alloc::Global;

fn place(places: &Places, name: &str) -> Result<u32, PlanFault>
    ensures { Answers (place_at places.now name.now) result }
{
    match places.place(name) {
        None => Err(PlanFault::Unknown),
        Some(place) => Ok(place),
    }
}

fn seed(
    globals: &CatalogNames<'_>,
    places: &Places,
    tree: &gq_tree::SeedTree,
) -> Result<Seed, PlanFault>
    ensures { Answers (resolved_seed (globals_in globals.now) places.now (view_seed tree.now)) result }
{
    match tree {
        gq_tree::SeedTree::Type(name) => {
            let number = vertex_type(globals, name.as_str())?;
            Ok(Seed::Type(number))
        }
        gq_tree::SeedTree::Any => Ok(Seed::Every),
        gq_tree::SeedTree::Name(name) => {
            let at = place(places, name.as_str())?;
            Ok(Seed::Name(at))
        }
        gq_tree::SeedTree::Global(name) => {
            let number = slot(globals, name.as_str())?;
            Ok(Seed::Global(number))
        }
    }
}

#[tactic(auto, using(gq_plan_expr::proofs::ListLemmas::list_laws))]
fn seeds(
    alloc: Global,
    globals: &CatalogNames<'_>,
    places: &Places,
    trees: &[gq_tree::SeedTree],
) -> Result<List<Seed>, PlanFault>
    ensures { Answers (each_resolved (resolved_seed (globals_in globals.now) places.now) (view_seeds trees.now)) result }
{
    let mut planned = List::new(alloc);
    for tree in trees {
        let one = seed(globals, places, tree)?;
        planned.push(one)?;
    }
    Ok(planned)
}

fn term(
    alloc: Global,
    globals: &CatalogNames<'_>,
    places: &Places,
    tree: &gq_tree::SetTermTree,
) -> Result<SetTerm, PlanFault>
    ensures { Answers (resolved_term (globals_in globals.now) places.now (view_term tree.now)) result }
{
    match tree {
        gq_tree::SetTermTree::Name(name) => {
            let at = place(places, name.as_str())?;
            Ok(SetTerm::Name(at))
        }
        gq_tree::SetTermTree::Seeds(trees) => {
            let planned = seeds(alloc, globals, places, trees.as_slice())?;
            Ok(SetTerm::Seeds(planned))
        }
    }
}

#[tactic(auto, using(gq_plan_expr::proofs::ListLemmas::list_laws))]
fn operands(
    alloc: Global,
    globals: &CatalogNames<'_>,
    places: &Places,
    trees: &[(SetOp, gq_tree::SetTermTree)],
) -> Result<List<(SetOp, SetTerm)>, PlanFault>
    ensures { Answers (each_resolved (resolved_operand (globals_in globals.now) places.now) (view_operands trees.now)) result }
{
    let mut planned = List::new(alloc);
    for tree in trees {
        let one = term(alloc, globals, places, &tree.1)?;
        planned.push((tree.0, one))?;
    }
    Ok(planned)
}

/// Plans a set expression: a written set, or several in a chain.
pub(crate) fn plan_sets(
    alloc: Global,
    globals: &CatalogNames<'_>,
    places: &Places,
    tree: &gq_tree::SetsTree,
) -> Result<Sets, PlanFault>
    ensures { Answers (resolved_sets (globals_in globals.now) places.now (view_term tree.now.first) (view_operands tree.now.others)) result }
{
    let first = term(alloc, globals, places, &tree.first)?;
    let others = operands(alloc, globals, places, tree.others.as_slice())?;
    Ok(Sets { first, others })
}
