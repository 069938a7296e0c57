// SELECT, and the right sides of assignments.
ghost use Rattle.std.specs.Prelude.{◌≡◌};
ghost use Rattle.std.specs.Option.{option_copied};
ghost use Rattle.gq_tree.specs.View.{view};
ghost use Rattle.gq_rules_typing.specs.SelectViews.{view_select, view_walk};
ghost use Rattle.gq_rules_typing.specs.StatementViews.{view_right};
ghost use Rattle.gq_rules_typing.specs.Patterns as patterns;
ghost use Rattle.gq_plan_expr.specs.Names.{globals_in};
ghost use Rattle.gq_plan_expr.specs.Resolved.{Answers};
ghost use Rattle.gq_plan_select.specs.Resolved.{resolved_select};
ghost use Rattle.gq_plan_expr.specs.Globals.{known_in, sees_in};
ghost use Rattle.gq_plan_stmt.specs.Parts as parts;
ghost use Rattle.gq_plan_stmt.specs.Parts.{view_path};
ghost use Rattle.gq_plan_stmt.specs.Steps as steps;
ghost use Rattle.gq_plan_stmt.specs.Steps.{AnswersIn, DoneIn, resolved_block, resolved_right};

use crate::names::add_name;
use crate::sets::plan_sets;
use crate::values::value;
use gq_plan_expr::{CatalogNames, NameResolver, PlanFault};
use gq_plan_ir::{Block, Right};
use gq_plan_select::plan_block;
use gq_scope::Places;
use gq_tree::{Node, PatternTree, SelectTree, StepTree};
use gq_value::Txt;
use std::alloc::Global;

/// Returns an optional name as a text.
fn text_of(name: &Option<Txt>) -> Option<&str>
    ensures { option_copied result ≡ name.now }
{
    match name {
        None => None,
        Some(name) => Some(name.as_str()),
    }
}

fn last_edge(list: &[StepTree]) -> Option<&str>
    ensures { option_copied result ≡ parts.last_edge (patterns.last_step (view_path list.now)) }
{
    match list.last() {
        None => None,
        Some(tree) => text_of(&tree.edge_alias),
    }
}

fn last_target(list: &[StepTree]) -> Option<&str>
    ensures { option_copied result ≡ parts.last_target (patterns.last_step (view_path list.now)) }
{
    match list.last() {
        None => None,
        Some(tree) => text_of(&tree.target_alias),
    }
}

/// Returns the edge alias: that of a hop, or of the last step of a path.
fn edge_alias(tree: &Option<PatternTree>) -> Option<&str>
    ensures { option_copied result ≡ patterns.edge_alias (view_walk tree.now) }
{
    match tree {
        None => None,
        Some(tree) => match tree {
            PatternTree::Hop(tree) => text_of(&tree.edge_alias),
            PatternTree::Path(list) => last_edge(list.as_slice()),
        },
    }
}

/// Returns the target alias: that of a hop, or of the last step of a path.
fn target_alias(tree: &Option<PatternTree>) -> Option<&str>
    ensures { option_copied result ≡ patterns.target_alias (view_walk tree.now) }
{
    match tree {
        None => None,
        Some(tree) => match tree {
            PatternTree::Hop(tree) => text_of(&tree.target_alias),
            PatternTree::Path(list) => last_target(list.as_slice()),
        },
    }
}

/// Brings an alias into view, if there is one.
fn with_alias(places: &mut Places, name: Option<&str>) -> Result<(), PlanFault>
    ensures { DoneIn (steps.with_alias places.old (option_copied name.entry)) places.new result }
{
    match name {
        None => Ok(()),
        Some(name) => {
            add_name(places, name)?;
            Ok(())
        }
    }
}

fn with_aliases(places: &mut Places, tree: &SelectTree) -> Result<(), PlanFault>
    ensures { DoneIn (steps.with_aliases places.old (view_select tree.now)) places.new result }
{
    with_alias(places, text_of(&tree.alias))?;
    with_alias(places, edge_alias(&tree.walk))?;
    with_alias(places, target_alias(&tree.walk))
}

fn within(
    alloc: Global,
    globals: &CatalogNames<'_>,
    places: &Places,
    tree: &SelectTree,
) -> Result<Block, PlanFault>
    ensures { Answers (resolved_select (known_in (globals_in globals.now) places.now) (sees_in (globals_in globals.now) places.now) (view_select tree.now)) result }
{
    let names = NameResolver { globals, places };
    plan_block(alloc, &names, tree)
}

/// Plans a SELECT. Its aliases end with it.
#[tactic(auto, using(crate::proofs::GrowLemmas::block_cuts))]
fn block(
    alloc: Global,
    globals: &CatalogNames<'_>,
    places: &mut Places,
    tree: &SelectTree,
) -> Result<Block, PlanFault>
    ensures { AnswersIn (resolved_block (globals_in globals.now) places.old (view_select tree.now)) places.new result }
{
    let before = places.len();
    with_aliases(places, tree)?;
    let planned = within(alloc, globals, places, tree)?;
    places.cut(before);
    Ok(planned)
}

/// Plans the right side of an assignment.
pub(crate) fn right(
    alloc: Global,
    globals: &CatalogNames<'_>,
    places: &mut Places,
    tree: &gq_tree::RightTree,
) -> Result<Right, PlanFault>
    ensures { AnswersIn (resolved_right (globals_in globals.now) places.old (view_right tree.now)) places.new result }
{
    match tree {
        gq_tree::RightTree::Select(tree) => {
            let planned = block(alloc, globals, places, tree)?;
            Ok(Right::Select(planned))
        }
        gq_tree::RightTree::Sets(tree) => {
            let planned = plan_sets(alloc, globals, places, tree)?;
            Ok(Right::Sets(planned))
        }
        gq_tree::RightTree::Value(node) => {
            let planned = value(alloc, globals, places, node)?;
            Ok(Right::Value(planned))
        }
    }
}

/// Whether it is only the name of a set.
#[tactic(auto, using(gq_tree::proofs::ViewLemmas::view_laws))]
fn is_set_name(places: &Places, node: &Node) -> bool
    ensures { result ≡ parts.is_set_name places.now (view node.now) }
{
    match node {
        Node::Name(name) => places.is_marked(name.as_str()),
        Node::Number(_) | Node::Text(_) | Node::Truth(_) | Node::Global(_) => false,
        Node::Call(_, _) | Node::Post(_, _) | Node::Neg(_, _) | Node::Mul(_, _) => false,
        Node::Sum(_, _) | Node::Cmp(_, _, _) | Node::Not(_, _) => false,
        Node::And(_, _) | Node::Or(_, _) => false,
    }
}

/// Whether the right side of an assignment is a set.
pub(crate) fn is_set_right(places: &Places, tree: &gq_tree::RightTree) -> bool
    ensures { result ≡ parts.is_set_right places.now (view_right tree.now) }
{
    match tree {
        gq_tree::RightTree::Select(_) => true,
        gq_tree::RightTree::Sets(_) => true,
        gq_tree::RightTree::Value(node) => is_set_name(places, node),
    }
}
