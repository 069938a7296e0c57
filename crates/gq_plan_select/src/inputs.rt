// Inputs of accumulators, and changes of accumulators.
ghost use Rattle.gq_rules_typing.specs.SelectViews.{inputs_of, view_input, view_change};
ghost use Rattle.gq_plan_expr.specs.Names.{known_of};
ghost use Rattle.gq_plan_expr.specs.Resolved.{Answers};
ghost use Rattle.gq_plan_select.specs.Resolved.{resolved_input, resolved_inputs, resolved_change, view_inputs};

use crate::exprs::exprs;
use gq_base::List;
use gq_plan_expr::{NameResolver, PlanFault, plan_expr};
use gq_plan_ir::{Change, Feed};
use gq_tree::InputTree;
use std::alloc::Global;

/// Plans the change of an accumulator. It takes some stack frames for each level of the tree.
///
/// Returns `Unknown` if something isn't found, which doesn't happen in a well typed query. `OutOfMemory` may occur at
/// any time.
pub fn plan_change(
    alloc: Global,
    names: &NameResolver<'_>,
    change: &gq_tree::ChangeTree,
) -> Result<Change, PlanFault>
    ensures { Answers (resolved_change (known_of names.now) (view_change change.now)) result }
{
    match change {
        gq_tree::ChangeTree::Feed(tree) => {
            let planned = input(tree, alloc, names)?;
            Ok(Change::Feed(planned))
        }
        gq_tree::ChangeTree::Set(node) => {
            let planned = plan_expr(alloc, names, node)?;
            Ok(Change::Set(planned))
        }
    }
}

#[cycle(inputs)]
#[tactic(auto, using(gq_rules_typing::proofs::ViewLaws::statement_laws))]
fn input(tree: &InputTree, alloc: Global, names: &NameResolver<'_>) -> Result<Feed, PlanFault>
    ensures { Answers (resolved_input (known_of names.now) (view_input tree.now)) result }
{
    match tree {
        InputTree::One(node) => {
            let planned = plan_expr(alloc, names, node)?;
            Ok(Feed::One(planned))
        }
        InputTree::Keyed(keys, parts) => {
            let keys = exprs(alloc, names, keys.as_slice())?;
            let parts = inputs(parts.as_slice(), alloc, names)?;
            Ok(Feed::Keyed(keys, parts))
        }
    }
}

#[cycle(inputs)]
#[tactic(auto, using(gq_plan_expr::proofs::ListLemmas::list_laws))]
fn inputs(
    trees: &[InputTree],
    alloc: Global,
    names: &NameResolver<'_>,
) -> Result<List<Feed>, PlanFault>
    ensures { Answers (resolved_inputs (known_of names.now) (view_inputs trees.now)) result }
{
    let mut planned = List::new(alloc);
    for tree in trees {
        let one = input(tree, alloc, names)?;
        planned.push(one)?;
    }
    Ok(planned)
}
