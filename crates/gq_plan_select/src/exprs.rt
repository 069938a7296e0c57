// Optional expressions, and lists of expressions.
ghost use Rattle.std.specs.Option.{option_map, option_copied};
ghost use Rattle.gq_tree.specs.View.{view, views};
ghost use Rattle.gq_rules_typing.specs.SelectViews.{view_order};
ghost use Rattle.gq_plan_expr.specs.Names.{known_of};
ghost use Rattle.gq_plan_expr.specs.Resolved.{Answers, resolved, resolved_all};
ghost use Rattle.gq_plan_select.specs.Resolved.{if_there, each_resolved, resolved_key, view_keys};

use gq_base::List;
use gq_plan_expr::{NameResolver, PlanFault, plan_expr};
use gq_plan_ir::Expr;
use gq_tree::Node;
use std::alloc::Global;

/// Plans an expression, if there is one.
pub fn plan_if(
    alloc: Global,
    names: &NameResolver<'_>,
    node: Option<&Node>,
) -> Result<Option<Expr>, PlanFault>
    ensures { Answers (if_there (resolved (known_of names.now)) (option_map view (option_copied node.entry))) result }
{
    match node {
        None => Ok(None),
        Some(node) => {
            let planned = plan_expr(alloc, names, node)?;
            Ok(Some(planned))
        }
    }
}

/// Plans expressions, in order.
#[tactic(auto, using(gq_plan_expr::proofs::ListLemmas::list_laws))]
pub(crate) fn exprs(
    alloc: Global,
    names: &NameResolver<'_>,
    nodes: &[Node],
) -> Result<List<Expr>, PlanFault>
    ensures { Answers (resolved_all (known_of names.now) (views nodes.now)) result }
{
    let mut planned = List::new(alloc);
    for node in nodes {
        let one = plan_expr(alloc, names, node)?;
        planned.push(one)?;
    }
    Ok(planned)
}

/// Plans keys of ORDER BY, each with whether it is descending.
#[tactic(auto, using(gq_plan_expr::proofs::ListLemmas::list_laws))]
fn keys(
    alloc: Global,
    names: &NameResolver<'_>,
    keys: &[(Node, bool)],
) -> Result<List<(Expr, bool)>, PlanFault>
    ensures { Answers (each_resolved (resolved_key (known_of names.now)) (view_keys keys.now)) result }
{
    let mut planned = List::new(alloc);
    for key in keys {
        let one = plan_expr(alloc, names, &key.0)?;
        planned.push((one, key.1))?;
    }
    Ok(planned)
}

/// Plans ORDER BY, if there is one.
pub(crate) fn order(
    alloc: Global,
    names: &NameResolver<'_>,
    order: &Option<List<(Node, bool)>>,
) -> Result<List<(Expr, bool)>, PlanFault>
    ensures { Answers (each_resolved (resolved_key (known_of names.now)) (view_order order.now)) result }
{
    match order {
        None => Ok(List::new(alloc)),
        Some(list) => keys(alloc, names, list.as_slice()),
    }
}
