// Expressions, with some names in view.
ghost use Rattle.std.specs.Option.{option_map, option_copied};
ghost use Rattle.gq_tree.specs.View.{view};
ghost use Rattle.gq_rules_typing.specs.SelectViews.{view_change};
ghost use Rattle.gq_rules_typing.specs.StatementViews.{view_over};
ghost use Rattle.gq_plan_expr.specs.Names.{globals_in};
ghost use Rattle.gq_plan_expr.specs.Resolved.{Answers, resolved};
ghost use Rattle.gq_plan_select.specs.Resolved.{if_there, resolved_change};
ghost use Rattle.gq_plan_expr.specs.Globals.{known_in};
ghost use Rattle.gq_plan_stmt.specs.Parts.{resolved_over};

use gq_plan_expr::{CatalogNames, NameResolver, PlanFault, plan_expr};
use gq_plan_ir::{Change, Expr, Over};
use gq_plan_select::{plan_change, plan_if};
use gq_scope::Places;
use gq_tree::Node;
use std::alloc::Global;

/// Plans an expression.
pub(crate) fn value(
    alloc: Global,
    globals: &CatalogNames<'_>,
    places: &Places,
    node: &Node,
) -> Result<Expr, PlanFault>
    ensures { Answers (resolved (known_in (globals_in globals.now) places.now) (view node.now)) result }
{
    let names = NameResolver { globals, places };
    plan_expr(alloc, &names, node)
}

/// Plans an optional expression, such as the initial value of a local or an accumulator.
pub fn plan_opening(
    alloc: Global,
    globals: &CatalogNames<'_>,
    places: &Places,
    node: Option<&Node>,
) -> Result<Option<Expr>, PlanFault>
    ensures { Answers (if_there (resolved (known_in (globals_in globals.now) places.now)) (option_map view (option_copied node.entry))) result }
{
    let names = NameResolver { globals, places };
    plan_if(alloc, &names, node)
}

/// Plans the change of a global accumulator.
pub(crate) fn change(
    alloc: Global,
    globals: &CatalogNames<'_>,
    places: &Places,
    tree: &gq_tree::ChangeTree,
) -> Result<Change, PlanFault>
    ensures { Answers (resolved_change (known_in (globals_in globals.now) places.now) (view_change tree.now)) result }
{
    let names = NameResolver { globals, places };
    plan_change(alloc, &names, tree)
}

/// Plans what FOREACH iterates over.
pub(crate) fn over(
    alloc: Global,
    globals: &CatalogNames<'_>,
    places: &Places,
    tree: &gq_tree::OverTree,
) -> Result<Over, PlanFault>
    ensures { Answers (resolved_over (known_in (globals_in globals.now) places.now) (view_over tree.now)) result }
{
    match tree {
        gq_tree::OverTree::Elements(node) => {
            let planned = value(alloc, globals, places, node)?;
            Ok(Over::Elements(planned))
        }
        gq_tree::OverTree::Range(first, last) => {
            let first = value(alloc, globals, places, first)?;
            let last = value(alloc, globals, places, last)?;
            Ok(Over::Range(first, last))
        }
    }
}
