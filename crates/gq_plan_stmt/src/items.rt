// The items of PRINT.
ghost use Rattle.std.specs.Prelude.{◌≡◌, IfOk};
ghost use Rattle.gq_rules_typing.specs.StatementViews.{key_of, view_item};
ghost use Rattle.gq_plan_expr.specs.Names.{globals_in};
ghost use Rattle.gq_plan_expr.specs.Resolved.{Answers};
ghost use Rattle.gq_plan_select.specs.Resolved.{each_resolved};
ghost use Rattle.gq_plan_expr.specs.Globals.{known_in};
ghost use Rattle.gq_plan_stmt.specs.Parts.{resolved_keyed, resolved_item, view_columns, view_items, selection_key};

use crate::values::value;
use gq_base::{List, OutOfMemory};
use gq_plan_expr::{CatalogNames, NameResolver, PlanFault};
use gq_plan_ir::{Expr, PrintItem};
use gq_plan_select::plan_place;
use gq_scope::{Places, key_text};
use gq_tree::{Label, Node};
use gq_value::Txt;
use std::alloc::Global;

fn key(alloc: Global, label: &Label) -> Result<Txt, OutOfMemory>
    ensures { IfOk result (λ key. key ≡ key_of label.now) }
{
    let text = key_text(label)?;
    Txt::of(alloc, text)
}

/// Returns the key of a selection: without AS it is the name of its set.
fn columns_key(alloc: Global, set: &Txt, name: &Option<Txt>) -> Result<Txt, OutOfMemory>
    ensures { IfOk result (λ key. key ≡ selection_key set.now name.now) }
{
    match name {
        None => Txt::of(alloc, set.as_str()),
        Some(name) => Txt::of(alloc, name.as_str()),
    }
}

#[tactic(auto, using(gq_plan_expr::proofs::ListLemmas::list_laws))]
fn columns(
    alloc: Global,
    globals: &CatalogNames<'_>,
    places: &Places,
    trees: &[(Node, Label)],
) -> Result<List<(Expr, Txt)>, PlanFault>
    ensures { Answers (each_resolved (resolved_keyed (known_in (globals_in globals.now) places.now)) (view_columns trees.now)) result }
{
    let mut planned = List::new(alloc);
    for tree in trees {
        let one = value(alloc, globals, places, &tree.0)?;
        let key = key(alloc, &tree.1)?;
        planned.push((one, key))?;
    }
    Ok(planned)
}

fn selection(globals: &CatalogNames<'_>, places: &Places, set: &str) -> Result<u32, PlanFault>
    ensures { Answers ((known_in (globals_in globals.now) places.now).place set.now) result }
{
    let names = NameResolver { globals, places };
    plan_place(&names, set)
}

fn item(
    alloc: Global,
    globals: &CatalogNames<'_>,
    places: &Places,
    tree: &gq_tree::ItemTree,
) -> Result<PrintItem, PlanFault>
    ensures { Answers (resolved_item (known_in (globals_in globals.now) places.now) (view_item tree.now)) result }
{
    match tree {
        gq_tree::ItemTree::Value(node, label) => {
            let planned = value(alloc, globals, places, node)?;
            let key = key(alloc, label)?;
            Ok(PrintItem::Value(planned, key))
        }
        gq_tree::ItemTree::Columns(set, trees, name) => {
            let place = selection(globals, places, set.as_str())?;
            let planned = columns(alloc, globals, places, trees.as_slice())?;
            let key = columns_key(alloc, set, name)?;
            Ok(PrintItem::Columns(place, planned, key))
        }
    }
}

/// Plans the items of a PRINT.
#[tactic(auto, using(gq_plan_expr::proofs::ListLemmas::list_laws))]
pub(crate) fn items(
    alloc: Global,
    globals: &CatalogNames<'_>,
    places: &Places,
    trees: &[gq_tree::ItemTree],
) -> Result<List<PrintItem>, PlanFault>
    ensures { Answers (each_resolved (resolved_item (known_in (globals_in globals.now) places.now)) (view_items trees.now)) result }
{
    let mut planned = List::new(alloc);
    for tree in trees {
        let one = item(alloc, globals, places, tree)?;
        planned.push(one)?;
    }
    Ok(planned)
}
