// Statements, in order. What a body declares ends with it.
ghost use Rattle.std.specs.Option.{option_map, option_copied};
ghost use Rattle.gq_tree.specs.View.{view};
ghost use Rattle.gq_rules_typing.specs.SelectViews.{view_change};
ghost use Rattle.gq_rules_typing.specs.Statements.{Local, ChangeGlobal, While, Foreach, Print};
ghost use Rattle.gq_rules_typing.specs.StatementViews.{view_base, view_over, view_right, view_locals, view_set_types, view_stmt, view_stmts};
ghost use Rattle.gq_plan_expr.specs.Names.{globals_in};
ghost use Rattle.gq_plan_stmt.specs.Parts.{view_items};
ghost use Rattle.gq_plan_stmt.specs.Steps.{AnswersIn, resolved_assign, resolved_locals, resolved_stmt, resolved_stmts, else_of, body_of};

use crate::blocks::{is_set_right, right};
use crate::items::items;
use crate::names::{add_name, plan_base, set_types_if, slot, target};
use crate::values::{change, over, plan_opening, value};
use gq_base::List;
use gq_plan_expr::{CatalogNames, PlanFault};
use gq_plan_ir::{Expr, Step};
use gq_scope::Places;
use gq_tree::{BaseTree, ChangeTree, ItemTree, Node, OverTree, RightTree, SetTypesTree, Stmt};
use gq_value::Txt;
use std::alloc::Global;

/// Plans statements; `places` holds the names in view, and what the statements declare comes into view. It takes some
/// stack frames for each level of the trees, and none for the length of a list.
///
/// Returns `Unknown` if something isn't found, which doesn't happen in a well typed query. `OutOfMemory` may occur at
/// any time.
pub fn plan_steps(
    alloc: Global,
    globals: &CatalogNames<'_>,
    places: &mut Places,
    trees: &[Stmt],
) -> Result<List<Step>, PlanFault>
    ensures { AnswersIn (resolved_stmts (globals_in globals.now) places.old (view_stmts trees.now)) places.new result }
{
    steps(trees, alloc, globals, places)
}

/// Plans new variables, each with its value if one is given.
#[tactic(auto, using(crate::proofs::ListLemmas::in_laws))]
fn locals(
    alloc: Global,
    globals: &CatalogNames<'_>,
    places: &mut Places,
    trees: &[(Txt, Option<Node>)],
) -> Result<List<(u32, Option<Expr>)>, PlanFault>
    ensures { AnswersIn (resolved_locals (globals_in globals.now) places.old (view_locals trees.now)) places.new result }
{
    let mut planned = List::new(alloc);
    for tree in trees {
        let opening = plan_opening(alloc, globals, places, tree.1.as_ref())?;
        let place = add_name(places, tree.0.as_str())?;
        planned.push((place, opening))?;
    }
    Ok(planned)
}

fn local_step(
    alloc: Global,
    globals: &CatalogNames<'_>,
    places: &mut Places,
    base: &BaseTree,
    trees: &[(Txt, Option<Node>)],
) -> Result<Step, PlanFault>
    ensures { AnswersIn (resolved_stmt (globals_in globals.now) places.old (Local (view_base base.now) (view_locals trees.now))) places.new result }
{
    let declared = plan_base(globals, base)?;
    let planned = locals(alloc, globals, places, trees)?;
    Ok(Step::Local(declared, planned))
}

/// Plans a change of a named global accumulator.
fn global_step(
    alloc: Global,
    globals: &CatalogNames<'_>,
    places: &Places,
    name: &str,
    tree: &ChangeTree,
) -> Result<Step, PlanFault>
    ensures { AnswersIn (resolved_stmt (globals_in globals.now) places.now (ChangeGlobal name.now (view_change tree.now))) places.now result }
{
    let number = slot(globals, name)?;
    let planned = change(alloc, globals, places, tree)?;
    Ok(Step::Global(number, planned))
}

fn print_step(
    alloc: Global,
    globals: &CatalogNames<'_>,
    places: &Places,
    trees: &[ItemTree],
) -> Result<Step, PlanFault>
    ensures { AnswersIn (resolved_stmt (globals_in globals.now) places.now (Print (view_items trees.now))) places.now result }
{
    let planned = items(alloc, globals, places, trees)?;
    Ok(Step::Print(planned))
}

fn assign(
    alloc: Global,
    globals: &CatalogNames<'_>,
    places: &mut Places,
    name: &str,
    types: Option<&SetTypesTree>,
    tree: &RightTree,
) -> Result<Step, PlanFault>
    ensures { AnswersIn (resolved_assign (globals_in globals.now) places.old name.now (option_map view_set_types (option_copied types.entry)) (view_right tree.now)) places.new result }
{
    let types = set_types_if(globals, types)?;
    let is_set = is_set_right(places, tree);
    let planned = right(alloc, globals, places, tree)?;
    let place = target(places, name, is_set)?;
    Ok(Step::Assign(place, types, planned))
}

#[cycle(steps)]
fn steps(
    trees: &[Stmt],
    alloc: Global,
    globals: &CatalogNames<'_>,
    places: &mut Places,
) -> Result<List<Step>, PlanFault>
    ensures { AnswersIn (resolved_stmts (globals_in globals.now) places.old (view_stmts trees.now)) places.new result }
{
    let mut planned = List::new(alloc);
    for tree in trees {
        let one = step(tree, alloc, globals, places)?;
        planned.push(one)?;
    }
    Ok(planned)
}

/// Plans a body, whose names end with it.
#[cycle(steps)]
#[tactic(auto, using(crate::proofs::GrowLemmas::body_cuts))]
fn body(
    trees: &[Stmt],
    alloc: Global,
    globals: &CatalogNames<'_>,
    places: &mut Places,
) -> Result<List<Step>, PlanFault>
    ensures { AnswersIn (body_of places.old (resolved_stmts (globals_in globals.now) places.old (view_stmts trees.now))) places.new result }
{
    let before = places.len();
    let planned = steps(trees, alloc, globals, places)?;
    places.cut(before);
    Ok(planned)
}

/// Plans the statements after ELSE; no statement is the same as no ELSE.
#[cycle(steps)]
fn else_body(
    trees: &[Stmt],
    alloc: Global,
    globals: &CatalogNames<'_>,
    places: &mut Places,
) -> Result<Option<List<Step>>, PlanFault>
    ensures { AnswersIn (else_of places.old (view_stmts trees.now) (body_of places.old (resolved_stmts (globals_in globals.now) places.old (view_stmts trees.now)))) places.new result }
{
    if trees.len() > 0 {
        let planned = body(trees, alloc, globals, places)?;
        return Ok(Some(planned));
    }
    Ok(None)
}

#[cycle(steps)]
fn while_step(
    trees: &[Stmt],
    alloc: Global,
    globals: &CatalogNames<'_>,
    places: &mut Places,
    test: &Node,
    limit: &Option<Node>,
) -> Result<Step, PlanFault>
    ensures { AnswersIn (resolved_stmt (globals_in globals.now) places.old (While (view test.now) (option_map view limit.now) (view_stmts trees.now))) places.new result }
{
    let test = value(alloc, globals, places, test)?;
    let limit = plan_opening(alloc, globals, places, limit.as_ref())?;
    let planned = body(trees, alloc, globals, places)?;
    Ok(Step::While(test, limit, planned))
}

/// Plans a FOREACH, whose variable ends with its body.
#[cycle(steps)]
#[tactic(auto, using(crate::proofs::GrowLemmas::loop_cuts))]
fn foreach_step(
    trees: &[Stmt],
    alloc: Global,
    globals: &CatalogNames<'_>,
    places: &mut Places,
    name: &str,
    tree: &OverTree,
) -> Result<Step, PlanFault>
    ensures { AnswersIn (resolved_stmt (globals_in globals.now) places.old (Foreach name.now (view_over tree.now) (view_stmts trees.now))) places.new result }
{
    let over = over(alloc, globals, places, tree)?;
    let before = places.len();
    let place = add_name(places, name)?;
    let planned = steps(trees, alloc, globals, places)?;
    places.cut(before);
    Ok(Step::Foreach(place, over, planned))
}

#[cycle(steps)]
fn step(
    tree: &Stmt,
    alloc: Global,
    globals: &CatalogNames<'_>,
    places: &mut Places,
) -> Result<Step, PlanFault>
    ensures { AnswersIn (resolved_stmt (globals_in globals.now) places.old (view_stmt tree.now)) places.new result }
{
    match tree {
        Stmt::Local(base, trees) => local_step(alloc, globals, places, base, trees.as_slice()),
        Stmt::Assign(name, types, tree) => {
            assign(alloc, globals, places, name.as_str(), types.as_ref(), tree)
        }
        Stmt::Global(name, tree) => global_step(alloc, globals, places, name.as_str(), tree),
        Stmt::If(branches, others) => {
            let mut planned = List::new(alloc);
            for branch in branches.as_slice() {
                let test = value(alloc, globals, places, &branch.0)?;
                let body = body(branch.1.as_slice(), alloc, globals, places)?;
                planned.push((test, body))?;
            }
            match others {
                None => Ok(Step::If(planned, None)),
                Some(trees) => {
                    let others = else_body(trees.as_slice(), alloc, globals, places)?;
                    Ok(Step::If(planned, others))
                }
            }
        }
        Stmt::While(test, limit, trees) => {
            while_step(trees.as_slice(), alloc, globals, places, test, limit)
        }
        Stmt::Foreach(name, over, trees) => {
            foreach_step(
                trees.as_slice(),
                alloc,
                globals,
                places,
                name.as_str(),
                over,
            )
        }
        Stmt::Print(trees) => print_step(alloc, globals, places, trees.as_slice()),
    }
}
