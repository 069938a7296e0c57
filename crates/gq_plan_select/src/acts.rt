// The acts of ACCUM and POST-ACCUM.
ghost use Rattle.gq_tree.specs.View.{view};
ghost use Rattle.gq_rules_typing.specs.Selecting as plain;
ghost use Rattle.gq_rules_typing.specs.SelectViews.{view_change, view_act, view_acts, view_acts_if};
ghost use Rattle.gq_plan_expr.specs.Names.{known_of};
ghost use Rattle.gq_plan_expr.specs.Resolved.{Answers};
ghost use Rattle.gq_plan_select.specs.Resolved.{resolved_act, resolved_acts, else_of};

use crate::inputs::plan_change;
use crate::walks::plan_place;
use gq_base::List;
use gq_plan_expr::{NameResolver, PlanFault, plan_expr};
use gq_plan_ir::Act;
use gq_tree::ChangeTree;
use std::alloc::Global;

/// Plans the acts of a clause, if there is one.
pub(crate) fn acts_if(
    alloc: Global,
    names: &NameResolver<'_>,
    list: &Option<List<gq_tree::ActTree>>,
) -> Result<List<Act>, PlanFault>
    ensures { Answers (resolved_acts (known_of names.now) (view_acts_if list.now)) result }
{
    match list {
        None => Ok(List::new(alloc)),
        Some(list) => acts(list.as_slice(), alloc, names),
    }
}

/// Plans a change of a named accumulator at a named alias.
fn at_alias(
    alloc: Global,
    names: &NameResolver<'_>,
    alias: &str,
    name: &str,
    change: &ChangeTree,
) -> Result<Act, PlanFault>
    ensures { Answers (resolved_act (known_of names.now) (plain.AtAlias alias.now name.now (view_change change.now))) result }
{
    let place = plan_place(names, alias)?;
    let slot = plan_slot(names, name)?;
    let planned = plan_change(alloc, names, change)?;
    Ok(Act::Attached(place, slot, planned))
}

/// Plans a change of a named global accumulator.
fn at_global(
    alloc: Global,
    names: &NameResolver<'_>,
    name: &str,
    change: &ChangeTree,
) -> Result<Act, PlanFault>
    ensures { Answers (resolved_act (known_of names.now) (plain.AtGlobal name.now (view_change change.now))) result }
{
    let slot = plan_slot(names, name)?;
    let planned = plan_change(alloc, names, change)?;
    Ok(Act::Global(slot, planned))
}

/// Returns the slot of an accumulator.
pub(crate) fn plan_slot(names: &NameResolver<'_>, name: &str) -> Result<u32, PlanFault>
    ensures { Answers ((known_of names.now).slot name.now) result }
{
    match names.slot(name) {
        None => Err(PlanFault::Unknown),
        Some(slot) => Ok(slot),
    }
}

#[cycle(acts)]
#[tactic(auto, using(gq_plan_expr::proofs::ListLemmas::list_laws))]
fn acts(
    list: &[gq_tree::ActTree],
    alloc: Global,
    names: &NameResolver<'_>,
) -> Result<List<Act>, PlanFault>
    ensures { Answers (resolved_acts (known_of names.now) (view_acts list.now)) result }
{
    let mut planned = List::new(alloc);
    for item in list {
        let one = act(item, alloc, names)?;
        planned.push(one)?;
    }
    Ok(planned)
}

#[cycle(acts)]
#[tactic(auto, using(gq_rules_typing::proofs::ViewLaws::statement_laws, crate::proofs::ActLemmas::act_laws))]
fn act(item: &gq_tree::ActTree, alloc: Global, names: &NameResolver<'_>) -> Result<Act, PlanFault>
    ensures { Answers (resolved_act (known_of names.now) (view_act item.now)) result }
{
    match item {
        gq_tree::ActTree::Attached(alias, name, change) => {
            at_alias(alloc, names, alias.as_str(), name.as_str(), change)
        }
        gq_tree::ActTree::Global(name, change) => at_global(alloc, names, name.as_str(), change),
        gq_tree::ActTree::If(branches, others) => {
            let mut planned = List::new(alloc);
            for branch in branches.as_slice() {
                let test = plan_expr(alloc, names, &branch.0)?;
                let body = acts(branch.1.as_slice(), alloc, names)?;
                planned.push((test, body))?;
            }
            match others {
                None => Ok(Act::If(planned, None)),
                Some(list) => {
                    let body = else_acts(list.as_slice(), alloc, names)?;
                    Ok(Act::If(planned, body))
                }
            }
        }
    }
}

/// Plans the acts after ELSE; none is the same as no ELSE.
#[cycle(acts)]
fn else_acts(
    list: &[gq_tree::ActTree],
    alloc: Global,
    names: &NameResolver<'_>,
) -> Result<Option<List<Act>>, PlanFault>
    ensures { Answers (else_of (view_acts list.now) (resolved_acts (known_of names.now) (view_acts list.now))) result }
{
    if list.len() > 0 {
        let body = acts(list, alloc, names)?;
        return Ok(Some(body));
    }
    Ok(None)
}
