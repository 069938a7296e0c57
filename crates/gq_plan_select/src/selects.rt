// SELECT.
ghost use Rattle.gq_rules_typing.specs.SelectViews.{view_select};
ghost use Rattle.gq_plan_expr.specs.Names.{known_of, sees_of};
ghost use Rattle.gq_plan_expr.specs.Resolved.{Answers};
ghost use Rattle.gq_plan_select.specs.Resolved.{resolved_source, resolved_from, resolved_clauses, resolved_tail, resolved_select};

use crate::acts::acts_if;
use crate::exprs::{order, plan_if};
use crate::walks::{alias, plan_place, vertex_type, walk};
use gq_base::List;
use gq_plan_expr::{NameResolver, PlanFault};
use gq_plan_ir::{Act, Block, Expr, SelectSource, Walk};
use gq_tree::SelectTree;
use std::alloc::Global;

/// The source and the pattern of a SELECT, with its aliases.
#[derive(Drop)]
pub(crate) struct Walked {
    pub(crate) selected: u32,
    pub(crate) source: SelectSource,
    pub(crate) alias: Option<u32>,
    pub(crate) walk: Walk,
}

/// WHERE, ACCUM and POST-ACCUM.
#[derive(Drop)]
pub(crate) struct Clauses {
    pub(crate) filter: Option<Expr>,
    pub(crate) accum: List<Act>,
    pub(crate) post: List<Act>,
}

/// HAVING, ORDER BY and LIMIT.
#[derive(Drop)]
pub(crate) struct Tail {
    pub(crate) having: Option<Expr>,
    pub(crate) order: List<(Expr, bool)>,
    pub(crate) limit: Option<Expr>,
}

/// Plans a SELECT, given its tree; `names` resolves its names, with the SELECT's aliases in view. It
/// takes some stack frames for each level of the tree, and none for the length of a list.
///
/// Returns `Unknown` if something isn't found, which doesn't happen in a well typed query. `OutOfMemory` may occur at
/// any time.
pub fn plan_block(
    alloc: Global,
    names: &NameResolver<'_>,
    tree: &SelectTree,
) -> Result<Block, PlanFault>
    ensures { Answers (resolved_select (known_of names.now) (sees_of names.now) (view_select tree.now)) result }
{
    let walked = plan_from(alloc, names, tree)?;
    let clauses = plan_clauses(alloc, names, tree)?;
    let tail = plan_tail(alloc, names, tree)?;
    Ok(Block {
        selected: walked.selected,
        source: walked.source,
        alias: walked.alias,
        walk: walked.walk,
        filter: clauses.filter,
        accum: clauses.accum,
        post: clauses.post,
        having: tail.having,
        order: tail.order,
        limit: tail.limit,
    })
}

/// Returns the set variable or the vertex type that a SELECT begins from.
fn source(names: &NameResolver<'_>, name: &str) -> Result<SelectSource, PlanFault>
    ensures { Answers (resolved_source (known_of names.now) (sees_of names.now) name.now) result }
{
    match names.is_set(name) {
        true => {
            let place = plan_place(names, name)?;
            Ok(SelectSource::Set(place))
        }
        false => {
            let number = vertex_type(names, name)?;
            Ok(SelectSource::Type(number))
        }
    }
}

fn plan_from(
    alloc: Global,
    names: &NameResolver<'_>,
    tree: &SelectTree,
) -> Result<Walked, PlanFault>
    ensures { Answers (resolved_from (known_of names.now) (sees_of names.now) (view_select tree.now)) result }
{
    let selected = plan_place(names, tree.selected.as_str())?;
    let source = source(names, tree.source.as_str())?;
    let alias = alias(names, &tree.alias)?;
    let walk = walk(alloc, names, &tree.walk)?;
    Ok(Walked {
        selected,
        source,
        alias,
        walk,
    })
}

fn plan_clauses(
    alloc: Global,
    names: &NameResolver<'_>,
    tree: &SelectTree,
) -> Result<Clauses, PlanFault>
    ensures { Answers (resolved_clauses (known_of names.now) (view_select tree.now)) result }
{
    let filter = plan_if(alloc, names, tree.filter.as_ref())?;
    let accum = acts_if(alloc, names, &tree.accum)?;
    let post = acts_if(alloc, names, &tree.post)?;
    Ok(Clauses {
        filter,
        accum,
        post,
    })
}

fn plan_tail(alloc: Global, names: &NameResolver<'_>, tree: &SelectTree) -> Result<Tail, PlanFault>
    ensures { Answers (resolved_tail (known_of names.now) (view_select tree.now)) result }
{
    let having = plan_if(alloc, names, tree.having.as_ref())?;
    let order = order(alloc, names, &tree.order)?;
    let limit = plan_if(alloc, names, tree.limit.as_ref())?;
    Ok(Tail {
        having,
        order,
        limit,
    })
}
