// SELECT.
ghost use Rattle.std.specs.Prelude.{◌≡◌, IfOk};
ghost use Rattle.gq_rules_typing.specs.Scopes as typing;
ghost use Rattle.gq_rules_typing.specs.SelectViews.{view_select};
ghost use Rattle.gq_rules_typing.specs.SelectTypes as spec;
ghost use Rattle.gq_scope.specs.Held.{scope_in};
ghost use Rattle.gq_check_from.specs.Faults.{Judges, Grows};
ghost use Rattle.gq_check_select.specs.Selects as selects;

use crate::clauses::clauses;
use gq_check_from::{
    CheckFault, end_types, selected_types, source_types, target_alias, text_of, walk, with_alias,
};
use gq_graph::Numbers;
use gq_scope::Scope;
use gq_tree::SelectTree;
use std::alloc::Global;

/// Checks FROM and the selected name, and makes the aliases visible. Returns the types of the selected vertices.
#[tactic(auto, using(gq_check_from::proofs::ScopeLemmas::walk_laws))]
fn from(alloc: Global, scope: &mut Scope<'_>, query: &SelectTree) -> Result<Numbers, CheckFault>
    ensures judged { Judges (λ types. (scope_in scope.new, types)) (selects.from (scope_in scope.old) (view_select query.now)) result }
    ensures grows { IfOk result (λ _. Grows scope.old scope.new) }
{
    let ends = end_types(alloc, scope, &query.walk)?;
    let sources = source_types(alloc, scope, query.source.as_str())?;
    with_alias(alloc, scope, &query.alias, sources.as_slice())?;
    walk(alloc, scope, ends.as_slice(), &query.walk)?;
    selected_types(
        alloc,
        scope,
        text_of(&query.alias),
        target_alias(&query.walk),
        query.selected.as_str(),
    )
}

/// Checks FROM and the clauses after it.
fn block<'q>(
    alloc: Global,
    scope: &mut Scope<'q>,
    query: &'q SelectTree,
) -> Result<Numbers, CheckFault>
    requires { scope.old.place ≡ typing.InStatement }
    ensures judged { Judges (λ l. l) (selects.select_within (scope_in scope.old) (view_select query.now)) result }
    ensures same { IfOk result (λ _. scope.new ≡ scope.old) }
{
    let kept = scope.len();
    let types = from(alloc, scope, query)?;
    clauses(alloc, scope, query)?;
    scope.cut(kept);
    Ok(types)
}

/// Checks a SELECT in the order of the text: FROM, the selected name, WHERE, ACCUM, POST-ACCUM, HAVING, ORDER BY and
/// LIMIT. Returns the types of its vertices, or the fault of the first rule that fails; may return OutOfMemory at any
/// time. Removes its aliases at its end.
pub fn select<'q>(
    alloc: Global,
    scope: &mut Scope<'q>,
    query: &'q SelectTree,
) -> Result<Numbers, CheckFault>
    requires { scope.old.place ≡ typing.InStatement }
    ensures judged { Judges (λ l. l) (spec.typing_select (scope_in scope.old) (view_select query.now)) result }
    ensures same { IfOk result (λ _. scope.new ≡ scope.old) }
{
    block(alloc, scope, query)
}
