// The statements of ACCUM and POST-ACCUM.
ghost use Rattle.std.specs.Prelude.{◌≡◌, true, false};
ghost use Rattle.std.specs.Option.{option_copied};
ghost use Rattle.gq_tree.specs.View.{view};
ghost use Rattle.gq_rules_typing.specs.ExpressionTypes as forms;
ghost use Rattle.gq_rules_typing.specs.Scopes.{InBlock, InPost, names_at};
ghost use Rattle.gq_rules_typing.specs.SelectViews.{view_act, view_acts};
ghost use Rattle.gq_rules_typing.specs.ActTypes as spec;
ghost use Rattle.gq_scope.specs.Held.{scope_in};
ghost use Rattle.gq_check_from.specs.Faults.{Judges};
ghost use Rattle.gq_check_select.specs.Trees as trees;

use crate::changes::{at_alias, at_global};
use crate::mentions::in_act;
use gq_check_from::CheckFault;
use gq_scope::Scope;
use gq_tree::{ActTree, Node};
use gq_type::condition;
use std::alloc::Global;

/// Checks the statements of ACCUM, in a scope at the place of the block. Returns their number, with nested ones: at
/// most 1,000.
pub fn accum(alloc: Global, scope: &Scope<'_>, list: &[ActTree]) -> Result<u32, CheckFault>
    requires { scope.now.place ≡ InBlock }
    ensures { Judges (λ n. n) (spec.typing_acts (scope_in scope.now) false 0 (view_acts list.now)) result }
{
    acts(list, alloc, scope, false, 0)
}

/// Counts one more statement.
fn one_more(count: u32) -> Result<u32, CheckFault>
    ensures { Judges (λ n. n) (spec.one_more count) result }
{
    if count < 1000 {
        Ok(count + 1)
    } else {
        Err(CheckFault::TooMany)
    }
}

/// Checks the condition of an IF.
#[tactic(auto, using(crate::proofs::ActPlaceLemmas::place_laws))]
fn tested(alloc: Global, scope: &Scope<'_>, post: bool, node: &Node) -> Result<(), CheckFault>
    requires { scope.now.place ≡ spec.place_of post }
    ensures { Judges (λ _. true) (forms.condition (names_at (scope_in scope.now) (spec.place_of post)) (view node.now)) result }
{
    condition(alloc, scope, node)?;
    Ok(())
}

// ---- statements, given the number so far; they return the number after them

#[cycle(acts)]
fn acts(
    list: &[ActTree],
    alloc: Global,
    scope: &Scope<'_>,
    post: bool,
    count: u32,
) -> Result<u32, CheckFault>
    requires { scope.now.place ≡ spec.place_of post }
    ensures { Judges (λ n. n) (spec.typing_acts (scope_in scope.now) post count (view_acts list.now)) result }
{
    let mut total = count;
    for item in list {
        let with_it = one_more(total)?;
        total = act(item, alloc, scope, post, with_it)?;
    }
    Ok(total)
}

#[cycle(acts)]
#[tactic(auto, using(crate::proofs::TreeLemmas::act_laws))]
fn act(
    item: &ActTree,
    alloc: Global,
    scope: &Scope<'_>,
    post: bool,
    count: u32,
) -> Result<u32, CheckFault>
    requires { scope.now.place ≡ spec.place_of post }
    ensures { Judges (λ n. n) (spec.typing_act (scope_in scope.now) post count (view_act item.now)) result }
{
    match item {
        ActTree::Attached(alias, name, change) => {
            at_alias(alloc, scope, post, alias.as_str(), name.as_str(), change)?;
            Ok(count)
        }
        ActTree::Global(name, change) => {
            at_global(alloc, scope, post, name.as_str(), change)?;
            Ok(count)
        }
        ActTree::If(branches, others) => {
            let mut total = count;
            for branch in branches.as_slice() {
                tested(alloc, scope, post, &branch.0)?;
                total = acts(branch.1.as_slice(), alloc, scope, post, total)?;
            }
            match others {
                None => Ok(total),
                Some(list) => acts(list.as_slice(), alloc, scope, post, total),
            }
        }
    }
}

// ---- POST-ACCUM

/// Checks that a statement of POST-ACCUM, with everything nested in it, names at most one vertex alias.
fn names_one(source: Option<&str>, target: Option<&str>, item: &ActTree) -> Result<(), CheckFault>
    ensures { Judges (λ _. true) (trees.names_one (option_copied source.entry) (option_copied target.entry) (view_act item.now)) result }
{
    if in_act(item, source) && in_act(item, target) {
        Err(CheckFault::TwoAliases)
    } else {
        Ok(())
    }
}

/// Checks one more statement of POST-ACCUM, given the number so far.
fn post_act(
    alloc: Global,
    scope: &Scope<'_>,
    source: Option<&str>,
    target: Option<&str>,
    count: u32,
    item: &ActTree,
) -> Result<u32, CheckFault>
    requires { scope.now.place ≡ InPost }
    ensures { Judges (λ n. n)
        (trees.post_act (scope_in scope.now) (option_copied source.entry) (option_copied target.entry) count (view_act item.now)) result }
{
    let with_it = one_more(count)?;
    let total = act(item, alloc, scope, true, with_it)?;
    names_one(source, target, item)?;
    Ok(total)
}

/// Checks the statements of POST-ACCUM, in a scope at that place, of a block with these aliases. Returns their number,
/// with nested ones: at most 1,000.
pub fn post_accum(
    alloc: Global,
    scope: &Scope<'_>,
    source: Option<&str>,
    target: Option<&str>,
    list: &[ActTree],
) -> Result<u32, CheckFault>
    requires { scope.now.place ≡ InPost }
    ensures { Judges (λ n. n)
        (spec.typing_post (scope_in scope.now) (option_copied source.entry) (option_copied target.entry) 0 (view_acts list.now)) result }
{
    let mut total = 0;
    for item in list {
        total = post_act(alloc, scope, source, target, total, item)?;
    }
    Ok(total)
}
