// Changes of accumulators, checked according to their sign.
ghost use Rattle.std.specs.Prelude.{◌≡◌, true};
ghost use Rattle.gq_value.specs.AccumViews.{accum_of};
ghost use Rattle.gq_rules_typing.specs.SelectViews.{view_change};
ghost use Rattle.gq_rules_typing.specs.Scopes.{InBlock, InPost};
ghost use Rattle.gq_rules_typing.specs.ActTypes as spec;
ghost use Rattle.gq_scope.specs.Held.{scope_in, names_in};
ghost use Rattle.gq_scope.specs.Views.{base_is};
ghost use Rattle.gq_check_from.specs.Faults.{Judges};
ghost use Rattle.gq_check_select.specs.Trees as trees;

use crate::inputs::input;
use gq_check_from::{CheckFault, order_dependent, unknown};
use gq_scope::{Base, Entry, Scope, is_list, set_type};
use gq_tree::ChangeTree;
use gq_type::{converting, declared_kind};
use gq_value::Kind;
use std::alloc::Global;

/// Checks that v of `v.@a` is a source or target alias.
#[tactic(auto, using(gq_type::proofs::ScopeLemmas::scope_laws))]
fn vertex_alias(alloc: Global, scope: &Scope<'_>, name: &str) -> Result<(), CheckFault>
    ensures { Judges (λ _. true) (spec.vertex_alias (scope_in scope.now) name.now) result }
{
    match scope.find(name) {
        None => Err(unknown(alloc, name)),
        Some(entry) => match entry {
            Entry::Alias(_) => Ok(()),
            Entry::TupleType(_) => Err(unknown(alloc, name)),
            Entry::Variable(_) | Entry::SetVariable(_) => Err(CheckFault::NotAllowedHere),
            Entry::EdgeAlias(_) | Entry::Accumulator(_, _) => Err(CheckFault::NotAllowedHere),
        },
    }
}

/// The type of value to which `=` sets an accumulator of a kind; type mismatch for one that can't be set.
fn settable(kind: &Kind) -> Result<Base<'_>, CheckFault>
    ensures { Judges base_is (spec.settable (accum_of kind.now)) result }
{
    match set_type(kind) {
        None => Err(CheckFault::Mismatch),
        Some(base) => Ok(base),
    }
}

/// Refuses an input to a ListAccum, which isn't allowed in ACCUM.
fn in_any_order(alloc: Global, name: &str, kind: &Kind) -> Result<(), CheckFault>
    ensures { Judges (λ _. true) (trees.in_any_order name.now (accum_of kind.now)) result }
{
    if is_list(kind) {
        Err(order_dependent(alloc, name))
    } else {
        Ok(())
    }
}

/// Checks a change in ACCUM: only inputs, and none to a ListAccum.
#[tactic(auto, using(gq_type::proofs::ScopeLemmas::scope_laws, crate::proofs::ActPlaceLemmas::place_laws))]
fn given(
    alloc: Global,
    scope: &Scope<'_>,
    name: &str,
    kind: &Kind,
    change: &ChangeTree,
) -> Result<(), CheckFault>
    requires { scope.now.place ≡ InBlock }
    ensures { Judges (λ _. true) (spec.typing_given (scope_in scope.now) name.now (accum_of kind.now) (view_change change.now)) result }
{
    match change {
        ChangeTree::Feed(tree) => {
            in_any_order(alloc, name, kind)?;
            input(tree, alloc, scope, Some(kind))
        }
        ChangeTree::Set(_) => Err(CheckFault::NotAllowedHere),
    }
}

/// Checks a change of an accumulator of a kind: inputs, or a new value. This is for statements, and for an alias in
/// POST-ACCUM.
pub fn written(
    alloc: Global,
    scope: &Scope<'_>,
    kind: &Kind,
    change: &ChangeTree,
) -> Result<(), CheckFault>
    ensures { Judges (λ _. true) (trees.change_written (names_in scope.now) (accum_of kind.now) (view_change change.now)) result }
{
    match change {
        ChangeTree::Feed(tree) => input(tree, alloc, scope, Some(kind)),
        ChangeTree::Set(node) => {
            let base = settable(kind)?;
            converting(alloc, scope, base, node)?;
            Ok(())
        }
    }
}

/// Checks a change of a global accumulator in POST-ACCUM: only inputs.
#[tactic(auto, using(crate::proofs::ActPlaceLemmas::place_laws))]
fn fed(alloc: Global, scope: &Scope<'_>, kind: &Kind, change: &ChangeTree) -> Result<(), CheckFault>
    requires { scope.now.place ≡ InPost }
    ensures { Judges (λ _. true) (spec.typing_fed (scope_in scope.now) (accum_of kind.now) (view_change change.now)) result }
{
    match change {
        ChangeTree::Feed(tree) => input(tree, alloc, scope, Some(kind)),
        ChangeTree::Set(_) => Err(CheckFault::NotAllowedHere),
    }
}

/// Checks a change at an alias; `post` is true in POST-ACCUM.
#[tactic(auto, using(crate::proofs::ActPlaceLemmas::written_laws))]
pub(crate) fn at_alias(
    alloc: Global,
    scope: &Scope<'_>,
    post: bool,
    alias: &str,
    name: &str,
    change: &ChangeTree,
) -> Result<(), CheckFault>
    requires { scope.now.place ≡ spec.place_of post }
    ensures { Judges (λ _. true) (spec.typing_at (scope_in scope.now) post alias.now name.now (view_change change.now)) result }
{
    match post {
        true => {
            vertex_alias(alloc, scope, alias)?;
            let kind = declared_kind(alloc, scope, true, name)?;
            written(alloc, scope, kind, change)
        }
        false => {
            vertex_alias(alloc, scope, alias)?;
            let kind = declared_kind(alloc, scope, true, name)?;
            given(alloc, scope, name, kind, change)
        }
    }
}

/// Checks a change of a global accumulator.
pub(crate) fn at_global(
    alloc: Global,
    scope: &Scope<'_>,
    post: bool,
    name: &str,
    change: &ChangeTree,
) -> Result<(), CheckFault>
    requires { scope.now.place ≡ spec.place_of post }
    ensures { Judges (λ _. true) (spec.typing_global (scope_in scope.now) post name.now (view_change change.now)) result }
{
    match post {
        true => {
            let kind = declared_kind(alloc, scope, false, name)?;
            fed(alloc, scope, kind, change)
        }
        false => {
            let kind = declared_kind(alloc, scope, false, name)?;
            given(alloc, scope, name, kind, change)
        }
    }
}
