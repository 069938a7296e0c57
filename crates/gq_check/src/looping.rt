// The operands of WHILE and FOREACH.
ghost use Rattle.std.specs.Prelude.{◌≡◌, true, IfOk};
ghost use Rattle.std.specs.Option.{option_map, option_copied};
ghost use Rattle.gq_value.specs.AccumViews.{base_of};
ghost use Rattle.gq_tree.specs.View.{view};
ghost use Rattle.gq_rules_typing.specs.ExpressionTypes as forms;
ghost use Rattle.gq_rules_typing.specs.Scopes as typing;
ghost use Rattle.gq_rules_typing.specs.SetTypes.{here};
ghost use Rattle.gq_rules_typing.specs.StatementTypes as rules;
ghost use Rattle.gq_rules_typing.specs.StatementViews.{view_over};
ghost use Rattle.gq_scope.specs.Held.{scope_in, names_in};
ghost use Rattle.gq_scope.specs.Views.{base_is, typed_is};
ghost use Rattle.gq_check_from.specs.Faults.{Judges, Grows};
ghost use Rattle.gq_check.specs.Rules as spec;

use gq_check_from::{CheckFault, add, new_name};
use gq_scope::{Base, Entry, Scope, Typed, element_type};
use gq_tree::{Node, OverTree};
use gq_type::{condition, number, number_of_both, type_of};
use gq_value::BaseType;
use std::alloc::Global;

/// Checks a condition.
#[tactic(auto, using(crate::proofs::PlaceLemmas::here_laws))]
pub(crate) fn tested(alloc: Global, scope: &Scope<'_>, node: &Node) -> Result<(), CheckFault>
    requires { scope.now.place ≡ typing.InStatement }
    ensures { Judges (λ _. true) (forms.condition (here (scope_in scope.now)) (view node.now)) result }
{
    condition(alloc, scope, node)?;
    Ok(())
}

/// Checks the LIMIT of a WHILE.
pub(crate) fn limited(
    alloc: Global,
    scope: &Scope<'_>,
    limit: Option<&Node>,
) -> Result<(), CheckFault>
    requires { scope.now.place ≡ typing.InStatement }
    ensures { Judges (λ _. true) (spec.limit (scope_in scope.now) (option_map view (option_copied limit.entry))) result }
{
    match limit {
        None => Ok(()),
        Some(node) => {
            counted(alloc, scope, node)?;
            Ok(())
        }
    }
}

/// The type of an expression that must be a number.
#[tactic(auto, using(crate::proofs::PlaceLemmas::here_laws))]
fn counted<'s>(alloc: Global, scope: &'s Scope<'_>, node: &Node) -> Result<Base<'s>, CheckFault>
    requires { scope.now.place ≡ typing.InStatement }
    ensures { Judges base_is (forms.number (here (scope_in scope.now)) (view node.now)) result }
{
    let base = number(alloc, scope, node)?;
    Ok(base)
}

/// Makes the variable of a FOREACH visible.
#[tactic(auto, using(crate::proofs::PlaceLemmas::here_laws))]
pub(crate) fn loop_variable(
    alloc: Global,
    scope: &mut Scope<'_>,
    name: &str,
    over: &OverTree,
) -> Result<(), CheckFault>
    requires { scope.old.place ≡ typing.InStatement }
    ensures judged { Judges (λ _. scope_in scope.new) (spec.loop_variable (scope_in scope.old) name.now (view_over over.now)) result }
    ensures grows { IfOk result (λ _. Grows scope.old scope.new) }
{
    new_name(alloc, scope, name)?;
    let base = variable_type(alloc, scope, over)?;
    add(scope, name, Entry::Variable(base))?;
    Ok(())
}

/// The type of an element, or of both ends of a range.
fn variable_type(alloc: Global, scope: &Scope<'_>, over: &OverTree) -> Result<BaseType, CheckFault>
    ensures { Judges base_of (rules.variable_type (names_in scope.now) (view_over over.now)) result }
{
    match over {
        OverTree::Elements(node) => {
            let x = type_of(alloc, scope, node)?;
            let base = element_of(x)?;
            Ok(base.keep(alloc)?)
        }
        OverTree::Range(from, to) => {
            let low = number(alloc, scope, from)?;
            let high = number(alloc, scope, to)?;
            let base = number_of_both(low, high);
            Ok(base.keep(alloc)?)
        }
    }
}

/// The type of an element of a collection with a defined order.
fn element_of(x: Typed<'_>) -> Result<Base<'_>, CheckFault>
    ensures { Judges base_is (rules.element_of (typed_is x.entry)) result }
{
    match x {
        Typed::Whole(kind) => elements(element_type(kind)),
        Typed::Of(_) | Typed::Average | Typed::GroupRow(_) => Err(CheckFault::Mismatch),
        Typed::AliasOf(_) | Typed::EdgeOf(_) => Err(CheckFault::Mismatch),
        Typed::SetOf(_) | Typed::MemberOf(_) => Err(CheckFault::Mismatch),
    }
}

fn elements(base: Option<Base<'_>>) -> Result<Base<'_>, CheckFault>
    ensures { Judges base_is (spec.elements (option_map base_is base.entry)) result }
{
    match base {
        None => Err(CheckFault::Mismatch),
        Some(base) => Ok(base),
    }
}
