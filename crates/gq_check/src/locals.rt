// Locals, and changes of global accumulators.
ghost use Rattle.std.specs.Prelude.{◌≡◌, true, IfOk, is_some};
ghost use Rattle.std.specs.Option.{option_map, option_copied};
ghost use Rattle.gq_value.specs.AccumViews.{base_of};
ghost use Rattle.gq_tree.specs.View.{view};
ghost use Rattle.gq_rules_typing.specs.Statements.{Local, ChangeGlobal};
ghost use Rattle.gq_rules_typing.specs.Judging.{through_judged};
ghost use Rattle.gq_rules_typing.specs.ExpressionTypes as forms;
ghost use Rattle.gq_rules_typing.specs.Scopes as typing;
ghost use Rattle.gq_rules_typing.specs.SetTypes.{here};
ghost use Rattle.gq_rules_typing.specs.StatementTypes.{typing_stmt, typing_local, may_lack_value};
ghost use Rattle.gq_rules_typing.specs.SelectViews.{view_change};
ghost use Rattle.gq_rules_typing.specs.StatementViews.{view_base, view_locals};
ghost use Rattle.gq_scope.specs.Held.{scope_in};
ghost use Rattle.gq_check_from.specs.Faults.{Judges, Grows};
ghost use Rattle.gq_check.specs.Rules as spec;

use gq_check_decls::base_written;
use gq_check_from::{CheckFault, add, new_name};
use gq_check_select::written;
use gq_scope::{Base, Entry, Scope, allowed};
use gq_tree::{BaseTree, ChangeTree, Node};
use gq_type::{converting, declared_kind, is_vertex};
use gq_value::{BaseType, Txt};
use std::alloc::Global;

/// Checks locals of one type.
pub(crate) fn locals(
    alloc: Global,
    scope: &mut Scope<'_>,
    tree: &BaseTree,
    trees: &[(Txt, Option<Node>)],
) -> Result<(), CheckFault>
    requires { scope.old.place ≡ typing.InStatement }
    ensures judged { Judges (λ _. scope_in scope.new)
        (typing_stmt (scope_in scope.old) (Local (view_base tree.now) (view_locals trees.now))) result }
    ensures grows { IfOk result (λ _. Grows scope.old scope.new) }
{
    let base = base_written(alloc, scope, tree)?;
    all_locals(alloc, scope, &base, trees)
}

#[tactic(auto, using(gq_check_from::proofs::GrowLemmas::grow_laws))]
fn all_locals(
    alloc: Global,
    scope: &mut Scope<'_>,
    base: &BaseType,
    trees: &[(Txt, Option<Node>)],
) -> Result<(), CheckFault>
    requires { scope.old.place ≡ typing.InStatement }
    ensures judged { Judges (λ _. scope_in scope.new)
        (through_judged (typing_local (base_of base.now)) (scope_in scope.old) (view_locals trees.now)) result }
    ensures grows { IfOk result (λ _. Grows scope.old scope.new) }
{
    for local in trees {
        one_local(alloc, scope, base, local.0.as_str(), local.1.as_ref())?;
    }
    Ok(())
}

/// Checks a local, which becomes visible after its own initial value. A vertex has no default.
fn one_local(
    alloc: Global,
    scope: &mut Scope<'_>,
    base: &BaseType,
    name: &str,
    value: Option<&Node>,
) -> Result<(), CheckFault>
    requires { scope.old.place ≡ typing.InStatement }
    ensures judged { Judges (λ _. scope_in scope.new) (typing_local (base_of base.now) (scope_in scope.old)
        (name.now, option_map view (option_copied value.entry))) result }
    ensures grows { IfOk result (λ _. Grows scope.old scope.new) }
{
    allowed(lacks_nothing(base, value.is_some()))?;
    new_name(alloc, scope, name)?;
    own_value(alloc, scope, base, value)?;
    add(scope, name, Entry::Variable(base.duplicate(alloc)?))?;
    Ok(())
}

fn lacks_nothing(base: &BaseType, has_value: bool) -> bool
    ensures { result ≡ may_lack_value (base_of base.now) has_value }
{
    if has_value {
        true
    } else {
        !is_vertex(Base::of(base))
    }
}

fn own_value(
    alloc: Global,
    scope: &Scope<'_>,
    base: &BaseType,
    value: Option<&Node>,
) -> Result<(), CheckFault>
    requires { scope.now.place ≡ typing.InStatement }
    ensures { Judges (λ _. true) (spec.own_value (scope_in scope.now) (base_of base.now) (option_map view (option_copied value.entry))) result }
{
    match value {
        None => Ok(()),
        Some(node) => {
            valued(alloc, scope, base, node)?;
            Ok(())
        }
    }
}

/// Checks a value of a type.
#[tactic(auto, using(crate::proofs::PlaceLemmas::here_laws))]
fn valued(alloc: Global, scope: &Scope<'_>, base: &BaseType, node: &Node) -> Result<(), CheckFault>
    requires { scope.now.place ≡ typing.InStatement }
    ensures { Judges (λ _. true) (forms.converting (here (scope_in scope.now)) (base_of base.now) (view node.now)) result }
{
    converting(alloc, scope, Base::of(base), node)?;
    Ok(())
}

/// Checks a change of the global accumulator of a name.
#[tactic(auto, using(crate::proofs::PlaceLemmas::change_laws))]
pub(crate) fn change_global(
    alloc: Global,
    scope: &Scope<'_>,
    name: &str,
    change: &ChangeTree,
) -> Result<(), CheckFault>
    requires { scope.now.place ≡ typing.InStatement }
    ensures { Judges (λ _. scope_in scope.now)
        (typing_stmt (scope_in scope.now) (ChangeGlobal name.now (view_change change.now))) result }
{
    let kind = declared_kind(alloc, scope, false, name)?;
    written(alloc, scope, kind, change)?;
    Ok(())
}
