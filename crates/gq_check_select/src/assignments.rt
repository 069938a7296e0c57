// Assignments.
ghost use Rattle.std.specs.Prelude.{◌≡◌, true, false, is_some, IfOk, None, Some};
ghost use Rattle.std.specs.Option.{option_copied, option_map};
ghost use Rattle.gq_tree.specs.View.{view};
ghost use Rattle.gq_rules_typing.specs.Scopes as typing;
ghost use Rattle.gq_rules_typing.specs.StatementViews.{view_right, view_set_types};
ghost use Rattle.gq_rules_typing.specs.SetTypes as spec;
ghost use Rattle.gq_scope.specs.Held.{scope_in};
ghost use Rattle.gq_scope.specs.Views.{base_is};
ghost use Rattle.gq_check_from.specs.Faults.{Judges, Grows};
ghost use Rattle.gq_check_select.specs.Selects as selects;

use crate::blocks::select;
use crate::sets::{own_types, sets_types};
use gq_base::{List, OutOfMemory};
use gq_check_from::{CheckFault, add, lie_within, new_name, unknown, vertex_type, wider_set};
use gq_graph::Numbers;
use gq_scope::{Base, Entry, Scope};
use gq_tree::{Node, RightTree, SetTypesTree};
use gq_type::{converting, type_of};
use std::alloc::Global;

/// The left side of `=`.
#[derive(Drop)]
pub(crate) enum AssignTarget {
    /// A name that isn't visible.
    New,

    /// A set variable, with its types.
    Set(Numbers),

    /// A parameter or a local.
    Value,

    /// A tuple type; a variable can't have such a name.
    Tuple,

    /// An alias or an accumulator.
    Other,
}

fn left_of(alloc: Global, scope: &Scope<'_>, name: &str) -> Result<AssignTarget, OutOfMemory>
    ensures { IfOk result (λ l. l ≡ selects.left_of (typing.entry (scope_in scope.now) name.now)) }
{
    match scope.find(name) {
        None => Ok(AssignTarget::New),
        Some(entry) => match entry {
            Entry::SetVariable(types) => Ok(AssignTarget::Set(List::from_slice(
                alloc,
                types.as_slice(),
            )?)),
            Entry::Variable(_) => Ok(AssignTarget::Value),
            Entry::TupleType(_) => Ok(AssignTarget::Tuple),
            Entry::Alias(_) | Entry::EdgeAlias(_) | Entry::Accumulator(_, _) => Ok(
                AssignTarget::Other,
            ),
        },
    }
}

// ---- the right side

/// The types of a set variable, if the name is that of one.
fn set_named<'s>(scope: &'s Scope<'_>, name: &str) -> Option<&'s [u32]>
    ensures { option_copied result ≡ selects.set_in (typing.entry (scope_in scope.now) name.now) }
{
    match scope.find(name) {
        None => None,
        Some(entry) => match entry {
            Entry::SetVariable(types) => Some(types.as_slice()),
            Entry::Variable(_) | Entry::TupleType(_) | Entry::Accumulator(_, _) => None,
            Entry::Alias(_) | Entry::EdgeAlias(_) => None,
        },
    }
}

/// The types of a set variable, if the expression is just its name.
#[tactic(auto, using(gq_tree::proofs::ViewLemmas::view_laws, crate::proofs::SetLemmas::right_laws))]
fn set_alone<'s>(scope: &'s Scope<'_>, node: &Node) -> Option<&'s [u32]>
    ensures { option_copied result ≡ selects.set_alone (scope_in scope.now) (view node.now) }
{
    match node {
        Node::Name(name) => set_named(scope, name.as_str()),
        Node::Number(_) | Node::Truth(_) | Node::Global(_) | Node::Text(_) => None,
        Node::Call(_, _) | Node::Post(_, _) | Node::Neg(_, _) | Node::Mul(_, _) => None,
        Node::Sum(_, _) | Node::Cmp(_, _, _) | Node::Not(_, _) => None,
        Node::And(_, _) | Node::Or(_, _) => None,
    }
}

/// Whether the right side is a set.
#[tactic(auto, using(crate::proofs::SetLemmas::right_laws))]
fn is_set(scope: &Scope<'_>, right: &RightTree) -> bool
    ensures { result ≡ is_some (spec.right_types (scope_in scope.now) (view_right right.now)) }
{
    match right {
        RightTree::Select(_) | RightTree::Sets(_) => true,
        RightTree::Value(node) => set_alone(scope, node).is_some(),
    }
}

fn copied(alloc: Global, types: Option<&[u32]>) -> Result<Numbers, CheckFault>
    ensures { Judges (λ l. l) (selects.there_or_mismatch (option_copied types.entry)) result }
{
    match types {
        None => Err(CheckFault::Mismatch),
        Some(types) => Ok(List::from_slice(alloc, types)?),
    }
}

/// The types of the right side if it is a set, or else type mismatch.
#[tactic(auto, using(crate::proofs::SetLemmas::right_laws))]
fn right_types<'q>(
    alloc: Global,
    scope: &mut Scope<'q>,
    right: &'q RightTree,
) -> Result<Numbers, CheckFault>
    requires { scope.old.place ≡ typing.InStatement }
    ensures judged { Judges (λ l. l) (selects.set_or_mismatch (spec.right_types (scope_in scope.old) (view_right right.now))) result }
    ensures same { IfOk result (λ _. scope.new ≡ scope.old) }
{
    match right {
        RightTree::Select(query) => select(alloc, scope, query),
        RightTree::Sets(sets) => sets_types(alloc, scope, sets),
        RightTree::Value(node) => copied(alloc, set_alone(scope, node)),
    }
}

/// Checks that the assigned types are among those of the variable.
fn kept_within(alloc: Global, name: &str, fixed: &[u32], types: &[u32]) -> Result<(), CheckFault>
    ensures { Judges (λ _. true) (selects.kept_within name.now fixed.now types.now) result }
{
    if lie_within(alloc, types, fixed)? {
        Ok(())
    } else {
        Err(wider_set(alloc, name))
    }
}

// ---- `x = ..`

/// Checks an assignment to a set variable, which keeps its types.
fn assign_set<'q>(
    alloc: Global,
    scope: &mut Scope<'q>,
    name: &str,
    fixed: &[u32],
    right: &'q RightTree,
) -> Result<(), CheckFault>
    requires { scope.old.place ≡ typing.InStatement }
    ensures judged { Judges (λ _. scope_in scope.new) (selects.assign_set (scope_in scope.old) name.now fixed.now (view_right right.now)) result }
    ensures grows { IfOk result (λ _. Grows scope.old scope.new) }
{
    let types = right_types(alloc, scope, right)?;
    kept_within(alloc, name, fixed, types.as_slice())
}

/// Checks an assignment to a parameter or a local, of a value that converts to its type.
fn assign_value(
    alloc: Global,
    scope: &Scope<'_>,
    name: &str,
    right: &RightTree,
) -> Result<(), CheckFault>
    requires { scope.now.place ≡ typing.InStatement }
    ensures { Judges (λ _. true) (selects.assign_value (scope_in scope.now) (typing.entry (scope_in scope.now) name.now) (view_right right.now)) result }
{
    if is_set(scope, right) {
        return Err(CheckFault::Mismatch);
    }
    match scope.find(name) {
        None => Err(CheckFault::Mismatch),
        Some(entry) => match entry {
            Entry::Variable(base) => convert(alloc, scope, Base::of(base), right),
            Entry::SetVariable(_) | Entry::TupleType(_) => Err(CheckFault::Mismatch),
            Entry::Alias(_) | Entry::EdgeAlias(_) => Err(CheckFault::Mismatch),
            Entry::Accumulator(_, _) => Err(CheckFault::Mismatch),
        },
    }
}

#[tactic(auto, using(crate::proofs::PlaceLemmas::place_laws))]
fn convert(
    alloc: Global,
    scope: &Scope<'_>,
    want: Base<'_>,
    right: &RightTree,
) -> Result<(), CheckFault>
    requires { scope.now.place ≡ typing.InStatement }
    ensures { Judges (λ _. true) (selects.convert (scope_in scope.now) (base_is want.entry) (view_right right.now)) result }
{
    match right {
        RightTree::Value(node) => {
            converting(alloc, scope, want, node)?;
            Ok(())
        }
        RightTree::Select(_) | RightTree::Sets(_) => Err(CheckFault::Mismatch),
    }
}

/// Declares a new name to which a set is assigned.
fn declare<'q>(
    alloc: Global,
    scope: &mut Scope<'q>,
    name: &str,
    right: &'q RightTree,
) -> Result<(), CheckFault>
    requires stands { scope.old.place ≡ typing.InStatement }
    requires fresh { is_some (typing.entry (scope_in scope.old) name.now) ≡ false }
    ensures judged { Judges (λ _. scope_in scope.new) (selects.declare (scope_in scope.old) name.now (view_right right.now)) result }
    ensures grows { IfOk result (λ _. Grows scope.old scope.new) }
{
    if !is_set(scope, right) {
        return Err(unknown(alloc, name));
    }
    let types = right_types(alloc, scope, right)?;
    add(scope, name, Entry::SetVariable(types))?;
    Ok(())
}

#[tactic(auto, using(crate::proofs::SetLemmas::assign_laws))]
fn assign<'q>(
    alloc: Global,
    scope: &mut Scope<'q>,
    name: &str,
    right: &'q RightTree,
) -> Result<(), CheckFault>
    requires { scope.old.place ≡ typing.InStatement }
    ensures judged { Judges (λ _. scope_in scope.new) (spec.typing_assignment (scope_in scope.old) name.now None (view_right right.now)) result }
    ensures grows { IfOk result (λ _. Grows scope.old scope.new) }
{
    match left_of(alloc, scope, name)? {
        AssignTarget::Set(fixed) => assign_set(alloc, scope, name, fixed.as_slice(), right),
        AssignTarget::Value => assign_value(alloc, scope, name, right),
        AssignTarget::New => declare(alloc, scope, name, right),
        AssignTarget::Tuple => Err(unknown(alloc, name)),
        AssignTarget::Other => Err(CheckFault::Mismatch),
    }
}

// ---- `x (T) = ..`

fn fixed_types(
    alloc: Global,
    scope: &Scope<'_>,
    types: &SetTypesTree,
) -> Result<Numbers, CheckFault>
    ensures { Judges (λ l. l) (spec.fixed_types (scope_in scope.now) (view_set_types types.now)) result }
{
    match types {
        SetTypesTree::Any => Ok(own_types(alloc, scope)?),
        SetTypesTree::Of(name) => {
            let t = vertex_type(alloc, scope, name.as_str())?;
            Ok(List::from_slice(alloc, &[t])?)
        }
    }
}

/// Types an expression that isn't a set, and then refuses it.
#[tactic(auto, using(crate::proofs::PlaceLemmas::place_laws))]
fn refused(alloc: Global, scope: &Scope<'_>, right: &RightTree) -> Result<(), CheckFault>
    requires { scope.now.place ≡ typing.InStatement }
    ensures { Judges (λ _. scope_in scope.now) (selects.refused (scope_in scope.now) (view_right right.now)) result }
{
    match right {
        RightTree::Value(node) => {
            type_of(alloc, scope, node)?;
            Err(CheckFault::Mismatch)
        }
        RightTree::Select(_) | RightTree::Sets(_) => Err(CheckFault::Mismatch),
    }
}

/// Declares a new variable, whose set must have types among its own.
fn declare_fixed<'q>(
    alloc: Global,
    scope: &mut Scope<'q>,
    name: &str,
    fixed: Numbers,
    right: &'q RightTree,
) -> Result<(), CheckFault>
    requires stands { scope.old.place ≡ typing.InStatement }
    requires fresh { is_some (typing.entry (scope_in scope.old) name.now) ≡ false }
    ensures judged { Judges (λ _. scope_in scope.new) (selects.declare_fixed (scope_in scope.old) name.now fixed (view_right right.now)) result }
    ensures grows { IfOk result (λ _. Grows scope.old scope.new) }
{
    if !is_set(scope, right) {
        return refused(alloc, scope, right);
    }
    let types = right_types(alloc, scope, right)?;
    kept_within(alloc, name, fixed.as_slice(), types.as_slice())?;
    add(scope, name, Entry::SetVariable(fixed))?;
    Ok(())
}

/// Checks an assignment, in a scope at the place of a statement: `x = ..`, or with types `x (T) = ..`, which declares
/// x. An assignment of a set to a new name declares it too.
#[tactic(auto, using(crate::proofs::SetLemmas::assign_laws))]
pub fn assignment<'q>(
    alloc: Global,
    scope: &mut Scope<'q>,
    name: &str,
    types: Option<&SetTypesTree>,
    right: &'q RightTree,
) -> Result<(), CheckFault>
    requires { scope.old.place ≡ typing.InStatement }
    ensures judged { Judges (λ _. scope_in scope.new)
        (spec.typing_assignment (scope_in scope.old) name.now (option_map view_set_types (option_copied types.entry)) (view_right right.now)) result }
    ensures grows { IfOk result (λ _. Grows scope.old scope.new) }
{
    match types {
        None => assign(alloc, scope, name, right),
        Some(types) => {
            let fixed = fixed_types(alloc, scope, types)?;
            new_name(alloc, scope, name)?;
            declare_fixed(alloc, scope, name, fixed, right)
        }
    }
}
