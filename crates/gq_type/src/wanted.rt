// What a place requires of an expression.
ghost use Rattle.std.specs.Prelude.{◌≡◌, true};
ghost use Rattle.gq_tree.specs.View.{view};
ghost use Rattle.gq_rules_typing.specs.ExpressionTypes as spec;
ghost use Rattle.gq_scope.specs.Held.{names_in};
ghost use Rattle.gq_scope.specs.Views.{base_is, Judges};

use crate::expressions::type_of;
use crate::rules::{as_base, converts, is_bool, is_number};
use gq_scope::{Base, Scope, TypeFault, matched};
use gq_tree::Node;
use std::alloc::Global;

/// The type of an expression that must be a value.
pub fn base_type<'s>(
    alloc: Global,
    scope: &'s Scope<'_>,
    node: &Node,
) -> Result<Base<'s>, TypeFault>
    ensures { Judges base_is (spec.base_type (names_in scope.now) (view node.now)) result }
{
    let x = type_of(alloc, scope, node)?;
    as_base(x)
}

/// Checks that an expression is a BOOL.
pub fn condition(alloc: Global, scope: &Scope<'_>, node: &Node) -> Result<(), TypeFault>
    ensures { Judges (λ _. true) (spec.condition (names_in scope.now) (view node.now)) result }
{
    let base = base_type(alloc, scope, node)?;
    matched(is_bool(base))
}

/// The type of an expression that must be a number.
pub fn number<'s>(alloc: Global, scope: &'s Scope<'_>, node: &Node) -> Result<Base<'s>, TypeFault>
    ensures { Judges base_is (spec.number (names_in scope.now) (view node.now)) result }
{
    let base = base_type(alloc, scope, node)?;
    matched(is_number(base))?;
    Ok(base)
}

/// Checks that an expression is a value that converts to a type.
pub fn converting(
    alloc: Global,
    scope: &Scope<'_>,
    want: Base<'_>,
    node: &Node,
) -> Result<(), TypeFault>
    ensures { Judges (λ _. true) (spec.converting (names_in scope.now) (base_is want.entry) (view node.now)) result }
{
    let base = base_type(alloc, scope, node)?;
    matched(converts(base, want))
}
