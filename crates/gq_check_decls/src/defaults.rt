// Parameters with their defaults.
ghost use Rattle.std.specs.Prelude.{◌≡◌, true, IfOk, map};
ghost use Rattle.std.specs.Option.{option_map, option_copied};
ghost use Rattle.gq_value.specs.Accums.{INT, UINT};
ghost use Rattle.gq_value.specs.AccumViews.{base_of};
ghost use Rattle.gq_rules_typing.specs.Statements.{Signed};
ghost use Rattle.gq_rules_typing.specs.Judging.{through_judged};
ghost use Rattle.gq_rules_typing.specs.QueryTypes as heads;
ghost use Rattle.gq_rules_typing.specs.StatementViews.{view_literal, view_parameter};
ghost use Rattle.gq_scope.specs.Held.{scope_in};
ghost use Rattle.gq_scope.specs.Views.{matched};
ghost use Rattle.gq_check_from.specs.Faults.{Judges, Grows};
ghost use Rattle.gq_check_decls.specs.Counts.{accum_count};

use crate::written::base_written;
use gq_check_from::{CheckFault, add, new_name};
use gq_scope::{Entry, Scope, matched};
use gq_tree::{Literal, ParameterTree};
use gq_value::BaseType;
use std::alloc::Global;

/// Checks the parameters of a query in order, and makes each visible.
#[tactic(auto, using(gq_check_from::proofs::GrowLemmas::grow_laws))]
pub fn parameters(
    alloc: Global,
    scope: &mut Scope<'_>,
    trees: &[ParameterTree],
) -> Result<(), CheckFault>
    ensures judged { Judges (λ _. scope_in scope.new)
        (through_judged heads.typing_parameter (scope_in scope.old) (map view_parameter trees.now)) result }
    ensures counted { IfOk result (λ _. accum_count (scope_in scope.new) ≡ accum_count (scope_in scope.old)) }
    ensures grows { IfOk result (λ _. Grows scope.old scope.new) }
{
    for tree in trees {
        parameter(alloc, scope, tree)?;
    }
    Ok(())
}

fn parameter(alloc: Global, scope: &mut Scope<'_>, tree: &ParameterTree) -> Result<(), CheckFault>
    ensures judged { Judges (λ _. scope_in scope.new) (heads.typing_parameter (scope_in scope.old) (view_parameter tree.now)) result }
    ensures counted { IfOk result (λ _. accum_count (scope_in scope.new) ≡ accum_count (scope_in scope.old)) }
    ensures grows { IfOk result (λ _. Grows scope.old scope.new) }
{
    let base = base_written(alloc, scope, &tree.base)?;
    new_name(alloc, scope, tree.name.as_str())?;
    matched(good_default(&base, tree.default.as_ref()))?;
    add(scope, tree.name.as_str(), Entry::Variable(base))?;
    Ok(())
}

// ---- defaults

fn good_default(base: &BaseType, default: Option<&Literal>) -> bool
    ensures { result ≡ heads.good_default (base_of base.now) (option_map view_literal (option_copied default.entry)) }
{
    match default {
        None => true,
        Some(literal) => stands_for(base, literal),
    }
}

/// Whether a literal can be the value of a type; a vertex's is its id.
#[tactic(auto, using(gq_scope::proofs::BaseLemmas::base_laws))]
fn stands_for(base: &BaseType, literal: &Literal) -> bool
    ensures { result ≡ heads.stands_for (base_of base.now) (view_literal literal.now) }
{
    match base {
        BaseType::Int => match literal {
            Literal::Number(minus, n) => fits_int(*minus, *n),
            Literal::Text(_) | Literal::Truth(_) => false,
        },
        BaseType::UInt => match literal {
            Literal::Number(minus, n) => fits_uint(*minus, *n),
            Literal::Text(_) | Literal::Truth(_) => false,
        },
        BaseType::Bool => match literal {
            Literal::Truth(_) => true,
            Literal::Number(_, _) | Literal::Text(_) => false,
        },
        BaseType::Text => match literal {
            Literal::Text(_) => true,
            Literal::Number(_, _) | Literal::Truth(_) => false,
        },
        BaseType::VertexOf(_) => match literal {
            Literal::Number(_, _) | Literal::Text(_) => true,
            Literal::Truth(_) => false,
        },
        BaseType::Time | BaseType::AnyVertex | BaseType::Tuple(_, _) => false,
    }
}

/// Whether a number is from -2^63 to 2^63 - 1.
#[tactic(auto, using(crate::proofs::NumberLemmas::int_laws))]
fn fits_int(minus: bool, n: u64) -> bool
    ensures { result ≡ heads.stands_for INT (Signed minus n) }
{
    match minus {
        true => n <= 9_223_372_036_854_775_808,
        false => n < 9_223_372_036_854_775_808,
    }
}

/// Whether a number is at least 0; `-0` is 0.
#[tactic(auto, using(crate::proofs::NumberLemmas::uint_laws))]
fn fits_uint(minus: bool, n: u64) -> bool
    ensures { result ≡ heads.stands_for UINT (Signed minus n) }
{
    match minus {
        true => n == 0,
        false => true,
    }
}
