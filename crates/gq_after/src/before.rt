// Whether expressions read an accumulator as it was before the block.
ghost use Rattle.std.specs.Prelude.{◌≡◌};
ghost use Rattle.gq_plan_ir.specs.ExprView.{view, views, view_behind, view_parts, view_factors, view_terms};
ghost use Rattle.gq_after.specs.Before.{before_in, before_in_trees, before_in_parts, before_in_part, before_in_factors, before_in_terms, before_in_keys};
ghost use Rattle.gq_after.specs.Ranks.{order_of};

use gq_plan_ir::{Behind, Expr};
use gq_tree::{AddSign, MulSign};

/// Whether an expression has a `v.@a'`.
#[cycle(before)]
#[tactic(auto, using(gq_plan_ir::proofs::ViewLaws::view_laws))]
pub(crate) fn has_before(expr: &Expr) -> bool
    ensures { result ≡ before_in (view expr.now) }
{
    match expr {
        Expr::Number(_) | Expr::Text(_) | Expr::Truth(_) => false,
        Expr::Global(_) | Expr::Name(_) => false,
        Expr::Call(_, arguments) => any_has(arguments.as_slice()),
        Expr::Post(first, parts) => has_before(first.get()) || parts_have(parts.as_slice()),
        Expr::Neg(_, operand) | Expr::Not(_, operand) => has_before(operand.get()),
        Expr::Mul(first, factors) => has_before(first.get()) || factors_have(factors.as_slice()),
        Expr::Sum(first, terms) => has_before(first.get()) || terms_have(terms.as_slice()),
        Expr::Cmp(left, _, right) => has_before(left.get()) || has_before(right.get()),
        Expr::And(first, others) | Expr::Or(first, others) => {
            has_before(first.get()) || any_has(others.as_slice())
        }
    }
}

/// Whether one of the expressions has one.
#[cycle(before)]
#[tactic(auto, using(crate::proofs::BeforeLemmas::any_laws))]
fn any_has(exprs: &[Expr]) -> bool
    ensures { result ≡ before_in_trees (views exprs.now) }
{
    for expr in exprs {
        if has_before(expr) {
            return true;
        }
    }
    false
}

/// Whether one of the parts after dots is one, or has one among its arguments.
#[cycle(before)]
#[tactic(auto, using(crate::proofs::BeforeLemmas::parts_laws))]
fn parts_have(parts: &[Behind]) -> bool
    ensures { result ≡ before_in_parts (view_parts parts.now) }
{
    for part in parts {
        if part_has(part) {
            return true;
        }
    }
    false
}

#[cycle(before)]
#[tactic(auto, using(gq_plan_ir::proofs::ViewLaws::view_laws, crate::proofs::BeforeLemmas::degree_has))]
fn part_has(part: &Behind) -> bool
    ensures { result ≡ before_in_part (view_behind part.now) }
{
    match part {
        Behind::Before(_) => true,
        Behind::Method(_, arguments) => any_has(arguments.as_slice()),
        Behind::Field(_) | Behind::Degree(_, _) | Behind::Attached(_) => false,
    }
}

/// Whether one of the factors after the first has one.
#[cycle(before)]
#[tactic(auto, using(crate::proofs::BeforeLemmas::factors_laws))]
fn factors_have(factors: &[(MulSign, Expr)]) -> bool
    ensures { result ≡ before_in_factors (view_factors factors.now) }
{
    for factor in factors {
        if has_before(&factor.1) {
            return true;
        }
    }
    false
}

/// Whether one of the terms after the first has one.
#[cycle(before)]
#[tactic(auto, using(crate::proofs::BeforeLemmas::terms_laws))]
fn terms_have(terms: &[(AddSign, Expr)]) -> bool
    ensures { result ≡ before_in_terms (view_terms terms.now) }
{
    for term in terms {
        if has_before(&term.1) {
            return true;
        }
    }
    false
}

/// Whether one of the values of ORDER BY has one.
#[tactic(auto, using(crate::proofs::BeforeLemmas::keys_laws))]
pub(crate) fn keys_have(order: &[(Expr, bool)]) -> bool
    ensures { result ≡ before_in_keys (order_of order.now) }
{
    for key in order {
        if has_before(&key.0) {
            return true;
        }
    }
    false
}
