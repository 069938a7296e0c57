// Searches expressions for a name.
ghost use Rattle.std.specs.Prelude.{◌≡◌};
ghost use Rattle.gq_rules_typing.specs.Mentions.{in_tree, in_trees, in_parts, in_part, in_factors, in_terms};
ghost use Rattle.gq_plan_ir.specs.ExprView.{view, views, view_behind, view_parts, view_factors, view_terms};
ghost use Rattle.gq_exec_post.specs.Naming.{is_place};

use gq_plan_ir::{Behind, Expr};
use gq_tree::{AddSign, MulSign};

/// Whether an expression names a place.
#[cycle(expr)]
#[tactic(auto, using(gq_plan_ir::proofs::ViewLaws::view_laws))]
pub fn expr_names(expr: &Expr, place: u32) -> bool
    ensures { result ≡ in_tree (is_place place) (view expr.now) }
{
    match expr {
        Expr::Number(_) | Expr::Text(_) | Expr::Truth(_) | Expr::Global(_) => false,
        Expr::Name(named) => place == *named,
        Expr::Call(_, arguments) => any_names(arguments.as_slice(), place),
        Expr::Post(first, parts) => {
            expr_names(first.get(), place) || parts_name(parts.as_slice(), place)
        }
        Expr::Neg(_, operand) | Expr::Not(_, operand) => expr_names(operand.get(), place),
        Expr::Mul(first, factors) => {
            expr_names(first.get(), place) || factors_name(factors.as_slice(), place)
        }
        Expr::Sum(first, terms) => {
            expr_names(first.get(), place) || terms_name(terms.as_slice(), place)
        }
        Expr::Cmp(left, _, right) => {
            expr_names(left.get(), place) || expr_names(right.get(), place)
        }
        Expr::And(first, others) | Expr::Or(first, others) => {
            expr_names(first.get(), place) || any_names(others.as_slice(), place)
        }
    }
}

/// Whether one of the expressions names a place.
#[cycle(expr)]
#[tactic(auto, using(crate::proofs::NamingLemmas::any_laws))]
pub(crate) fn any_names(exprs: &[Expr], place: u32) -> bool
    ensures { result ≡ in_trees (is_place place) (views exprs.now) }
{
    for expr in exprs {
        if expr_names(expr, place) {
            return true;
        }
    }
    false
}

/// Whether one of the parts after dots names a place.
#[cycle(expr)]
#[tactic(auto, using(crate::proofs::NamingLemmas::parts_laws))]
fn parts_name(parts: &[Behind], place: u32) -> bool
    ensures { result ≡ in_parts (is_place place) (view_parts parts.now) }
{
    for part in parts {
        if part_names(part, place) {
            return true;
        }
    }
    false
}

/// Whether a part after a dot names a place. The part itself isn't an alias, but arguments of a method may hold one.
#[cycle(expr)]
#[tactic(auto, using(gq_plan_ir::proofs::ViewLaws::view_laws, crate::proofs::NamingLemmas::degree_names))]
fn part_names(part: &Behind, place: u32) -> bool
    ensures { result ≡ in_part (is_place place) (view_behind part.now) }
{
    match part {
        Behind::Method(_, arguments) => any_names(arguments.as_slice(), place),
        Behind::Field(_) | Behind::Degree(_, _) | Behind::Attached(_) | Behind::Before(_) => false,
    }
}

/// Whether one of the factors after the first names a place.
#[cycle(expr)]
#[tactic(auto, using(crate::proofs::NamingLemmas::factors_laws))]
fn factors_name(factors: &[(MulSign, Expr)], place: u32) -> bool
    ensures { result ≡ in_factors (is_place place) (view_factors factors.now) }
{
    for factor in factors {
        if expr_names(&factor.1, place) {
            return true;
        }
    }
    false
}

/// Whether one of the terms after the first names a place.
#[cycle(expr)]
#[tactic(auto, using(crate::proofs::NamingLemmas::terms_laws))]
fn terms_name(terms: &[(AddSign, Expr)], place: u32) -> bool
    ensures { result ≡ in_terms (is_place place) (view_terms terms.now) }
{
    for term in terms {
        if expr_names(&term.1, place) {
            return true;
        }
    }
    false
}
