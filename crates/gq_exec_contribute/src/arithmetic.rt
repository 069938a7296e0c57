// Reads sums and products of INTs.
ghost use Rattle.std.specs.Prelude.{◌≡◌, IfSome};
ghost use Rattle.gq_value.specs.Val.{Int};
ghost use Rattle.gq_rules_calendar.specs.Gregorian.{gregorian};
ghost use Rattle.gq_rules_meaning.specs.Answers.{Gives};
ghost use Rattle.gq_rules_meaning.specs.Expressions.{product, summed};
ghost use Rattle.gq_plan_ir.specs.ExprView.{view};
ghost use Rattle.gq_exec_contribute.specs.Prepared.{AreFactors, AreIn, AreTerms, IsInt, int_meant, sees_in};

use crate::asked::int_of_parts;
use crate::ints::short_int;
use crate::leaves::Leaves;
use gq_eval_context::BlockContext;
use gq_frame::Accums;
use gq_graph::Candidate;
use gq_plan_ir::Expr;
use gq_tree::{AddSign, MulSign};

/// Reads an INT: a short form, a method of an accumulator, or a sum or product of these. Allocates nothing.
///
/// Returns `None` if a part has to be evaluated, and on overflow or division by zero.
#[cycle(read)]
pub(crate) fn read_int(
    expr: &Expr,
    over: &BlockContext<'_>,
    leaves: &Leaves<'_>,
    accums: &Accums,
    c: &Candidate,
) -> Option<i64>
    requires { AreIn accums.now leaves.now }
    ensures { IfSome result (IsInt (sees_in gregorian over.now leaves.now accums.now c.now) (view expr.now)) }
{
    match expr {
        Expr::Sum(first, terms) => {
            let x = read_int(first.get(), over, leaves, accums, c)?;
            sum_from(terms.as_slice(), over, leaves, accums, c, x)
        }
        Expr::Mul(first, factors) => {
            let x = read_int(first.get(), over, leaves, accums, c)?;
            product_from(factors.as_slice(), over, leaves, accums, c, x)
        }
        Expr::Post(first, parts) => match short_int(expr, over, leaves, accums, c) {
            Some(x) => Some(x),
            None => int_of_parts(first.get(), parts.as_slice(), over, leaves, accums, c),
        },
        _ => short_int(expr, over, leaves, accums, c),
    }
}

/// Adds the terms to `first`, from left to right.
#[cycle(read)]
#[tactic(auto, using(crate::proofs::ArithmeticLemmas::chain_laws))]
fn sum_from(
    terms: &[(AddSign, Expr)],
    over: &BlockContext<'_>,
    leaves: &Leaves<'_>,
    accums: &Accums,
    c: &Candidate,
    first: i64,
) -> Option<i64>
    requires { AreIn accums.now leaves.now }
    ensures { IfSome result (AreTerms (sees_in gregorian over.now leaves.now accums.now c.now) first terms.now) }
{
    let mut x = first;
    for term in terms {
        let y = read_int(&term.1, over, leaves, accums, c)?;
        x = summed(term.0, x, y)?;
    }
    Some(x)
}

/// Multiplies `first` by the factors, or divides it, from left to right.
#[cycle(read)]
#[tactic(auto, using(crate::proofs::ArithmeticLemmas::chain_laws))]
fn product_from(
    factors: &[(MulSign, Expr)],
    over: &BlockContext<'_>,
    leaves: &Leaves<'_>,
    accums: &Accums,
    c: &Candidate,
    first: i64,
) -> Option<i64>
    requires { AreIn accums.now leaves.now }
    ensures { IfSome result (AreFactors (sees_in gregorian over.now leaves.now accums.now c.now) first factors.now) }
{
    let mut x = first;
    for factor in factors {
        let y = read_int(&factor.1, over, leaves, accums, c)?;
        x = multiplied(factor.0, x, y)?;
    }
    Some(x)
}

/// The sum or difference, if it is in the range of INT.
#[tactic(auto, using(crate::proofs::ArithmeticLemmas::sum_laws))]
fn summed(sign: AddSign, x: i64, y: i64) -> Option<i64>
    ensures { IfSome result (λ z. summed sign (Int x) (Int y) ≡ Gives (int_meant z)) }
{
    match sign {
        AddSign::Plus => x.checked_add(y),
        AddSign::Minus => x.checked_sub(y),
    }
}

/// The product or quotient, if it is in the range of INT. Remainders are left to the evaluation.
#[tactic(auto, using(crate::proofs::ArithmeticLemmas::product_laws))]
fn multiplied(sign: MulSign, x: i64, y: i64) -> Option<i64>
    ensures { IfSome result (λ z. product sign (Int x) (Int y) ≡ Gives (int_meant z)) }
{
    match sign {
        MulSign::Times => x.checked_mul(y),
        MulSign::Over => x.checked_div(y),
        MulSign::Modulo => None,
    }
}
