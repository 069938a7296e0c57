// Reads expressions that are truths.
ghost use Rattle.std.specs.Prelude.{◌≡◌, IfSome};
ghost use Rattle.std.specs.Option.{option_map};
ghost use Rattle.gq_value.specs.Val.{Int, Vertex};
ghost use Rattle.gq_tree.specs.Tree as tree;
ghost use Rattle.gq_rules_calendar.specs.Gregorian.{gregorian};
ghost use Rattle.gq_rules_meaning.specs.Answers.{Gives};
ghost use Rattle.gq_rules_meaning.specs.Blocks.{passes};
ghost use Rattle.gq_rules_meaning.specs.Expressions.{compared, related, meaning_all, meaning_any, value_of};
ghost use Rattle.gq_rules_meaning.specs.Meanings.{truly};
ghost use Rattle.gq_plan_ir.specs.ExprView.{view, views};
ghost use Rattle.gq_eval_builtins.specs.Steps.{true_meant};
ghost use Rattle.gq_exec_contribute.specs.Prepared.{AreFound, AreIn, IsTruth, sees, sees_in};

use crate::asked::truth_of_parts;
use crate::held::held_truth;
use crate::ints::int;
use crate::leaves::Leaves;
use crate::names::{variable_truth, vertex_at};
use gq_eval_context::BlockContext;
use gq_eval_operand::nots;
use gq_frame::Accums;
use gq_graph::Candidate;
use gq_plan_ir::Expr;
use gq_tree::CmpSign;
use std::alloc::Global;
use std::cmp::Ordering;

/// Whether a candidate passes WHERE; `None` if that can't be read. Memory is freed before it returns.
pub fn passes(
    filter: &Option<Expr>,
    alloc: Global,
    over: &BlockContext<'_>,
    leaves: &Leaves<'_>,
    c: &Candidate,
) -> Option<bool>
    requires { AreFound over.now leaves.now }
    ensures { IfSome result (λ b. passes (sees gregorian over.now leaves.now c.now) (option_map view filter.now) ≡ Gives b) }
{
    match filter {
        None => Some(true),
        Some(expr) => truth_before(expr, alloc, over, leaves, c),
    }
}

/// The truth value of an expression for a candidate, with the accumulators from before the block.
fn truth_before(
    expr: &Expr,
    alloc: Global,
    over: &BlockContext<'_>,
    leaves: &Leaves<'_>,
    c: &Candidate,
) -> Option<bool>
    requires { AreFound over.now leaves.now }
    ensures { IfSome result (IsTruth (sees gregorian over.now leaves.now c.now) (view expr.now)) }
{
    truth(expr, alloc, over, leaves, &over.frame.accums, c)
}

/// The truth value of an expression for a candidate. Memory is freed before it returns.
#[cycle(truth)]
#[tactic(auto, using(gq_plan_ir::proofs::ViewLaws::view_laws, crate::proofs::TruthLemmas::truth_laws))]
pub(crate) fn truth(
    expr: &Expr,
    alloc: Global,
    over: &BlockContext<'_>,
    leaves: &Leaves<'_>,
    accums: &Accums,
    c: &Candidate,
) -> Option<bool>
    requires { AreIn accums.now leaves.now }
    ensures { IfSome result (IsTruth (sees_in gregorian over.now leaves.now accums.now c.now) (view expr.now)) }
{
    match expr {
        Expr::Cmp(left, sign, right) => compared(
            left.get(),
            right.get(),
            *sign,
            alloc,
            over,
            leaves,
            accums,
            c,
        ),
        Expr::Post(first, parts) => {
            truth_of_parts(first.get(), parts.as_slice(), over, leaves, accums, c)
        }
        Expr::Truth(truth) => Some(*truth),
        Expr::Name(place) => variable_truth(over, leaves, *place),
        Expr::Global(slot) => held_truth(over, leaves, accums, *slot, 0),
        Expr::Not(_, _) | Expr::And(_, _) | Expr::Or(_, _) => joined(
            expr, alloc, over, leaves, accums, c,
        ),
        Expr::Number(_) | Expr::Text(_) | Expr::Call(_, _) => None,
        Expr::Neg(_, _) | Expr::Mul(_, _) | Expr::Sum(_, _) => None,
    }
}

/// Reads NOT, AND and OR.
#[cycle(truth)]
#[tactic(auto, using(gq_plan_ir::proofs::ViewLaws::view_laws, crate::proofs::TruthLemmas::joined_laws))]
fn joined(
    expr: &Expr,
    alloc: Global,
    over: &BlockContext<'_>,
    leaves: &Leaves<'_>,
    accums: &Accums,
    c: &Candidate,
) -> Option<bool>
    requires { AreIn accums.now leaves.now }
    ensures { IfSome result (IsTruth (sees_in gregorian over.now leaves.now accums.now c.now) (view expr.now)) }
{
    match expr {
        Expr::Not(count, operand) => {
            let holds = truth(operand.get(), alloc, over, leaves, accums, c)?;
            Some(nots(*count, holds))
        }
        Expr::And(first, others) => {
            let holds = truth(first.get(), alloc, over, leaves, accums, c)?;
            all(others.as_slice(), alloc, over, leaves, accums, c, holds)
        }
        Expr::Or(first, others) => {
            let holds = truth(first.get(), alloc, over, leaves, accums, c)?;
            any(others.as_slice(), alloc, over, leaves, accums, c, holds)
        }
        _ => None,
    }
}

/// AND of `first` and the other operands; stops at the first false one.
#[cycle(truth)]
#[tactic(auto, using(crate::proofs::TruthLemmas::list_laws))]
fn all(
    others: &[Expr],
    alloc: Global,
    over: &BlockContext<'_>,
    leaves: &Leaves<'_>,
    accums: &Accums,
    c: &Candidate,
    first: bool,
) -> Option<bool>
    requires { AreIn accums.now leaves.now }
    ensures { IfSome result (λ b. meaning_all (sees_in gregorian over.now leaves.now accums.now c.now) (true_meant first) (views others.now) ≡ Gives (true_meant b)) }
{
    let mut holds = first;
    for other in others {
        if !holds {
            return Some(false);
        }
        holds = truth(other, alloc, over, leaves, accums, c)?;
    }
    Some(holds)
}

/// OR of `first` and the other operands; stops at the first true one.
#[cycle(truth)]
#[tactic(auto, using(crate::proofs::TruthLemmas::list_laws))]
fn any(
    others: &[Expr],
    alloc: Global,
    over: &BlockContext<'_>,
    leaves: &Leaves<'_>,
    accums: &Accums,
    c: &Candidate,
    first: bool,
) -> Option<bool>
    requires { AreIn accums.now leaves.now }
    ensures { IfSome result (λ b. meaning_any (sees_in gregorian over.now leaves.now accums.now c.now) (true_meant first) (views others.now) ≡ Gives (true_meant b)) }
{
    let mut holds = first;
    for other in others {
        if holds {
            return Some(true);
        }
        holds = truth(other, alloc, over, leaves, accums, c)?;
    }
    Some(holds)
}

/// Compares two INTs or two vertices.
#[tactic(auto, using(crate::proofs::TruthLemmas::compared_laws))]
fn compared(
    left: &Expr,
    right: &Expr,
    sign: CmpSign,
    alloc: Global,
    over: &BlockContext<'_>,
    leaves: &Leaves<'_>,
    accums: &Accums,
    c: &Candidate,
) -> Option<bool>
    requires { AreIn accums.now leaves.now }
    ensures { IfSome result (IsTruth (sees_in gregorian over.now leaves.now accums.now c.now) (tree.Cmp (view left.now) sign (view right.now))) }
{
    match int(left, alloc, over, leaves, accums, c) {
        Some(x) => match int(right, alloc, over, leaves, accums, c) {
            Some(y) => Some(ints_related(sign, x, y)),
            None => None,
        },
        None => same_vertex(left, right, sign, over, leaves, accums, c),
    }
}

/// Whether an ordering satisfies a comparison sign.
fn related(sign: CmpSign, order: Ordering) -> bool
    ensures { result ≡ related sign order }
{
    match sign {
        CmpSign::Equal => order == Ordering::Equal,
        CmpSign::NotEqual => order != Ordering::Equal,
        CmpSign::Less => order == Ordering::Less,
        CmpSign::LessOrEqual => order != Ordering::Greater,
        CmpSign::Greater => order == Ordering::Greater,
        CmpSign::GreaterOrEqual => order != Ordering::Less,
    }
}

/// Compares two INTs.
#[tactic(auto, using(crate::proofs::TruthLemmas::int_laws))]
pub(crate) fn ints_related(sign: CmpSign, x: i64, y: i64) -> bool
    ensures { compared sign (Int x) (Int y) ≡ truly result }
{
    related(sign, x.cmp(&y))
}

/// Compares the vertices that two names are bound to.
#[tactic(auto, using(crate::proofs::TruthLemmas::compared_laws))]
fn same_vertex(
    left: &Expr,
    right: &Expr,
    sign: CmpSign,
    over: &BlockContext<'_>,
    leaves: &Leaves<'_>,
    accums: &Accums,
    c: &Candidate,
) -> Option<bool>
    ensures { IfSome result (IsTruth (sees_in gregorian over.now leaves.now accums.now c.now) (tree.Cmp (view left.now) sign (view right.now))) }
{
    match named_vertex(left, over, leaves, accums, c) {
        None => None,
        Some(v) => match named_vertex(right, over, leaves, accums, c) {
            None => None,
            Some(w) => are_same(sign, v, w),
        },
    }
}

/// Compares two vertices; only `==` and `!=` are defined.
#[tactic(auto, using(crate::proofs::TruthLemmas::same_laws))]
fn are_same(sign: CmpSign, v: u32, w: u32) -> Option<bool>
    ensures { IfSome result (λ b. compared sign (Vertex v) (Vertex w) ≡ truly b) }
{
    match sign {
        CmpSign::Equal | CmpSign::NotEqual => Some(related(sign, v.cmp(&w))),
        CmpSign::Less | CmpSign::LessOrEqual => None,
        CmpSign::Greater | CmpSign::GreaterOrEqual => None,
    }
}

/// The vertex that an expression is bound to, if it is a name.
#[tactic(auto, using(gq_plan_ir::proofs::ViewLaws::view_laws, crate::proofs::TruthLemmas::vertex_laws))]
fn named_vertex(
    expr: &Expr,
    over: &BlockContext<'_>,
    leaves: &Leaves<'_>,
    accums: &Accums,
    c: &Candidate,
) -> Option<u32>
    ensures { IfSome result (λ v. value_of (sees_in gregorian over.now leaves.now accums.now c.now) (view expr.now) ≡ Gives (Vertex v)) }
{
    match expr {
        Expr::Name(place) => vertex_at(leaves, c, *place),
        _ => None,
    }
}
