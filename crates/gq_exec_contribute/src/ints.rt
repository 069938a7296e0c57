// Reads expressions that are INTs.
ghost use Rattle.std.specs.Prelude.{◌≡◌, IfSome};
ghost use Rattle.gq_value.specs.Val.{Int};
ghost use Rattle.gq_tree.specs.Tree as tree;
ghost use Rattle.gq_rules_calendar.specs.Gregorian.{gregorian};
ghost use Rattle.gq_rules_meaning.specs.Answers.{Gives};
ghost use Rattle.gq_rules_meaning.specs.Expressions.{Look};
ghost use Rattle.gq_plan_ir.specs.ExprView.{view, view_behind, view_parts};
ghost use Rattle.gq_plan_ir.specs.Reference.{Reference};
ghost use Rattle.std.specs.Prelude.{map};
ghost use Rattle.gq_eval_operand.specs.Meant.{valued};
ghost use Rattle.gq_frame.specs.Names.{alias_of};
ghost use Rattle.gq_frame.specs.Slots.{AreSound};
ghost use Rattle.gq_eval_context.specs.Viewed.{viewed};
ghost use Rattle.gq_eval_context.specs.Looks.{look_of};
ghost use Rattle.gq_exec_contribute.specs.Prepared.{AreIn, IsInt, part_value, sees_in};

use crate::arithmetic::read_int;
use crate::bound::{bind, no_alias};
use crate::held::held_int;
use crate::leaves::Leaves;
use crate::names::{field_int, variable_int, vertex_at};
use gq_eval::run_value;
use gq_eval_context::BlockContext;
use gq_eval_operand::{Operand, Sees};
use gq_frame::{Accums, Alias};
use gq_graph::Candidate;
use gq_plan_ir::{Behind, Expr};
use gq_value::Value;
use std::alloc::Global;

/// The INT value of an expression for a candidate. What can't be read is evaluated.
pub(crate) fn int(
    expr: &Expr,
    alloc: Global,
    over: &BlockContext<'_>,
    leaves: &Leaves<'_>,
    accums: &Accums,
    c: &Candidate,
) -> Option<i64>
    requires { AreIn accums.now leaves.now }
    ensures { IfSome result (IsInt (sees_in gregorian over.now leaves.now accums.now c.now) (view expr.now)) }
{
    match short_int(expr, over, leaves, accums, c) {
        Some(x) => Some(x),
        None => long_int(expr, alloc, over, leaves, accums, c),
    }
}

/// The INT value of an expression without a short form: methods of accumulators and arithmetic are read, and the rest
/// is evaluated.
fn long_int(
    expr: &Expr,
    alloc: Global,
    over: &BlockContext<'_>,
    leaves: &Leaves<'_>,
    accums: &Accums,
    c: &Candidate,
) -> Option<i64>
    requires { AreIn accums.now leaves.now }
    ensures { IfSome result (IsInt (sees_in gregorian over.now leaves.now accums.now c.now) (view expr.now)) }
{
    match expr {
        Expr::Post(_, _) | Expr::Mul(_, _) | Expr::Sum(_, _) => {
            match read_int(expr, over, leaves, accums, c) {
                Some(x) => Some(x),
                None => evaluated(expr, alloc, over, leaves, accums, c),
            }
        }
        Expr::Call(_, _) | Expr::Neg(_, _) => evaluated(expr, alloc, over, leaves, accums, c),
        _ => None,
    }
}

/// Reads an INT of a short form: a literal, a variable, a global accumulator, or one part of a name. Allocates nothing.
#[tactic(auto, using(gq_plan_ir::proofs::ViewLaws::view_laws, crate::proofs::ReadLemmas::int_laws))]
pub(crate) fn short_int(
    expr: &Expr,
    over: &BlockContext<'_>,
    leaves: &Leaves<'_>,
    accums: &Accums,
    c: &Candidate,
) -> Option<i64>
    requires { AreIn accums.now leaves.now }
    ensures { IfSome result (IsInt (sees_in gregorian over.now leaves.now accums.now c.now) (view expr.now)) }
{
    match expr {
        Expr::Post(first, parts) => int_behind(
            first.get(),
            parts.as_slice(),
            over,
            leaves,
            accums,
            c,
        ),
        Expr::Number(n) => literal(*n),
        Expr::Name(place) => variable_int(over, leaves, *place),
        Expr::Global(slot) => held_int(over, leaves, accums, *slot, 0),
        _ => None,
    }
}

/// The INT that an evaluation gives. Memory is freed before it returns.
fn evaluated(
    expr: &Expr,
    alloc: Global,
    over: &BlockContext<'_>,
    leaves: &Leaves<'_>,
    accums: &Accums,
    c: &Candidate,
) -> Option<i64>
    requires { AreSound accums.now }
    ensures { IfSome result (IsInt (sees_in gregorian over.now leaves.now accums.now c.now) (view expr.now)) }
{
    let mut row = [no_alias(); 3];
    let count = bind(&mut row, leaves.ends, leaves.edge, *c);
    evaluated_under(expr, alloc, over, accums, &row[..count])
}

/// The INT that an evaluation under these aliases gives.
fn evaluated_under(
    expr: &Expr,
    alloc: Global,
    over: &BlockContext<'_>,
    accums: &Accums,
    aliases: &[Alias<'_>],
) -> Option<i64>
    requires { AreSound accums.now }
    ensures { IfSome result (IsInt (look_of gregorian (viewed over.now (map alias_of aliases.now) accums.now over.now.frame.accums)) (view expr.now)) }
{
    let sight = over.eval_context(aliases, accums, &over.frame.accums);
    evaluated_int(expr, alloc, &sight)
}

#[tactic(auto, using(gq_value::specs::ViewLaws::view_laws))]
fn evaluated_int<V: Sees>(expr: &Expr, alloc: Global, sight: &V) -> Option<i64>
    ensures { IfSome result (IsInt (V.look sight.now) (view expr.now)) }
{
    match run_value(expr, alloc, sight) {
        Ok(operand) => int_of(&operand),
        Err(_) => None,
    }
}

/// The INT, if it is one.
#[tactic(auto, using(gq_value::specs::ViewLaws::view_laws))]
fn int_of(operand: &Operand<'_>) -> Option<i64>
    ensures { IfSome result (λ x. valued operand.now ≡ Int x) }
{
    match operand {
        Operand::Lent(Value::Int(x)) => Some(*x),
        Operand::Made(Value::Int(x)) => Some(*x),
        _ => None,
    }
}

/// The literal as an INT, up to 9223372036854775807.
fn literal(n: u64) -> Option<i64>
    ensures { (look : Look Reference) → IfSome result (IsInt look (tree.Number n)) }
{
    if n < 9_223_372_036_854_775_808 {
        Some(n as i64)
    } else {
        None
    }
}

/// Reads the INT of one part of a name: `name.part`.
#[tactic(auto, using(crate::proofs::ReadLemmas::post_laws))]
fn int_behind(
    first: &Expr,
    parts: &[Behind],
    over: &BlockContext<'_>,
    leaves: &Leaves<'_>,
    accums: &Accums,
    c: &Candidate,
) -> Option<i64>
    requires { AreIn accums.now leaves.now }
    ensures { IfSome result (IsInt (sees_in gregorian over.now leaves.now accums.now c.now) (tree.Post (view first.now) (view_parts parts.now))) }
{
    match first {
        Expr::Name(place) => match parts {
            [part] => int_part(part, over, leaves, accums, c, *place),
            [] | [_, _, ..] => None,
        },
        _ => None,
    }
}

/// Reads the INT of a part of the name at a place: an attached accumulator or a field.
#[tactic(auto, using(crate::proofs::ReadLemmas::part_laws))]
fn int_part(
    part: &Behind,
    over: &BlockContext<'_>,
    leaves: &Leaves<'_>,
    accums: &Accums,
    c: &Candidate,
    place: u32,
) -> Option<i64>
    requires { AreIn accums.now leaves.now }
    ensures { IfSome result (λ x. part_value (sees_in gregorian over.now leaves.now accums.now c.now) place (view_behind part.now) ≡ Gives (Int x)) }
{
    match part {
        Behind::Attached(slot) => match vertex_at(leaves, c, place) {
            Some(vertex) => held_int(over, leaves, accums, *slot, vertex),
            None => None,
        },
        Behind::Field(field) => field_int(field, over, leaves, accums, c, place),
        Behind::Method(_, _) | Behind::Degree(_, _) | Behind::Before(_) => None,
    }
}
