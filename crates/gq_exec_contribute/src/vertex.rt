// Reads expressions at one vertex: conditions and inputs of POST-ACCUM, the condition of HAVING, keys of ORDER BY.
ghost use Rattle.std.specs.Prelude.{◌≡◌, IfSome};
ghost use Rattle.gq_rules_calendar.specs.Gregorian.{gregorian};
ghost use Rattle.gq_plan_ir.specs.BlockView.{view_change};
ghost use Rattle.gq_plan_ir.specs.ExprView.{view};
ghost use Rattle.gq_exec_contribute.specs.Prepared.{AreIn, IsAdded, IsInt, IsTruth, only_source, sees_at};

use crate::arithmetic::read_int;
use crate::gathering::added;
use crate::leaves::Leaves;
use crate::reading::read;
use crate::scalars::ScalarInput;
use crate::truths::truth;
use gq_eval_context::BlockContext;
use gq_frame::Accums;
use gq_graph::Candidate;
use gq_plan_ir::{Change, Expr};
use std::alloc::Global;

/// Reads the truth value of an expression at a vertex, which the alias of the source is bound to, with the current
/// accumulators. `None` if it can't be read. Memory is freed before it returns.
pub fn truth_at(
    expr: &Expr,
    alloc: Global,
    over: &BlockContext<'_>,
    leaves: &Leaves<'_>,
    accums: &Accums,
    vertex: u32,
) -> Option<bool>
    requires { AreIn accums.now leaves.now }
    ensures { IfSome result (IsTruth (sees_at gregorian over.now leaves.now accums.now vertex) (view expr.now)) }
{
    let c = only_source(vertex);
    truth(expr, alloc, over, leaves, accums, &c)
}

/// Reads the INT of an expression at a vertex, which the alias of the source is bound to, with the current accumulators.
/// `None` if it can't be read; nothing is evaluated. Allocates nothing.
pub fn int_at(
    expr: &Expr,
    over: &BlockContext<'_>,
    leaves: &Leaves<'_>,
    accums: &Accums,
    vertex: u32,
) -> Option<i64>
    requires { AreIn accums.now leaves.now }
    ensures { IfSome result (IsInt (sees_at gregorian over.now leaves.now accums.now vertex) (view expr.now)) }
{
    let c = only_source(vertex);
    read_int(expr, over, leaves, accums, &c)
}

/// Reads the input of a `+=` to the accumulator of a slot at a vertex, with the current accumulators. `None` for `=`, and
/// if the input can't be read. Memory is freed before it returns.
pub fn added_at(
    change: &Change,
    alloc: Global,
    over: &BlockContext<'_>,
    leaves: &Leaves<'_>,
    accums: &Accums,
    vertex: u32,
    slot: u32,
) -> Option<ScalarInput>
    requires { AreIn accums.now leaves.now }
    ensures { IfSome result (IsAdded (sees_at gregorian over.now leaves.now accums.now vertex) accums.now.slots slot (view_change change.now)) }
{
    match added(change) {
        None => None,
        Some(feed) => match leaves.cells.get(slot as usize) {
            None => None,
            Some(cells) => {
                let c = only_source(vertex);
                let mut input = ScalarInput::Int(0);
                if read(
                    feed,
                    alloc,
                    over,
                    leaves,
                    accums,
                    &c,
                    cells.takes,
                    &mut input,
                ) {
                    Some(input)
                } else {
                    None
                }
            }
        },
    }
}

/// A candidate of a source only.
fn only_source(vertex: u32) -> Candidate
    ensures { result ≡ only_source vertex }
{
    Candidate {
        source: vertex,
        edge: None,
        kind: None,
        target: None,
    }
}
