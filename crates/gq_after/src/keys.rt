// The keys of ORDER BY.
ghost use Rattle.std.specs.Prelude.{◌≡◌, false, IfSome, map};
ghost use Rattle.gq_value.specs.Views.{val};
ghost use Rattle.gq_rules_meaning.specs.Answers.{each};
ghost use Rattle.gq_rules_meaning.specs.Expressions.{value_of};
ghost use Rattle.gq_rules_meaning.specs.Tails as plain;
ghost use Rattle.gq_rules_calendar.specs.Gregorian.{gregorian};
ghost use Rattle.gq_plan_ir.specs.ExprView.{view};
ghost use Rattle.gq_eval_operand.specs.Meant.{Tells};
ghost use Rattle.gq_frame.specs.Names.{alias_of};
ghost use Rattle.gq_frame.specs.Slots.{AreSound};
ghost use Rattle.gq_eval_context.specs.Viewed.{viewed};
ghost use Rattle.gq_eval_context.specs.Looks.{look_of};
ghost use Rattle.gq_eval_context.specs.Answered.{Answered};
ghost use Rattle.gq_exec_contribute.specs.Prepared.{IsInt};
ghost use Rattle.gq_after.specs.Before.{before_in, before_in_keys};
ghost use Rattle.gq_after.specs.Ranks.{order_of, ranked};
ghost use Rattle.gq_after.specs.Sights.{ReadsEnd, vertex_look};

use crate::before::keys_have;
use crate::rows::Ranked;
use gq_base::List;
use gq_eval::run_value;
use gq_eval_context::{BlockContext, BlockFault, fault_at};
use gq_eval_operand::{Halt, Sees, own};
use gq_exec_contribute::{Leaves, int_at, leaves_of};
use gq_exec_source::{End, as_source};
use gq_frame::{Accums, Alias};
use gq_plan_ir::{Expr, Walk};
use gq_value::{Row, Value};
use std::alloc::Global;

/// Resolves the names and accumulators of ORDER BY at the vertices of an end, and returns these with all their keys, in
/// the same order.
pub(crate) fn with_keys(
    order: &[(Expr, bool)],
    alloc: Global,
    over: &BlockContext<'_>,
    accums: &Accums,
    end: &End,
    vertices: &[u32],
) -> Result<List<Ranked>, BlockFault>
    requires { AreSound accums.now }
    ensures { Answered (map ranked) (each (plain.ranked (vertex_look gregorian over.now accums.now end.now) (order_of order.now)) vertices.now) result }
{
    match as_source(alloc, end) {
        Err(_) => Err(BlockFault::OutOfMemory),
        Ok(ends) => match leaves_of(alloc, &accums.slots, &Walk::Nowhere, &ends) {
            Err(_) => Err(BlockFault::OutOfMemory),
            Ok(leaves) => {
                let before = keys_have(order);
                rows_of(order, before, alloc, over, accums, end, &leaves, vertices)
            }
        },
    }
}

/// Returns vertices with all their keys, in the same order.
#[tactic(auto, using(crate::proofs::KeyLemmas::row_laws))]
fn rows_of(
    order: &[(Expr, bool)],
    before: bool,
    alloc: Global,
    over: &BlockContext<'_>,
    accums: &Accums,
    end: &End,
    leaves: &Leaves<'_>,
    vertices: &[u32],
) -> Result<List<Ranked>, BlockFault>
    requires sound { AreSound accums.now }
    requires reads { ReadsEnd leaves.now end.now accums.now }
    requires has { before ≡ before_in_keys (order_of order.now) }
    ensures { Answered (map ranked) (each (plain.ranked (vertex_look gregorian over.now accums.now end.now) (order_of order.now)) vertices.now) result }
{
    let mut rows = List::new(alloc);
    for vertex in vertices {
        match keys_at(order, before, alloc, over, accums, end, leaves, *vertex) {
            Err(halt) => return Err(fault_at(*vertex, halt)),
            Ok(keys) => match rows.push(Ranked {
                vertex: *vertex,
                keys,
            }) {
                Ok(()) => {}
                Err(_) => return Err(BlockFault::OutOfMemory),
            },
        }
    }
    Ok(rows)
}

/// Returns the keys of a vertex, in order.
#[tactic(auto, using(crate::proofs::KeyLemmas::key_laws, crate::proofs::BeforeLemmas::keys_lack))]
fn keys_at(
    order: &[(Expr, bool)],
    before: bool,
    alloc: Global,
    over: &BlockContext<'_>,
    accums: &Accums,
    end: &End,
    leaves: &Leaves<'_>,
    vertex: u32,
) -> Result<Row, Halt>
    requires sound { AreSound accums.now }
    requires reads { ReadsEnd leaves.now end.now accums.now }
    requires has { before ≡ before_in_keys (order_of order.now) }
    ensures { Tells (map val) (each (λ key. value_of (vertex_look gregorian over.now accums.now end.now vertex) (view key.0)) order.now) result }
{
    let mut row = List::new(alloc);
    for key in order {
        match key_at(&key.0, before, alloc, over, accums, end, leaves, vertex) {
            Err(halt) => return Err(halt),
            Ok(value) => row.push(value)?,
        }
    }
    Ok(row)
}

/// Returns a key of a vertex: an INT is read if possible, and the rest is evaluated.
#[tactic(auto, using(gq_value::specs::ViewLaws::view_laws))]
fn key_at(
    expr: &Expr,
    before: bool,
    alloc: Global,
    over: &BlockContext<'_>,
    accums: &Accums,
    end: &End,
    leaves: &Leaves<'_>,
    vertex: u32,
) -> Result<Value, Halt>
    requires sound { AreSound accums.now }
    requires reads { ReadsEnd leaves.now end.now accums.now }
    requires lacks { before ≡ false → before_in (view expr.now) ≡ false }
    ensures { Tells val (value_of (vertex_look gregorian over.now accums.now end.now vertex) (view expr.now)) result }
{
    match int_read(expr, before, over, accums, end, leaves, vertex) {
        Some(x) => Ok(Value::Int(x)),
        None => evaluated_at(expr, alloc, over, accums, end, vertex),
    }
}

/// Reads the INT of a key at a vertex. If a key has a `v.@a'`, none is read: to ORDER BY it is what the block leaves, and
/// reading takes it from before the block.
#[tactic(auto, using(crate::proofs::ReadLemmas::read_laws))]
fn int_read(
    expr: &Expr,
    before: bool,
    over: &BlockContext<'_>,
    accums: &Accums,
    end: &End,
    leaves: &Leaves<'_>,
    vertex: u32,
) -> Option<i64>
    requires sound { AreSound accums.now }
    requires reads { ReadsEnd leaves.now end.now accums.now }
    requires lacks { before ≡ false → before_in (view expr.now) ≡ false }
    ensures { IfSome result (IsInt (vertex_look gregorian over.now accums.now end.now vertex) (view expr.now)) }
{
    if before {
        None
    } else {
        int_at(expr, over, leaves, accums, vertex)
    }
}

/// Evaluates a key at a vertex.
fn evaluated_at(
    expr: &Expr,
    alloc: Global,
    over: &BlockContext<'_>,
    accums: &Accums,
    end: &End,
    vertex: u32,
) -> Result<Value, Halt>
    requires { AreSound accums.now }
    ensures { Tells val (value_of (vertex_look gregorian over.now accums.now end.now vertex) (view expr.now)) result }
{
    match end.alias(vertex) {
        Some(alias) => value_under(expr, alloc, over, accums, &[alias]),
        None => value_under(expr, alloc, over, accums, &[]),
    }
}

fn value_under(
    expr: &Expr,
    alloc: Global,
    over: &BlockContext<'_>,
    accums: &Accums,
    aliases: &[Alias<'_>],
) -> Result<Value, Halt>
    requires { AreSound accums.now }
    ensures { Tells val (value_of (look_of gregorian (viewed over.now (map alias_of aliases.now) accums.now accums.now)) (view expr.now)) result }
{
    let sight = over.eval_context(aliases, accums, accums);
    value_seen(expr, alloc, &sight)
}

fn value_seen<V: Sees>(expr: &Expr, alloc: Global, sight: &V) -> Result<Value, Halt>
    ensures { Tells val (value_of (V.look sight.now) (view expr.now)) result }
{
    let value = run_value(expr, alloc, sight)?;
    Ok(own(alloc, value)?)
}
