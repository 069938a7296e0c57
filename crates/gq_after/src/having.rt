// HAVING.
ghost use Rattle.std.specs.Prelude.{◌≡◌, ◌++◌, [], ◌∷◌, IfSome, OnOk, Some, cond, map};
ghost use Rattle.std.specs.Option.{option_map};
ghost use Rattle.gq_rules_meaning.specs.Blocks.{passes};
ghost use Rattle.gq_rules_meaning.specs.Expressions.{truth_of};
ghost use Rattle.gq_rules_meaning.specs.Tails.{passing};
ghost use Rattle.gq_rules_calendar.specs.Gregorian.{gregorian};
ghost use Rattle.gq_plan_ir.specs.ExprView.{view};
ghost use Rattle.gq_eval_operand.specs.Meant.{itself, Tells};
ghost use Rattle.gq_frame.specs.Names.{alias_of};
ghost use Rattle.gq_frame.specs.Slots.{AreSound};
ghost use Rattle.gq_eval_context.specs.Looks.{look_of};
ghost use Rattle.gq_eval_context.specs.Answered.{Answered};
ghost use Rattle.gq_eval_context.specs.Viewed.{viewed};
ghost use Rattle.gq_exec_contribute.specs.Prepared.{IsTruth};
ghost use Rattle.gq_after.specs.Before.{before_in};
ghost use Rattle.gq_after.specs.Sights.{ReadsEnd, vertex_look};

use crate::before::has_before;
use gq_base::{List, OutOfMemory};
use gq_eval::run_truth;
use gq_eval_context::{BlockContext, BlockFault, fault_at};
use gq_eval_operand::Halt;
use gq_exec_contribute::{Leaves, leaves_of, truth_at};
use gq_exec_source::{End, as_source};
use gq_frame::{Accums, Alias};
use gq_plan_ir::{Expr, Walk};
use std::alloc::Global;

/// Returns the vertices that pass HAVING, in order; HAVING is evaluated for all of them. Without HAVING every vertex
/// passes.
#[tactic(auto, using(crate::proofs::PassLemmas::none_laws))]
pub(crate) fn passing(
    having: &Option<Expr>,
    alloc: Global,
    over: &BlockContext<'_>,
    accums: &Accums,
    end: &End,
    vertices: &[u32],
) -> Result<List<u32>, BlockFault>
    requires { AreSound accums.now }
    ensures { Answered itself (passing (vertex_look gregorian over.now accums.now end.now) (option_map view having.now) vertices.now) result }
{
    match having {
        None => match List::from_slice(alloc, vertices) {
            Ok(all) => Ok(all),
            Err(_) => Err(BlockFault::OutOfMemory),
        },
        Some(expr) => holding(expr, alloc, over, accums, end, vertices),
    }
}

/// Resolves the names and accumulators of a condition at the vertices of an end, and returns those where it holds.
fn holding(
    expr: &Expr,
    alloc: Global,
    over: &BlockContext<'_>,
    accums: &Accums,
    end: &End,
    vertices: &[u32],
) -> Result<List<u32>, BlockFault>
    requires { AreSound accums.now }
    ensures { Answered itself (passing (vertex_look gregorian over.now accums.now end.now) (Some (view expr.now)) vertices.now) result }
{
    match as_source(alloc, end) {
        Err(_) => Err(BlockFault::OutOfMemory),
        Ok(ends) => match leaves_of(alloc, &accums.slots, &Walk::Nowhere, &ends) {
            Err(_) => Err(BlockFault::OutOfMemory),
            Ok(leaves) => {
                let before = has_before(expr);
                kept_by(expr, before, alloc, over, accums, end, &leaves, vertices)
            }
        },
    }
}

/// Returns the vertices where a condition holds, in order.
#[tactic(auto, using(crate::proofs::HavingLemmas::hold_laws))]
fn kept_by(
    expr: &Expr,
    before: bool,
    alloc: Global,
    over: &BlockContext<'_>,
    accums: &Accums,
    end: &End,
    leaves: &Leaves<'_>,
    vertices: &[u32],
) -> Result<List<u32>, BlockFault>
    requires sound { AreSound accums.now }
    requires reads { ReadsEnd leaves.now end.now accums.now }
    requires has { before ≡ before_in (view expr.now) }
    ensures { Answered itself (passing (vertex_look gregorian over.now accums.now end.now) (Some (view expr.now)) vertices.now) result }
{
    let mut kept = List::new(alloc);
    for vertex in vertices {
        match holds_at(expr, before, alloc, over, accums, end, leaves, *vertex) {
            Err(halt) => return Err(fault_at(*vertex, halt)),
            Ok(holds) => match keep(holds, *vertex, &mut kept) {
                Ok(()) => {}
                Err(_) => return Err(BlockFault::OutOfMemory),
            },
        }
    }
    Ok(kept)
}

/// Appends a vertex where the condition holds.
fn keep(holds: bool, vertex: u32, kept: &mut List<u32>) -> Result<(), OutOfMemory>
    ensures { OnOk result (kept.new ≡ kept.old ++ cond holds (vertex ∷ []) []) }
{
    if holds { kept.push(vertex) } else { Ok(()) }
}

/// Whether a condition holds at a vertex, under the alias of its end: it is read if possible, else evaluated.
fn holds_at(
    expr: &Expr,
    before: bool,
    alloc: Global,
    over: &BlockContext<'_>,
    accums: &Accums,
    end: &End,
    leaves: &Leaves<'_>,
    vertex: u32,
) -> Result<bool, Halt>
    requires sound { AreSound accums.now }
    requires reads { ReadsEnd leaves.now end.now accums.now }
    requires has { before ≡ before_in (view expr.now) }
    ensures { Tells itself (truth_of (vertex_look gregorian over.now accums.now end.now vertex) (view expr.now)) result }
{
    match read_at(expr, before, alloc, over, accums, end, leaves, vertex) {
        Some(truth) => Ok(truth),
        None => evaluated_at(expr, alloc, over, accums, end, vertex),
    }
}

/// Reads a condition at a vertex. A `v.@a'` isn't read: to HAVING it is what the block leaves, and reading takes it from
/// before the block.
#[tactic(auto, using(crate::proofs::ReadLemmas::read_laws))]
fn read_at(
    expr: &Expr,
    before: bool,
    alloc: Global,
    over: &BlockContext<'_>,
    accums: &Accums,
    end: &End,
    leaves: &Leaves<'_>,
    vertex: u32,
) -> Option<bool>
    requires sound { AreSound accums.now }
    requires reads { ReadsEnd leaves.now end.now accums.now }
    requires has { before ≡ before_in (view expr.now) }
    ensures { IfSome result (IsTruth (vertex_look gregorian over.now accums.now end.now vertex) (view expr.now)) }
{
    if before {
        None
    } else {
        truth_at(expr, alloc, over, leaves, accums, vertex)
    }
}

/// Evaluates a condition at a vertex.
fn evaluated_at(
    expr: &Expr,
    alloc: Global,
    over: &BlockContext<'_>,
    accums: &Accums,
    end: &End,
    vertex: u32,
) -> Result<bool, Halt>
    requires { AreSound accums.now }
    ensures { Tells itself (truth_of (vertex_look gregorian over.now accums.now end.now vertex) (view expr.now)) result }
{
    match end.alias(vertex) {
        Some(alias) => holds_under(expr, alloc, over, accums, &[alias]),
        None => holds_under(expr, alloc, over, accums, &[]),
    }
}

fn holds_under(
    expr: &Expr,
    alloc: Global,
    over: &BlockContext<'_>,
    accums: &Accums,
    aliases: &[Alias<'_>],
) -> Result<bool, Halt>
    requires { AreSound accums.now }
    ensures { Tells itself (truth_of (look_of gregorian (viewed over.now (map alias_of aliases.now) accums.now accums.now)) (view expr.now)) result }
{
    let sight = over.eval_context(aliases, accums, accums);
    run_truth(expr, alloc, &sight)
}
