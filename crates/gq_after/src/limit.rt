// LIMIT.
ghost use Rattle.std.specs.Prelude.{◌≡◌, ◌≤◌, ℕ, List, IfOk, length, map, nat_eq, take};
ghost use Rattle.std.specs.List.{IsDistinct};
ghost use Rattle.std.specs.Option.{option_map};
ghost use Rattle.gq_rules_meaning.specs.Expressions.{number_of};
ghost use Rattle.gq_rules_meaning.specs.Graphs.{vertex_count};
ghost use Rattle.gq_rules_meaning.specs.Tails.{cut};
ghost use Rattle.gq_rules_calendar.specs.Gregorian.{gregorian};
ghost use Rattle.gq_plan_ir.specs.ExprView.{view};
ghost use Rattle.gq_eval_operand.specs.Meant.{itself, Tells};
ghost use Rattle.gq_frame.specs.Names.{alias_of};
ghost use Rattle.gq_frame.specs.Slots.{AreSound};
ghost use Rattle.gq_eval_context.specs.Viewed.{viewed};
ghost use Rattle.gq_eval_context.specs.Looks.{look_of, world_over};
ghost use Rattle.gq_eval_context.specs.Answered.{Answered};
ghost use Rattle.gq_eval_context.specs.Limits.{most_of};
ghost use Rattle.gq_after.specs.Sights.{first_of, plain_look};

use gq_base::OutOfMemory;
use gq_eval::run_value;
use gq_eval_context::{BlockContext, BlockFault, fault_at, limit_count};
use gq_eval_operand::{Halt, Sees};
use gq_frame::{Accums, Alias};
use gq_index::VertexList;
use gq_plan_ir::Expr;
use std::alloc::Global;

/// Returns how many vertices LIMIT keeps, if there is a LIMIT. Its fault has the number of vertices as its place.
#[tactic(auto, using(crate::proofs::LimitLemmas::limit_laws))]
pub(crate) fn most(
    limit: &Option<Expr>,
    alloc: Global,
    over: &BlockContext<'_>,
    accums: &Accums,
) -> Result<Option<u64>, BlockFault>
    requires { AreSound accums.now }
    ensures { (vs : List ℕ) → Answered (λ most. first_of most vs) (cut (world_over gregorian over.now) (plain_look gregorian over.now accums.now) (option_map view limit.now) vs) result }
{
    match limit {
        None => Ok(None),
        Some(expr) => match count_under(expr, alloc, over, accums, &[]) {
            Ok(count) => Ok(Some(count)),
            Err(halt) => Err(fault_at(vertex_count(over), halt)),
        },
    }
}

/// Returns the number of vertices.
fn vertex_count(over: &BlockContext<'_>) -> u32
    ensures { result ≡ vertex_count (world_over gregorian over.now).graph }
{
    over.graph.store.vertices.len()
}

fn count_under(
    expr: &Expr,
    alloc: Global,
    over: &BlockContext<'_>,
    accums: &Accums,
    aliases: &[Alias<'_>],
) -> Result<u64, Halt>
    requires { AreSound accums.now }
    ensures { Tells itself (most_of (number_of (look_of gregorian (viewed over.now (map alias_of aliases.now) accums.now accums.now)) (view expr.now))) result }
{
    let sight = over.eval_context(aliases, accums, accums);
    count_seen(expr, alloc, &sight)
}

#[tactic(auto, using(crate::proofs::LimitLemmas::count_laws))]
fn count_seen<V: Sees>(expr: &Expr, alloc: Global, sight: &V) -> Result<u64, Halt>
    ensures { Tells itself (most_of (number_of (V.look sight.now) (view expr.now))) result }
{
    let value = run_value(expr, alloc, sight)?;
    limit_count(&value)
}

/// Returns the first `most` vertices, or all.
#[tactic(auto, using(crate::proofs::LimitLemmas::first_laws))]
pub(crate) fn first_vertices(
    alloc: Global,
    vertices: &[u32],
    most: Option<u64>,
) -> Result<VertexList, OutOfMemory>
    requires { IsDistinct nat_eq vertices.now }
    ensures { IfOk result (λ list. list ≡ first_of most vertices.now) }
{
    match most {
        None => listed(alloc, vertices, vertices.len()),
        Some(most) => listed(alloc, vertices, vertices.len().min(most as usize)),
    }
}

/// Returns the first `count` vertices.
#[tactic(auto, using(crate::proofs::LimitLemmas::list_laws))]
fn listed(alloc: Global, vertices: &[u32], count: usize) -> Result<VertexList, OutOfMemory>
    requires once { IsDistinct nat_eq vertices.now }
    requires there { count ≤ length vertices.now }
    ensures { IfOk result (λ list. list ≡ take count vertices.now) }
{
    let mut list = VertexList::new(alloc);
    for place in 0..count {
        list.push(vertices[place])?;
    }
    Ok(list)
}
