// Runs a phase at its vertices.
ghost use Rattle.std.specs.Prelude.{◌≡◌, OnOk};
ghost use Rattle.gq_rules_meaning.specs.Posts.{post_acts};
ghost use Rattle.gq_rules_calendar.specs.Gregorian.{gregorian};
ghost use Rattle.gq_plan_ir.specs.BlockView.{view_acts};
ghost use Rattle.gq_exec_source.specs.Ends.{end_things};
ghost use Rattle.gq_frame.specs.Slots.{AreSound};
ghost use Rattle.gq_exec_post.specs.Sights.{DoesSo, GoesSo, ReadsEnd, one_alias};
ghost use Rattle.gq_exec_post.specs.Writing.{AreTaken, KeepsTo, left};

use crate::acts::run_acts;
use crate::writing::Writing;
use gq_eval_context::{BlockContext, BlockFault};
use gq_exec_contribute::Leaves;
use gq_exec_source::End;
use gq_plan_ir::Act;
use std::alloc::Global;

/// Runs statements at the vertices of an end, one vertex after the other.
#[tactic(auto, using(crate::proofs::VertexLemmas::vertex_laws, crate::proofs::ReadLemmas::end_kept))]
pub(crate) fn run_vertices(
    acts: &[Act],
    alloc: Global,
    over: &BlockContext<'_>,
    end: &End,
    leaves: &Leaves<'_>,
    vertices: &[u32],
    writing: &mut Writing,
) -> Result<(), BlockFault>
    requires sound { AreSound writing.old.accums }
    requires taken { AreTaken writing.old }
    requires reads { ReadsEnd leaves.now end.now writing.old.accums }
    ensures told { GoesSo gregorian over.now end.now (view_acts acts.now) vertices.now writing.old (left result writing.new) }
    ensures sound { OnOk result (KeepsTo writing.old.accums writing.new.accums) }
    ensures taken { OnOk result (AreTaken writing.new) }
{
    for vertex in vertices {
        match run_vertex(acts, alloc, over, end, leaves, *vertex, writing) {
            Err(fault) => return Err(fault),
            Ok(()) => {}
        }
    }
    Ok(())
}

/// Runs statements at a vertex, which the alias of the end is bound to.
fn run_vertex(
    acts: &[Act],
    alloc: Global,
    over: &BlockContext<'_>,
    end: &End,
    leaves: &Leaves<'_>,
    vertex: u32,
    writing: &mut Writing,
) -> Result<(), BlockFault>
    requires sound { AreSound writing.old.accums }
    requires taken { AreTaken writing.old }
    requires reads { ReadsEnd leaves.now end.now writing.old.accums }
    ensures told { DoesSo gregorian over.now (one_alias (end_things end.now vertex)) vertex (λ p. post_acts p (view_acts acts.now)) writing.old (left result writing.new) }
    ensures sound { OnOk result (KeepsTo writing.old.accums writing.new.accums) }
    ensures taken { OnOk result (AreTaken writing.new) }
{
    match end.alias(vertex) {
        Some(alias) => run_acts(acts, alloc, over, &[alias], leaves, vertex, writing),
        None => run_acts(acts, alloc, over, &[], leaves, vertex, writing),
    }
}
