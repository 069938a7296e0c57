// Runs POST-ACCUM.
ghost use Rattle.std.specs.Prelude.{◌≡◌, IfOk, cond};
ghost use Rattle.gq_rules_meaning.specs.Posts.{posted};
ghost use Rattle.gq_rules_meaning.specs.States.{State};
ghost use Rattle.gq_rules_calendar.specs.Gregorian.{gregorian};
ghost use Rattle.gq_plan_ir.specs.BlockView.{view_acts, view_block};
ghost use Rattle.gq_plan_ir.specs.Reference.{Reference};
ghost use Rattle.gq_frame.specs.Shows.{Shows};
ghost use Rattle.gq_frame.specs.Slots.{AreSound};
ghost use Rattle.gq_eval_context.specs.Looks.{world_over};
ghost use Rattle.gq_eval_context.specs.Answered.{Answered, after_is};
ghost use Rattle.gq_exec_source.specs.Ends.{HasEnds, end_at};
ghost use Rattle.gq_exec_post.specs.Phases.{KeepsAll, RunsAt, RunsPhase, RunsPhases};
ghost use Rattle.gq_exec_post.specs.Sights.{ReadsEnd};
ghost use Rattle.gq_exec_post.specs.Writing.{KeepsTo};

use crate::feeding::fed;
use crate::phases::{for_target, run_of};
use crate::vertices::run_vertices;
use crate::waiting::none;
use crate::writing::Writing;
use gq_eval_context::{After, BlockContext, BlockFault};
use gq_exec_contribute::{Leaves, leaves_of};
use gq_exec_source::{End, Ends, as_source, selects_target};
use gq_frame::Accums;
use gq_plan_ir::{Act, Block, Walk};
use std::alloc::Global;

/// Runs POST-ACCUM: all phases of a block with these ends.
///
/// Also returns `OutOfMemory` for an expression that isn't well typed.
pub fn post(
    alloc: Global,
    block: &Block,
    over: &BlockContext<'_>,
    ends: &Ends,
    after: After,
) -> Result<After, BlockFault>
    requires sound { AreSound after.accums }
    requires ends { HasEnds over.now.schema over.now.plan over.now.frame.things block.now ends.now }
    ensures told { (s : State Reference) → Shows over.now.frame s → Answered after_is (posted (world_over gregorian over.now) s (view_block block.now) (after_is after)) result }
    ensures keeps { IfOk result (KeepsAll after) }
{
    let selects = selects_target(block);
    run_phases(block.post.as_slice(), alloc, over, ends, selects, after)
}

/// Runs the phases of statements in order.
#[tactic(auto, using(crate::proofs::RunLemmas::phases_laws))]
fn run_phases(
    acts: &[Act],
    alloc: Global,
    over: &BlockContext<'_>,
    ends: &Ends,
    selects: bool,
    after: After,
) -> Result<After, BlockFault>
    requires { AreSound after.accums }
    ensures told { RunsPhases gregorian over.now ends.now selects (view_acts acts.now) after result }
    ensures keeps { IfOk result (KeepsAll after) }
{
    match acts {
        [] => Ok(after),
        [first, others @ ..] => {
            let target = for_target(first, ends, selects);
            let run = run_of(others, ends, selects, target);
            let next = run + 1;
            match run_phase(&acts[..next], alloc, over, ends, target, after) {
                Err(fault) => Err(fault),
                Ok(so_far) => run_phases(&acts[next..], alloc, over, ends, selects, so_far),
            }
        }
    }
}

/// Runs one phase, for one end.
#[tactic(auto, using(crate::proofs::RunLemmas::phase_laws))]
fn run_phase(
    acts: &[Act],
    alloc: Global,
    over: &BlockContext<'_>,
    ends: &Ends,
    target: bool,
    after: After,
) -> Result<After, BlockFault>
    requires { AreSound after.accums }
    ensures told { RunsPhase gregorian over.now ends.now target (view_acts acts.now) after result }
    ensures keeps { IfOk result (KeepsAll after) }
{
    let sources = after.sources;
    let targets = after.targets;
    let end = end_at(ends, target);
    let found_sources = sources.as_slice();
    let found_targets = targets.as_slice();
    let vertices = matched(found_sources, found_targets, target);
    match phase_at(acts, alloc, over, end, vertices, after.accums) {
        Err(fault) => Err(fault),
        Ok(accums) => Ok(After {
            accums,
            sources,
            targets,
        }),
    }
}

/// The target's end or the source's.
fn end_at(ends: &Ends, target: bool) -> &End
    ensures { result.now ≡ end_at ends.entry.now target }
{
    if target { &ends.target } else { &ends.source }
}

/// The matched vertices of the target's end or of the source's.
fn matched<'a>(sources: &'a [u32], targets: &'a [u32], target: bool) -> &'a [u32]
    ensures { result.now ≡ cond target targets.entry.now sources.entry.now }
{
    if target { targets } else { sources }
}

/// Resolves the names and accumulators of a phase at the vertices of an end, and runs it.
#[tactic(auto, using(crate::proofs::ReadLemmas::phase_laws))]
fn phase_at(
    acts: &[Act],
    alloc: Global,
    over: &BlockContext<'_>,
    end: &End,
    vertices: &[u32],
    accums: Accums,
) -> Result<Accums, BlockFault>
    requires { AreSound accums }
    ensures told { RunsAt gregorian over.now end.now (view_acts acts.now) vertices.now accums result }
    ensures keeps { IfOk result (KeepsTo accums) }
{
    match as_source(alloc, end) {
        Err(_) => Err(BlockFault::OutOfMemory),
        Ok(ends) => match leaves_of(alloc, &accums.slots, &Walk::Nowhere, &ends) {
            Err(_) => Err(BlockFault::OutOfMemory),
            Ok(leaves) => vertices_at(acts, alloc, over, end, &leaves, vertices, accums),
        },
    }
}

/// Runs one phase at the vertices of an end, in order of their numbers, then feeds the waiting inputs.
#[tactic(auto, using(crate::proofs::RunLemmas::at_laws))]
fn vertices_at(
    acts: &[Act],
    alloc: Global,
    over: &BlockContext<'_>,
    end: &End,
    leaves: &Leaves<'_>,
    vertices: &[u32],
    accums: Accums,
) -> Result<Accums, BlockFault>
    requires sound { AreSound accums }
    requires reads { ReadsEnd leaves.now end.now accums }
    ensures told { RunsAt gregorian over.now end.now (view_acts acts.now) vertices.now accums result }
    ensures keeps { IfOk result (KeepsTo accums) }
{
    let mut writing = Writing {
        accums,
        waiting: none(alloc),
    };
    match run_vertices(acts, alloc, over, end, leaves, vertices, &mut writing) {
        Err(fault) => Err(fault),
        Ok(()) => fed(alloc, writing),
    }
}
