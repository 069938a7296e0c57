// Trying a candidate.
ghost use Rattle.std.specs.Prelude.{◌≡◌, ◌||◌, ◌*◌, ℕ, [], true, length, map, IfOk};
ghost use Rattle.gq_rules_calendar.specs.Gregorian.{gregorian};
ghost use Rattle.gq_exec_contribute.specs.Columns.{IsColumn};
ghost use Rattle.gq_exec_contribute.specs.Passing.{Comes};
ghost use Rattle.gq_exec_source.specs.Marks.{is_marked};
ghost use Rattle.gq_exec_source.specs.Starts.{IsBelow, IsWithin};
ghost use Rattle.gq_frame.specs.Names.{alias_of};
ghost use Rattle.std.specs.Option.{option_map};
ghost use Rattle.gq_rules_meaning.specs.Answers.{Gives};
ghost use Rattle.gq_rules_meaning.specs.Blocks.{passes};
ghost use Rattle.gq_plan_ir.specs.ExprView.{view};
ghost use Rattle.gq_exec_contribute.specs.Prepared.{AreFound, sees};
ghost use Rattle.gq_workers.specs.Running.{ComesUnder, Done, IsResolved, IsShaped, Tried, come, comes, marks_end};

use crate::found::MatchBuffer;
use crate::rounds::Work;
use gq_base::{List, OutOfMemory};
use gq_core::Batches;
use gq_eval_context::BlockContext;
use gq_exec_contribute::{Outcome, Room, Stop, bind, contribute, gather, no_alias, passes_by};
use gq_exec_source::{Ends, mark};
use gq_frame::Alias;
use gq_graph::Candidate;
use gq_plan_ir::Block;
use std::alloc::Global;

/// If this many candidates of a chunk had to be evaluated, the rest of the chunk isn't read any more.
const MOST_EVALUATED: u32 = 8;

/// Tries a candidate: the contributions of a match wait, and its ends are marked; a fault is returned. The candidate is
/// read if the block's expressions can be read (`gq_exec_contribute`), and evaluated otherwise; the chunk's evaluated
/// candidates are counted.
pub(crate) fn try_one(
    alloc: Global,
    work: &Work<'_>,
    over: &BlockContext<'_>,
    candidate: &Candidate,
    evaluated: &mut u32,
    found: &mut MatchBuffer,
) -> Result<Option<Stop>, OutOfMemory>
    requires within { IsWithin (length over.now.vertices) candidate.now }
    requires shaped { IsShaped (length over.now.vertices) found.old }
    requires prepared { AreFound over.now work.now.leaves }
    requires column { IsColumn over.now.frame.accums work.now.column }
    requires resolved { IsResolved work.now }
    ensures tried { IfOk result (Tried over.now (come gregorian over.now work.now candidate.now) found.old found.new) }
    ensures shaped { IfOk result (λ _. IsShaped (length over.now.vertices) found.new) }
{
    if is_read(alloc, work, over, candidate, *evaluated, found)? {
        return Ok(None);
    }
    *evaluated = evaluated.saturating_add(1);
    found.settle(alloc)?;
    try_candidate(
        alloc,
        work.block,
        over,
        work.leaves.ends,
        work.leaves.edge,
        candidate,
        found,
    )
}

/// Returns whether the candidate's effect could be read: then it is done, else nothing has changed.
#[tactic(auto, using(crate::proofs::ComesLemmas::read_laws))]
fn is_read(
    alloc: Global,
    work: &Work<'_>,
    over: &BlockContext<'_>,
    candidate: &Candidate,
    evaluated: u32,
    found: &mut MatchBuffer,
) -> Result<bool, OutOfMemory>
    requires within { IsWithin (length over.now.vertices) candidate.now }
    requires shaped { IsShaped (length over.now.vertices) found.old }
    requires prepared { AreFound over.now work.now.leaves }
    requires column { IsColumn over.now.frame.accums work.now.column }
    requires resolved { IsResolved work.now }
    ensures { IfOk result (Done over.now (come gregorian over.now work.now candidate.now) found.old found.new) }
{
    if evaluated >= MOST_EVALUATED {
        return Ok(false);
    }
    match passes_by(
        &work.filter,
        &work.block.filter,
        alloc,
        over,
        &work.leaves,
        &work.column,
        candidate,
    ) {
        None => Ok(false),
        Some(false) => Ok(true),
        Some(true) => is_gathered(alloc, work, over, candidate, found),
    }
}

/// Collects what acts feed, and marks the ends; changes nothing if an act feeds something that can't be read.
fn is_gathered(
    alloc: Global,
    work: &Work<'_>,
    over: &BlockContext<'_>,
    candidate: &Candidate,
    found: &mut MatchBuffer,
) -> Result<bool, OutOfMemory>
    requires within { IsWithin (length over.now.vertices) candidate.now }
    requires shaped { IsShaped (length over.now.vertices) found.old }
    requires prepared { AreFound over.now work.now.leaves }
    requires passed { passes (sees gregorian over.now work.now.leaves candidate.now) (option_map view work.now.block.now.filter) ≡ Gives true }
    ensures { IfOk result (Done over.now (come gregorian over.now work.now candidate.now) found.old found.new) }
{
    let acts = work.block.accum.as_slice();
    if !gather(
        acts,
        alloc,
        over,
        &work.leaves,
        candidate,
        &mut found.inputs,
    )? {
        return Ok(false);
    }
    mark(&mut found.sources, candidate.source);
    mark_end(&mut found.targets, candidate.target);
    Ok(true)
}

/// Tries a candidate by evaluating its acts. The contributions of a match wait in the batch, and its ends are marked; a
/// fault is returned.
#[tactic(auto, using(crate::proofs::FoundLemmas::tried_laws))]
fn try_candidate(
    alloc: Global,
    block: &Block,
    over: &BlockContext<'_>,
    ends: &Ends,
    edge: Option<u32>,
    candidate: &Candidate,
    found: &mut MatchBuffer,
) -> Result<Option<Stop>, OutOfMemory>
    requires settled { found.old.inputs ≡ [] }
    requires within { IsWithin (length over.now.vertices) candidate.now }
    requires shaped { IsShaped (length over.now.vertices) found.old }
    ensures tried { IfOk result (Tried over.now (comes gregorian over.now block.now ends.now edge candidate.now) found.old found.new) }
    ensures shaped { IfOk result (λ _. IsShaped (length over.now.vertices) found.new) }
{
    let room = &mut found.room;
    match outcome_of(
        alloc,
        block,
        over,
        ends,
        edge,
        candidate,
        room,
        &mut found.batches,
    ) {
        Err(OutOfMemory) => Err(OutOfMemory),
        Ok(Outcome::Fault(fault)) => Ok(Some(fault)),
        Ok(Outcome::Filtered) => Ok(None),
        Ok(Outcome::Passed) => {
            mark(&mut found.sources, candidate.source);
            mark_end(&mut found.targets, candidate.target);
            Ok(None)
        }
    }
}

/// Evaluates a candidate: it sees its aliases, and the accumulators of the frame.
pub(crate) fn outcome_of(
    alloc: Global,
    block: &Block,
    over: &BlockContext<'_>,
    ends: &Ends,
    edge: Option<u32>,
    candidate: &Candidate,
    room: &mut Room,
    into: &mut Batches,
) -> Result<Outcome, OutOfMemory>
    ensures { IfOk result (Comes over.now.frame.accums.slots candidate.now (comes gregorian over.now block.now ends.now edge candidate.now) into.old into.new) }
{
    let mut row = [no_alias(); 3];
    let count = bind(&mut row, ends, edge, *candidate);
    outcome_under(alloc, block, over, &row[..count], room, into)
}

/// Evaluates a candidate with these aliases.
fn outcome_under(
    alloc: Global,
    block: &Block,
    over: &BlockContext<'_>,
    aliases: &[Alias<'_>],
    room: &mut Room,
    into: &mut Batches,
) -> Result<Outcome, OutOfMemory>
    ensures { IfOk result (ComesUnder gregorian over.now block.now (map alias_of aliases.now) into.old into.new) }
{
    let accums = &over.frame.accums;
    let view = over.eval_context(aliases, accums, accums);
    contribute(alloc, block, &view, accums, room, into)
}

/// Marks the vertex at an end, if there is one.
fn mark_end(words: &mut List<u64>, vertex: Option<u32>)
    requires { IsBelow (length words.old * 64) vertex }
    ensures len { length words.new ≡ length words.old }
    ensures marks { (v : ℕ) → is_marked words.new v ≡ (marks_end vertex v || is_marked words.old v) }
{
    match vertex {
        Some(vertex) => mark(words, vertex),
        None => {}
    }
}
