// Statements, in order.
ghost use Rattle.std.specs.Prelude.{◌≡◌, ◌≤◌, ◌<◌, true, false, OnOk};
ghost use Rattle.std.specs.Option.{option_map};
ghost use Rattle.gq_value.specs.Views.{val};
ghost use Rattle.gq_rules_meaning.specs.Runs.{run, run_all, inner, enter, condition_of, is_reached, one_less};
ghost use Rattle.gq_rules_calendar.specs.Gregorian.{gregorian};
ghost use Rattle.gq_plan_ir.specs.Reference.{Place};
ghost use Rattle.gq_plan_ir.specs.ExprView.{view};
ghost use Rattle.gq_plan_ir.specs.PlanView.{view_over, view_step, view_steps};
ghost use Rattle.gq_frame.specs.Slots.{AreSound};
ghost use Rattle.gq_exec_control.specs.Contexts.{world_on};
ghost use Rattle.gq_exec_control.specs.Standing.{Does, TakesTurn, HasNoTurn};
ghost use Rattle.gq_exec_control.specs.Values.{base_in, values_of};
ghost use Rattle.gq_flow.specs.Bodies.{while_of, foreach_of, goes_round, named_body, values_from, with_value};

use crate::program::Program;
use gq_exec_control::{Rounds, RunFault, Running};
use gq_frame::Thing;
use gq_plan_ir::{Expr, Over, Step};
use gq_value::Value;
use std::thread::Threads;

/// Runs statements in order, up to the first fault.
#[cycle(steps)]
#[tactic(auto, using(crate::proofs::ControlLemmas::sound_laws))]
pub fn run_steps<R: Threads + Sync>(
    steps: &[Step],
    program: &Program<'_, R>,
    r: &mut Running,
) -> Result<(), RunFault>
    requires sound { AreSound r.old.live.frame.accums }
    ensures does { Does (run_all (world_on gregorian program.now.context) (view_steps steps.now)) r.old r.new result }
    ensures sound { OnOk result (AreSound r.new.live.frame.accums) }
    ensures turns { r.new.turns ≤ r.old.turns }
{
    for step in steps {
        run_step(step, program, r)?;
    }
    Ok(())
}

/// Runs one statement.
#[cycle(steps)]
#[tactic(auto, using(crate::proofs::ControlLemmas::sound_laws))]
fn run_step<R: Threads + Sync>(
    step: &Step,
    program: &Program<'_, R>,
    r: &mut Running,
) -> Result<(), RunFault>
    requires sound { AreSound r.old.live.frame.accums }
    ensures does { Does (run (world_on gregorian program.now.context) (view_step step.now)) r.old r.new result }
    ensures sound { OnOk result (AreSound r.new.live.frame.accums) }
    ensures turns { r.new.turns ≤ r.old.turns }
{
    match step {
        Step::If(branches, others) => {
            for branch in branches.as_slice() {
                if program.truth(&branch.0, r)? {
                    return run_body(branch.1.as_slice(), program, r);
                }
            }
            match others {
                Some(steps) => run_body(steps.as_slice(), program, r),
                None => Ok(()),
            }
        }
        Step::While(condition, limit, body) => {
            run_while(body.as_slice(), condition, limit, program, r)
        }
        Step::Foreach(place, over, body) => {
            run_foreach(body.as_slice(), *place, over, program, r)
        }
        Step::Local(_, _) | Step::Assign(_, _, _) => program.act(step, r),
        Step::Global(_, _) | Step::Print(_) => program.act(step, r),
    }
}

// ---- bodies

/// Runs a body, whose names end with it.
#[cycle(steps)]
#[tactic(auto, using(crate::proofs::ControlLemmas::sound_laws))]
fn run_body<R: Threads + Sync>(
    body: &[Step],
    program: &Program<'_, R>,
    r: &mut Running,
) -> Result<(), RunFault>
    requires sound { AreSound r.old.live.frame.accums }
    ensures does { Does (inner (run_all (world_on gregorian program.now.context) (view_steps body.now))) r.old r.new result }
    ensures sound { OnOk result (AreSound r.new.live.frame.accums) }
    ensures turns { r.new.turns ≤ r.old.turns }
{
    let mark = r.live.mark();
    run_steps(body, program, r)?;
    r.live.leave(mark);
    Ok(())
}

/// Runs one iteration of a loop's body, which takes a turn.
#[cycle(steps)]
#[tactic(auto, using(crate::proofs::ControlLemmas::sound_laws))]
fn run_turn<R: Threads + Sync>(
    body: &[Step],
    program: &Program<'_, R>,
    r: &mut Running,
) -> Result<(), RunFault>
    requires sound { AreSound r.old.live.frame.accums }
    ensures does { Does (enter (run_all (world_on gregorian program.now.context) (view_steps body.now))) r.old r.new result }
    ensures sound { OnOk result (AreSound r.new.live.frame.accums) }
    ensures turns { r.new.turns ≤ r.old.turns }
    ensures fewer { OnOk result (r.new.turns < r.old.turns) }
{
    if !take_turn(r) {
        return Err(RunFault::LoopBound);
    }
    run_body(body, program, r)
}

/// Takes a turn, if one is left. A turn is one iteration of a loop's body, and all loops of a run share the turns.
fn take_turn(r: &mut Running) -> bool
    ensures taken { result ≡ true → TakesTurn r.old r.new }
    ensures none { result ≡ false → HasNoTurn r.old r.new }
{
    if r.turns == 0 {
        return false;
    }
    r.turns -= 1;
    true
}

/// Runs WHILE: in each iteration first the limit is checked, then the condition, then the body runs. The limit is
/// evaluated once.
#[cycle(steps)]
#[tactic(auto, using(crate::proofs::ControlLemmas::sound_laws))]
fn run_while<R: Threads + Sync>(
    body: &[Step],
    condition: &Expr,
    limit: &Option<Expr>,
    program: &Program<'_, R>,
    r: &mut Running,
) -> Result<(), RunFault>
    requires sound { AreSound r.old.live.frame.accums }
    ensures does { Does (while_of (world_on gregorian program.now.context) (view condition.now) (option_map view limit.now) (run_all (world_on gregorian program.now.context) (view_steps body.now))) r.old r.new result }
    ensures sound { OnOk result (AreSound r.new.live.frame.accums) }
    ensures turns { r.new.turns ≤ r.old.turns }
{
    match limit {
        None => run_rounds(body, condition, None, program, r),
        Some(limit) => {
            let most = program.limit(limit, r)?;
            run_rounds(body, condition, Some(most), program, r)
        }
    }
}

/// Runs the iterations of WHILE, up to a limit.
#[cycle(steps)]
#[tactic(auto, using(crate::proofs::ControlLemmas::sound_laws))]
fn run_rounds<R: Threads + Sync>(
    body: &[Step],
    condition: &Expr,
    most: Option<u64>,
    program: &Program<'_, R>,
    r: &mut Running,
) -> Result<(), RunFault>
    requires sound { AreSound r.old.live.frame.accums }
    ensures does { Does (goes_round most (condition_of (world_on gregorian program.now.context) (view condition.now)) (run_all (world_on gregorian program.now.context) (view_steps body.now))) r.old r.new result }
    ensures sound { OnOk result (AreSound r.new.live.frame.accums) }
    ensures turns { r.new.turns ≤ r.old.turns }
{
    let mut left = most;
    'round: loop {
        if is_reached(left) {
            return Ok(());
        }
        if !program.truth(condition, r)? {
            return Ok(());
        }
        run_turn(body, program, r)?;
        left = one_less(left);
    }
}

fn is_reached(limit: Option<u64>) -> bool
    ensures { result ≡ is_reached limit }
{
    limit == Some(0)
}

fn one_less(limit: Option<u64>) -> Option<u64>
    ensures { result ≡ one_less limit }
{
    match limit {
        Some(n) => Some(n.saturating_sub(1)),
        None => None,
    }
}

// ---- FOREACH

/// Runs FOREACH: what it iterates over is fixed before the first iteration.
#[cycle(steps)]
#[tactic(auto, using(crate::proofs::ControlLemmas::sound_laws))]
fn run_foreach<R: Threads + Sync>(
    body: &[Step],
    place: u32,
    over: &Over,
    program: &Program<'_, R>,
    r: &mut Running,
) -> Result<(), RunFault>
    requires sound { AreSound r.old.live.frame.accums }
    ensures does { Does (foreach_of (world_on gregorian program.now.context) (Place place) (view_over over.now) (run_all (world_on gregorian program.now.context) (view_steps body.now))) r.old r.new result }
    ensures sound { OnOk result (AreSound r.new.live.frame.accums) }
    ensures turns { r.new.turns ≤ r.old.turns }
{
    let values = program.rounds(over, r)?;
    run_values(body, place, &values, program, r)
}

/// Returns the number of turns left.
fn turns_left(r: &Running) -> u64
    ensures { result ≡ r.now.turns }
{
    r.turns
}

/// Runs an iteration for each value.
#[cycle(steps)]
#[tactic(auto, using(crate::proofs::ControlLemmas::sound_laws))]
fn run_values<R: Threads + Sync>(
    body: &[Step],
    place: u32,
    values: &Rounds,
    program: &Program<'_, R>,
    r: &mut Running,
) -> Result<(), RunFault>
    requires sound { AreSound r.old.live.frame.accums }
    ensures does { Does (values_from (Place place) (run_all (world_on gregorian program.now.context) (view_steps body.now)) (base_in values.now) (values_of values.now)) r.old r.new result }
    ensures sound { OnOk result (AreSound r.new.live.frame.accums) }
    ensures turns { r.new.turns ≤ r.old.turns }
{
    // Each iteration takes a turn, so there are no more iterations than turns, and their number fits in 64 bits.
    let _most = turns_left(r);
    let mut at = 0u64;
    'value: loop {
        match values.at(program.alloc, at)? {
            None => return Ok(()),
            Some(value) => run_value(body, place, values, value, program, r)?,
        }
        at += 1;
    }
}

/// Runs an iteration for one of the values, which takes a turn.
#[cycle(steps)]
#[tactic(auto, using(crate::proofs::ControlLemmas::sound_laws))]
fn run_value<R: Threads + Sync>(
    body: &[Step],
    place: u32,
    values: &Rounds,
    value: Value,
    program: &Program<'_, R>,
    r: &mut Running,
) -> Result<(), RunFault>
    requires sound { AreSound r.old.live.frame.accums }
    ensures does { Does (with_value (Place place) (run_all (world_on gregorian program.now.context) (view_steps body.now)) (base_in values.now, val value)) r.old r.new result }
    ensures sound { OnOk result (AreSound r.new.live.frame.accums) }
    ensures turns { r.new.turns ≤ r.old.turns }
    ensures fewer { OnOk result (r.new.turns < r.old.turns) }
{
    if !take_turn(r) {
        return Err(RunFault::LoopBound);
    }
    run_named(body, place, values, value, program, r)
}

/// Runs a body with its own variable, which has the type of the values.
#[cycle(steps)]
#[tactic(auto, using(crate::proofs::ControlLemmas::sound_laws))]
fn run_named<R: Threads + Sync>(
    body: &[Step],
    place: u32,
    values: &Rounds,
    value: Value,
    program: &Program<'_, R>,
    r: &mut Running,
) -> Result<(), RunFault>
    requires sound { AreSound r.old.live.frame.accums }
    ensures does { Does (inner (named_body (Place place) (base_in values.now, val value) (run_all (world_on gregorian program.now.context) (view_steps body.now)))) r.old r.new result }
    ensures sound { OnOk result (AreSound r.new.live.frame.accums) }
    ensures turns { r.new.turns ≤ r.old.turns }
{
    let names = r.live.mark();
    let base = values.base(program.alloc)?;
    r.live.declare(place, Thing::Value(base, value))?;
    run_steps(body, program, r)?;
    r.live.leave(names);
    Ok(())
}
