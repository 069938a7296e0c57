// Set expressions.
ghost use Rattle.std.specs.Prelude.{◌≡◌, map, []};
ghost use Rattle.gq_rules_meaning.specs.Expressions.{World};
ghost use Rattle.gq_rules_meaning.specs.States.{State};
ghost use Rattle.gq_rules_meaning.specs.Sets.{term_of, sets_of, set_named};
ghost use Rattle.gq_plan_ir.specs.Reference.{Reference, Place};
ghost use Rattle.gq_plan_ir.specs.PlanView.{view_term};
ghost use Rattle.gq_eval_operand.specs.Meant.{Tells};
ghost use Rattle.gq_frame.specs.Slots.{AreSound};
ghost use Rattle.gq_exec_vars.specs.Lookups.{IsSeen};
ghost use Rattle.gq_exec_vars.specs.Written.{typed, set_is, others_of, chain_of, step_of, is_bare};

use crate::join::join;
use crate::lookup::Lookup;
use crate::seeds::gathered;
use crate::typed::{SetOperand, TypedSet};
use gq_base::List;
use gq_eval_operand::Halt;
use gq_frame::set_at;
use gq_index::VertexList;
use gq_plan_ir::{SetTerm, Sets};
use gq_tree::SetOp;
use std::alloc::Global;

/// The vertices of a set expression, from left to right, with its types; `{}` alone has all types of the graph.
/// Operators order by number, and a set variable alone keeps its order.
#[tactic(auto, using(crate::proofs::SetLemmas::bare_made))]
pub fn sets(alloc: Global, sets: &Sets, at: &Lookup<'_>) -> Result<TypedSet, Halt>
    requires { AreSound at.now.frame.now.accums }
    ensures { (world : World Reference) (s : State Reference) → IsSeen at.now world s → Tells typed (sets_of world s (view_term sets.now.first) (others_of sets.now.others)) result }
{
    if is_bare(sets) {
        return Ok(TypedSet {
            types: List::from_slice(alloc, at.own)?,
            vertices: VertexList::new(alloc),
        });
    }
    chain(alloc, &sets.first, sets.others.as_slice(), at)
}

/// Whether it is just `{}`.
#[tactic(auto, using(crate::proofs::SetLemmas::bare_tests))]
fn is_bare(sets: &Sets) -> bool
    ensures { result ≡ is_bare (view_term sets.now.first) (others_of sets.now.others) }
{
    match &sets.first {
        SetTerm::Seeds(seeds) => seeds.len() == 0 && sets.others.len() == 0,
        SetTerm::Name(_) => false,
    }
}

/// Applies operators to a set, from left to right.
#[tactic(auto, using(crate::proofs::SetLemmas::chain_laws))]
fn chain(
    alloc: Global,
    first: &SetTerm,
    others: &[(SetOp, SetTerm)],
    at: &Lookup<'_>,
) -> Result<TypedSet, Halt>
    requires { AreSound at.now.frame.now.accums }
    ensures { (world : World Reference) (s : State Reference) → IsSeen at.now world s → Tells typed (chain_of world s (term_of world s (view_term first.now)) (others_of others.now)) result }
{
    let mut set = operand(alloc, first, at)?;
    for other in others {
        set = SetOperand::Made(step(alloc, other.0, set, &other.1, at)?);
    }
    Ok(set.own(alloc)?)
}

/// One operator with its right side.
#[tactic(auto, using(crate::proofs::SetLemmas::step_laws))]
fn step(
    alloc: Global,
    op: SetOp,
    left: SetOperand<'_>,
    right: &SetTerm,
    at: &Lookup<'_>,
) -> Result<TypedSet, Halt>
    requires { AreSound at.now.frame.now.accums }
    ensures { (world : World Reference) (s : State Reference) → IsSeen at.now world s → Tells typed (step_of world s (set_is left.entry) op (view_term right.now)) result }
{
    let other = operand(alloc, right, at)?;
    Ok(join(alloc, op, &left, &other)?)
}

/// A set variable's set, borrowed, or a written set.
fn operand<'a>(alloc: Global, term: &SetTerm, at: &Lookup<'a>) -> Result<SetOperand<'a>, Halt>
    requires { AreSound at.now.frame.now.accums }
    ensures { (world : World Reference) (s : State Reference) → IsSeen at.now world s → Tells set_is (term_of world s (view_term term.now)) result }
{
    match term {
        SetTerm::Name(place) => lent(*place, at),
        SetTerm::Seeds(seeds) => Ok(SetOperand::Made(gathered(alloc, seeds.as_slice(), at)?)),
    }
}

/// The set of a variable, borrowed. A name that isn't a set is `Stuck`.
#[tactic(auto, using(crate::proofs::SetLemmas::set_seen, crate::proofs::SetLemmas::set_unseen))]
fn lent<'a>(place: u32, at: &Lookup<'a>) -> Result<SetOperand<'a>, Halt>
    ensures { (world : World Reference) (s : State Reference) → IsSeen at.now world s → Tells set_is (set_named world s (Place place)) result }
{
    match set_at(at.frame.things.as_slice(), place) {
        Some((types, vertices)) => Ok(SetOperand::Lent(types, vertices)),
        None => Err(Halt::Stuck),
    }
}
