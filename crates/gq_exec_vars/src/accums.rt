// Accumulators.
ghost use Rattle.std.specs.Prelude.{◌≡◌, ◌+◌, ℕ, IfOk, OnOk, length, map};
ghost use Rattle.gq_value.specs.AccumViews.{accum_of};
ghost use Rattle.gq_nest.specs.Shows.{Shows};
ghost use Rattle.gq_rules_meaning.specs.Answers.{through};
ghost use Rattle.gq_rules_meaning.specs.Queries.{opened};
ghost use Rattle.gq_rules_meaning.specs.States.{State};
ghost use Rattle.gq_rules_calendar.specs.Gregorian.{gregorian};
ghost use Rattle.gq_plan_ir.specs.PlanView.{view_accum};
ghost use Rattle.gq_plan_ir.specs.Reference.{Reference};
ghost use Rattle.gq_frame.specs.Lives.{Lives};
ghost use Rattle.gq_exec_vars.specs.Begun.{AddsContents, AddsSlot, AreReady, CanOpen, Leads, MayOpen, opens_with, world_with};
ghost use Rattle.gq_plan_ir.specs.Numbered.{SlotsFrom};

use crate::values::first_value;
use gq_base::{List, OutOfMemory};
use gq_eval_attributes::TupleType;
use gq_eval_operand::Halt;
use gq_frame::{Accums, Live, Pages, targets};
use gq_index::Graph;
use gq_nest::Content;
use gq_plan_ir::{Accum, Plan};
use gq_value::{Kind, Slot, Value};
use std::alloc::Global;

/// Accumulators of one kind, one after the other.
pub(crate) fn accums(
    alloc: Global,
    graph: Graph<'_>,
    plan: &Plan,
    tuples: &List<TupleType>,
    kind: &Kind,
    trees: &List<Accum>,
    live: &mut Live,
) -> Result<(), Halt>
    requires may { MayOpen graph plan.now }
    requires ready { AreReady (length graph.store.now.vertices) live.old.frame.accums }
    requires next { SlotsFrom (length live.old.frame.accums.slots.declared) trees.now }
    ensures leads { (s : State Reference) → Lives live.old s
        → Leads (Lives live.new) (through (opened (world_with gregorian graph.entry plan.now tuples.now) (accum_of kind.now)) s (map view_accum trees.now)) result }
    ensures ready { OnOk result (AreReady (length graph.entry.store.now.vertices) live.new.frame.accums) }
    ensures count { OnOk result (length live.new.frame.accums.slots.declared ≡ length live.old.frame.accums.slots.declared + length trees.now) }
{
    for tree in trees.as_slice() {
        accum(alloc, graph, plan, tuples, kind, tree, live)?;
    }
    Ok(())
}

/// One accumulator, whose slot is the next one.
fn accum(
    alloc: Global,
    graph: Graph<'_>,
    plan: &Plan,
    tuples: &List<TupleType>,
    kind: &Kind,
    tree: &Accum,
    live: &mut Live,
) -> Result<(), Halt>
    requires may { MayOpen graph plan.now }
    requires ready { AreReady (length graph.store.now.vertices) live.old.frame.accums }
    requires next { length live.old.frame.accums.slots.declared ≡ tree.now.slot }
    ensures leads { (s : State Reference) → Lives live.old s
        → Leads (Lives live.new) (opened (world_with gregorian graph.entry plan.now tuples.now) (accum_of kind.now) s (view_accum tree.now)) result }
    ensures ready { OnOk result (AreReady (length graph.entry.store.now.vertices) live.new.frame.accums) }
    ensures count { OnOk result (length live.new.frame.accums.slots.declared ≡ length live.old.frame.accums.slots.declared + 1) }
{
    let opening = &tree.opening;
    let first = first_value(
        alloc,
        graph,
        plan,
        tuples,
        live,
        kind,
        tree.attached,
        opening,
    )?;
    add_slot(alloc, kind, tree.attached, &first, &mut live.frame.accums)?;
    Ok(())
}

/// Adds a slot and initializes its accumulators. What they open with fits, so blocks share it until they change it.
fn add_slot(
    alloc: Global,
    kind: &Kind,
    attached: bool,
    first: &Option<Value>,
    accums: &mut Accums,
) -> Result<(), OutOfMemory>
    requires suited { CanOpen (accum_of kind.now) first.now }
    ensures adds { OnOk result ((count : ℕ) → AreReady count accums.old → AddsSlot (accum_of kind.now) attached (opens_with (accum_of kind.now) first.now) accums.old accums.new) }
    ensures ready { OnOk result ((count : ℕ) → AreReady count accums.old → AreReady count accums.new) }
    ensures count { OnOk result (length accums.new.slots.declared ≡ length accums.old.slots.declared + 1) }
{
    let count = targets(attached, accums.slots.vertices);
    fill(alloc, kind, first, count, &mut accums.contents)?;
    accums.contents.seal(alloc);
    let kind = kind.duplicate(alloc)?;
    accums.slots.declared.push(Slot { kind, attached })?;
    Ok(())
}

/// Appends `count` contents, each with the value that the accumulator opens with.
fn fill(
    alloc: Global,
    kind: &Kind,
    first: &Option<Value>,
    count: u32,
    contents: &mut Pages,
) -> Result<(), OutOfMemory>
    requires { CanOpen (accum_of kind.now) first.now }
    ensures { OnOk result (AddsContents (accum_of kind.now) (opens_with (accum_of kind.now) first.now) count contents.old contents.new) }
{
    let opening = content(alloc, kind, first)?;
    contents.fill(alloc, &opening, count)
}

/// A content initialized like this.
#[tactic(auto, using(crate::proofs::ContentLemmas::content_laws))]
fn content(alloc: Global, kind: &Kind, first: &Option<Value>) -> Result<Content, OutOfMemory>
    requires { CanOpen (accum_of kind.now) first.now }
    ensures { IfOk result (λ c. Shows (accum_of kind.now) c (opens_with (accum_of kind.now) first.now)) }
{
    let mut content = Content::fresh(alloc, kind)?;
    match first {
        None => Ok(content),
        Some(value) => {
            content.set(value);
            Ok(content)
        }
    }
}
