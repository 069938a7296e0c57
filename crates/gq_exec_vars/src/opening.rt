// Opening a query, definition by definition.
ghost use Rattle.std.specs.Prelude.{◌≡◌, ◌≤◌, ◌+◌, [], IfErr, IfOk, OnOk, length, map};
ghost use Rattle.gq_graph.specs.Catalog.{most_types};
ghost use Rattle.gq_value.specs.Views.{val};
ghost use Rattle.gq_index.specs.Sights.{sight_of};
ghost use Rattle.gq_index.specs.Walks.{adjacency};
ghost use Rattle.gq_index.specs.Rows.{HaveAttributes, HaveEnds};
ghost use Rattle.gq_rules_meaning.specs.Answers.{Gives, through};
ghost use Rattle.gq_rules_meaning.specs.Queries.{Defining, defined};
ghost use Rattle.gq_rules_calendar.specs.Gregorian.{gregorian};
ghost use Rattle.gq_plan_ir.specs.PlanView.{view_definition};
ghost use Rattle.gq_plan_ir.specs.Reference.{Reference};
ghost use Rattle.gq_exec_vars.specs.Begun.{AddsTuple, AreReady, Begins, FieldsHalt, Leads, MayOpen, Stands, begins, world_with};
ghost use Rattle.gq_plan_ir.specs.Numbered.{AreNumbered, IsNext, NumberedFrom, slots_in, tuples_in};

use crate::accums::accums;
use crate::fields::tuple_type;
use crate::parameters::bound;
use gq_base::List;
use gq_eval_attributes::TupleType;
use gq_eval_operand::Halt;
use gq_frame::Live;
use gq_index::Graph;
use gq_plan_ir::{Declared, Definition, Plan};
use gq_value::{Row, Txt};
use std::alloc::Global;

/// The initial state of a query's run: names and accumulators, and the query's tuple types by their numbers.
#[derive(Drop)]
pub struct Opened {
    pub live: Live,
    pub tuples: List<TupleType>,
}

/// Opens a query: its parameters with their arguments, then its tuple types and accumulators in order.
///
/// The query is already checked, so its plan's tuple types and slots are numbered in order.
#[tactic(auto, using(crate::proofs::OpenLemmas::may_open, crate::proofs::OpenLemmas::ready_none))]
pub fn open(alloc: Global, graph: Graph<'_>, plan: &Plan, arguments: &Row) -> Result<Opened, Halt>
    requires indexed { graph.index.now ≡ adjacency (sight_of graph.catalog.now graph.store.now.vertices graph.store.now.edges) }
    requires attributes { HaveAttributes graph.catalog.now graph.store.now.vertices }
    requires ends { HaveEnds graph.store.now.vertices graph.store.now.edges.rows }
    requires few { length plan.now.edges ≤ most_types }
    requires numbered { AreNumbered plan.now.definitions }
    ensures begins { Begins (begins gregorian graph.entry plan.now (map val arguments.now)) result }
    ensures ready { IfOk result (λ o. AreReady (length graph.entry.store.now.vertices) o.live.frame.accums) }
{
    let mut opened = Opened {
        live: bound(alloc, graph, plan, arguments)?,
        tuples: List::new(alloc),
    };
    definitions(alloc, graph, plan, &mut opened)?;
    Ok(opened)
}

/// All definitions, one after the other.
fn definitions(
    alloc: Global,
    graph: Graph<'_>,
    plan: &Plan,
    opened: &mut Opened,
) -> Result<(), Halt>
    requires may { MayOpen graph plan.now }
    requires ready { AreReady (length graph.store.now.vertices) opened.old.live.frame.accums }
    requires next { NumberedFrom (length opened.old.tuples) (length opened.old.live.frame.accums.slots.declared) plan.now.definitions }
    ensures leads { (d : Defining Reference) → Stands opened.old d
        → Leads (Stands opened.new) (through (defined (world_with gregorian graph.entry plan.now []) (λ w k. Gives k)) d (map view_definition plan.now.definitions)) result }
    ensures ready { OnOk result (AreReady (length graph.entry.store.now.vertices) opened.new.live.frame.accums) }
{
    for definition in plan.definitions.as_slice() {
        define(alloc, graph, plan, definition, opened)?;
    }
    Ok(())
}

/// One definition, which sees the tuple types before it.
fn define(
    alloc: Global,
    graph: Graph<'_>,
    plan: &Plan,
    definition: &Definition,
    opened: &mut Opened,
) -> Result<(), Halt>
    requires may { MayOpen graph plan.now }
    requires ready { AreReady (length graph.store.now.vertices) opened.old.live.frame.accums }
    requires next { IsNext (length opened.old.tuples) (length opened.old.live.frame.accums.slots.declared) definition.now }
    ensures leads { (d : Defining Reference) → Stands opened.old d
        → Leads (Stands opened.new) (defined (world_with gregorian graph.entry plan.now []) (λ w k. Gives k) d (view_definition definition.now)) result }
    ensures ready { OnOk result (AreReady (length graph.entry.store.now.vertices) opened.new.live.frame.accums) }
    ensures tuples { OnOk result (length opened.new.tuples ≡ length opened.old.tuples + tuples_in definition.now) }
    ensures slots { OnOk result (length opened.new.live.frame.accums.slots.declared ≡ length opened.old.live.frame.accums.slots.declared + slots_in definition.now) }
{
    match definition {
        Definition::Tuple(fields, number) => {
            add_tuple(alloc, plan, fields, *number, &mut opened.tuples)
        }
        Definition::Accums(kind, trees) => {
            accums(
                alloc,
                graph,
                plan,
                &opened.tuples,
                kind,
                trees,
                &mut opened.live,
            )
        }
    }
}

/// Adds a tuple type, which gets the next number.
#[tactic(auto, using(crate::proofs::FieldLemmas::no_memory))]
fn add_tuple(
    alloc: Global,
    plan: &Plan,
    fields: &List<(Declared, Txt)>,
    number: u32,
    tuples: &mut List<TupleType>,
) -> Result<(), Halt>
    requires { length tuples.old ≡ number }
    ensures adds { OnOk result (AddsTuple plan.now.vertices fields.now number tuples.old tuples.new) }
    ensures halts { IfErr result (FieldsHalt plan.now.vertices fields.now) }
{
    let own = plan.vertices.as_slice();
    let lent = fields.as_slice();
    tuples.push(tuple_type(alloc, own, lent)?)?;
    Ok(())
}
