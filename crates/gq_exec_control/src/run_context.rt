// The read-only context of a run.
ghost use Rattle.std.specs.Prelude.{◌≡◌};
ghost use Rattle.gq_frame.specs.Slots.{AreSound};
ghost use Rattle.gq_exec_control.specs.Contexts.{bare, over_of};

use gq_eval_attributes::TupleType;
use gq_eval_context::{BlockContext, EvalContext};
use gq_frame::Frame;
use gq_index::Graph;
use gq_plan_ir::Plan;
use std::marker::Model;

/// Read-only context of a query run: a graph, and a plan with its tuple types. Contracts see what it borrows, without
/// the index.
#[derive(Drop)]
pub struct RunContext<'a> {
    pub graph: Graph<'a>,
    pub plan: &'a Plan,

    /// The plan's tuple types, by number.
    pub tuples: &'a [TupleType],
}

impl<'a> Model for RunContext<'a> {
    ghost use Rattle.std.specs.Coded.{codes};
    ghost use Rattle.gq_value.specs.contracts.value.Value as value;
    ghost use Rattle.gq_value.specs.contracts.kind.BaseType as base;
    ghost use Rattle.gq_value.specs.contracts.kind.Kind as kind;
    ghost use Rattle.gq_plan_ir.specs.contracts.expr.Expr as expr;
    ghost use Rattle.gq_plan_ir.specs.contracts.block.Feed as feed;
    ghost use Rattle.gq_plan_ir.specs.contracts.block.Act as act;
    ghost use Rattle.gq_plan_ir.specs.contracts.step.Step as step;
    ghost use Rattle.gq_exec_control.specs.Contexts.{Basis, HoldTogether};

    ghost Value = { Basis };

    ghost coded = { Prim.hlevel (codes, value.the_row.coded, base.the_row.coded, kind.the_row.coded, expr.the_row.coded, feed.the_row.coded, act.the_row.coded, step.the_row.coded) };

    ghost view = { λ g. record { schema = g.graph.catalog.now; vertices = g.graph.store.now.vertices; edges = g.graph.store.now.edges; plan = g.plan.now; tuples = g.tuples.now } };

    ghost invariant = { λ g. HoldTogether g.graph.index.now (record { schema = g.graph.catalog.now; vertices = g.graph.store.now.vertices; edges = g.graph.store.now.edges; plan = g.plan.now; tuples = g.tuples.now }) };
}

impl<'a> RunContext<'a> {
    /// Returns the context of a block, with the current contents of names and accumulators.
    pub fn block_context<'s>(&'s self, frame: &'s Frame) -> BlockContext<'s>
        requires { AreSound frame.now.accums }
        ensures { result ≡ over_of self.entry.now frame.entry.now }
    {
        BlockContext {
            graph: self.graph,
            plan: self.plan,
            tuples: self.tuples,
            frame,
        }
    }

    /// Returns what an expression outside of a block sees.
    pub fn eval_context<'s>(&'s self, frame: &'s Frame) -> EvalContext<'s>
        requires { AreSound frame.now.accums }
        ensures { result ≡ bare self.entry.now frame.entry.now }
    {
        EvalContext {
            graph: self.graph,
            plan: self.plan,
            tuples: self.tuples,
            things: frame.things.as_slice(),
            accums: &frame.accums,
            before: &frame.accums,
            aliases: &[],
        }
    }
}
