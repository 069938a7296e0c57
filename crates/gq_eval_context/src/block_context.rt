// The context of a block.
ghost use Rattle.std.specs.Prelude.{◌≡◌, map};
ghost use Rattle.gq_frame.specs.Names.{alias_of};
ghost use Rattle.gq_frame.specs.Slots.{AreSound};
ghost use Rattle.gq_eval_context.specs.Viewed.{viewed};

use crate::eval_context::EvalContext;
use gq_eval_attributes::TupleType;
use gq_frame::{Accums, Alias, Frame};
use gq_index::Graph;
use gq_plan_ir::Plan;
use std::marker::Model;

/// The read-only context of a block: a graph, a plan with its tuple types, and the contents of names and accumulators.
/// Contracts see what it borrows, without the index.
#[derive(Drop)]
pub struct BlockContext<'a> {
    pub graph: Graph<'a>,
    pub plan: &'a Plan,

    /// The plan's tuple types, by their numbers.
    pub tuples: &'a [TupleType],
    pub frame: &'a Frame,
}

impl<'a> Model for BlockContext<'a> {
    ghost use Rattle.std.specs.Coded.{codes};
    ghost use Rattle.gq_value.specs.contracts.value.Value as value;
    ghost use Rattle.gq_value.specs.contracts.kind.BaseType as base;
    ghost use Rattle.gq_value.specs.contracts.kind.Kind as kind;
    ghost use Rattle.gq_nest.specs.contracts.content.Content as content;
    ghost use Rattle.gq_plan_ir.specs.contracts.expr.Expr as expr;
    ghost use Rattle.gq_plan_ir.specs.contracts.block.Feed as feed;
    ghost use Rattle.gq_plan_ir.specs.contracts.block.Act as act;
    ghost use Rattle.gq_plan_ir.specs.contracts.step.Step as step;
    ghost use Rattle.gq_eval_context.specs.Viewed.{Over, GoTogether};

    ghost Value = { Over };

    ghost coded = { Prim.hlevel (codes, value.the_row.coded, base.the_row.coded, kind.the_row.coded, content.the_row.coded, expr.the_row.coded, feed.the_row.coded, act.the_row.coded, step.the_row.coded) };

    ghost view = { λ s. record { schema = s.graph.catalog.now; vertices = s.graph.store.now.vertices; edges = s.graph.store.now.edges; plan = s.plan.now; tuples = s.tuples.now; frame = s.frame.now } };

    ghost invariant = { λ s. GoTogether s.graph.index.now (record { schema = s.graph.catalog.now; vertices = s.graph.store.now.vertices; edges = s.graph.store.now.edges; plan = s.plan.now; tuples = s.tuples.now; frame = s.frame.now }) };
}

impl<'a> BlockContext<'a> {
    /// The context of an expression in it: with these aliases, the current accumulators, and those from before the
    /// block.
    pub fn eval_context(
        &self,
        aliases: &'a [Alias<'a>],
        accums: &'a Accums,
        before: &'a Accums,
    ) -> EvalContext<'a>
        requires now { AreSound accums.now }
        requires earlier { AreSound before.now }
        ensures { result ≡ viewed self.now (map alias_of aliases.entry.now) accums.entry.now before.entry.now }
    {
        EvalContext {
            graph: self.graph,
            plan: self.plan,
            tuples: self.tuples,
            things: self.frame.things.as_slice(),
            accums,
            before,
            aliases,
        }
    }
}
