// The context of one expression.
use gq_eval_attributes::TupleType;
use gq_frame::{Accums, Alias, Thing};
use gq_index::Graph;
use gq_plan_ir::Plan;
use std::marker::Model;

/// The read-only context of an expression of a plan. Contracts see what it borrows, without the index.
#[derive(Drop)]
pub struct EvalContext<'a> {
    pub graph: Graph<'a>,
    pub plan: &'a Plan,

    /// The plan's tuple types, by their numbers.
    pub tuples: &'a [TupleType],

    /// The contents of the plan's places.
    pub things: &'a [Option<Thing>],
    pub accums: &'a Accums,

    /// The accumulators from before the block.
    pub before: &'a Accums,

    /// The aliases that are bound; if two have one place the first counts.
    pub aliases: &'a [Alias<'a>],
}

impl<'a> Model for EvalContext<'a> {
    ghost use Rattle.std.specs.Prelude.{map};
    ghost use Rattle.gq_frame.specs.Names.{alias_of};
    ghost use Rattle.std.specs.Coded.{codes};
    ghost use Rattle.gq_value.specs.contracts.value.Value as value;
    ghost use Rattle.gq_value.specs.contracts.kind.BaseType as base;
    ghost use Rattle.gq_value.specs.contracts.kind.Kind as kind;
    ghost use Rattle.gq_nest.specs.contracts.content.Content as content;
    ghost use Rattle.gq_plan_ir.specs.contracts.expr.Expr as expr;
    ghost use Rattle.gq_plan_ir.specs.contracts.block.Feed as feed;
    ghost use Rattle.gq_plan_ir.specs.contracts.block.Act as act;
    ghost use Rattle.gq_plan_ir.specs.contracts.step.Step as step;
    ghost use Rattle.gq_eval_context.specs.Viewed.{Viewed, Belongs};

    ghost Value = { Viewed };

    ghost coded = { Prim.hlevel (codes, value.the_row.coded, base.the_row.coded, kind.the_row.coded, content.the_row.coded, expr.the_row.coded, feed.the_row.coded, act.the_row.coded, step.the_row.coded) };

    ghost view = { λ v. record { schema = v.graph.catalog.now; vertices = v.graph.store.now.vertices; edges = v.graph.store.now.edges; plan = v.plan.now; tuples = v.tuples.now; things = v.things.now; accums = v.accums.now; before = v.before.now; aliases = map alias_of v.aliases.now } };

    ghost invariant = { λ v. Belongs v.graph.index.now (record { schema = v.graph.catalog.now; vertices = v.graph.store.now.vertices; edges = v.graph.store.now.edges; plan = v.plan.now; tuples = v.tuples.now; things = v.things.now; accums = v.accums.now; before = v.before.now; aliases = map alias_of v.aliases.now }) };
}
