// The initial values of accumulators.
ghost use Rattle.std.specs.Prelude.{◌≡◌, true, IfOk, Some, is_some, map};
ghost use Rattle.std.specs.Option.{option_map};
ghost use Rattle.gq_value.specs.AccumViews.{accum_of, base_of};
ghost use Rattle.gq_value.specs.Typed.{number_type, takes};
ghost use Rattle.gq_value.specs.Views.{val};
ghost use Rattle.gq_nest.specs.Tells.{is_settable};
ghost use Rattle.gq_rules_typing.specs.Kinds as kinds;
ghost use Rattle.gq_rules_meaning.specs.Queries.{opening, places};
ghost use Rattle.gq_rules_meaning.specs.States.{State, seen};
ghost use Rattle.gq_rules_calendar.specs.Gregorian.{gregorian};
ghost use Rattle.gq_plan_ir.specs.ExprView.{view};
ghost use Rattle.gq_plan_ir.specs.Reference.{Reference};
ghost use Rattle.gq_eval_operand.specs.Meant.{Tells};
ghost use Rattle.gq_frame.specs.Names.{alias_of};
ghost use Rattle.gq_frame.specs.Slots.{AreSound};
ghost use Rattle.gq_eval_context.specs.Looks.{look_of};
ghost use Rattle.gq_eval_context.specs.Viewed.{viewed};
ghost use Rattle.gq_frame.specs.Lives.{Lives};
ghost use Rattle.gq_exec_vars.specs.Begun.{CanOpen, MayOpen, Sets, TellsFirst, over_of, sets, world_with};

use gq_base::List;
use gq_eval::run_value;
use gq_eval_attributes::TupleType;
use gq_eval_context::BlockContext;
use gq_eval_operand::{Halt, Sees, converted, own};
use gq_exec_feed::takes;
use gq_frame::{Alias, Frame, Live, targets};
use gq_index::Graph;
use gq_plan_ir::{Expr, Plan};
use gq_value::{BaseType, Kind, Number, Value};
use std::alloc::Global;

/// The initial value of an accumulator, at all of its targets; None if it opens as its kind does, or has no target.
///
/// An opening sees the same at each target, so it is evaluated once.
#[tactic(auto, using(crate::proofs::ValueLemmas::told_nowhere))]
pub(crate) fn first_value(
    alloc: Global,
    graph: Graph<'_>,
    plan: &Plan,
    tuples: &List<TupleType>,
    live: &Live,
    kind: &Kind,
    attached: bool,
    tree: &Option<Expr>,
) -> Result<Option<Value>, Halt>
    requires may { MayOpen graph plan.now }
    requires sound { AreSound live.now.frame.accums }
    ensures told { (s : State Reference) → Lives live.now s
        → TellsFirst (seen (world_with gregorian graph.entry plan.now tuples.now) s) (accum_of kind.now) (places (world_with gregorian graph.entry plan.now tuples.now) attached) (option_map view tree.now) result }
    ensures suited { IfOk result (CanOpen (accum_of kind.now)) }
{
    match tree {
        None => Ok(None),
        Some(expr) => {
            if targets(attached, graph.store.vertices.len()) == 0 {
                return Ok(None);
            }
            let over = block_context(graph, plan, tuples, &live.frame);
            match value_over(expr, alloc, kind, &over, &[]) {
                Ok(value) => Ok(Some(value)),
                Err(halt) => Err(halt),
            }
        }
    }
}

/// The context in which an opening is evaluated.
fn block_context<'a>(
    graph: Graph<'a>,
    plan: &'a Plan,
    tuples: &'a List<TupleType>,
    frame: &'a Frame,
) -> BlockContext<'a>
    requires may { MayOpen graph plan.now }
    requires sound { AreSound frame.now.accums }
    ensures { result ≡ over_of graph.entry plan.entry.now tuples.entry.now frame.entry.now }
{
    BlockContext {
        graph,
        plan,
        tuples: tuples.as_slice(),
        frame,
    }
}

/// The value of an opening, in the state so far.
fn value_over(
    expr: &Expr,
    alloc: Global,
    kind: &Kind,
    over: &BlockContext<'_>,
    aliases: &[Alias<'_>],
) -> Result<Value, Halt>
    ensures told { Tells (sets (accum_of kind.now)) (opening (look_of gregorian (viewed over.now (map alias_of aliases.now) over.now.frame.accums over.now.frame.accums)) (accum_of kind.now) (Some (view expr.now))) result }
    ensures suited { IfOk result (λ v. CanOpen (accum_of kind.now) (Some v)) }
{
    let accums = &over.frame.accums;
    let sight = over.eval_context(aliases, accums, accums);
    value_seen(expr, alloc, kind, &sight)
}

/// The value of an opening, converted to the type that the kind is set to.
#[tactic(auto, using(crate::proofs::ValueLemmas::open_laws))]
fn value_seen<V: Sees>(expr: &Expr, alloc: Global, kind: &Kind, sight: &V) -> Result<Value, Halt>
    ensures told { Tells (sets (accum_of kind.now)) (opening (V.look sight.now) (accum_of kind.now) (Some (view expr.now))) result }
    ensures suited { IfOk result (λ v. CanOpen (accum_of kind.now) (Some v)) }
{
    match set_base(kind) {
        None => Err(Halt::Stuck),
        Some(base) => {
            let value = run_value(expr, alloc, sight)?;
            let value = converted(&base, value)?;
            Ok(suited(own(alloc, value)?, kind))
        }
    }
}

/// The value, or a truth that sets an accumulator of the kind to the same: what isn't a truth is false.
fn suited(value: Value, kind: &Kind) -> Value
    requires { Sets (accum_of kind.now) (val value) }
    ensures same { sets (accum_of kind.now) result ≡ sets (accum_of kind.now) value }
    ensures suits { takes (accum_of kind.now) (val result) ≡ true }
{
    if takes(&value, kind) {
        value
    } else {
        Value::Bool(false)
    }
}

/// The type that accumulators of a kind are set to, if they can be.
#[tactic(auto, using(gq_value::proofs::AccumLemmas::accum_laws, gq_eval_operand::proofs::ConvertLemmas::base_laws))]
fn set_base(kind: &Kind) -> Option<BaseType>
    ensures base { option_map base_of result ≡ kinds.set_type (accum_of kind.now) }
    ensures settable { is_some result ≡ true → is_settable (accum_of kind.now) ≡ true }
{
    match kind {
        Kind::Sum(number) | Kind::Min(number) | Kind::Max(number) => Some(number_base(*number)),
        Kind::Or | Kind::And => Some(BaseType::Bool),
        Kind::BitOr | Kind::BitAnd => Some(BaseType::Int),
        Kind::Avg => None,
        Kind::Set(_) | Kind::Bag(_) | Kind::List(_) => None,
        Kind::Map(_, _) | Kind::Group(_) | Kind::Heap(_) => None,
    }
}

#[tactic(auto, using(gq_eval_operand::proofs::ConvertLemmas::base_laws))]
fn number_base(number: Number) -> BaseType
    ensures { base_of result ≡ number_type number }
{
    match number {
        Number::Int => BaseType::Int,
        Number::UInt => BaseType::UInt,
    }
}
