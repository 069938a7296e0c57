// Evaluates changes.
ghost use Rattle.gq_value.specs.AccumViews.{accum_of};
ghost use Rattle.gq_rules_typing.specs.Kinds.{set_type};
ghost use Rattle.gq_rules_meaning.specs.Writes.{made_by};
ghost use Rattle.gq_plan_ir.specs.BlockView.{view_change};
ghost use Rattle.gq_plan_ir.specs.ExprView.{view};
ghost use Rattle.gq_plan_ir.specs.Reference.{Reference};
ghost use Rattle.gq_rules_typing.specs.Selecting as plain;
ghost use Rattle.gq_eval_operand.specs.Meant.{Tells};
ghost use Rattle.gq_exec_post.specs.Making.{PutsAs, making_of};

use gq_eval::run_value;
use gq_eval_operand::{Halt, Sees, converted_to, own};
use gq_exec_contribute::run_feed;
use gq_plan_ir::{Change, Expr};
use gq_value::{Input, Kind, Number, Value};
use std::alloc::Global;

/// An evaluated change of a content: an input to feed, or a value to set.
#[derive(Drop)]
pub enum Made {
    Input(Input),
    Value(Value),
}

/// How a value is converted before it is set: to a number of a type, or not at all.
#[derive(Clone, Copy)]
pub(crate) enum Putting {
    Number(Number),
    Truth,
}

/// Evaluates a change of an accumulator of a kind, and converts it to the type that the kind takes.
#[tactic(auto, using(crate::proofs::MadeLemmas::feed_laws))]
pub fn made_by<V: Sees>(
    change: &Change,
    kind: &Kind,
    alloc: Global,
    sight: &V,
) -> Result<Made, Halt>
    ensures { Tells making_of (made_by (V.look sight.now) (accum_of kind.now) (view_change change.now)) result }
{
    match change {
        Change::Feed(feed) => {
            let input = run_feed(feed, kind, alloc, sight)?;
            Ok(Made::Input(input))
        }
        Change::Set(expr) => put(expr, kind, alloc, sight),
    }
}

/// Evaluates the value of a `=`.
#[tactic(auto, using(crate::proofs::MadeLemmas::put_laws))]
fn put<V: Sees>(expr: &Expr, kind: &Kind, alloc: Global, sight: &V) -> Result<Made, Halt>
    ensures { Tells making_of (made_by (V.look sight.now) (accum_of kind.now) (plain.Puts (view expr.now))) result }
{
    match put_as(kind) {
        None => Err(Halt::Stuck),
        Some(Putting::Truth) => {
            let value = run_value(expr, alloc, sight)?;
            Ok(Made::Value(own(alloc, value)?))
        }
        Some(Putting::Number(number)) => {
            let value = run_value(expr, alloc, sight)?;
            let value = converted_to(number, &value)?;
            Ok(Made::Value(own(alloc, value)?))
        }
    }
}

/// How values set by `=` are converted for a kind; `None` if the kind can't be set.
#[tactic(auto, using(gq_value::proofs::AccumLemmas::accum_laws))]
fn put_as(kind: &Kind) -> Option<Putting>
    ensures { PutsAs (set_type (accum_of kind.now)) result }
{
    match kind {
        Kind::Sum(number) | Kind::Min(number) | Kind::Max(number) => {
            Some(Putting::Number(*number))
        }
        Kind::Or | Kind::And => Some(Putting::Truth),
        Kind::BitOr | Kind::BitAnd => Some(Putting::Number(Number::Int)),
        Kind::Avg => None,
        Kind::Set(_) | Kind::Bag(_) | Kind::List(_) => None,
        Kind::Map(_, _) | Kind::Group(_) | Kind::Heap(_) => None,
    }
}
