// The elements of a collection.
ghost use Rattle.std.specs.Prelude.{◌≡◌, IfOk, map};
ghost use Rattle.gq_value.specs.AccumViews.{accum_of};
ghost use Rattle.gq_value.specs.Views.{val};
ghost use Rattle.gq_rules_typing.specs.Kinds.{element_type};
ghost use Rattle.gq_rules_meaning.specs.Expressions.{meaning};
ghost use Rattle.gq_rules_meaning.specs.Statements.{elements_of};
ghost use Rattle.gq_plan_ir.specs.ExprView.{view};
ghost use Rattle.gq_eval_operand.specs.Meant.{Tells, meant};
ghost use Rattle.gq_eval_operand.specs.Sound.{Sound};
ghost use Rattle.gq_exec_control.specs.Rounds.{all_elements, typed_elements};
ghost use Rattle.gq_exec_control.specs.Values.{rounds_in};

use crate::running::Rounds;
use gq_base::{List, OutOfMemory};
use gq_eval::run;
use gq_eval_operand::{Halt, Seen, Sees};
use gq_plan_ir::Expr;
use gq_value::{BaseType, Kind, Row};
use std::alloc::Global;

/// Returns the elements of the collection that an expression evaluates to, in order; copies, since the body may change
/// it.
#[tactic(auto, using(crate::proofs::ElementLemmas::element_laws))]
pub(crate) fn elements<V: Sees>(expr: &Expr, alloc: Global, sight: &V) -> Result<Rounds, Halt>
    ensures { Tells rounds_in (all_elements (meaning (V.look sight.now) (view expr.now))) result }
{
    let seen = run(expr, alloc, sight)?;
    elements_in(alloc, &seen)
}

#[tactic(auto, using(crate::proofs::ElementLemmas::whole_laws))]
fn elements_in(alloc: Global, seen: &Seen<'_>) -> Result<Rounds, Halt>
    requires { Sound seen.now }
    ensures { Tells rounds_in (elements_of (meant seen.now)) result }
{
    match seen {
        Seen::Whole(kind, content) => with_type(alloc, kind, content.elements(alloc)?),
        Seen::Opening(kind) => with_type(alloc, kind, List::new(alloc)),
        Seen::Value(_, _) | Seen::Average(_) => Err(Halt::Stuck),
        Seen::Row(_, _, _) | Seen::OpeningRow(_) => Err(Halt::Stuck),
        Seen::Edge(_, _) | Seen::Set(_) | Seen::Member(_, _, _) => Err(Halt::Stuck),
    }
}

/// Elements with the type that their kind gives them. A kind without elements is `Stuck`.
#[tactic(auto, using(gq_value::proofs::AccumLemmas::accum_laws, gq_eval_operand::proofs::ConvertLemmas::base_laws))]
fn with_type(alloc: Global, kind: &Kind, row: Row) -> Result<Rounds, Halt>
    ensures { Tells rounds_in (typed_elements (element_type (accum_of kind.now)) (map val row)) result }
{
    match kind {
        Kind::Set(of) | Kind::Bag(of) | Kind::List(of) => {
            Ok(Rounds::Elements(of.duplicate(alloc)?, row))
        }
        Kind::Heap(shape) => {
            let fields = duplicate_types(alloc, shape.fields.as_slice())?;
            Ok(Rounds::Elements(BaseType::Tuple(shape.tuple, fields), row))
        }
        Kind::Sum(_) | Kind::Min(_) | Kind::Max(_) | Kind::Or | Kind::And => Err(Halt::Stuck),
        Kind::BitOr | Kind::BitAnd | Kind::Avg => Err(Halt::Stuck),
        Kind::Map(_, _) | Kind::Group(_) => Err(Halt::Stuck),
    }
}

fn duplicate_types(alloc: Global, types: &[BaseType]) -> Result<List<BaseType>, OutOfMemory>
    ensures { IfOk result (λ copy. copy ≡ types.now) }
{
    let mut copy = List::new(alloc);
    for base in types {
        copy.push(base.duplicate(alloc)?)?;
    }
    Ok(copy)
}
