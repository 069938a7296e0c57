// Whole collections as values of expressions.
ghost use Rattle.std.specs.Prelude.{IfOk, IfErr};
ghost use Rattle.gq_plan_ir.specs.ExprView.{view};
ghost use Rattle.gq_rules_meaning.specs.Answers.{Gives};
ghost use Rattle.gq_rules_meaning.specs.Expressions.{meaning};
ghost use Rattle.gq_eval_operand.specs.Meant.{meant, Halts};
ghost use Rattle.gq_eval_operand.specs.Sound.{Sound};
ghost use Rattle.gq_eval.specs.Typed.{IsTyped, IsContentOf, HasContent, whole_of_meant, whole_meaning};

use crate::expressions::run;
use gq_eval_operand::{Halt, Seen, Sees};
use gq_nest::Content;
use gq_plan_ir::Expr;
use std::alloc::Global;

/// A duplicate of the whole collection that an expression denotes, or the first fault in order of text. The content at
/// a key that isn't held is the opening. An expression that isn't a collection is stuck.
#[tactic(auto, using(crate::proofs::TypedLemmas::whole_laws))]
pub fn eval_whole<V: Sees>(alloc: Global, expr: &Expr, sight: &V) -> Result<Content, Halt>
    ensures content { IfOk result (IsContentOf (meaning (V.look sight.now) (view expr.now))) }
    ensures typed { (known : IsTyped (V.look sight.now) (view expr.now)) → IfOk result (HasContent (V.look sight.now).world known.type) }
    ensures halt { IfErr result (Halts (whole_meaning (V.look sight.now) (view expr.now))) }
{
    let seen = run(expr, alloc, sight)?;
    collection(alloc, &seen)
}

/// A duplicate of a whole collection.
#[tactic(auto, using(crate::proofs::TypedLemmas::content_laws))]
fn collection(alloc: Global, seen: &Seen<'_>) -> Result<Content, Halt>
    requires { Sound seen.now }
    ensures content { IfOk result (IsContentOf (Gives (meant seen.now))) }
    ensures halt { IfErr result (Halts (whole_of_meant (meant seen.now))) }
{
    match seen {
        Seen::Whole(_, content) => Ok(content.duplicate(alloc)?),
        Seen::Opening(kind) => Ok(Content::fresh(alloc, kind)?),
        Seen::Value(_, _) | Seen::Average(_) => Err(Halt::Stuck),
        Seen::Row(_, _, _) | Seen::OpeningRow(_) => Err(Halt::Stuck),
        Seen::Edge(_, _) | Seen::Set(_) | Seen::Member(_, _, _) => Err(Halt::Stuck),
    }
}
