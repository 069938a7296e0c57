// Methods without arguments.
ghost use Rattle.std.specs.Prelude.{◌≡◌, IfOk};
ghost use Rattle.gq_value.specs.Accums.{INT};
ghost use Rattle.gq_value.specs.Val.{Int};
ghost use Rattle.gq_tree.specs.Tree as plain;
ghost use Rattle.gq_rules_typing.specs.Words as words;
ghost use Rattle.gq_rules_meaning.specs.Meanings.{Is};
ghost use Rattle.gq_rules_meaning.specs.Expressions.{meaning_part};
ghost use Rattle.gq_plan_ir.specs.Reference.{Does, Slot};
ghost use Rattle.gq_plan_ir.specs.ExprView.{views, quoted};
ghost use Rattle.gq_eval_operand.specs.Meant.{meant, Tells};
ghost use Rattle.gq_eval_operand.specs.Sound.{Sound};

use crate::methods::size;
use gq_eval_operand::{Halt, Operand, Seen, Sees, Sort, vertex};
use gq_plan_ir::Expr;
use gq_value::{Txt, Value};

/// `size`, which takes no argument.
#[tactic(auto, using(crate::proofs::MethodSteps::size_laws, crate::proofs::ListSteps::size_found))]
pub fn sized<'v, V: Sees>(
    arguments: &'v [Expr],
    sight: &'v V,
    before: &Seen<'v>,
) -> Result<Seen<'v>, Halt>
    requires { Sound before.now }
    ensures told { Tells meant (meaning_part (V.look sight.entry.now) (meant before.entry.now) (plain.Method (Does words.Size) (views arguments.entry.now))) result }
    ensures sound { IfOk result Sound }
{
    match arguments {
        [] => size(before),
        [_, ..] => Err(Halt::Stuck),
    }
}

/// `outdegree`: the number of edges that can be walked from a vertex. `kinds` are the types of the edge type's name.
#[tactic(auto, using(crate::proofs::MethodSteps::degree_laws, gq_value::specs::ViewLaws::view_laws))]
pub fn degree_of<'v, V: Sees>(
    edge: &Option<Txt>,
    kinds: &[u32],
    sight: &'v V,
    before: Seen<'v>,
) -> Result<Seen<'v>, Halt>
    ensures told { Tells meant (meaning_part (V.look sight.entry.now) (meant before.entry) (plain.Method (Does words.Outdegree) (quoted edge.now))) result }
    ensures sound { IfOk result Sound }
{
    let vertex = vertex(&before)?;
    match edge {
        None => Ok(int(sight.degree(vertex))),
        Some(name) => match sight.degree_under(vertex, name.as_str(), kinds) {
            Some(count) => Ok(int(count)),
            None => Err(Halt::Stuck),
        },
    }
}

#[tactic(auto, using(gq_value::specs::ViewLaws::view_laws))]
fn int<'a>(x: i64) -> Seen<'a>
    ensures told { meant result ≡ Is INT (Int x) }
    ensures sound { Sound result }
{
    Seen::Value(Sort::Int, Operand::Made(Value::Int(x)))
}

/// The accumulator of a vertex.
#[tactic(auto, using(crate::proofs::RunLemmas::part_laws))]
pub fn attached<'v, V: Sees>(slot: u32, sight: &'v V, before: Seen<'v>) -> Result<Seen<'v>, Halt>
    ensures told { Tells meant (meaning_part (V.look sight.entry.now) (meant before.entry) (plain.Attached (Slot slot))) result }
    ensures sound { IfOk result Sound }
{
    let vertex = vertex(&before)?;
    sight.attached(slot, vertex)
}

/// The value of a vertex's accumulator before the block.
#[tactic(auto, using(crate::proofs::RunLemmas::part_laws))]
pub fn earlier<'v, V: Sees>(slot: u32, sight: &'v V, before: Seen<'v>) -> Result<Seen<'v>, Halt>
    ensures told { Tells meant (meaning_part (V.look sight.entry.now) (meant before.entry) (plain.Before (Slot slot))) result }
    ensures sound { IfOk result Sound }
{
    let vertex = vertex(&before)?;
    sight.before(slot, vertex)
}
