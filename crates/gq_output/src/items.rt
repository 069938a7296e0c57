// Expressions with their keys.
ghost use Rattle.std.specs.Prelude.{◌≡◌, ◌++◌, ◌∷◌, [], OnOk};
ghost use Rattle.gq_rules_calendar.specs.Gregorian.{gregorian};
ghost use Rattle.gq_plan_ir.specs.ExprView.{view};
ghost use Rattle.gq_eval_operand.specs.Meant.{itself, Tells};
ghost use Rattle.gq_frame.specs.Slots.{AreSound, slots_are};
ghost use Rattle.gq_eval_context.specs.Looks.{world_over};
ghost use Rattle.gq_output.specs.Items.{item_shown, members_shown};

use crate::seen::out_seen;
use gq_base::{List, OutOfMemory};
use gq_eval::run;
use gq_eval_context::BlockContext;
use gq_eval_operand::{Halt, Sees};
use gq_frame::Accums;
use gq_json::{Members, Out};
use gq_plan_ir::Expr;
use gq_value::Txt;
use std::alloc::Global;

/// Prints an expression, evaluated against a context.
#[tactic(auto, using(crate::proofs::ItemLemmas::item_laws))]
pub(crate) fn item<V: Sees>(
    expr: &Expr,
    alloc: Global,
    over: &BlockContext<'_>,
    sight: &V,
) -> Result<Out, Halt>
    ensures { Tells itself (item_shown (world_over gregorian over.now) (V.look sight.now) (slots_are over.now.frame.accums) (view expr.now)) result }
{
    match run(expr, alloc, sight) {
        Err(halt) => Err(halt),
        Ok(seen) => out_seen(alloc, over, seen),
    }
}

/// Prints expressions with their keys, as members in order.
#[tactic(auto, using(crate::proofs::ItemLemmas::member_laws))]
pub(crate) fn members<V: Sees>(
    items: &[(Expr, Txt)],
    alloc: Global,
    over: &BlockContext<'_>,
    sight: &V,
) -> Result<Members, Halt>
    ensures { Tells itself (members_shown (world_over gregorian over.now) (V.look sight.now) (slots_are over.now.frame.accums) items.now) result }
{
    let mut members = List::new(alloc);
    for keyed in items {
        match item(&keyed.0, alloc, over, sight) {
            Err(halt) => return Err(halt),
            Ok(value) => put(alloc, &keyed.1, value, &mut members)?,
        }
    }
    Ok(members)
}

/// Returns the accumulators, none of whose contents is spoiled.
pub(crate) fn accums_of<'a>(over: &BlockContext<'a>) -> &'a Accums
    ensures value { result.now ≡ over.now.frame.accums }
    ensures sound { AreSound result.now }
{
    &over.frame.accums
}

/// Appends a printed value under its key to other members.
pub(crate) fn put(
    alloc: Global,
    key: &Txt,
    value: Out,
    members: &mut Members,
) -> Result<(), OutOfMemory>
    ensures { OnOk result (members.new ≡ members.old ++ (key.now, value) ∷ []) }
{
    let key = Txt::of(alloc, key.as_str())?;
    members.push((key, value))
}
