// PRINT.
ghost use Rattle.std.specs.Prelude.{◌≡◌, map};
ghost use Rattle.gq_rules_meaning.specs.Answers.{each};
ghost use Rattle.gq_rules_meaning.specs.Printing.{printed};
ghost use Rattle.gq_rules_meaning.specs.States.{State};
ghost use Rattle.gq_rules_calendar.specs.Gregorian.{gregorian};
ghost use Rattle.gq_plan_ir.specs.ExprView.{view};
ghost use Rattle.gq_plan_ir.specs.PlanView.{view_item};
ghost use Rattle.gq_plan_ir.specs.Reference.{Reference};
ghost use Rattle.gq_eval_operand.specs.Meant.{itself, Tells};
ghost use Rattle.gq_frame.specs.Names.{alias_of};
ghost use Rattle.gq_frame.specs.Shows.{Shows};
ghost use Rattle.gq_frame.specs.Slots.{slots_are};
ghost use Rattle.gq_eval_context.specs.Viewed.{viewed};
ghost use Rattle.gq_eval_context.specs.Looks.{look_of, world_over};
ghost use Rattle.gq_output.specs.Items.{item_shown, key_in, keyed_shown, value_at};
ghost use Rattle.gq_output.specs.Prints.{Prints};

use crate::columns::columns;
use crate::items::{accums_of, item, put};
use gq_base::List;
use gq_eval_context::BlockContext;
use gq_eval_operand::Halt;
use gq_frame::Alias;
use gq_json::{Members, Out, Printed};
use gq_plan_ir::{Expr, PrintItem};
use gq_value::Txt;
use std::alloc::Global;

/// Returns the output of one PRINT: an object with a member for each item, in order.
///
/// Items are evaluated from left to right, and the first fault counts. What the definitions don't print, such as an edge,
/// ends as stuck.
pub fn print(alloc: Global, items: &[PrintItem], over: &BlockContext<'_>) -> Result<Printed, Halt>
    ensures { (s : State Reference) → Shows over.now.frame s → Prints (each (printed (world_over gregorian over.now) s) (map view_item items.now)) result }
{
    match members_of(items, alloc, over) {
        Ok(members) => Ok(Printed { members }),
        Err(halt) => Err(halt),
    }
}

/// Prints a member for each item, in order.
#[tactic(auto, using(crate::proofs::WholeLemmas::member_laws))]
fn members_of(items: &[PrintItem], alloc: Global, over: &BlockContext<'_>) -> Result<Members, Halt>
    ensures { Tells itself (each (keyed_shown gregorian over.now) items.now) result }
{
    let mut members = List::new(alloc);
    for item in items {
        match value_of(item, alloc, over) {
            Err(halt) => return Err(halt),
            Ok(value) => put(alloc, key_of(item), value, &mut members)?,
        }
    }
    Ok(members)
}

fn key_of(item: &PrintItem) -> &Txt
    ensures { result.now ≡ key_in item.now }
{
    match item {
        PrintItem::Value(_, key) => key,
        PrintItem::Columns(_, _, key) => key,
    }
}

/// Prints the value of an item.
fn value_of(item: &PrintItem, alloc: Global, over: &BlockContext<'_>) -> Result<Out, Halt>
    ensures { Tells itself (value_at gregorian over.now item.now) result }
{
    match item {
        PrintItem::Value(expr, _) => item_under(expr, alloc, over, &[]),
        PrintItem::Columns(place, keyed, _) => columns(keyed.as_slice(), alloc, over, *place),
    }
}

fn item_under(
    expr: &Expr,
    alloc: Global,
    over: &BlockContext<'_>,
    aliases: &[Alias<'_>],
) -> Result<Out, Halt>
    ensures { Tells itself (item_shown (world_over gregorian over.now) (look_of gregorian (viewed over.now (map alias_of aliases.now) over.now.frame.accums over.now.frame.accums)) (slots_are over.now.frame.accums) (view expr.now)) result }
{
    let accums = accums_of(over);
    let sight = over.eval_context(aliases, accums, accums);
    item(expr, alloc, over, &sight)
}
