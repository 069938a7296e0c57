// Sets with columns.
ghost use Rattle.std.specs.Prelude.{◌≡◌, MatchOption, Some, false, map};
ghost use Rattle.gq_rules_meaning.specs.Answers.{each};
ghost use Rattle.gq_rules_meaning.specs.Statements.{is_set};
ghost use Rattle.gq_rules_meaning.specs.States.{SetOf};
ghost use Rattle.gq_rules_calendar.specs.Gregorian.{gregorian};
ghost use Rattle.gq_eval_operand.specs.Meant.{itself, Tells};
ghost use Rattle.gq_frame.specs.Names.{alias_of, thing_in};
ghost use Rattle.gq_frame.specs.Slots.{slots_are};
ghost use Rattle.gq_eval_context.specs.Viewed.{viewed};
ghost use Rattle.gq_eval_context.specs.Looks.{look_of, world_over};
ghost use Rattle.gq_output.specs.Items.{columns_shown, member_at, member_shown};

use crate::items::{accums_of, members};
use crate::vertices::out_vertex;
use gq_base::List;
use gq_eval_context::BlockContext;
use gq_eval_operand::{Halt, Sees};
use gq_frame::{Alias, Bound, set_at};
use gq_json::{Out, Outs};
use gq_plan_ir::Expr;
use gq_value::Txt;
use std::alloc::Global;

/// Prints the vertices of the set at a place, each with these columns in place of its attributes.
#[tactic(auto, using(crate::proofs::ColumnLemmas::column_laws))]
pub(crate) fn columns(
    columns: &[(Expr, Txt)],
    alloc: Global,
    over: &BlockContext<'_>,
    place: u32,
) -> Result<Out, Halt>
    ensures { Tells itself (columns_shown gregorian over.now columns.now place (thing_in over.now.frame.things place)) result }
{
    match set_of(over, place) {
        None => Err(Halt::Stuck),
        Some((types, set)) => match vertices(columns, alloc, over, place, types, set) {
            Ok(outs) => Ok(Out::List(outs)),
            Err(halt) => Err(halt),
        },
    }
}

/// Returns the types and the vertices of the set at a place, if there is one.
fn set_of<'a>(over: &BlockContext<'a>, place: u32) -> Option<(&'a [u32], &'a [u32])>
    ensures { MatchOption result (is_set (thing_in over.now.frame.things place) ≡ false) (λ set. thing_in over.now.frame.things place ≡ Some (SetOf set.0.now set.1.now)) }
{
    match set_at(over.frame.things.as_slice(), place) {
        None => None,
        Some((types, set)) => Some((types, set.as_slice())),
    }
}

/// Prints the vertices, in the set's order.
#[tactic(auto, using(crate::proofs::ColumnLemmas::vertex_laws))]
fn vertices(
    columns: &[(Expr, Txt)],
    alloc: Global,
    over: &BlockContext<'_>,
    place: u32,
    types: &[u32],
    set: &[u32],
) -> Result<Outs, Halt>
    ensures { Tells itself (each (member_at gregorian over.now columns.now place types.now set.now) set.now) result }
{
    let mut outs = List::new(alloc);
    for vertex in set {
        let alias = Alias {
            place,
            is: Bound::Member(types, set, *vertex),
        };
        match member_under(columns, alloc, over, &[alias], *vertex) {
            Err(halt) => return Err(halt),
            Ok(out) => outs.push(out)?,
        }
    }
    Ok(outs)
}

fn member_under(
    columns: &[(Expr, Txt)],
    alloc: Global,
    over: &BlockContext<'_>,
    aliases: &[Alias<'_>],
    vertex: u32,
) -> Result<Out, Halt>
    ensures { Tells itself (member_shown (world_over gregorian over.now) (look_of gregorian (viewed over.now (map alias_of aliases.now) over.now.frame.accums over.now.frame.accums)) (slots_are over.now.frame.accums) columns.now vertex) result }
{
    let accums = accums_of(over);
    let sight = over.eval_context(aliases, accums, accums);
    member_seen(columns, alloc, over, &sight, vertex)
}

/// Prints a vertex with these columns, evaluated against a context.
#[tactic(auto, using(crate::proofs::ColumnLemmas::member_laws))]
fn member_seen<V: Sees>(
    columns: &[(Expr, Txt)],
    alloc: Global,
    over: &BlockContext<'_>,
    sight: &V,
    vertex: u32,
) -> Result<Out, Halt>
    ensures { Tells itself (member_shown (world_over gregorian over.now) (V.look sight.now) (slots_are over.now.frame.accums) columns.now vertex) result }
{
    match members(columns, alloc, over, sight) {
        Err(halt) => Err(halt),
        Ok(members) => out_vertex(alloc, over, vertex, members),
    }
}
