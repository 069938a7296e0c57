// The printed form of expressions.
ghost use Rattle.std.specs.Prelude.{◌≡◌, IfOk};
ghost use Rattle.gq_value.specs.AccumViews.{accum_of};
ghost use Rattle.gq_value.specs.Views.{val};
ghost use Rattle.gq_accum_laws.specs.After.{fresh};
ghost use Rattle.gq_rules_meaning.specs.Answers.{each};
ghost use Rattle.gq_rules_calendar.specs.Gregorian.{gregorian};
ghost use Rattle.gq_frame.specs.Slots.{slots_are};
ghost use Rattle.gq_eval_operand.specs.Meant.{itself, meant, sort_is, valued, Tells};
ghost use Rattle.gq_eval_operand.specs.Sound.{Sound};
ghost use Rattle.gq_eval_context.specs.Looks.{world_over};
ghost use Rattle.gq_output.specs.Printed.{fresh_shown, meant_shown, value_shown};
ghost use Rattle.gq_output.specs.Vertices.{whole_shown};

use crate::contents::out_content;
use crate::values::out_value;
use crate::vertices::out_whole_vertex;
use gq_base::{List, OutOfMemory};
use gq_eval_context::BlockContext;
use gq_eval_operand::{Halt, Operand, Seen, Sort};
use gq_json::{Out, Outs};
use gq_nest::Content;
use gq_value::{Kind, Txt, Value};
use std::alloc::Global;

/// Prints the result of an expression: a value, an average, a collection or a set. A row of a group, an edge or a vertex
/// of `S[..]` by itself isn't printed.
#[tactic(auto, using(crate::proofs::SeenLemmas::seen_laws))]
pub fn out_seen(alloc: Global, over: &BlockContext<'_>, seen: Seen<'_>) -> Result<Out, Halt>
    requires { Sound seen }
    ensures { Tells itself (meant_shown (world_over gregorian over.now) (slots_are over.now.frame.accums) (meant seen.entry)) result }
{
    match seen {
        Seen::Value(sort, operand) => Ok(out_operand(alloc, over, sort, operand)?),
        Seen::Average(average) => Ok(Out::Fraction(average)),
        Seen::Whole(kind, content) => Ok(out_content(alloc, over, kind, content)?),
        Seen::Opening(kind) => Ok(out_opening(alloc, over, kind)?),
        Seen::Set(vertices) => match out_set(alloc, over, vertices) {
            Ok(outs) => Ok(Out::List(outs)),
            Err(halt) => Err(halt),
        },
        Seen::Row(_, _, _) | Seen::OpeningRow(_) => Err(Halt::Stuck),
        Seen::Edge(_, _) | Seen::Member(_, _, _) => Err(Halt::Stuck),
    }
}

/// Prints a value of a type. A text that was made for this is moved.
#[tactic(auto, using(gq_value::specs::ViewLaws::view_laws, crate::proofs::ValueLemmas::value_laws))]
fn out_operand(
    alloc: Global,
    over: &BlockContext<'_>,
    sort: Sort<'_>,
    operand: Operand<'_>,
) -> Result<Out, OutOfMemory>
    ensures { IfOk result (λ out. out ≡ value_shown (world_over gregorian over.now) (sort_is sort.entry) (valued operand.entry)) }
{
    match operand {
        Operand::Lent(value) => out_value(alloc, over, sort, value),
        Operand::Made(value) => out_made(alloc, over, sort, value),
        Operand::Text(text) => Ok(Out::Text(Txt::of(alloc, text)?)),
        Operand::Joined(text) => Ok(Out::Text(Txt::from_string(text))),
    }
}

#[tactic(auto, using(gq_value::specs::ViewLaws::view_laws, crate::proofs::ValueLemmas::value_laws))]
fn out_made(
    alloc: Global,
    over: &BlockContext<'_>,
    sort: Sort<'_>,
    value: Value,
) -> Result<Out, OutOfMemory>
    ensures { IfOk result (λ out. out ≡ value_shown (world_over gregorian over.now) (sort_is sort.entry) (val value)) }
{
    match value {
        Value::Text(text) => Ok(Out::Text(text)),
        other => out_value(alloc, over, sort, &other),
    }
}

/// Prints a collection before any input.
#[tactic(auto, using(crate::proofs::SeenLemmas::opening_laws))]
fn out_opening(alloc: Global, over: &BlockContext<'_>, kind: &Kind) -> Result<Out, OutOfMemory>
    ensures { IfOk result (λ out. out ≡ fresh_shown (world_over gregorian over.now) (accum_of kind.now)) }
{
    let opening = Content::fresh(alloc, kind)?;
    out_content(alloc, over, kind, &opening)
}

/// Prints whole vertices, in order.
#[tactic(auto, using(crate::proofs::SeenLemmas::set_laws))]
pub fn out_set(alloc: Global, over: &BlockContext<'_>, vertices: &[u32]) -> Result<Outs, Halt>
    ensures { Tells itself (each (whole_shown (world_over gregorian over.now) (slots_are over.now.frame.accums)) vertices.now) result }
{
    let mut outs = List::new(alloc);
    for vertex in vertices {
        match out_whole_vertex(alloc, over, *vertex) {
            Err(halt) => return Err(halt),
            Ok(out) => outs.push(out)?,
        }
    }
    Ok(outs)
}
