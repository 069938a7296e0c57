// Evaluates inputs.
ghost use Rattle.std.specs.Prelude.{◌≡◌, map, Some, IfSome};
ghost use Rattle.gq_value.specs.declared.kind.Number.TheVariants as number;
ghost use Rattle.gq_value.specs.Accums.{One};
ghost use Rattle.gq_value.specs.Val.{Int};
ghost use Rattle.gq_value.specs.Views.{val};
ghost use Rattle.gq_value.specs.AccumViews.{accum_of, given};
ghost use Rattle.gq_rules_typing.specs.Kinds.{part_kinds};
ghost use Rattle.gq_rules_typing.specs.SelectViews.{inputs_of as listed};
ghost use Rattle.gq_rules_meaning.specs.Blocks.{input_of, inputs_of};
ghost use Rattle.gq_plan_ir.specs.BlockView.{view_feed};
ghost use Rattle.gq_rules_meaning.specs.Answers.{Gives};
ghost use Rattle.gq_rules_meaning.specs.Meanings.{value_of_meant};
ghost use Rattle.gq_plan_ir.specs.Reference.{Place};
ghost use Rattle.gq_plan_ir.specs.ExprView.{view, views, view_behind, view_parts, field_of};
ghost use Rattle.gq_rules_meaning.specs.Expressions.{arguments, value_of};
ghost use Rattle.gq_tree.specs.Tree.{Post};
ghost use Rattle.gq_exec_contribute.specs.Feeds.{one_input, inputs_shown, field_value, part_value};
ghost use Rattle.gq_eval_builtins.specs.Wants.{wants_are};
ghost use Rattle.gq_eval_operand.specs.Meant.{Tells, meant, number_to};

use crate::kinds::{Taking, how_taken, part_at};
use gq_base::List;
use gq_eval::run_value;
use gq_eval_builtins::{Wants, keys_wanted};
use gq_eval_operand::{Halt, Operand, Seen, Sees, converted, converted_to, own};
use gq_plan_ir::{Behind, Expr, Feed, Field};
use gq_value::{Input, Inputs, Kind, Number, Row, Value};
use std::alloc::Global;

/// Evaluates an input and converts it to the type that the kind takes. Allocates for texts, tuples and key rows.
#[cycle(feed)]
#[tactic(auto, using(gq_plan_ir::proofs::ViewLaws::step_laws, crate::proofs::InputLemmas::feed_laws))]
pub fn run_feed<V: Sees>(feed: &Feed, kind: &Kind, alloc: Global, sight: &V) -> Result<Input, Halt>
    ensures { Tells given (input_of (V.look sight.now) (accum_of kind.now) (view_feed feed.now)) result }
{
    match feed {
        Feed::One(expr) => run_one(expr, kind, alloc, sight),
        Feed::Keyed(keys, feeds) => {
            let row = run_keys(keys.as_slice(), keys_wanted(kind), alloc, sight)?;
            let inputs = run_parts(feeds.as_slice(), kind, alloc, sight)?;
            Ok(Input::Keyed(row, inputs))
        }
    }
}

/// Evaluates the keys from left to right, and converts each before the next is evaluated.
#[tactic(auto, using(gq_eval_builtins::proofs::RunLemmas::row_laws, gq_eval_builtins::proofs::ListSteps::row_at))]
fn run_keys<V: Sees>(keys: &[Expr], wants: Wants<'_>, alloc: Global, sight: &V) -> Result<Row, Halt>
    ensures { Tells (map val) (arguments (V.look sight.now) (map Some (wants_are wants.entry)) (views keys.now)) result }
{
    let mut row = List::new(alloc);
    for (place, key) in keys.iter().enumerate() {
        match wants.at(place) {
            None => return Err(Halt::Stuck),
            Some(base) => {
                let value = run_value(key, alloc, sight)?;
                let value = converted(base, value)?;
                row.push(own(alloc, value)?)?;
            }
        }
    }
    Ok(row)
}

/// Evaluates and converts one value.
fn run_one<V: Sees>(expr: &Expr, kind: &Kind, alloc: Global, sight: &V) -> Result<Input, Halt>
    ensures { Tells given (one_input (V.look sight.now) (accum_of kind.now) (view expr.now)) result }
{
    match int_taken(expr, kind, alloc, sight) {
        Some(input) => Ok(input),
        None => run_any(expr, kind, alloc, sight),
    }
}

/// Reads an INT attribute of an alias, for a kind that takes INTs. This is by far the most common input. Returns `None`
/// for all others.
#[tactic(auto, using(crate::proofs::InputLemmas::int_given))]
fn int_taken<V: Sees>(expr: &Expr, kind: &Kind, alloc: Global, sight: &V) -> Option<Input>
    ensures { IfSome result (λ input. one_input (V.look sight.now) (accum_of kind.now) (view expr.now) ≡ Gives (given input)) }
{
    match how_taken(kind) {
        Some(Taking::Number(Number::Int)) => match int_in(expr, alloc, sight) {
            Some(x) => Some(int_input(x)),
            None => None,
        },
        Some(Taking::Number(Number::UInt)) | Some(Taking::Itself) | None => None,
    }
}

/// An INT, as an input that needs no conversion.
#[tactic(auto, using(gq_value::specs::ViewLaws::view_laws, crate::proofs::InputLemmas::int_stays, crate::proofs::InputLemmas::one_given))]
fn int_input(x: i64) -> Input
    ensures given { given result ≡ One (Int x) }
    ensures stays { number_to number.Int (Int x) ≡ Gives (Int x) }
{
    Input::One(Value::Int(x))
}

/// Reads an INT attribute of an alias.
#[tactic(auto, using(gq_plan_ir::proofs::ViewLaws::view_laws))]
fn int_in<V: Sees>(expr: &Expr, alloc: Global, sight: &V) -> Option<i64>
    ensures { IfSome result (λ x. value_of (V.look sight.now) (view expr.now) ≡ Gives (Int x)) }
{
    match expr {
        Expr::Post(first, parts) => int_behind(first.get(), parts.as_slice(), alloc, sight),
        _ => None,
    }
}

/// Reads the INT of an expression `name.attribute`.
#[tactic(auto, using(crate::proofs::InputLemmas::part_read))]
fn int_behind<V: Sees>(first: &Expr, parts: &[Behind], alloc: Global, sight: &V) -> Option<i64>
    ensures { IfSome result (λ x. value_of (V.look sight.now) (Post (view first.now) (view_parts parts.now)) ≡ Gives (Int x)) }
{
    match first {
        Expr::Name(place) => match parts {
            [part] => int_part(*place, part, alloc, sight),
            [] | [_, _, ..] => None,
        },
        _ => None,
    }
}

/// Reads the INT of a part of the alias at a place, if the part is a field.
#[tactic(auto, using(crate::proofs::InputLemmas::field_part))]
fn int_part<V: Sees>(place: u32, part: &Behind, alloc: Global, sight: &V) -> Option<i64>
    ensures { IfSome result (λ x. part_value (V.look sight.now) (Place place) (view_behind part.now) ≡ Gives (Int x)) }
{
    match part {
        Behind::Field(field) => int_of(place, field, alloc, sight),
        _ => None,
    }
}

/// Reads an INT attribute of the alias at a place.
#[tactic(auto, using(crate::proofs::InputLemmas::field_goes))]
fn int_of<V: Sees>(place: u32, field: &Field, alloc: Global, sight: &V) -> Option<i64>
    ensures { IfSome result (λ x. field_value (V.look sight.now) (Place place) (field_of field.now) ≡ Gives (Int x)) }
{
    match sight.named(place) {
        Ok(alias) => match sight.field(alloc, alias, field) {
            Ok(seen) => int_seen(&seen),
            Err(_) => None,
        },
        Err(_) => None,
    }
}

/// The INT, if it is one.
#[tactic(auto, using(gq_value::specs::ViewLaws::view_laws))]
pub(crate) fn int_seen(seen: &Seen<'_>) -> Option<i64>
    ensures { IfSome result (λ x. value_of_meant (meant seen.now) ≡ Gives (Int x)) }
{
    match seen {
        Seen::Value(_, Operand::Lent(Value::Int(x))) => Some(*x),
        Seen::Value(_, Operand::Made(Value::Int(x))) => Some(*x),
        _ => None,
    }
}

/// Evaluates and converts one value of any type.
#[tactic(auto, using(crate::proofs::InputLemmas::one_laws))]
fn run_any<V: Sees>(expr: &Expr, kind: &Kind, alloc: Global, sight: &V) -> Result<Input, Halt>
    ensures { Tells given (one_input (V.look sight.now) (accum_of kind.now) (view expr.now)) result }
{
    match how_taken(kind) {
        None => Err(Halt::Stuck),
        Some(Taking::Itself) => {
            let value = run_value(expr, alloc, sight)?;
            Ok(Input::One(own(alloc, value)?))
        }
        Some(Taking::Number(number)) => {
            let value = run_value(expr, alloc, sight)?;
            let value = converted_to(number, &value)?;
            Ok(Input::One(own(alloc, value)?))
        }
    }
}

/// Evaluates an input for each part of a map or a group.
#[cycle(feed)]
#[tactic(auto, using(crate::proofs::InputLemmas::parts_laws))]
fn run_parts<V: Sees>(feeds: &[Feed], kind: &Kind, alloc: Global, sight: &V) -> Result<Inputs, Halt>
    ensures { Tells inputs_shown (inputs_of (V.look sight.now) (part_kinds (accum_of kind.now)) (listed (map view_feed feeds.now))) result }
{
    let mut inputs = List::new(alloc);
    for (place, feed) in feeds.iter().enumerate() {
        match part_at(kind, place) {
            None => return Err(Halt::Stuck),
            Some(part) => inputs.push(run_feed(feed, part, alloc, sight)?)?,
        }
    }
    match part_at(kind, feeds.len()) {
        None => Ok(inputs),
        Some(_) => Err(Halt::Stuck),
    }
}
