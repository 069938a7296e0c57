// Reads inputs made of INTs or a truth.
ghost use Rattle.std.specs.Prelude.{◌≡◌, [], true, map, slice_get};
ghost use Rattle.std.specs.Option.{option_copied};
ghost use Rattle.gq_tree.specs.Tree as tree;
ghost use Rattle.gq_rules_calendar.specs.Gregorian.{gregorian};
ghost use Rattle.gq_rules_typing.specs.Selecting.{Keys, Plain};
ghost use Rattle.gq_rules_typing.specs.SelectViews.{inputs_of};
ghost use Rattle.gq_plan_ir.specs.ExprView.{view, views};
ghost use Rattle.gq_plan_ir.specs.BlockView.{view_feed};
ghost use Rattle.gq_plan_ir.specs.Reference as reference;
ghost use Rattle.gq_exec_contribute.specs.declared.cells.Taken.TheVariants as taken;
ghost use Rattle.gq_exec_contribute.specs.Prepared.{AddsKey, AddsKeys, AddsPart, AddsParts, AreIn, HasInts, IsFed, IsTuple, sees_in};
ghost use Rattle.gq_exec_contribute.specs.Scalars.{ints_of};

use crate::cells::Taken;
use crate::ints::int;
use crate::leaves::Leaves;
use crate::rows::Ints;
use crate::scalars::ScalarInput;
use crate::takes::are_ints;
use crate::truths::truth;
use gq_eval_attributes::TupleType;
use gq_eval_context::BlockContext;
use gq_frame::Accums;
use gq_graph::Candidate;
use gq_plan_ir::{Expr, Feed, Function};
use std::alloc::Global;

/// Reads an input for a kind that takes such inputs. Returns false if it can't be read; `input` is then unspecified.
#[tactic(auto, using(gq_plan_ir::proofs::ViewLaws::step_laws))]
pub(crate) fn read(
    feed: &Feed,
    alloc: Global,
    over: &BlockContext<'_>,
    leaves: &Leaves<'_>,
    accums: &Accums,
    c: &Candidate,
    takes: Taken,
    input: &mut ScalarInput,
) -> bool
    requires { AreIn accums.now leaves.now }
    ensures { result ≡ true → IsFed (sees_in gregorian over.now leaves.now accums.now c.now) (view_feed feed.now) takes input.new }
{
    match feed {
        Feed::One(expr) => read_one(expr, alloc, over, leaves, accums, c, takes, input),
        Feed::Keyed(keys, parts) => match takes {
            Taken::Keyed(count, part_count) => read_keyed(
                keys.as_slice(),
                parts.as_slice(),
                alloc,
                over,
                leaves,
                accums,
                c,
                count,
                part_count,
                input,
            ),
            _ => false,
        },
    }
}

/// Reads an input of one value for a kind that takes such inputs.
#[tactic(auto, using(crate::proofs::FedLemmas::one_laws))]
fn read_one(
    expr: &Expr,
    alloc: Global,
    over: &BlockContext<'_>,
    leaves: &Leaves<'_>,
    accums: &Accums,
    c: &Candidate,
    takes: Taken,
    input: &mut ScalarInput,
) -> bool
    requires { AreIn accums.now leaves.now }
    ensures { result ≡ true → IsFed (sees_in gregorian over.now leaves.now accums.now c.now) (Plain (view expr.now)) takes input.new }
{
    match takes {
        Taken::Int => match int(expr, alloc, over, leaves, accums, c) {
            Some(x) => {
                *input = ScalarInput::Int(x);
                true
            }
            None => false,
        },
        Taken::Element => match int(expr, alloc, over, leaves, accums, c) {
            Some(x) => {
                *input = ScalarInput::Element(x);
                true
            }
            None => false,
        },
        Taken::Truth => match truth(expr, alloc, over, leaves, accums, c) {
            Some(x) => {
                *input = ScalarInput::Truth(x);
                true
            }
            None => false,
        },
        Taken::Tuple(count) => read_tuple(expr, alloc, over, leaves, accums, c, count, input),
        Taken::Keyed(_, _) | Taken::Other => false,
    }
}

/// Reads an input of `count` INT keys and `part_count` INT parts.
fn read_keyed(
    keys: &[Expr],
    parts: &[Feed],
    alloc: Global,
    over: &BlockContext<'_>,
    leaves: &Leaves<'_>,
    accums: &Accums,
    c: &Candidate,
    count: usize,
    part_count: usize,
    input: &mut ScalarInput,
) -> bool
    requires { AreIn accums.now leaves.now }
    ensures { result ≡ true → IsFed (sees_in gregorian over.now leaves.now accums.now c.now) (Keys (views keys.now) (inputs_of (map view_feed parts.now))) (taken.Keyed count part_count) input.new }
{
    if keys.len() != count {
        return false;
    }
    if parts.len() != part_count {
        return false;
    }
    let mut row = Ints::none();
    if !add_keys(keys, alloc, over, leaves, accums, c, &mut row) {
        return false;
    }
    if !add_parts(parts, alloc, over, leaves, accums, c, &mut row) {
        return false;
    }
    *input = ScalarInput::Keyed(count, row);
    true
}

/// Appends the values of expressions to a row, if all are INTs and there is room.
#[tactic(auto, using(crate::proofs::RowLemmas::adds_laws))]
fn add_keys(
    keys: &[Expr],
    alloc: Global,
    over: &BlockContext<'_>,
    leaves: &Leaves<'_>,
    accums: &Accums,
    c: &Candidate,
    row: &mut Ints,
) -> bool
    requires { AreIn accums.now leaves.now }
    ensures { result ≡ true → AddsKeys (sees_in gregorian over.now leaves.now accums.now c.now) keys.now row.old row.new }
{
    for key in keys {
        if !add_key(key, alloc, over, leaves, accums, c, row) {
            return false;
        }
    }
    true
}

/// Appends the value of an expression to a row, if it is an INT and there is room.
#[tactic(auto, using(crate::proofs::RowLemmas::key_laws))]
fn add_key(
    key: &Expr,
    alloc: Global,
    over: &BlockContext<'_>,
    leaves: &Leaves<'_>,
    accums: &Accums,
    c: &Candidate,
    row: &mut Ints,
) -> bool
    requires { AreIn accums.now leaves.now }
    ensures { result ≡ true → AddsKey (sees_in gregorian over.now leaves.now accums.now c.now) (view key.now) row.old row.new }
{
    match int(key, alloc, over, leaves, accums, c) {
        Some(x) => row.push(x),
        None => false,
    }
}

/// Appends the inputs of parts to a row, if all are INTs and there is room.
#[tactic(auto, using(crate::proofs::RowLemmas::adds_laws))]
fn add_parts(
    parts: &[Feed],
    alloc: Global,
    over: &BlockContext<'_>,
    leaves: &Leaves<'_>,
    accums: &Accums,
    c: &Candidate,
    row: &mut Ints,
) -> bool
    requires { AreIn accums.now leaves.now }
    ensures { result ≡ true → AddsParts (sees_in gregorian over.now leaves.now accums.now c.now) parts.now row.old row.new }
{
    for part in parts {
        if !add_part(part, alloc, over, leaves, accums, c, row) {
            return false;
        }
    }
    true
}

/// Appends the input of a part to a row, if it is an INT and there is room.
#[tactic(auto, using(crate::proofs::RowLemmas::part_laws))]
fn add_part(
    part: &Feed,
    alloc: Global,
    over: &BlockContext<'_>,
    leaves: &Leaves<'_>,
    accums: &Accums,
    c: &Candidate,
    row: &mut Ints,
) -> bool
    requires { AreIn accums.now leaves.now }
    ensures { result ≡ true → AddsPart (sees_in gregorian over.now leaves.now accums.now c.now) part.now row.old row.new }
{
    match part {
        Feed::One(expr) => add_key(expr, alloc, over, leaves, accums, c, row),
        Feed::Keyed(_, _) => false,
    }
}

/// Reads an input of a tuple of `count` INTs.
#[tactic(auto, using(crate::proofs::FedLemmas::one_laws))]
fn read_tuple(
    expr: &Expr,
    alloc: Global,
    over: &BlockContext<'_>,
    leaves: &Leaves<'_>,
    accums: &Accums,
    c: &Candidate,
    count: usize,
    input: &mut ScalarInput,
) -> bool
    requires { AreIn accums.now leaves.now }
    ensures { result ≡ true → IsFed (sees_in gregorian over.now leaves.now accums.now c.now) (Plain (view expr.now)) (taken.Tuple count) input.new }
{
    let mut row = Ints::none();
    if !add_tuple(expr, alloc, over, leaves, accums, c, count, &mut row) {
        return false;
    }
    *input = ScalarInput::Tuple(row);
    true
}

/// Appends the fields of a tuple expression of `count` INTs to an empty row.
#[tactic(auto, using(gq_plan_ir::proofs::ViewLaws::view_laws))]
fn add_tuple(
    expr: &Expr,
    alloc: Global,
    over: &BlockContext<'_>,
    leaves: &Leaves<'_>,
    accums: &Accums,
    c: &Candidate,
    count: usize,
    row: &mut Ints,
) -> bool
    requires sees { AreIn accums.now leaves.now }
    requires empty { ints_of row.old ≡ [] }
    ensures { result ≡ true → IsTuple (sees_in gregorian over.now leaves.now accums.now c.now) (view expr.now) count row.new }
{
    match expr {
        Expr::Call(function, fields) => match function {
            Function::Tuple(number, _) => add_fields(
                fields.as_slice(),
                alloc,
                over,
                leaves,
                accums,
                c,
                *number,
                count,
                row,
            ),
            Function::Own(_) => false,
        },
        _ => false,
    }
}

/// Appends the fields of a tuple of a type to an empty row, if they are `count` INTs.
fn add_fields(
    fields: &[Expr],
    alloc: Global,
    over: &BlockContext<'_>,
    leaves: &Leaves<'_>,
    accums: &Accums,
    c: &Candidate,
    number: u32,
    count: usize,
    row: &mut Ints,
) -> bool
    requires sees { AreIn accums.now leaves.now }
    requires empty { ints_of row.old ≡ [] }
    ensures { result ≡ true → IsTuple (sees_in gregorian over.now leaves.now accums.now c.now) (tree.Call (reference.TupleType number) (views fields.now)) count row.new }
{
    if fields.len() != count || !is_of_ints(over, number, count) {
        return false;
    }
    add_keys(fields, alloc, over, leaves, accums, c, row)
}

/// Whether a tuple type has `count` fields, all of type INT.
fn is_of_ints(over: &BlockContext<'_>, number: u32, count: usize) -> bool
    ensures { result ≡ true → HasInts over.now number count }
{
    match tuple_type(over.tuples, number) {
        None => false,
        Some(of) => of.types.len() == count && are_ints(of.types.as_slice()),
    }
}

/// A tuple type by its number, if there is one.
fn tuple_type(tuples: &[TupleType], number: u32) -> Option<&TupleType>
    ensures { slice_get tuples.now number ≡ option_copied result }
{
    tuples.get(number as usize)
}
