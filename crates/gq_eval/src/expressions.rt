// Expressions, part by part.
ghost use Rattle.std.specs.Prelude.{◌≡◌, IfOk, [], ◌∷◌, map, Some, None};
ghost use Rattle.gq_value.specs.Accums.{INT};
ghost use Rattle.gq_value.specs.Views.{val};
ghost use Rattle.gq_tree.specs.Tree as plain;
ghost use Rattle.gq_rules_typing.specs.Words as words;
ghost use Rattle.gq_rules_typing.specs.Builtins.{builtin_is};
ghost use Rattle.gq_rules_meaning.specs.Answers.{Gives};
ghost use Rattle.gq_rules_meaning.specs.Meanings.{literal};
ghost use Rattle.gq_rules_meaning.specs.Expressions.{value_of, truth_of, meaning, arguments};
ghost use Rattle.gq_rules_meaning.specs.Expressions.{meaning_parts, meaning_part, meaning_factors, meaning_terms, meaning_all, meaning_any};
ghost use Rattle.gq_plan_ir.specs.Reference.{TupleType, Calls, Does};
ghost use Rattle.gq_plan_ir.specs.ExprView.{view, views, view_behind, view_parts, view_factors, view_terms, function_of, method_of};
ghost use Rattle.gq_eval_operand.specs.Meant.{meant, valued, itself, Tells};
ghost use Rattle.gq_eval_operand.specs.Sound.{Sound};
ghost use Rattle.gq_eval_builtins.specs.Wants.{wants_are};
ghost use Rattle.gq_eval_builtins.specs.Steps.{IsSingle, true_meant, times_meaning, plus_meaning, int_value, spoiled, want_is, wanted_value};
ghost use Rattle.gq_eval.specs.Operations.{IsOperation};

use gq_base::List;
use gq_eval_builtins::{
    Arity, Wants, arity_of, attached, contained, contains, contains_key, datetime_diff, degree_of,
    earlier, get, key_wants, one, sized, units_later,
};
use gq_eval_operand::{
    Halt, Operand, Seen, Sees, Sort, compared, converted, converted_to, minus, nots, own, product,
    summed, truly, truth, value,
};
use gq_plan_ir::{Behind, Expr, Function, Method};
use gq_rules_typing::Builtin;
use gq_tree::{AddSign, MulSign};
use gq_value::{BaseType, Number, Row, Value};
use std::alloc::Global;

/// Evaluates an expression, or returns the first fault in order of text.
#[cycle(eval)]
#[tactic(auto, using(gq_plan_ir::proofs::ViewLaws::view_laws, gq_value::specs::ViewLaws::view_laws, gq_eval_builtins::proofs::RunLemmas::run_laws, gq_eval_builtins::proofs::RunLemmas::cmp_laws, crate::proofs::SoundSteps::minus_sound))]
pub fn run<'v, V: Sees>(expr: &'v Expr, alloc: Global, sight: &'v V) -> Result<Seen<'v>, Halt>
    ensures told { Tells meant (meaning (V.look sight.entry.now) (view expr.entry.now)) result }
    ensures sound { IfOk result Sound }
{
    match expr {
        Expr::Number(n) => Ok(literal(*n)),
        Expr::Text(text) => Ok(Seen::Value(Sort::Text, Operand::Text(text.as_str()))),
        Expr::Truth(truth) => Ok(truly(*truth)),
        Expr::Global(slot) => sight.global(*slot),
        Expr::Name(place) => sight.named(*place),
        Expr::Call(function, arguments) => called(arguments.as_slice(), function, alloc, sight),
        Expr::Post(first, parts) => {
            let x = run(first.get(), alloc, sight)?;
            run_parts(parts.as_slice(), alloc, sight, x)
        }
        Expr::Neg(_, _) => operated(expr, alloc, sight),
        Expr::Mul(_, _) => operated(expr, alloc, sight),
        Expr::Sum(_, _) => operated(expr, alloc, sight),
        Expr::Cmp(_, _, _) => operated(expr, alloc, sight),
        Expr::Not(_, _) => operated(expr, alloc, sight),
        Expr::And(_, _) => operated(expr, alloc, sight),
        Expr::Or(_, _) => operated(expr, alloc, sight),
    }
}

/// Evaluates an operation on operands. A separate function, so that common names and fields don't pay for an operand's
/// stack space.
#[cycle(eval)]
#[tactic(auto, using(gq_plan_ir::proofs::ViewLaws::view_laws, gq_eval_builtins::proofs::RunLemmas::run_laws, gq_eval_builtins::proofs::RunLemmas::cmp_laws, crate::proofs::SoundSteps::minus_sound))]
fn operated<'v, V: Sees>(expr: &'v Expr, alloc: Global, sight: &'v V) -> Result<Seen<'v>, Halt>
    requires { IsOperation (view expr.now) }
    ensures told { Tells meant (meaning (V.look sight.entry.now) (view expr.entry.now)) result }
    ensures sound { IfOk result Sound }
{
    match expr {
        Expr::Neg(count, operand) => {
            let x = run_value(operand.get(), alloc, sight)?;
            minus(*count, x)
        }
        Expr::Mul(first, factors) => {
            let x = run(first.get(), alloc, sight)?;
            run_factors(factors.as_slice(), alloc, sight, x)
        }
        Expr::Sum(first, terms) => {
            let x = run(first.get(), alloc, sight)?;
            run_terms(terms.as_slice(), alloc, sight, x)
        }
        Expr::Cmp(left, sign, right) => {
            let x = run_value(left.get(), alloc, sight)?;
            let y = run_value(right.get(), alloc, sight)?;
            compared(*sign, &x, &y)
        }
        Expr::Not(count, operand) => {
            let truth = run_truth(operand.get(), alloc, sight)?;
            Ok(truly(nots(*count, truth)))
        }
        Expr::And(first, others) => {
            let truth = run_truth(first.get(), alloc, sight)?;
            run_all(others.as_slice(), alloc, sight, truth)
        }
        Expr::Or(first, others) => {
            let truth = run_truth(first.get(), alloc, sight)?;
            run_any(others.as_slice(), alloc, sight, truth)
        }
        Expr::Number(_) => unreachable!(),
        Expr::Text(_) => unreachable!(),
        Expr::Truth(_) => unreachable!(),
        Expr::Global(_) => unreachable!(),
        Expr::Name(_) => unreachable!(),
        Expr::Call(_, _) => unreachable!(),
        Expr::Post(_, _) => unreachable!(),
    }
}

/// A number literal: an INT up to 9223372036854775807, else a UINT.
#[tactic(auto, using(gq_value::specs::ViewLaws::view_laws))]
fn literal<'a>(n: u64) -> Seen<'a>
    ensures told { literal n ≡ Gives (meant result) }
    ensures sound { Sound result }
{
    if n < 9_223_372_036_854_775_808 {
        Seen::Value(Sort::Int, Operand::Made(Value::Int(n as i64)))
    } else {
        Seen::Value(Sort::UInt, Operand::Made(Value::UInt(n)))
    }
}

/// The value of an expression.
#[cycle(eval)]
#[tactic(auto, using(gq_eval_builtins::proofs::RunLemmas::run_laws))]
pub fn run_value<'v, V: Sees>(
    expr: &'v Expr,
    alloc: Global,
    sight: &'v V,
) -> Result<Operand<'v>, Halt>
    ensures { Tells valued (value_of (V.look sight.entry.now) (view expr.entry.now)) result }
{
    let seen = run(expr, alloc, sight)?;
    value(seen)
}

/// The truth value of an expression.
#[cycle(eval)]
#[tactic(auto, using(gq_eval_builtins::proofs::RunLemmas::run_laws))]
pub fn run_truth<V: Sees>(expr: &Expr, alloc: Global, sight: &V) -> Result<bool, Halt>
    ensures { Tells itself (truth_of (V.look sight.now) (view expr.now)) result }
{
    let x = run_value(expr, alloc, sight)?;
    truth(&x)
}

/// Evaluates a product, from the operands before.
#[cycle(eval)]
#[tactic(auto, using(gq_eval_builtins::proofs::RunLemmas::chain_laws))]
fn run_factors<'v, V: Sees>(
    factors: &'v [(MulSign, Expr)],
    alloc: Global,
    sight: &'v V,
    first: Seen<'v>,
) -> Result<Seen<'v>, Halt>
    ensures told { Tells meant (meaning_factors (V.look sight.entry.now) (meant first.entry) (view_factors factors.entry.now)) result }
    ensures sound { Sound first.entry → IfOk result Sound }
{
    let mut x = first;
    for factor in factors {
        x = times(&factor.1, factor.0, alloc, sight, x)?;
    }
    Ok(x)
}

#[cycle(eval)]
#[tactic(auto, using(gq_eval_builtins::proofs::RunLemmas::step_laws, crate::proofs::SoundSteps::sound_laws))]
fn times<'v, V: Sees>(
    factor: &'v Expr,
    sign: MulSign,
    alloc: Global,
    sight: &'v V,
    before: Seen<'v>,
) -> Result<Seen<'v>, Halt>
    ensures told { Tells meant (times_meaning (V.look sight.entry.now) (meant before.entry) sign (view factor.entry.now)) result }
    ensures sound { IfOk result Sound }
{
    let x = value(before)?;
    let y = run_value(factor, alloc, sight)?;
    product(sign, &x, &y)
}

/// Evaluates a sum, from the operands before.
#[cycle(eval)]
#[tactic(auto, using(gq_eval_builtins::proofs::RunLemmas::chain_laws))]
fn run_terms<'v, V: Sees>(
    terms: &'v [(AddSign, Expr)],
    alloc: Global,
    sight: &'v V,
    first: Seen<'v>,
) -> Result<Seen<'v>, Halt>
    ensures told { Tells meant (meaning_terms (V.look sight.entry.now) (meant first.entry) (view_terms terms.entry.now)) result }
    ensures sound { Sound first.entry → IfOk result Sound }
{
    let mut x = first;
    for term in terms {
        x = plus(&term.1, term.0, alloc, sight, x)?;
    }
    Ok(x)
}

#[cycle(eval)]
#[tactic(auto, using(gq_eval_builtins::proofs::RunLemmas::step_laws, crate::proofs::SoundSteps::sound_laws))]
fn plus<'v, V: Sees>(
    term: &'v Expr,
    sign: AddSign,
    alloc: Global,
    sight: &'v V,
    before: Seen<'v>,
) -> Result<Seen<'v>, Halt>
    ensures told { Tells meant (plus_meaning (V.look sight.entry.now) (meant before.entry) sign (view term.entry.now)) result }
    ensures sound { IfOk result Sound }
{
    let x = value(before)?;
    let y = run_value(term, alloc, sight)?;
    summed(alloc, sign, x, &y)
}

/// Evaluates AND, from a truth; the operands after a false one aren't evaluated.
#[cycle(eval)]
#[tactic(auto, using(gq_eval_builtins::proofs::ListSteps::truth_at))]
fn run_all<'v, V: Sees>(
    others: &[Expr],
    alloc: Global,
    sight: &'v V,
    first: bool,
) -> Result<Seen<'v>, Halt>
    ensures told { Tells meant (meaning_all (V.look sight.entry.now) (true_meant first) (views others.now)) result }
    ensures sound { IfOk result Sound }
{
    let mut holds = first;
    for other in others {
        if holds {
            holds = run_truth(other, alloc, sight)?;
        } else {
            return Ok(truly(false));
        }
    }
    Ok(truly(holds))
}

/// Evaluates OR, from a truth; the operands after a true one aren't evaluated.
#[cycle(eval)]
#[tactic(auto, using(gq_eval_builtins::proofs::ListSteps::truth_at))]
fn run_any<'v, V: Sees>(
    others: &[Expr],
    alloc: Global,
    sight: &'v V,
    first: bool,
) -> Result<Seen<'v>, Halt>
    ensures told { Tells meant (meaning_any (V.look sight.entry.now) (true_meant first) (views others.now)) result }
    ensures sound { IfOk result Sound }
{
    let mut holds = first;
    for other in others {
        if holds {
            return Ok(truly(true));
        }
        holds = run_truth(other, alloc, sight)?;
    }
    Ok(truly(holds))
}

/// Evaluates the parts after dots, from the value before them.
#[cycle(eval)]
#[tactic(auto, using(gq_eval_builtins::proofs::RunLemmas::chain_laws))]
fn run_parts<'v, V: Sees>(
    parts: &'v [Behind],
    alloc: Global,
    sight: &'v V,
    first: Seen<'v>,
) -> Result<Seen<'v>, Halt>
    requires { Sound first }
    ensures told { Tells meant (meaning_parts (V.look sight.entry.now) (meant first.entry) (view_parts parts.entry.now)) result }
    ensures sound { IfOk result Sound }
{
    let mut x = first;
    for part in parts {
        x = run_part(part, alloc, sight, x)?;
    }
    Ok(x)
}

#[cycle(eval)]
#[tactic(auto, using(gq_plan_ir::proofs::ViewLaws::view_laws, gq_eval_builtins::proofs::RunLemmas::part_laws))]
fn run_part<'v, V: Sees>(
    part: &'v Behind,
    alloc: Global,
    sight: &'v V,
    before: Seen<'v>,
) -> Result<Seen<'v>, Halt>
    requires { Sound before }
    ensures told { Tells meant (meaning_part (V.look sight.entry.now) (meant before.entry) (view_behind part.entry.now)) result }
    ensures sound { IfOk result Sound }
{
    match part {
        Behind::Field(field) => sight.field(alloc, before, field),
        Behind::Method(method, arguments) => {
            method_called(arguments.as_slice(), *method, alloc, sight, before)
        }
        Behind::Degree(edge, kinds) => degree_of(edge, kinds.as_slice(), sight, before),
        Behind::Attached(slot) => attached(*slot, sight, before),
        Behind::Before(slot) => earlier(*slot, sight, before),
    }
}

/// Arguments from left to right, each converted before the next is evaluated.
#[cycle(eval)]
#[tactic(auto, using(gq_eval_builtins::proofs::RunLemmas::row_laws, gq_eval_builtins::proofs::ListSteps::row_at))]
fn run_row<V: Sees>(exprs: &[Expr], alloc: Global, sight: &V, wants: Wants<'_>) -> Result<Row, Halt>
    ensures { Tells (map val) (arguments (V.look sight.now) (map Some (wants_are wants.entry)) (views exprs.now)) result }
{
    let mut row = List::new(alloc);
    for (place, expr) in exprs.iter().enumerate() {
        match wants.at(place) {
            None => return Err(Halt::Stuck),
            Some(base) => {
                let value = run_value(expr, alloc, sight)?;
                let value = converted(base, value)?;
                row.push(own(alloc, value)?)?;
            }
        }
    }
    Ok(row)
}

// ---- calls

/// Calls a function, or makes a tuple of its arguments.
#[cycle(eval)]
fn called<'v, V: Sees>(
    arguments: &'v [Expr],
    function: &'v Function,
    alloc: Global,
    sight: &'v V,
) -> Result<Seen<'v>, Halt>
    ensures told { Tells meant (meaning (V.look sight.entry.now) (plain.Call (function_of function.entry.now) (views arguments.entry.now))) result }
    ensures sound { IfOk result Sound }
{
    match function {
        Function::Tuple(number, _) => made(arguments, *number, alloc, sight),
        Function::Own(builtin) => match arity_of(*builtin) {
            Arity::One => single(arguments, *builtin, alloc, sight),
            Arity::Two => difference(arguments, alloc, sight),
            Arity::Three => later(arguments, alloc, sight),
        },
    }
}

/// A tuple of a type.
#[cycle(eval)]
#[tactic(auto, using(gq_value::specs::ViewLaws::view_laws, gq_eval_builtins::proofs::CallSteps::made_laws))]
fn made<'v, V: Sees>(
    arguments: &'v [Expr],
    number: u32,
    alloc: Global,
    sight: &'v V,
) -> Result<Seen<'v>, Halt>
    ensures told { Tells meant (meaning (V.look sight.entry.now) (plain.Call (TupleType number) (views arguments.entry.now))) result }
    ensures sound { IfOk result Sound }
{
    match sight.tuple(number) {
        None => Err(Halt::Stuck),
        Some(types) => {
            let row = run_row(arguments, alloc, sight, Wants::Fields(types))?;
            Ok(Seen::Value(Sort::Tuple(number, types), Operand::Made(Value::Tuple(row))))
        }
    }
}

/// A function of one argument.
#[cycle(eval)]
#[tactic(auto, using(gq_eval_builtins::proofs::ListSteps::one_found))]
fn single<'v, V: Sees>(
    arguments: &'v [Expr],
    builtin: Builtin,
    alloc: Global,
    sight: &'v V,
) -> Result<Seen<'v>, Halt>
    requires { IsSingle (Calls (builtin_is builtin)) (builtin_is builtin) }
    ensures told { Tells meant (meaning (V.look sight.entry.now) (plain.Call (Calls (builtin_is builtin)) (views arguments.entry.now))) result }
    ensures sound { IfOk result Sound }
{
    match arguments {
        [argument] => {
            let x = run_value(argument, alloc, sight)?;
            one(alloc, builtin, &x)
        }
        [] => misfit(arguments, alloc, sight, &[None]),
        [_, _, ..] => misfit(arguments, alloc, sight, &[None]),
    }
}

#[cycle(eval)]
#[tactic(auto, using(gq_eval_builtins::proofs::ListSteps::two_found))]
fn difference<'v, V: Sees>(
    arguments: &'v [Expr],
    alloc: Global,
    sight: &'v V,
) -> Result<Seen<'v>, Halt>
    ensures told { Tells meant (meaning (V.look sight.entry.now) (plain.Call (Calls words.DatetimeDiff) (views arguments.entry.now))) result }
    ensures sound { IfOk result Sound }
{
    match arguments {
        [left, right] => {
            let x = run_value(left, alloc, sight)?;
            let y = run_value(right, alloc, sight)?;
            datetime_diff(&x, &y)
        }
        [] => misfit(arguments, alloc, sight, &[None, None]),
        [_] => misfit(arguments, alloc, sight, &[None, None]),
        [_, _, _, ..] => misfit(arguments, alloc, sight, &[None, None]),
    }
}

#[cycle(eval)]
#[tactic(auto, using(gq_eval_builtins::proofs::ListSteps::three_laws))]
fn later<'v, V: Sees>(arguments: &'v [Expr], alloc: Global, sight: &'v V) -> Result<Seen<'v>, Halt>
    ensures told { Tells meant (meaning (V.look sight.entry.now) (plain.Call (Calls words.DatetimeAdd) (views arguments.entry.now))) result }
    ensures sound { IfOk result Sound }
{
    match arguments {
        [time, count, unit] => {
            let x = run_value(time, alloc, sight)?;
            let n = run_int(count, alloc, sight)?;
            let u = run_value(unit, alloc, sight)?;
            units_later(x, n, u)
        }
        [] => misfit_later(arguments, alloc, sight),
        [_] => misfit_later(arguments, alloc, sight),
        [_, _] => misfit_later(arguments, alloc, sight),
        [_, _, _, _, ..] => misfit_later(arguments, alloc, sight),
    }
}

/// A number, as an INT.
#[cycle(eval)]
fn run_int<'v, V: Sees>(expr: &'v Expr, alloc: Global, sight: &'v V) -> Result<Operand<'v>, Halt>
    ensures { Tells valued (int_value (V.look sight.entry.now) (view expr.entry.now)) result }
{
    let n = run_value(expr, alloc, sight)?;
    converted_to(Number::Int, &n)
}

/// Evaluates the arguments of a call that has no result for as many of them. `wants` has the types to which the call
/// converts its arguments.
#[cycle(eval)]
#[tactic(auto, using(gq_eval_builtins::proofs::MisfitLemmas::spoiled_laws))]
fn misfit<'v, V: Sees>(
    arguments: &'v [Expr],
    alloc: Global,
    sight: &'v V,
    wants: &[Option<&BaseType>],
) -> Result<Seen<'v>, Halt>
    ensures told { Tells meant (spoiled (V.look sight.entry.now) (map want_is wants.now) (views arguments.entry.now)) result }
    ensures sound { IfOk result Sound }
{
    for (place, argument) in arguments.iter().enumerate() {
        match wants.get(place) {
            None => return Err(Halt::Stuck),
            Some(want) => {
                let _value = run_wanted(argument, alloc, sight, *want)?;
            }
        }
    }
    Err(Halt::Stuck)
}

/// The same for `datetime_add`, which converts its second argument to an INT.
#[cycle(eval)]
#[tactic(auto, using(gq_eval_operand::proofs::ConvertLemmas::base_laws, crate::proofs::MisfitSteps::int_wanted))]
fn misfit_later<'v, V: Sees>(
    arguments: &'v [Expr],
    alloc: Global,
    sight: &'v V,
) -> Result<Seen<'v>, Halt>
    ensures told { Tells meant (spoiled (V.look sight.entry.now) (None ∷ Some INT ∷ None ∷ []) (views arguments.entry.now)) result }
    ensures sound { IfOk result Sound }
{
    let int = BaseType::Int;
    misfit(arguments, alloc, sight, &[None, Some(&int), None])
}

/// The value of an argument, converted if a type is wanted.
#[cycle(eval)]
#[tactic(auto, using(crate::proofs::SoundSteps::wanted_laws))]
fn run_wanted<'v, V: Sees>(
    expr: &'v Expr,
    alloc: Global,
    sight: &'v V,
    want: Option<&BaseType>,
) -> Result<Operand<'v>, Halt>
    ensures { Tells valued (wanted_value (V.look sight.entry.now) (want_is want.entry) (view expr.entry.now)) result }
{
    let x = run_value(expr, alloc, sight)?;
    match want {
        None => Ok(x),
        Some(base) => converted(base, x),
    }
}

// ---- methods

/// Calls a method on the value before its dot.
#[cycle(eval)]
fn method_called<'v, V: Sees>(
    arguments: &'v [Expr],
    method: Method,
    alloc: Global,
    sight: &'v V,
    before: Seen<'v>,
) -> Result<Seen<'v>, Halt>
    requires { Sound before }
    ensures told { Tells meant (meaning_part (V.look sight.entry.now) (meant before.entry) (plain.Method (Does (method_of method)) (views arguments.entry.now))) result }
    ensures sound { IfOk result Sound }
{
    match method {
        Method::Size => sized(arguments, sight, &before),
        Method::Contains => containing(arguments, alloc, sight, &before),
        Method::ContainsKey => containing_key(arguments, alloc, sight, &before),
        Method::Get => gotten(arguments, alloc, sight, &before),
    }
}

#[cycle(eval)]
#[tactic(auto, using(gq_eval_builtins::proofs::MethodSteps::contains_stuck, gq_eval_builtins::proofs::ListSteps::contains_found, crate::proofs::MisfitSteps::contained_misfits))]
fn containing<'v, V: Sees>(
    arguments: &'v [Expr],
    alloc: Global,
    sight: &'v V,
    before: &Seen<'v>,
) -> Result<Seen<'v>, Halt>
    requires { Sound before.now }
    ensures told { Tells meant (meaning_part (V.look sight.entry.now) (meant before.entry.now) (plain.Method (Does words.Contains) (views arguments.entry.now))) result }
    ensures sound { IfOk result Sound }
{
    match contained(before) {
        None => Err(Halt::Stuck),
        Some(base) => match arguments {
            [argument] => {
                let x = run_value(argument, alloc, sight)?;
                let x = converted(base, x)?;
                contains(alloc, before, &x)
            }
            [] => misfit(arguments, alloc, sight, &[Some(base)]),
            [_, _, ..] => misfit(arguments, alloc, sight, &[Some(base)]),
        },
    }
}

#[cycle(eval)]
#[tactic(auto, using(gq_eval_builtins::proofs::MethodSteps::key_laws))]
fn containing_key<'v, V: Sees>(
    arguments: &'v [Expr],
    alloc: Global,
    sight: &'v V,
    before: &Seen<'v>,
) -> Result<Seen<'v>, Halt>
    requires { Sound before.now }
    ensures told { Tells meant (meaning_part (V.look sight.entry.now) (meant before.entry.now) (plain.Method (Does words.ContainsKey) (views arguments.entry.now))) result }
    ensures sound { IfOk result Sound }
{
    let row = run_row(arguments, alloc, sight, key_wants(before))?;
    contains_key(alloc, before, &row)
}

#[cycle(eval)]
#[tactic(auto, using(gq_eval_builtins::proofs::MethodSteps::key_laws))]
fn gotten<'v, V: Sees>(
    arguments: &'v [Expr],
    alloc: Global,
    sight: &'v V,
    before: &Seen<'v>,
) -> Result<Seen<'v>, Halt>
    requires { Sound before.now }
    ensures told { Tells meant (meaning_part (V.look sight.entry.now) (meant before.entry.now) (plain.Method (Does words.Get) (views arguments.entry.now))) result }
    ensures sound { IfOk result Sound }
{
    let row = run_row(arguments, alloc, sight, key_wants(before))?;
    get(before, row)
}
