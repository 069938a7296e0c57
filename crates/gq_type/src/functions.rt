// The result types of functions.
ghost use Rattle.std.specs.Prelude.{◌≡◌, map, true};
ghost use Rattle.gq_value.specs.AccumViews.{base_of};
ghost use Rattle.std.specs.Option.{option_copied, option_map};
ghost use Rattle.gq_tree.specs.View.{views};
ghost use Rattle.gq_rules_typing.specs.CallTypes as spec;
ghost use Rattle.gq_rules_typing.specs.Builtins.{builtin_is};
ghost use Rattle.gq_scope.specs.Views.{base_is, typed_is, Judges};
ghost use Rattle.gq_type.specs.Calls as calls;
ghost use Rattle.gq_type.specs.Calls.{function_is};

use crate::calls::{CheckedFunction, only};
use crate::rules::{convert_all, is_number};
use gq_rules_typing::{Builtin, unit_named};
use gq_scope::{Base, TupleFieldTypes, TypeFault, Typed, matched, text_of, unknown};
use gq_tree::Node;
use gq_value::{BaseType, Txt};
use std::alloc::Global;

// ---- arguments by their number

/// The type of the single argument, or type mismatch if there isn't exactly one.
fn one<'a>(types: &[Base<'a>]) -> Result<Base<'a>, TypeFault>
    ensures { Judges base_is (calls.one (map base_is types.now)) result }
{
    match only(types) {
        Some(base) => Ok(base),
        None => Err(TypeFault::Mismatch),
    }
}

fn two<'a>(types: &[Base<'a>]) -> Option<(Base<'a>, Base<'a>)>
    ensures { option_map (λ p. (base_is p.0, base_is p.1)) result ≡ calls.pair (map base_is types.now) }
{
    if types.len() == 2 {
        Some((types[0], types[1]))
    } else {
        None
    }
}

fn three<'a>(types: &[Base<'a>]) -> Option<(Base<'a>, Base<'a>, Base<'a>)>
    ensures { option_map (λ p. (base_is p.0, base_is p.1, base_is p.2)) result ≡ calls.triple (map base_is types.now) }
{
    if types.len() == 3 {
        Some((types[0], types[1], types[2]))
    } else {
        None
    }
}

fn is_time(base: Base<'_>) -> bool
    ensures { result ≡ calls.is_time (base_is base.entry) }
{
    match base {
        Base::Time => true,
        Base::Int | Base::UInt | Base::Bool | Base::Text => false,
        Base::AnyVertex | Base::VertexOf(_) | Base::Tuple(_, _) => false,
    }
}

fn is_text(base: Base<'_>) -> bool
    ensures { result ≡ calls.is_text (base_is base.entry) }
{
    match base {
        Base::Text => true,
        Base::Int | Base::UInt | Base::Bool | Base::Time => false,
        Base::AnyVertex | Base::VertexOf(_) | Base::Tuple(_, _) => false,
    }
}

fn has_text(base: Base<'_>) -> bool
    ensures { result ≡ spec.has_text (base_is base.entry) }
{
    match base {
        Base::Text | Base::Bool | Base::Int | Base::UInt => true,
        Base::Time | Base::AnyVertex | Base::VertexOf(_) | Base::Tuple(_, _) => false,
    }
}

// ---- functions

fn made<'s>(
    number: u32,
    fields: &'s [(Txt, BaseType)],
    types: &[Base<'_>],
) -> Result<Typed<'s>, TypeFault>
    ensures { Judges typed_is (calls.made number (map (λ f. base_of f.1) fields.now) (map base_is types.now)) result }
{
    matched(convert_all(types, TupleFieldTypes::Named(fields)))?;
    Ok(Typed::Of(Base::Tuple(number, TupleFieldTypes::Named(fields))))
}

fn absolute<'s>(types: &[Base<'s>]) -> Result<Typed<'s>, TypeFault>
    ensures { Judges typed_is (calls.absolute (map base_is types.now)) result }
{
    let base = one(types)?;
    matched(is_number(base))?;
    Ok(Typed::Of(base))
}

fn said<'s>(types: &[Base<'_>]) -> Result<Typed<'s>, TypeFault>
    ensures { Judges typed_is (calls.said (map base_is types.now)) result }
{
    let base = one(types)?;
    matched(has_text(base))?;
    Ok(Typed::Of(Base::Text))
}

fn time_of_text<'s>(types: &[Base<'_>]) -> Result<Typed<'s>, TypeFault>
    ensures { Judges typed_is (calls.time_of_text (map base_is types.now)) result }
{
    let base = one(types)?;
    matched(is_text(base))?;
    Ok(Typed::Of(Base::Time))
}

fn time_of_number<'s>(types: &[Base<'_>]) -> Result<Typed<'s>, TypeFault>
    ensures { Judges typed_is (calls.time_of_number (map base_is types.now)) result }
{
    let base = one(types)?;
    matched(is_number(base))?;
    Ok(Typed::Of(Base::Time))
}

fn number_of_time<'s>(types: &[Base<'_>]) -> Result<Typed<'s>, TypeFault>
    ensures { Judges typed_is (calls.number_of_time (map base_is types.now)) result }
{
    let base = one(types)?;
    matched(is_time(base))?;
    Ok(Typed::Of(Base::Int))
}

fn difference<'s>(types: &[Base<'_>]) -> Result<Typed<'s>, TypeFault>
    ensures { Judges typed_is (calls.difference (map base_is types.now)) result }
{
    match two(types) {
        None => Err(TypeFault::Mismatch),
        Some((from, to)) => {
            matched(is_time(from) && is_time(to))?;
            Ok(Typed::Of(Base::Int))
        }
    }
}

fn later<'s>(alloc: Global, arguments: &[Node], types: &[Base<'_>]) -> Result<Typed<'s>, TypeFault>
    ensures { Judges typed_is (calls.later (views arguments.now) (map base_is types.now)) result }
{
    match three(types) {
        None => Err(TypeFault::Mismatch),
        Some((from, by, unit)) => {
            matched(is_time(from) && is_text(unit))?;
            matched(is_number(by))?;
            unit_known(alloc, third_text(arguments))
        }
    }
}

/// The third argument, if there are three and it is a text literal.
fn third_text(arguments: &[Node]) -> Option<&str>
    ensures { option_copied result ≡ calls.third_text (views arguments.now) }
{
    if arguments.len() == 3 {
        text_of(&arguments[2])
    } else {
        None
    }
}

fn unit_known<'s>(alloc: Global, unit: Option<&str>) -> Result<Typed<'s>, TypeFault>
    ensures { Judges typed_is (calls.unit_of (option_copied unit.entry)) result }
{
    match unit {
        None => Err(TypeFault::Mismatch),
        Some(unit) => match unit_named(unit) {
            None => Err(unknown(alloc, unit)),
            Some(_) => Ok(Typed::Of(Base::Time)),
        },
    }
}

/// The result type of a function for arguments of these types.
pub(crate) fn function_type<'s>(
    alloc: Global,
    function: CheckedFunction<'s>,
    arguments: &[Node],
    types: &[Base<'s>],
) -> Result<Typed<'s>, TypeFault>
    ensures { Judges typed_is (spec.function_type (function_is function.entry) (views arguments.now) (map base_is types.now)) result }
{
    match function {
        CheckedFunction::Makes(number, fields) => made(number, fields, types),
        CheckedFunction::Own(builtin) => builtin_type(alloc, builtin, arguments, types),
    }
}

/// The result type of a built-in function.
#[tactic(auto, using(crate::proofs::CallLemmas::function_laws))]
fn builtin_type<'s>(
    alloc: Global,
    builtin: Builtin,
    arguments: &[Node],
    types: &[Base<'s>],
) -> Result<Typed<'s>, TypeFault>
    ensures { Judges typed_is (spec.function_type (builtin_is builtin) (views arguments.now) (map base_is types.now)) result }
{
    match builtin {
        Builtin::Abs => absolute(types),
        Builtin::ToString => said(types),
        Builtin::ToDatetime => time_of_text(types),
        Builtin::EpochToDatetime => time_of_number(types),
        Builtin::DatetimeToEpoch | Builtin::Part(_) => number_of_time(types),
        Builtin::DatetimeDiff => difference(types),
        Builtin::DatetimeAdd => later(alloc, arguments, types),
    }
}
