// Operand and result types of operators.
ghost use Rattle.std.specs.Prelude.{◌≡◌};
ghost use Rattle.gq_value.specs.Accums.{UINT, BOOL, STRING, DATETIME};
ghost use Rattle.gq_rules_typing.specs.Types as spec;
ghost use Rattle.gq_rules_typing.specs.ExpressionTypes as forms;
ghost use Rattle.gq_scope.specs.Views.{base_is, typed_is, Judges, on_value};
ghost use Rattle.gq_scope.specs.Views as views;

use crate::rules::{as_base, is_bool, is_number, is_numeric, is_vertex, value};
use gq_scope::{Base, TypeFault, Typed, matched};
use gq_tree::{AddSign, CmpSign};

// ---- numbers and texts

/// The result type of arithmetic: two UINT give UINT, other numbers INT.
pub fn number_of_both<'a>(b: Base<'_>, c: Base<'_>) -> Base<'a>
    ensures { base_is result ≡ spec.number_of_both (base_is b.entry) (base_is c.entry) }
{
    match b {
        Base::UInt => number_with(c),
        Base::Int | Base::Bool | Base::Text | Base::Time => Base::Int,
        Base::AnyVertex | Base::VertexOf(_) | Base::Tuple(_, _) => Base::Int,
    }
}

fn number_with<'a>(c: Base<'_>) -> Base<'a>
    ensures { base_is result ≡ spec.number_of_both UINT (base_is c.entry) }
{
    match c {
        Base::UInt => Base::UInt,
        Base::Int | Base::Bool | Base::Text | Base::Time => Base::Int,
        Base::AnyVertex | Base::VertexOf(_) | Base::Tuple(_, _) => Base::Int,
    }
}

/// The result type for two numbers.
fn calculated<'a>(b: Base<'_>, c: Base<'_>) -> Result<Typed<'a>, TypeFault>
    ensures { Judges typed_is (spec.calculated (base_is b.entry) (base_is c.entry)) result }
{
    matched(is_number(b) && is_number(c))?;
    Ok(Typed::Of(number_of_both(b, c)))
}

/// The result type for two numbers or two texts.
fn added<'a>(b: Base<'_>, c: Base<'_>) -> Result<Typed<'a>, TypeFault>
    ensures { Judges typed_is (spec.added (base_is b.entry) (base_is c.entry)) result }
{
    match b {
        Base::Text => added_to_text(c),
        Base::Int | Base::UInt | Base::Bool | Base::Time => calculated(b, c),
        Base::AnyVertex | Base::VertexOf(_) | Base::Tuple(_, _) => calculated(b, c),
    }
}

fn added_to_text<'a>(c: Base<'_>) -> Result<Typed<'a>, TypeFault>
    ensures { Judges typed_is (spec.added STRING (base_is c.entry)) result }
{
    match c {
        Base::Text => Ok(Typed::Of(Base::Text)),
        Base::Int | Base::UInt | Base::Bool | Base::Time => Err(TypeFault::Mismatch),
        Base::AnyVertex | Base::VertexOf(_) | Base::Tuple(_, _) => Err(TypeFault::Mismatch),
    }
}

/// Types an operation of a product, given the types of both operands.
pub fn multiplied<'a>(x: Typed<'_>, y: Typed<'_>) -> Result<Typed<'a>, TypeFault>
    ensures { Judges typed_is (forms.operated spec.calculated (typed_is x.entry) (typed_is y.entry)) result }
{
    let b = as_base(x)?;
    let c = as_base(y)?;
    calculated(b, c)
}

/// Types an operation of a sum.
pub fn summed<'a>(sign: AddSign, x: Typed<'_>, y: Typed<'_>) -> Result<Typed<'a>, TypeFault>
    ensures { Judges typed_is (forms.operated (forms.summed sign) (typed_is x.entry) (typed_is y.entry)) result }
{
    let b = as_base(x)?;
    let c = as_base(y)?;
    match sign {
        AddSign::Plus => added(b, c),
        AddSign::Minus => calculated(b, c),
    }
}

/// Types `minuses` minus signs before a number; with one or more, the result is an INT.
pub fn negated<'a>(minuses: usize, x: Typed<'a>) -> Result<Typed<'a>, TypeFault>
    ensures { Judges typed_is (on_value (forms.negated minuses) (typed_is x.entry)) result }
{
    let b = as_base(x)?;
    negated_base(minuses, b)
}

fn negated_base(minuses: usize, b: Base<'_>) -> Result<Typed<'_>, TypeFault>
    ensures { Judges typed_is (forms.negated minuses (base_is b.entry)) result }
{
    matched(is_number(b))?;
    if minuses == 0 {
        Ok(Typed::Of(b))
    } else {
        Ok(Typed::Of(Base::Int))
    }
}

// ---- truths

/// Types an operand that must be a BOOL.
pub fn truth<'a>(x: Typed<'_>) -> Result<Typed<'a>, TypeFault>
    ensures { Judges typed_is (on_value forms.a_bool (typed_is x.entry)) result }
{
    let b = as_base(x)?;
    matched(is_bool(b))?;
    Ok(Typed::Of(Base::Bool))
}

/// Types an operation of AND or OR.
pub fn joined<'a>(x: Typed<'_>, y: Typed<'_>) -> Result<Typed<'a>, TypeFault>
    ensures { Judges typed_is (forms.operated forms.both_bool (typed_is x.entry) (typed_is y.entry)) result }
{
    let b = as_base(x)?;
    let c = as_base(y)?;
    matched(is_bool(b) && is_bool(c))?;
    Ok(Typed::Of(Base::Bool))
}

// ---- comparisons

fn is_equality(sign: CmpSign) -> bool
    ensures { result ≡ spec.is_equality sign }
{
    match sign {
        CmpSign::Equal | CmpSign::NotEqual => true,
        CmpSign::Less | CmpSign::LessOrEqual => false,
        CmpSign::Greater | CmpSign::GreaterOrEqual => false,
    }
}

/// Whether two base types can be compared: STRING and DATETIME by every sign; BOOL and vertices only by `==` and `!=`.
fn comparable_bases(sign: CmpSign, b: Base<'_>, c: Base<'_>) -> bool
    ensures { result ≡ spec.comparable_bases sign (base_is b.entry) (base_is c.entry) }
{
    match b {
        Base::Text => text_and(sign, c),
        Base::Time => time_and(sign, c),
        Base::Bool => bool_and(sign, c),
        Base::Int | Base::UInt | Base::AnyVertex => is_equality(sign)
            && (is_vertex(b) && is_vertex(c)),
        Base::VertexOf(_) | Base::Tuple(_, _) => is_equality(sign)
            && (is_vertex(b) && is_vertex(c)),
    }
}

fn text_and(sign: CmpSign, c: Base<'_>) -> bool
    ensures { result ≡ spec.comparable_bases sign STRING (base_is c.entry) }
{
    match c {
        Base::Text => true,
        Base::Int | Base::UInt | Base::Bool | Base::Time => is_equality(sign) && false,
        Base::AnyVertex | Base::VertexOf(_) | Base::Tuple(_, _) => is_equality(sign) && false,
    }
}

fn time_and(sign: CmpSign, c: Base<'_>) -> bool
    ensures { result ≡ spec.comparable_bases sign DATETIME (base_is c.entry) }
{
    match c {
        Base::Time => true,
        Base::Int | Base::UInt | Base::Bool | Base::Text => is_equality(sign) && false,
        Base::AnyVertex | Base::VertexOf(_) | Base::Tuple(_, _) => is_equality(sign) && false,
    }
}

fn bool_and(sign: CmpSign, c: Base<'_>) -> bool
    ensures { result ≡ spec.comparable_bases sign BOOL (base_is c.entry) }
{
    match c {
        Base::Bool => is_equality(sign),
        Base::Int | Base::UInt | Base::Text | Base::Time => is_equality(sign) && false,
        Base::AnyVertex | Base::VertexOf(_) | Base::Tuple(_, _) => is_equality(sign) && false,
    }
}

/// Whether a sign can compare two types: numbers and averages, and what base types allow.
pub fn comparable(sign: CmpSign, x: Typed<'_>, y: Typed<'_>) -> bool
    ensures { result ≡ spec.comparable sign (typed_is x.entry) (typed_is y.entry) }
{
    is_numeric(x) && is_numeric(y) || both_comparable(sign, x, y)
}

fn both_comparable(sign: CmpSign, x: Typed<'_>, y: Typed<'_>) -> bool
    ensures { result ≡ spec.both_comparable sign (spec.as_base (typed_is x.entry)) (spec.as_base (typed_is y.entry)) }
{
    match value(x) {
        None => false,
        Some(b) => match value(y) {
            None => false,
            Some(c) => comparable_bases(sign, b, c),
        },
    }
}

/// Types a comparison.
pub fn compared<'a>(sign: CmpSign, x: Typed<'_>, y: Typed<'_>) -> Result<Typed<'a>, TypeFault>
    ensures { Judges typed_is (views.compared sign (typed_is x.entry) (typed_is y.entry)) result }
{
    matched(comparable(sign, x, y))?;
    Ok(Typed::Of(Base::Bool))
}
