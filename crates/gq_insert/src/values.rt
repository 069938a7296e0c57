// Literals as ids and as values of attributes.
ghost use Rattle.std.specs.Prelude.{◌≡◌, ℕ, ℤ, List, Option, IfOk, IfSome, All, true, length};
ghost use Rattle.std.specs.Fmt.{decimal, signed_decimal};
ghost use Rattle.std.specs.Option.{option_map};
ghost use Rattle.gq_value.specs.Arithmetic.{is_within};
ghost use Rattle.gq_graph.specs.Defaults.{sort_of, DATETIME};
ghost use Rattle.gq_tree.specs.Signed.{signed as signed_number};
ghost use Rattle.gq_value.specs.Views.{val};
ghost use Rattle.gq_value.specs.declared.kind.Number.TheVariants as numbers;
ghost use Rattle.gq_value.specs.declared.value.Value.TheVariants as values;
ghost use Rattle.gq_load_csv.specs.Fields.{TellsTimes};
ghost use Rattle.gq_insert.specs.Fits.{AttributeFits, is_value, row_fits};
ghost use Rattle.gq_insert.specs.Inserts as spec;

use gq_base::{List, OutOfMemory};
use gq_graph::{Attribute, IdKind};
use gq_load_csv::default_value;
use gq_time::read_time;
use gq_tree::{Literal, signed};
use gq_value::{BaseType, Row, Txt, Value};
use std::alloc::Global;

fn int_in(number: i128) -> Option<i64>
    ensures { result ≡ spec.if_fits (is_within numbers.Int number) number }
{
    match i64::try_from(number) {
        Ok(x) => Some(x),
        Err(_) => None,
    }
}

fn int_of(minus: bool, number: u64) -> Option<i64>
    ensures { result ≡ spec.if_fits (is_within numbers.Int (signed_number minus number)) (signed_number minus number) }
{
    int_in(signed(minus, number))
}

fn uint_of(minus: bool, number: u64) -> Option<u64>
    ensures { result ≡ spec.if_fits (is_within numbers.UInt (signed_number minus number)) number }
{
    if minus && number > 0 {
        return None;
    }
    Some(number)
}

fn int_text(alloc: Global, number: i64) -> Result<Txt, OutOfMemory>
    ensures { IfOk result (λ text. text ≡ signed_decimal number) }
{
    Ok(Txt::from_string(format!(in alloc; "{number}")?))
}

fn uint_text(alloc: Global, number: u64) -> Result<Txt, OutOfMemory>
    ensures { IfOk result (λ text. text ≡ decimal number) }
{
    Ok(Txt::from_string(format!(in alloc; "{number}")?))
}

fn number_id(
    alloc: Global,
    kind: IdKind,
    minus: bool,
    number: u64,
) -> Result<Option<Txt>, OutOfMemory>
    ensures { IfOk result (λ id. id ≡ spec.number_id kind minus number) }
{
    match kind {
        IdKind::Int => match int_of(minus, number) {
            Some(number) => Ok(Some(int_text(alloc, number)?)),
            None => Ok(None),
        },
        IdKind::UInt => match uint_of(minus, number) {
            Some(number) => Ok(Some(uint_text(alloc, number)?)),
            None => Ok(None),
        },
        IdKind::Text => Ok(None),
    }
}

fn text_id(alloc: Global, kind: IdKind, text: &str) -> Result<Option<Txt>, OutOfMemory>
    ensures { IfOk result (λ id. id ≡ spec.text_id kind text.now) }
{
    match kind {
        IdKind::Text => Ok(Some(Txt::of(alloc, text)?)),
        IdKind::Int | IdKind::UInt => Ok(None),
    }
}

/// Returns the text of an id, if the literal has this kind.
fn id_text(alloc: Global, kind: IdKind, literal: &Literal) -> Result<Option<Txt>, OutOfMemory>
    ensures { IfOk result (λ id. id ≡ spec.id_text kind literal.now) }
{
    match literal {
        Literal::Number(minus, number) => number_id(alloc, kind, *minus, *number),
        Literal::Text(text) => text_id(alloc, kind, text.as_str()),
        Literal::Truth(_) => Ok(None),
    }
}

#[tactic(auto, using(gq_graph::specs::SortLaws::sort_laws, gq_value::specs::ViewLaws::view_laws))]
fn number_value(kind: &BaseType, minus: bool, number: u64) -> Option<Value>
    ensures value { result ≡ spec.number_value (sort_of kind.now) minus number }
    ensures fits { IfSome result (λ v. is_value (sort_of kind.now) (val v) ≡ true) }
{
    match kind {
        BaseType::Int => match int_of(minus, number) {
            Some(number) => Some(Value::Int(number)),
            None => None,
        },
        BaseType::UInt => match uint_of(minus, number) {
            Some(number) => Some(Value::UInt(number)),
            None => None,
        },
        BaseType::Bool | BaseType::Text | BaseType::AnyVertex | BaseType::Time => None,
        BaseType::VertexOf(_) | BaseType::Tuple(_, _) => None,
    }
}

#[tactic(auto, using(gq_graph::specs::SortLaws::sort_laws, gq_value::specs::ViewLaws::view_laws))]
fn truth_value(kind: &BaseType, truth: bool) -> Option<Value>
    ensures value { result ≡ spec.truth_value (sort_of kind.now) truth }
    ensures fits { IfSome result (λ v. is_value (sort_of kind.now) (val v) ≡ true) }
{
    match kind {
        BaseType::Bool => Some(Value::Bool(truth)),
        BaseType::Int | BaseType::UInt | BaseType::Text | BaseType::AnyVertex => None,
        BaseType::VertexOf(_) | BaseType::Tuple(_, _) | BaseType::Time => None,
    }
}

#[tactic(auto, using(gq_value::specs::ViewLaws::view_laws))]
fn time_value(text: &str) -> Option<Value>
    ensures fits { IfSome result (λ v. is_value DATETIME (val v) ≡ true) }
    ensures value { (read : List ℕ → Option ℤ) → TellsTimes read → result ≡ option_map values.Int (read text.now) }
{
    match read_time(text) {
        Some(seconds) => Some(Value::Int(seconds)),
        None => None,
    }
}

#[tactic(auto, using(gq_graph::specs::SortLaws::sort_laws, gq_value::specs::ViewLaws::view_laws))]
fn text_value(alloc: Global, kind: &BaseType, text: &str) -> Result<Option<Value>, OutOfMemory>
    ensures fits { IfOk result (λ v. IfSome v (λ x. is_value (sort_of kind.now) (val x) ≡ true)) }
    ensures value { (read : List ℕ → Option ℤ) → TellsTimes read → IfOk result (λ v. v ≡ spec.text_value read (sort_of kind.now) text.now) }
{
    match kind {
        BaseType::Text => Ok(Some(Value::Text(Txt::of(alloc, text)?))),
        BaseType::Time => Ok(time_value(text)),
        BaseType::Int | BaseType::UInt | BaseType::Bool | BaseType::AnyVertex => Ok(None),
        BaseType::VertexOf(_) | BaseType::Tuple(_, _) => Ok(None),
    }
}

fn literal_value(
    alloc: Global,
    kind: &BaseType,
    literal: &Literal,
) -> Result<Option<Value>, OutOfMemory>
    ensures fits { IfOk result (λ v. IfSome v (λ x. is_value (sort_of kind.now) (val x) ≡ true)) }
    ensures value { (read : List ℕ → Option ℤ) → TellsTimes read → IfOk result (λ v. v ≡ spec.literal_value read (sort_of kind.now) literal.now) }
{
    match literal {
        Literal::Number(minus, number) => Ok(number_value(kind, *minus, *number)),
        Literal::Text(text) => text_value(alloc, kind, text.as_str()),
        Literal::Truth(truth) => Ok(truth_value(kind, *truth)),
    }
}

fn attribute_value(
    alloc: Global,
    attribute: &Attribute,
    value: &Option<Literal>,
) -> Result<Option<Value>, OutOfMemory>
    requires { AttributeFits attribute.now }
    ensures fits { IfOk result (λ v. IfSome v (λ x. is_value (sort_of attribute.now.kind) (val x) ≡ true)) }
    ensures value { (read : List ℕ → Option ℤ) → TellsTimes read → IfOk result (λ v. v ≡ spec.attribute_value read attribute.now value.now) }
{
    match value {
        Some(literal) => literal_value(alloc, &attribute.kind, literal),
        None => match default_value(alloc, attribute) {
            Ok(value) => Ok(Some(value)),
            Err(memory) => Err(memory),
        },
    }
}

/// Returns the text of an id, or None if it is `_` or the literal isn't of the kind.
pub(crate) fn given_id(
    alloc: Global,
    kind: IdKind,
    value: &Option<Literal>,
) -> Result<Option<Txt>, OutOfMemory>
    ensures { IfOk result (λ id. id ≡ spec.given_id kind value.now) }
{
    match value {
        Some(literal) => id_text(alloc, kind, literal),
        None => Ok(None),
    }
}

/// Returns a value for each attribute, or None if one doesn't have its type.
pub(crate) fn row_of(
    alloc: Global,
    attributes: &[Attribute],
    values: &[Option<Literal>],
) -> Result<Option<Row>, OutOfMemory>
    requires count { length attributes.now ≡ length values.now }
    requires fits { All AttributeFits attributes.now }
    ensures fits { IfOk result (λ row. IfSome row (λ r. row_fits attributes.now r ≡ true)) }
    ensures made { (read : List ℕ → Option ℤ) → TellsTimes read → IfOk result (λ row. row ≡ spec.row_of read attributes.now values.now) }
{
    let mut row = List::new(alloc);
    for place in 0..attributes.len() {
        match attribute_value(alloc, &attributes[place], &values[place])? {
            Some(value) => row.push(value)?,
            None => return Ok(None),
        }
    }
    Ok(Some(row))
}
