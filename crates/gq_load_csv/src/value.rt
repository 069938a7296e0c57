// Fields as values of attributes.
ghost use Rattle.std.specs.Prelude.{◌≡◌, ℕ, ℤ, List, Option, Some, IfOk, IfSome};
ghost use Rattle.gq_graph.specs.Defaults.{sort_of};
ghost use Rattle.gq_value.specs.declared.value.Value.TheVariants as variant;
ghost use Rattle.gq_load_csv.specs.Fields as spec;

use crate::numbers::{few_digits, int_in, truth_in, uint_in};
use gq_base::OutOfMemory;
use gq_graph::Attribute;
use gq_time::{read_time, trimmed};
use gq_value::{BaseType, Txt, Value};
use std::alloc::Global;

/// Reads the value of an attribute that isn't a discriminator. None means that the field can't be read.
///
/// A field of only blanks and tabs gives the attribute's default, unless its type is a text. Allocates only for texts.
pub fn read_value(
    alloc: Global,
    attribute: &Attribute,
    field: &[u8],
) -> Result<Option<Value>, OutOfMemory>
    ensures { IfOk result (λ v. (read : List ℕ → Option ℤ) → spec.TellsTimes read → v ≡ spec.field_value read attribute.now field.now) }
{
    if may_be_blank(&attribute.kind) && trimmed(field).is_empty() {
        return Ok(Some(default_value(alloc, attribute)?));
    }
    value_in(alloc, &attribute.kind, field)
}

/// Reads the value of a discriminator, whose field can't be empty. None means that the field can't be read.
pub fn read_key(
    alloc: Global,
    attribute: &Attribute,
    field: &[u8],
) -> Result<Option<Value>, OutOfMemory>
    ensures { IfOk result (λ v. (read : List ℕ → Option ℤ) → spec.TellsTimes read → v ≡ spec.key_value read attribute.now field.now) }
{
    if field.is_empty() {
        return Ok(None);
    }
    value_in(alloc, &attribute.kind, field)
}

/// Reads an INT field of 1 to 18 digits, for a discriminator or another attribute. None says nothing about the field.
#[tactic(auto, using(gq_graph::specs::SortLaws::sort_laws))]
pub fn read_int(attribute: &Attribute, field: &[u8]) -> Option<i64>
    ensures field { IfSome result (λ n. (read : List ℕ → Option ℤ) → spec.field_value read attribute.now field.now ≡ Some (variant.Int n)) }
    ensures key { IfSome result (λ n. (read : List ℕ → Option ℤ) → spec.key_value read attribute.now field.now ≡ Some (variant.Int n)) }
{
    match &attribute.kind {
        BaseType::Int => match few_digits(field) {
            Some(number) => Some(number as i64),
            None => None,
        },
        _ => None,
    }
}

/// Returns the default of an attribute. Allocates only for texts.
pub fn default_value(alloc: Global, attribute: &Attribute) -> Result<Value, OutOfMemory>
    ensures { IfOk result (λ v. v ≡ spec.default_of attribute.now) }
{
    match &attribute.default {
        Some(value) => value.duplicate(alloc),
        None => zero_of(alloc, &attribute.kind),
    }
}

#[tactic(auto, using(gq_graph::specs::SortLaws::sort_laws))]
fn zero_of(alloc: Global, kind: &BaseType) -> Result<Value, OutOfMemory>
    ensures { IfOk result (λ v. v ≡ spec.zero_of (sort_of kind.now)) }
{
    match kind {
        BaseType::Int | BaseType::Time => Ok(Value::Int(0)),
        BaseType::UInt => Ok(Value::UInt(0)),
        BaseType::Bool => Ok(Value::Bool(false)),
        BaseType::Text => Ok(Value::Text(Txt::of(alloc, "")?)),
        BaseType::AnyVertex | BaseType::VertexOf(_) | BaseType::Tuple(_, _) => Ok(Value::Int(0)),
    }
}

#[tactic(auto, using(gq_graph::specs::SortLaws::sort_laws))]
fn may_be_blank(kind: &BaseType) -> bool
    ensures { result ≡ spec.may_be_blank (sort_of kind.now) }
{
    match kind {
        BaseType::Int | BaseType::UInt | BaseType::Bool | BaseType::Time => true,
        BaseType::Text | BaseType::AnyVertex | BaseType::VertexOf(_) | BaseType::Tuple(_, _) =>
            false,
    }
}

/// Reads a field as a value of a type.
#[tactic(auto, using(gq_graph::specs::SortLaws::sort_laws))]
fn value_in(alloc: Global, kind: &BaseType, field: &[u8]) -> Result<Option<Value>, OutOfMemory>
    ensures { IfOk result (λ v. (read : List ℕ → Option ℤ) → spec.TellsTimes read → v ≡ spec.value_in read (sort_of kind.now) field.now) }
{
    match kind {
        BaseType::Int => match int_in(trimmed(field)) {
            Some(number) => Ok(Some(Value::Int(number))),
            None => Ok(None),
        },
        BaseType::UInt => match uint_in(trimmed(field)) {
            Some(number) => Ok(Some(Value::UInt(number))),
            None => Ok(None),
        },
        BaseType::Bool => match truth_in(trimmed(field)) {
            Some(truth) => Ok(Some(Value::Bool(truth))),
            None => Ok(None),
        },
        BaseType::Text => text_in(alloc, field),
        BaseType::Time => Ok(time_in(field)),
        BaseType::AnyVertex | BaseType::VertexOf(_) | BaseType::Tuple(_, _) => Ok(None),
    }
}

fn text_in(alloc: Global, field: &[u8]) -> Result<Option<Value>, OutOfMemory>
    ensures { IfOk result (λ v. v ≡ spec.text_value field.now) }
{
    match str::from_utf8(field) {
        Ok(text) => Ok(Some(Value::Text(Txt::of(alloc, text)?))),
        Err(_) => Ok(None),
    }
}

fn time_in(field: &[u8]) -> Option<Value>
    ensures { (read : List ℕ → Option ℤ) → spec.TellsTimes read → result ≡ spec.time_value read field.now }
{
    match str::from_utf8(field) {
        Ok(text) => match read_time(text) {
            Some(seconds) => Some(Value::Int(seconds)),
            None => None,
        },
        Err(_) => None,
    }
}
